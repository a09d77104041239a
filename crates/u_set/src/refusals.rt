// How boxes are refused, and how such a refusal is told of the rows of a relation.
ghost use Rattle.std.specs.Prelude.{◌≡◌, ◌↔◌, ◌<◌, ◌≤◌, length, Err, IfOk};
ghost use Rattle.point_core.specs.declared.fault.Fault.{Fault as AnyFault};
ghost use Rattle.value_core.specs.declared.refuse.RowsRefuse.TheVariants.{TooMany};
ghost use Rattle.cell_core.specs.declared.boxes.CellRefuse.TheVariants.{Op as OfOp, Limit as OfLimit};

use cell_core::{BoxRow, CellRefuse};
use point_core::PointType;
use value_core::{Row, RowsRefuse};

/// Too many boxes are too many rows. What is refused for a fault is not told so.
pub fn refusal(refuse: CellRefuse) -> RowsRefuse
    requires no_fault { (e : AnyFault) → refuse ≡ OfOp e → ⊥ }
    ensures { result ≡ TooMany ↔ refuse ≡ OfLimit }
{
    match refuse {
        CellRefuse::Limit => RowsRefuse::TooMany,
        CellRefuse::Memory => RowsRefuse::Memory,
        CellRefuse::Op(_) => unreachable!(),
    }
}

/// The boxes, where they are no more than the limit.
pub fn in_limit<T: PointType>(
    form: Vec<BoxRow<T, Row>>,
    limit: usize,
) -> Result<Vec<BoxRow<T, Row>>, CellRefuse>
    ensures same { IfOk result (λ v. v.items ≡ form.items) }
    ensures few { IfOk result (λ v. length v.items ≤ limit) }
    ensures no_fault { (e : AnyFault) → result ≡ Err (OfOp e) → ⊥ }
    ensures limit { result ≡ Err OfLimit → limit < length form.items }
{
    if form.len() > limit {
        return Err(CellRefuse::Limit);
    }
    Ok(form)
}
