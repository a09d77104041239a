// The packed form of labelled boxes.
ghost use Rattle.std.specs.Prelude.{◌≡◌, ◌+◌, ◌*◌, ◌<◌, ◌≤◌, map, length, Err, IfOk};
ghost use Rattle.std.specs.List.{All};
ghost use Rattle.cell_packing.specs.Boxed.{packed_boxes};
ghost use Rattle.point_core.specs.declared.fault.Fault.{Fault as AnyFault};
ghost use Rattle.cell_core.specs.Boxes.{IsBox};
ghost use Rattle.cell_core.specs.Cells.{row_numbers};
ghost use Rattle.cell_core.specs.Costs.{bound, side_cost};
ghost use Rattle.cell_core.specs.declared.boxes.CellRefuse.TheVariants.{Op as OfOp, Limit as OfLimit};

use crate::boxes::{BoxRow, CellRefuse};
use crate::keys::push_moved_keys;
use crate::row_sides::numbered;
use crate::whole::back;
use cell_sweep::pack_arranged;
use point_core::{Label, Memory, PointType, Steps};
use presort::Numbers;
use std::alloc::Global;
use std::sync::ledger::Ledger;

// The packed form of the rows.
pub fn packed_rows<T: PointType, P: Label + Numbers, L: Ledger>(
    alloc: Global,
    types: &[T],
    rows: Vec<BoxRow<T, P>>,
    steps: &mut Steps<L>,
) -> Result<Vec<BoxRow<T, P>>, Memory>
    requires { All (λ r. IsBox T.IsPoint types.now r.1) rows.items }
    ensures rows { IfOk result (λ v. map (row_numbers T.number_of) v.items ≡
        packed_boxes P.order (length types.now) (map (row_numbers T.number_of) rows.items)) }
    ensures boxes { IfOk result (λ v. All (λ r. IsBox T.IsPoint types.now r.1) v.items) }
    ensures cost { steps.new ≤ steps.old + bound (length rows.items) (length types.now) }
    ensures numbering { steps.new ≤ steps.old + length types.now * side_cost (length rows.items) }
{
    let none: Vec<BoxRow<T, P>> = Vec::new(alloc);
    let sides = numbered(alloc, types, rows.as_slice(), none.as_slice(), steps)?;
    let mut own = Vec::new(alloc);
    push_moved_keys(alloc, &mut own, rows, 0, sides.as_slice())?;
    let form = pack_arranged(alloc, types.len(), own)?;
    let answer = back(alloc, types, sides.as_slice(), form)?;
    Ok(answer)
}

/// The packed form of the rows as a set: unpacked on all sides, then packed on the first side, on the second, and so
/// on; in the order of labels and then of sides.
///
/// `Limit` comes exactly where the packed rows are more than `limit`. The numbering of the sides alone takes steps.
pub fn pack<T: PointType, P: Label + Numbers, L: Ledger>(
    alloc: Global,
    types: &[T],
    rows: Vec<BoxRow<T, P>>,
    limit: usize,
    steps: &mut Steps<L>,
) -> Result<Vec<BoxRow<T, P>>, CellRefuse>
    requires rows { All (λ r. IsBox T.IsPoint types.now r.1) rows.items }
    ensures rows { IfOk result (λ v. map (row_numbers T.number_of) v.items ≡
        packed_boxes P.order (length types.now) (map (row_numbers T.number_of) rows.items)) }
    ensures boxes { IfOk result (λ v. All (λ r. IsBox T.IsPoint types.now r.1) v.items) }
    ensures few { IfOk result (λ v. length v.items ≤ limit) }
    ensures no_fault { (e : AnyFault) → result ≡ Err (OfOp e) → ⊥ }
    ensures limit { result ≡ Err OfLimit → limit < length (packed_boxes P.order (length types.now) (map (row_numbers
        T.number_of) rows.items)) }
    ensures cost { steps.new ≤ steps.old + bound (length rows.items) (length types.now) }
    ensures numbering { steps.new ≤ steps.old + length types.now * side_cost (length rows.items) }
{
    let answer = packed_rows(alloc, types, rows, steps)?;
    if answer.len() > limit {
        return Err(CellRefuse::Limit);
    }
    Ok(answer)
}
