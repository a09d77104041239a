// Operands, packed before their rows are paired.
ghost use Rattle.std.specs.Prelude.{◌≡◌, ◌≤◌, ◌∷◌, [], length, IfOk, IfSome};
ghost use Rattle.value_core.specs.RowPacking.{packed};
ghost use Rattle.value_core.specs.Values.{IsRelation, most_rows};
ghost use Rattle.u_set.specs.Boxes.{AreIntervals};

use point_core::{Label, Memory};
use std::alloc::Global;
use u_set::coalesced;
use value_core::{Relation, Row, RowsRefuse};

// Copies of the rows.
fn copies(alloc: Global, rows: &[Row]) -> Result<Vec<Row>, Memory>
    ensures { IfOk result (λ v. v.items ≡ rows.now) }
{
    let mut list = Vec::with_capacity(alloc, rows.len())?;
    for row in rows {
        let own = row.copy(alloc)?;
        list.push(own)?;
    }
    Ok(list)
}

/// A copy of the relation, packed on the attribute at the position. There is none where its rows are not seen to be packed.
pub(crate) fn packed_copy(
    alloc: Global,
    r: &Relation,
    at: usize,
) -> Result<Option<Relation>, Memory>
    requires { AreIntervals r.now.heading (at ∷ []) }
    ensures relation { IsRelation r.now }
    ensures few { IfOk result (λ o. IfSome o (λ q. length q.rows ≤ most_rows)) }
    ensures packed { IfOk result (λ o. IfSome o (λ q. (q.heading ≡ r.now.heading) × (q.rows ≡ packed (at ∷ []) r.now.rows))) }
{
    let ours = r.rows();
    let heading = r.heading().copy(alloc)?;
    let rows = copies(alloc, ours)?;
    match coalesced(alloc, heading, at, rows) {
        Ok(answer) => Ok(answer),
        Err(RowsRefuse::TooMany) => Ok(None),
        Err(RowsRefuse::Memory) => Err(Memory),
    }
}
