// PACK and UNPACK of a relation.
ghost use Rattle.std.specs.Prelude.{◌≡◌, ◌≤◌, ◌<◌, ◌+◌, map, length, Err, IfOk, IfSome, MatchResult};
ghost use Rattle.std.specs.List.{All};
ghost use Rattle.point_core.specs.declared.fault.Fault.{Fault as AnyFault};
ghost use Rattle.point_core.specs.Points.{number, IsPointOf};
ghost use Rattle.cell_packing.specs.Boxed.{packed_boxes, unpacked_boxes};
ghost use Rattle.value_core.specs.RowPacking.{packed, unpacked};
ghost use Rattle.value_core.specs.Values.{row_cmp, most_rows};
ghost use Rattle.relation_core.specs.Answers.{IsAnswer, IsRefusal};
ghost use Rattle.cell_core.specs.Boxes.{IsBox};
ghost use Rattle.cell_core.specs.Cells.{row_numbers};
ghost use Rattle.cell_core.specs.Costs.{bound};
ghost use Rattle.cell_core.specs.declared.boxes.CellRefuse.TheVariants.{Op as OfOp, Limit as OfLimit};
ghost use Rattle.u_set.specs.Boxes.{AreIntervals, types_at, boxed};

use crate::boxes::to_boxes;
use crate::coalescing::{coalesced, push_copies};
use crate::positions::types_at;
use crate::refusals::refusal;
use crate::rows::from_boxes;
use cell_core::{BoxRow, CellRefuse, pack, unpack};
use point_core::{AnyType, Steps};
use std::alloc::Global;
use std::sync::ledger::Ledger;
use value_core::{MOST_ROWS, Relation, Row, RowsRefuse};

// The packed boxes of the relation.
fn packed_form<L: Ledger>(
    alloc: Global,
    r: &Relation,
    commalist: &[usize],
    steps: &mut Steps<L>,
) -> Result<Vec<BoxRow<AnyType, Row>>, CellRefuse>
    requires { AreIntervals r.now.heading commalist.now }
    ensures rows { IfOk result (λ v. map (row_numbers number) v.items ≡ packed_boxes row_cmp (length commalist.now) (map (boxed commalist.now) r.now.rows)) }
    ensures boxes { IfOk result (λ v. All (λ b. IsBox IsPointOf (types_at r.now.heading commalist.now) b.1) v.items) }
    ensures no_fault { (e : AnyFault) → result ≡ Err (OfOp e) → ⊥ }
    ensures limit { result ≡ Err OfLimit → most_rows < length (packed_boxes row_cmp (length commalist.now) (map (boxed commalist.now) r.now.rows)) }
    ensures cost { steps.new ≤ steps.old + bound (length r.now.rows) (length commalist.now) }
{
    let types = types_at(alloc, r.heading().attributes(), commalist)?;
    let boxes = to_boxes(alloc, r, commalist)?;
    pack(alloc, types.as_slice(), boxes, MOST_ROWS, steps)
}

// The unpacked boxes of the relation.
fn unpacked_form<L: Ledger>(
    alloc: Global,
    r: &Relation,
    commalist: &[usize],
    steps: &mut Steps<L>,
) -> Result<Vec<BoxRow<AnyType, Row>>, CellRefuse>
    requires { AreIntervals r.now.heading commalist.now }
    ensures rows { IfOk result (λ v. map (row_numbers number) v.items ≡ unpacked_boxes row_cmp (length commalist.now) (map (boxed commalist.now) r.now.rows)) }
    ensures boxes { IfOk result (λ v. All (λ b. IsBox IsPointOf (types_at r.now.heading commalist.now) b.1) v.items) }
    ensures no_fault { (e : AnyFault) → result ≡ Err (OfOp e) → ⊥ }
    ensures limit { result ≡ Err OfLimit → most_rows < length (unpacked_boxes row_cmp (length commalist.now) (map (boxed commalist.now) r.now.rows)) }
    ensures cost { steps.new ≤ steps.old + bound (length r.now.rows) (length commalist.now) }
{
    let types = types_at(alloc, r.heading().attributes(), commalist)?;
    let boxes = to_boxes(alloc, r, commalist)?;
    unpack(alloc, types.as_slice(), boxes, MOST_ROWS, steps)
}

// The packed rows of the relation, by the boxes of its rows.
fn packed_by_boxes<L: Ledger>(
    alloc: Global,
    r: &Relation,
    commalist: &[usize],
    steps: &mut Steps<L>,
) -> Result<Relation, RowsRefuse>
    requires { AreIntervals r.now.heading commalist.now }
    ensures rows { MatchResult result (IsAnswer r.now.heading (packed commalist.now r.now.rows)) (IsRefusal (packed commalist.now r.now.rows)) }
    ensures cost { steps.new ≤ steps.old + bound (length r.now.rows) (length commalist.now) }
{
    let heading = r.heading().copy(alloc)?;
    match packed_form(alloc, r, commalist, steps) {
        Ok(form) => from_boxes(alloc, heading, commalist, form),
        Err(refuse) => Err(refusal(refuse)),
    }
}

// The packed rows of the relation where a single attribute is listed, without boxes. There are none where the rows could not be brought
// in order.
fn packed_on_one(
    alloc: Global,
    r: &Relation,
    commalist: &[usize],
) -> Result<Option<Relation>, RowsRefuse>
    requires { AreIntervals r.now.heading commalist.now }
    ensures { MatchResult result (λ o. IfSome o (IsAnswer r.now.heading (packed commalist.now r.now.rows))) (IsRefusal (packed commalist.now r.now.rows)) }
{
    if commalist.len() != 1 {
        return Ok(None);
    }
    let heading = r.heading().copy(alloc)?;
    let own = r.rows();
    let mut rows = Vec::with_capacity(alloc, own.len())?;
    push_copies(alloc, &mut rows, own)?;
    coalesced(alloc, heading, commalist[0], rows)
}

/// The rows of the relation packed on the attributes at the positions: unpacked on all of them, then packed on the first, on the
/// second, and so on.
///
/// On a single attribute the rows themselves are joined. On more the sweep goes over their boxes.
pub fn packed<L: Ledger>(
    alloc: Global,
    r: &Relation,
    commalist: &[usize],
    steps: &mut Steps<L>,
) -> Result<Relation, RowsRefuse>
    requires { AreIntervals r.now.heading commalist.now }
    ensures rows { MatchResult result (IsAnswer r.now.heading (packed commalist.now r.now.rows)) (IsRefusal (packed commalist.now r.now.rows)) }
    ensures cost { steps.new ≤ steps.old + bound (length r.now.rows) (length commalist.now) }
{
    match packed_on_one(alloc, r, commalist)? {
        Some(relation) => Ok(relation),
        None => packed_by_boxes(alloc, r, commalist, steps),
    }
}

/// The rows of the relation unpacked on the attributes at the positions: a row of single points for each row and each point of each of
/// its intervals there.
pub fn unpacked<L: Ledger>(
    alloc: Global,
    r: &Relation,
    commalist: &[usize],
    steps: &mut Steps<L>,
) -> Result<Relation, RowsRefuse>
    requires { AreIntervals r.now.heading commalist.now }
    ensures rows { MatchResult result (IsAnswer r.now.heading (unpacked commalist.now r.now.rows)) (IsRefusal (unpacked commalist.now r.now.rows)) }
    ensures cost { steps.new ≤ steps.old + bound (length r.now.rows) (length commalist.now) }
{
    let heading = r.heading().copy(alloc)?;
    match unpacked_form(alloc, r, commalist, steps) {
        Ok(form) => from_boxes(alloc, heading, commalist, form),
        Err(refuse) => Err(refusal(refuse)),
    }
}
