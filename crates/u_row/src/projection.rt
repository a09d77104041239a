// Projection of a relation point by point.
ghost use Rattle.std.specs.Prelude.{◌≡◌, ℕ, ◌+◌, ◌<◌, ◌≤◌, map, length, Err, IfOk, IfSome, IsTrue, MatchResult};
ghost use Rattle.std.specs.List.{All};
ghost use Rattle.std.specs.Ordering.{nat_cmp};
ghost use Rattle.point_core.specs.declared.fault.Fault.{Fault as AnyFault};
ghost use Rattle.base_core.specs.Sets.{is_set};
ghost use Rattle.point_core.specs.Points.{number, IsPointOf};
ghost use Rattle.cell_packing.specs.Boxed.{packed_boxes, unpacked_boxes};
ghost use Rattle.value_core.specs.RowPacking.{packed, unpacked};
ghost use Rattle.value_core.specs.Values.{IsRelation, row_cmp, most_rows};
ghost use Rattle.relation_core.specs.Agreement.{part_of};
ghost use Rattle.relation_core.specs.Answers.{IsAnswer, IsRefusal};
ghost use Rattle.relation_core.specs.Parts.{attributes_at, projected};
ghost use Rattle.cell_core.specs.Boxes.{IsBox};
ghost use Rattle.cell_core.specs.Cells.{row_numbers};
ghost use Rattle.cell_core.specs.Costs.{bound};
ghost use Rattle.cell_core.specs.declared.boxes.CellRefuse.TheVariants.{Op as OfOp, Limit as OfLimit};
ghost use Rattle.u_set.specs.Boxes.{AreIntervals, types_at, boxed};
ghost use Rattle.u_row.specs.Kept.{inner, beneath};
ghost use Rattle.u_row.specs.Labels.{relabelled};

use crate::places::{beneath, inner};
use crate::project::projected_boxes;
use cell_core::{BoxRow, CellRefuse};
use point_core::{AnyType, Memory, Steps};
use relation_core::part;
use std::alloc::Global;
use std::sync::ledger::Ledger;
use u_set::{coalesced, from_boxes, refusal, to_boxes, types_at};
use value_core::{Heading, MOST_ROWS, Relation, Row, RowsRefuse};

// The packed boxes of the relation under the parts of their labels.
fn projected_form<L: Ledger>(
    alloc: Global,
    r: &Relation,
    commalist: &[usize],
    kept: &[usize],
    steps: &mut Steps<L>,
) -> Result<Vec<BoxRow<AnyType, Row>>, CellRefuse>
    requires intervals { AreIntervals r.now.heading commalist.now }
    requires within { All (λ (i : ℕ). i < length r.now.heading) kept.now }
    ensures relation { IsRelation r.now }
    ensures rows { IfOk result (λ v. map (row_numbers number) v.items ≡ packed_boxes row_cmp (length commalist.now)
        (map (relabelled (part_of (inner commalist.now kept.now))) (unpacked_boxes row_cmp (length commalist.now) (map (boxed commalist.now) r.now.rows)))) }
    ensures boxes { IfOk result (λ v. All (λ b. IsBox IsPointOf (types_at r.now.heading commalist.now) b.1) v.items) }
    ensures no_fault { (e : AnyFault) → result ≡ Err (OfOp e) → ⊥ }
    ensures limit { result ≡ Err OfLimit → most_rows < length (packed_boxes row_cmp (length commalist.now)
        (map (relabelled (part_of (inner commalist.now kept.now))) (unpacked_boxes row_cmp (length commalist.now) (map (boxed commalist.now) r.now.rows)))) }
    ensures cost { steps.new ≤ steps.old + bound (length r.now.rows) (length commalist.now) }
{
    let types = types_at(alloc, r.heading().attributes(), commalist)?;
    let boxes = to_boxes(alloc, r, commalist)?;
    let places = inner(alloc, commalist, kept)?;
    projected_boxes(
        alloc,
        types.as_slice(),
        boxes,
        places.as_slice(),
        MOST_ROWS,
        steps,
    )
}

// The projection under USING, by the boxes of all rows.
fn projected_by_boxes<L: Ledger>(
    alloc: Global,
    heading: &Heading,
    commalist: &[usize],
    kept: &[usize],
    r: &Relation,
    steps: &mut Steps<L>,
) -> Result<Relation, RowsRefuse>
    requires ascending { IsTrue (is_set nat_cmp kept.now) }
    requires within { All (λ (i : ℕ). i < length r.now.heading) kept.now }
    requires heading { heading.now ≡ attributes_at kept.now r.now.heading }
    requires intervals { AreIntervals heading.now commalist.now }
    ensures rows { let rows = packed commalist.now (projected kept.now (unpacked (beneath kept.now commalist.now) r.now.rows)) in
        MatchResult result (IsAnswer heading.now rows) (IsRefusal rows) }
    ensures cost { steps.new ≤ steps.old + bound (length r.now.rows) (length commalist.now) }
{
    let listed = beneath(alloc, kept, commalist)?;
    let whole = heading.copy(alloc)?;
    match projected_form(alloc, r, listed.as_slice(), kept, steps) {
        Ok(form) => from_boxes(alloc, whole, commalist, form),
        Err(refuse) => Err(refusal(refuse)),
    }
}

// The parts of all rows at the positions. The same part comes for each row that has it.
fn all_parts(alloc: Global, r: &Relation, positions: &[usize]) -> Result<Vec<Row>, Memory>
    requires { All (λ (i : ℕ). i < length r.now.heading) positions.now }
    ensures parts { IfOk result (λ list. list.items ≡ map (part_of positions.now) r.now.rows) }
    ensures relation { IsRelation r.now }
{
    let rows = r.rows();
    let mut list = Vec::with_capacity(alloc, rows.len())?;
    for row in rows {
        list.push(part(alloc, row, positions)?)?;
    }
    Ok(list)
}

// The projection under USING of a single attribute, without boxes. There is none where the parts could not be brought in order.
fn projected_on_one(
    alloc: Global,
    heading: &Heading,
    commalist: &[usize],
    kept: &[usize],
    r: &Relation,
) -> Result<Option<Relation>, RowsRefuse>
    requires ascending { IsTrue (is_set nat_cmp kept.now) }
    requires within { All (λ (i : ℕ). i < length r.now.heading) kept.now }
    requires heading { heading.now ≡ attributes_at kept.now r.now.heading }
    requires intervals { AreIntervals heading.now commalist.now }
    ensures { let rows = packed commalist.now (projected kept.now (unpacked (beneath kept.now commalist.now) r.now.rows)) in
        MatchResult result (λ o. IfSome o (IsAnswer heading.now rows)) (IsRefusal rows) }
{
    if commalist.len() != 1 {
        return Ok(None);
    }
    let whole = heading.copy(alloc)?;
    let parts = all_parts(alloc, r, kept)?;
    coalesced(alloc, whole, commalist[0], parts)
}

/// The parts of a relation's rows at the kept positions, which ascend, under USING of the attributes at positions of the heading of
/// these parts: the rows, unpacked on these attributes, are cut to their parts, and these are packed.
///
/// Under USING of a single attribute the parts of the rows themselves are joined. Else the sweep goes over their boxes.
pub fn projected<L: Ledger>(
    alloc: Global,
    heading: &Heading,
    commalist: &[usize],
    kept: &[usize],
    r: &Relation,
    steps: &mut Steps<L>,
) -> Result<Relation, RowsRefuse>
    requires ascending { IsTrue (is_set nat_cmp kept.now) }
    requires within { All (λ (i : ℕ). i < length r.now.heading) kept.now }
    requires heading { heading.now ≡ attributes_at kept.now r.now.heading }
    requires intervals { AreIntervals heading.now commalist.now }
    ensures rows { let rows = packed commalist.now (projected kept.now (unpacked (beneath kept.now commalist.now) r.now.rows)) in
        MatchResult result (IsAnswer heading.now rows) (IsRefusal rows) }
    ensures cost { steps.new ≤ steps.old + bound (length r.now.rows) (length commalist.now) }
{
    match projected_on_one(alloc, heading, commalist, kept, r)? {
        Some(relation) => Ok(relation),
        None => projected_by_boxes(alloc, heading, commalist, kept, r, steps),
    }
}
