// Matches of two relations point by point.
ghost use Rattle.std.specs.Prelude.{◌≡◌, ◌+◌, ◌<◌, ◌≤◌, map, length, Err, IfOk, MatchResult};
ghost use Rattle.std.specs.List.{All};
ghost use Rattle.point_core.specs.declared.fault.Fault.{Fault as AnyFault};
ghost use Rattle.point_core.specs.Points.{number, IsPointOf};
ghost use Rattle.cell_packing.specs.Boxed.{packed_boxes, unpacked_boxes};
ghost use Rattle.value_core.specs.RowPacking.{packed, unpacked};
ghost use Rattle.value_core.specs.Values.{IsRelation, row_cmp, most_rows};
ghost use Rattle.relation_core.specs.Agreement.{common_positions, matched, unmatched};
ghost use Rattle.relation_core.specs.Answers.{IsAnswer, IsRefusal};
ghost use Rattle.relation_core.specs.Joins.{HaveEqualKinds};
ghost use Rattle.relation_core.specs.Parts.{attributes_at};
ghost use Rattle.cell_core.specs.Boxes.{IsBox};
ghost use Rattle.cell_core.specs.Cells.{row_numbers};
ghost use Rattle.cell_core.specs.Costs.{bound};
ghost use Rattle.cell_core.specs.declared.boxes.CellRefuse.TheVariants.{Op as OfOp, Limit as OfLimit};
ghost use Rattle.u_set.specs.Boxes.{AreIntervals, types_at, boxed};
ghost use Rattle.u_row.specs.Kept.{inner};
ghost use Rattle.u_join.specs.Pairs.{matched_boxes, unmatched_boxes};

use crate::matching::{matched_in_limit, unmatched_in_limit};
use crate::places::key_pairs;
use crate::row_matches::matched_by_rows;
use crate::row_unmatched::unmatched_by_rows;
use cell_core::{BoxRow, CellRefuse};
use point_core::{AnyType, Steps};
use std::alloc::Global;
use std::sync::ledger::Ledger;
use u_set::{from_boxes, refusal, to_boxes, types_at};
use value_core::{MOST_ROWS, Relation, Row, RowsRefuse};

// The packed boxes of the left rows that agree with a right one.
fn matching_boxes<L: Ledger>(
    alloc: Global,
    left: &Relation,
    right: &Relation,
    here: &[usize],
    there: &[usize],
    steps: &mut Steps<L>,
) -> Result<Vec<BoxRow<AnyType, Row>>, CellRefuse>
    requires same { attributes_at here.now left.now.heading ≡ attributes_at there.now right.now.heading }
    requires left { AreIntervals left.now.heading here.now }
    requires right { AreIntervals right.now.heading there.now }
    ensures left_relation { IsRelation left.now }
    ensures right_relation { IsRelation right.now }
    ensures rows { IfOk result (λ v. map (row_numbers number) v.items ≡ packed_boxes row_cmp (length here.now) (matched_boxes
        (inner here.now (common_positions left.now.heading left.now.heading right.now.heading))
        (inner there.now (common_positions right.now.heading left.now.heading right.now.heading))
        (unpacked_boxes row_cmp (length here.now) (map (boxed here.now) left.now.rows))
        (unpacked_boxes row_cmp (length here.now) (map (boxed there.now) right.now.rows)))) }
    ensures boxes { IfOk result (λ v. All (λ b. IsBox IsPointOf (types_at left.now.heading here.now) b.1) v.items) }
    ensures no_fault { (e : AnyFault) → result ≡ Err (OfOp e) → ⊥ }
    ensures limit { result ≡ Err OfLimit → most_rows < length (packed_boxes row_cmp (length here.now) (matched_boxes
        (inner here.now (common_positions left.now.heading left.now.heading right.now.heading))
        (inner there.now (common_positions right.now.heading left.now.heading right.now.heading))
        (unpacked_boxes row_cmp (length here.now) (map (boxed here.now) left.now.rows))
        (unpacked_boxes row_cmp (length here.now) (map (boxed there.now) right.now.rows)))) }
    ensures cost { steps.new ≤ steps.old + bound (length left.now.rows + length right.now.rows) (length here.now) }
{
    let ours = left.heading().attributes();
    let theirs = right.heading().attributes();
    let types = types_at(alloc, ours, here)?;
    let l = to_boxes(alloc, left, here)?;
    let r = to_boxes(alloc, right, there)?;
    let shared = key_pairs(alloc, ours, theirs, here, there)?;
    matched_in_limit(
        alloc,
        types.as_slice(),
        l,
        r,
        shared.as_slice(),
        MOST_ROWS,
        steps,
    )
}

// The packed boxes of the left rows that agree with no right one.
fn not_matching_boxes<L: Ledger>(
    alloc: Global,
    left: &Relation,
    right: &Relation,
    here: &[usize],
    there: &[usize],
    steps: &mut Steps<L>,
) -> Result<Vec<BoxRow<AnyType, Row>>, CellRefuse>
    requires same { attributes_at here.now left.now.heading ≡ attributes_at there.now right.now.heading }
    requires left { AreIntervals left.now.heading here.now }
    requires right { AreIntervals right.now.heading there.now }
    ensures left_relation { IsRelation left.now }
    ensures right_relation { IsRelation right.now }
    ensures rows { IfOk result (λ v. map (row_numbers number) v.items ≡ packed_boxes row_cmp (length here.now) (unmatched_boxes
        (inner here.now (common_positions left.now.heading left.now.heading right.now.heading))
        (inner there.now (common_positions right.now.heading left.now.heading right.now.heading))
        (unpacked_boxes row_cmp (length here.now) (map (boxed here.now) left.now.rows))
        (unpacked_boxes row_cmp (length here.now) (map (boxed there.now) right.now.rows)))) }
    ensures boxes { IfOk result (λ v. All (λ b. IsBox IsPointOf (types_at left.now.heading here.now) b.1) v.items) }
    ensures no_fault { (e : AnyFault) → result ≡ Err (OfOp e) → ⊥ }
    ensures limit { result ≡ Err OfLimit → most_rows < length (packed_boxes row_cmp (length here.now) (unmatched_boxes
        (inner here.now (common_positions left.now.heading left.now.heading right.now.heading))
        (inner there.now (common_positions right.now.heading left.now.heading right.now.heading))
        (unpacked_boxes row_cmp (length here.now) (map (boxed here.now) left.now.rows))
        (unpacked_boxes row_cmp (length here.now) (map (boxed there.now) right.now.rows)))) }
    ensures cost { steps.new ≤ steps.old + bound (length left.now.rows + length right.now.rows) (length here.now) }
{
    let ours = left.heading().attributes();
    let theirs = right.heading().attributes();
    let types = types_at(alloc, ours, here)?;
    let l = to_boxes(alloc, left, here)?;
    let r = to_boxes(alloc, right, there)?;
    let shared = key_pairs(alloc, ours, theirs, here, there)?;
    unmatched_in_limit(
        alloc,
        types.as_slice(),
        l,
        r,
        shared.as_slice(),
        MOST_ROWS,
        steps,
    )
}

// The same as a relation.
fn matched_by_boxes<L: Ledger>(
    alloc: Global,
    left: &Relation,
    right: &Relation,
    here: &[usize],
    there: &[usize],
    steps: &mut Steps<L>,
) -> Result<Relation, RowsRefuse>
    requires kinds { HaveEqualKinds left.now.heading right.now.heading }
    requires same { attributes_at here.now left.now.heading ≡ attributes_at there.now right.now.heading }
    requires left { AreIntervals left.now.heading here.now }
    requires right { AreIntervals right.now.heading there.now }
    ensures rows { let rows = packed here.now (matched left.now.heading right.now.heading (unpacked here.now left.now.rows) (unpacked there.now right.now.rows)) in
        MatchResult result (IsAnswer left.now.heading rows) (IsRefusal rows) }
    ensures cost { steps.new ≤ steps.old + bound (length left.now.rows + length right.now.rows) (length here.now) }
{
    let heading = left.heading().copy(alloc)?;
    match matching_boxes(alloc, left, right, here, there, steps) {
        Ok(form) => from_boxes(alloc, heading, here, form),
        Err(refuse) => Err(refusal(refuse)),
    }
}

// The same of those that agree with none.
fn unmatched_by_boxes<L: Ledger>(
    alloc: Global,
    left: &Relation,
    right: &Relation,
    here: &[usize],
    there: &[usize],
    steps: &mut Steps<L>,
) -> Result<Relation, RowsRefuse>
    requires kinds { HaveEqualKinds left.now.heading right.now.heading }
    requires same { attributes_at here.now left.now.heading ≡ attributes_at there.now right.now.heading }
    requires left { AreIntervals left.now.heading here.now }
    requires right { AreIntervals right.now.heading there.now }
    ensures rows { let rows = packed here.now (unmatched left.now.heading right.now.heading (unpacked here.now left.now.rows) (unpacked there.now right.now.rows)) in
        MatchResult result (IsAnswer left.now.heading rows) (IsRefusal rows) }
    ensures cost { steps.new ≤ steps.old + bound (length left.now.rows + length right.now.rows) (length here.now) }
{
    let heading = left.heading().copy(alloc)?;
    match not_matching_boxes(alloc, left, right, here, there, steps) {
        Ok(form) => from_boxes(alloc, heading, here, form),
        Err(refuse) => Err(refusal(refuse)),
    }
}

/// MATCHING under USING of the attributes that stand at these positions of both headings: of the left rows those that agree with a right
/// one, both unpacked, are packed.
pub fn matched<L: Ledger>(
    alloc: Global,
    left: &Relation,
    right: &Relation,
    here: &[usize],
    there: &[usize],
    steps: &mut Steps<L>,
) -> Result<Relation, RowsRefuse>
    requires kinds { HaveEqualKinds left.now.heading right.now.heading }
    requires same { attributes_at here.now left.now.heading ≡ attributes_at there.now right.now.heading }
    requires left { AreIntervals left.now.heading here.now }
    requires right { AreIntervals right.now.heading there.now }
    ensures rows { let rows = packed here.now (matched left.now.heading right.now.heading (unpacked here.now left.now.rows) (unpacked there.now right.now.rows)) in
        MatchResult result (IsAnswer left.now.heading rows) (IsRefusal rows) }
    ensures cost { steps.new ≤ steps.old + bound (length left.now.rows + length right.now.rows) (length here.now) }
{
    if here.len() == 0 {
        return relation_core::matching(alloc, left, right);
    }
    match matched_by_rows(alloc, left, right, here, there) {
        Ok(Some(answer)) => Ok(answer),
        Ok(None) => matched_by_boxes(alloc, left, right, here, there, steps),
        Err(refuse) => Err(refuse),
    }
}

/// NOT MATCHING under USING of the attributes that stand at these positions of both headings: of the left rows those that agree with no
/// right one, both unpacked, are packed.
pub fn unmatched<L: Ledger>(
    alloc: Global,
    left: &Relation,
    right: &Relation,
    here: &[usize],
    there: &[usize],
    steps: &mut Steps<L>,
) -> Result<Relation, RowsRefuse>
    requires kinds { HaveEqualKinds left.now.heading right.now.heading }
    requires same { attributes_at here.now left.now.heading ≡ attributes_at there.now right.now.heading }
    requires left { AreIntervals left.now.heading here.now }
    requires right { AreIntervals right.now.heading there.now }
    ensures rows { let rows = packed here.now (unmatched left.now.heading right.now.heading (unpacked here.now left.now.rows) (unpacked there.now right.now.rows)) in
        MatchResult result (IsAnswer left.now.heading rows) (IsRefusal rows) }
    ensures cost { steps.new ≤ steps.old + bound (length left.now.rows + length right.now.rows) (length here.now) }
{
    if here.len() == 0 {
        return relation_core::not_matching(alloc, left, right);
    }
    match unmatched_by_rows(alloc, left, right, here, there) {
        Ok(Some(answer)) => Ok(answer),
        Ok(None) => unmatched_by_boxes(alloc, left, right, here, there, steps),
        Err(refuse) => Err(refuse),
    }
}
