// Joins of two relations point by point.
ghost use Rattle.std.specs.Prelude.{◌≡◌, ◌+◌, ◌<◌, ◌≤◌, ◌++◌, map, length, Err, IfOk, MatchResult};
ghost use Rattle.std.specs.List.{All};
ghost use Rattle.point_core.specs.declared.fault.Fault.{Fault as AnyFault};
ghost use Rattle.point_core.specs.Points.{number, IsPointOf};
ghost use Rattle.cell_packing.specs.Boxed.{packed_boxes, unpacked_boxes};
ghost use Rattle.value_core.specs.Headings.{most_attributes};
ghost use Rattle.value_core.specs.RowPacking.{packed, unpacked};
ghost use Rattle.value_core.specs.Values.{IsRelation, row_cmp, most_rows};
ghost use Rattle.relation_core.specs.Agreement.{common_positions};
ghost use Rattle.relation_core.specs.Answers.{IsAnswer, IsRefusal};
ghost use Rattle.relation_core.specs.Joins.{HaveEqualKinds, joined_heading, joined};
ghost use Rattle.relation_core.specs.Parts.{attributes_at, positions_in};
ghost use Rattle.cell_core.specs.Boxes.{IsBox};
ghost use Rattle.cell_core.specs.Cells.{row_numbers};
ghost use Rattle.cell_core.specs.Costs.{bound};
ghost use Rattle.cell_core.specs.declared.boxes.CellRefuse.TheVariants.{Op as OfOp, Limit as OfLimit};
ghost use Rattle.u_set.specs.Boxes.{AreIntervals, types_at, boxed};
ghost use Rattle.u_row.specs.Kept.{inner};
ghost use Rattle.u_join.specs.Pairs.{joined_label, joined_boxes};
ghost use Rattle.u_join.specs.Places.{positions_of_both};

use crate::joining::{KeyPlaces, joined_form};
use crate::labels::Places;
use crate::places::{key_places, label_places};
use crate::row_joins::joined_by_rows;
use cell_core::{BoxRow, CellRefuse};
use point_core::{AnyType, Steps};
use std::alloc::Global;
use std::sync::ledger::Ledger;
use u_set::{from_boxes, in_limit, refusal, to_boxes, types_at};
use value_core::{Heading, MOST_ROWS, Relation, Row, RowsRefuse};

// The packed boxes of the joined rows. Their labels are in the order of the joined heading.
fn joining_boxes<L: Ledger>(
    alloc: Global,
    heading: &Heading,
    left: &Relation,
    right: &Relation,
    here: &[usize],
    there: &[usize],
    steps: &mut Steps<L>,
) -> Result<Vec<BoxRow<AnyType, Row>>, CellRefuse>
    requires same { attributes_at here.now left.now.heading ≡ attributes_at there.now right.now.heading }
    requires left { AreIntervals left.now.heading here.now }
    requires right { AreIntervals right.now.heading there.now }
    ensures left_relation { IsRelation left.now }
    ensures right_relation { IsRelation right.now }
    ensures rows { IfOk result (λ v. map (row_numbers number) v.items ≡ packed_boxes row_cmp (length here.now) (joined_boxes
        (inner here.now (common_positions left.now.heading left.now.heading right.now.heading))
        (inner there.now (common_positions right.now.heading left.now.heading right.now.heading))
        (joined_label (inner (positions_of_both (length left.now.heading) here.now there.now) (positions_in (left.now.heading ++ right.now.heading) heading.now)))
        (unpacked_boxes row_cmp (length here.now) (map (boxed here.now) left.now.rows))
        (unpacked_boxes row_cmp (length here.now) (map (boxed there.now) right.now.rows)))) }
    ensures boxes { IfOk result (λ v. All (λ b. IsBox IsPointOf (types_at left.now.heading here.now) b.1) v.items) }
    ensures no_fault { (e : AnyFault) → result ≡ Err (OfOp e) → ⊥ }
    ensures limit { result ≡ Err OfLimit → most_rows < length (packed_boxes row_cmp (length here.now) (joined_boxes
        (inner here.now (common_positions left.now.heading left.now.heading right.now.heading))
        (inner there.now (common_positions right.now.heading left.now.heading right.now.heading))
        (joined_label (inner (positions_of_both (length left.now.heading) here.now there.now) (positions_in (left.now.heading ++ right.now.heading) heading.now)))
        (unpacked_boxes row_cmp (length here.now) (map (boxed here.now) left.now.rows))
        (unpacked_boxes row_cmp (length here.now) (map (boxed there.now) right.now.rows)))) }
    ensures cost { steps.new ≤ steps.old + bound (length left.now.rows + length right.now.rows) (length here.now) }
{
    let ours = left.heading().attributes();
    let theirs = right.heading().attributes();
    let types = types_at(alloc, ours, here)?;
    let l = to_boxes(alloc, left, here)?;
    let r = to_boxes(alloc, right, there)?;
    let here_key = key_places(alloc, ours, ours, theirs, here)?;
    let there_key = key_places(alloc, theirs, ours, theirs, there)?;
    let places = label_places(alloc, ours, theirs, heading.attributes(), here, there)?;
    let rule = Places { list: places };
    let keys = KeyPlaces {
        here: here_key.as_slice(),
        there: there_key.as_slice(),
    };
    let form = joined_form(alloc, types.as_slice(), l, r, keys, &rule, steps)?;
    in_limit(form, MOST_ROWS)
}

// The same as a relation.
fn joined_by_boxes<L: Ledger>(
    alloc: Global,
    heading: &Heading,
    commalist: &[usize],
    left: &Relation,
    right: &Relation,
    here: &[usize],
    there: &[usize],
    steps: &mut Steps<L>,
) -> Result<Relation, RowsRefuse>
    requires heading { heading.now ≡ joined_heading left.now.heading right.now.heading }
    requires kinds { HaveEqualKinds left.now.heading right.now.heading }
    requires listed { attributes_at commalist.now heading.now ≡ attributes_at here.now left.now.heading }
    requires same { attributes_at here.now left.now.heading ≡ attributes_at there.now right.now.heading }
    requires intervals { AreIntervals heading.now commalist.now }
    requires left { AreIntervals left.now.heading here.now }
    requires right { AreIntervals right.now.heading there.now }
    ensures rows { let rows = packed commalist.now (joined left.now.heading right.now.heading (unpacked here.now left.now.rows) (unpacked there.now right.now.rows)) in
        MatchResult result (IsAnswer heading.now rows) (IsRefusal rows) }
    ensures cost { steps.new ≤ steps.old + bound (length left.now.rows + length right.now.rows) (length commalist.now) }
{
    let whole = heading.copy(alloc)?;
    match joining_boxes(alloc, heading, left, right, here, there, steps) {
        Ok(form) => from_boxes(alloc, whole, commalist, form),
        Err(refuse) => Err(refusal(refuse)),
    }
}

/// JOIN under USING of the attributes that stand at these positions of the joined heading and of both operands: the unpacked rows are
/// joined, and the joined ones packed.
pub fn joined<L: Ledger>(
    alloc: Global,
    heading: &Heading,
    commalist: &[usize],
    left: &Relation,
    right: &Relation,
    here: &[usize],
    there: &[usize],
    steps: &mut Steps<L>,
) -> Result<Relation, RowsRefuse>
    requires heading { heading.now ≡ joined_heading left.now.heading right.now.heading }
    requires few { length heading.now ≤ most_attributes }
    requires kinds { HaveEqualKinds left.now.heading right.now.heading }
    requires listed { attributes_at commalist.now heading.now ≡ attributes_at here.now left.now.heading }
    requires same { attributes_at here.now left.now.heading ≡ attributes_at there.now right.now.heading }
    requires intervals { AreIntervals heading.now commalist.now }
    requires left { AreIntervals left.now.heading here.now }
    requires right { AreIntervals right.now.heading there.now }
    ensures rows { let rows = packed commalist.now (joined left.now.heading right.now.heading (unpacked here.now left.now.rows) (unpacked there.now right.now.rows)) in
        MatchResult result (IsAnswer heading.now rows) (IsRefusal rows) }
    ensures cost { steps.new ≤ steps.old + bound (length left.now.rows + length right.now.rows) (length commalist.now) }
{
    if commalist.len() == 0 {
        return relation_core::join(alloc, left, right);
    }
    match joined_by_rows(alloc, heading, commalist, left, right, here, there) {
        Ok(Some(answer)) => Ok(answer),
        Ok(None) => joined_by_boxes(alloc, heading, commalist, left, right, here, there, steps),
        Err(refuse) => Err(refuse),
    }
}
