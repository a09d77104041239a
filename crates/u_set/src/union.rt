// Union point by point.
ghost use Rattle.std.specs.Prelude.{◌≡◌, ◌+◌, ◌<◌, ◌≤◌, ◌++◌, map, length, Err, IfOk, IfSome, MatchResult};
ghost use Rattle.std.specs.List.{All};
ghost use Rattle.base_core.specs.Sets.{union_of};
ghost use Rattle.point_core.specs.Points.{number, IsPointOf};
ghost use Rattle.point_core.specs.declared.fault.Fault.{Fault as AnyFault};
ghost use Rattle.cell_packing.specs.Boxed.{boxed_cmp, packed_boxes, unpacked_boxes};
ghost use Rattle.value_core.specs.RowPacking.{packed, unpacked};
ghost use Rattle.value_core.specs.Values.{IsRelation, row_cmp, most_rows};
ghost use Rattle.relation_core.specs.Answers.{IsAnswer, IsRefusal};
ghost use Rattle.relation_core.specs.Operators.{united};
ghost use Rattle.cell_core.specs.Boxes.{IsBox};
ghost use Rattle.cell_core.specs.Cells.{row_numbers};
ghost use Rattle.cell_core.specs.Costs.{bound};
ghost use Rattle.cell_core.specs.declared.boxes.CellRefuse.TheVariants.{Op as OfOp, Limit as OfLimit};
ghost use Rattle.u_set.specs.Boxes.{AreIntervals, types_at, boxed};

use crate::boxes::{copied_boxes, to_boxes};
use crate::coalescing::{coalesced, push_copies};
use crate::positions::types_at;
use crate::refusals::refusal;
use crate::rows::from_boxes;
use cell_core::{BoxRow, CellRefuse, pack};
use point_core::{AnyType, Memory, PointType, Steps};
use std::alloc::Global;
use std::sync::ledger::Ledger;
use value_core::{MOST_ROWS, Relation, Row, RowsRefuse};

// The boxes of both, packed.
fn union_boxes<T: PointType, L: Ledger>(
    alloc: Global,
    types: &[T],
    left: Vec<BoxRow<T, Row>>,
    right: Vec<BoxRow<T, Row>>,
    limit: usize,
    steps: &mut Steps<L>,
) -> Result<Vec<BoxRow<T, Row>>, CellRefuse>
    requires left { All (λ b. IsBox T.IsPoint types.now b.1) left.items }
    requires right { All (λ b. IsBox T.IsPoint types.now b.1) right.items }
    ensures rows { IfOk result (λ v. map (row_numbers T.number_of) v.items ≡ packed_boxes row_cmp (length types.now) (union_of (boxed_cmp row_cmp)
        (unpacked_boxes row_cmp (length types.now) (map (row_numbers T.number_of) left.items))
        (unpacked_boxes row_cmp (length types.now) (map (row_numbers T.number_of) right.items)))) }
    ensures boxes { IfOk result (λ v. All (λ b. IsBox T.IsPoint types.now b.1) v.items) }
    ensures few { IfOk result (λ v. length v.items ≤ limit) }
    ensures no_fault { (e : AnyFault) → result ≡ Err (OfOp e) → ⊥ }
    ensures limit { result ≡ Err OfLimit → limit < length (packed_boxes row_cmp (length types.now) (union_of (boxed_cmp row_cmp)
        (unpacked_boxes row_cmp (length types.now) (map (row_numbers T.number_of) left.items))
        (unpacked_boxes row_cmp (length types.now) (map (row_numbers T.number_of) right.items)))) }
    ensures cost { steps.new ≤ steps.old + bound (length left.items + length right.items) (length types.now) }
{
    let (mut all, mut more) = (left, right);
    all.append(&mut more)?;
    pack(alloc, types, all, limit, steps)
}

/// The boxes of both, packed: at each point the labels of either.
///
/// `Limit` comes exactly where the packed boxes are more than `limit`.
pub fn u_union<T: PointType, L: Ledger>(
    alloc: Global,
    types: &[T],
    left: &[BoxRow<T, Row>],
    right: &[BoxRow<T, Row>],
    limit: usize,
    steps: &mut Steps<L>,
) -> Result<Vec<BoxRow<T, Row>>, CellRefuse>
    requires left { All (λ b. IsBox T.IsPoint types.now b.1) left.now }
    requires right { All (λ b. IsBox T.IsPoint types.now b.1) right.now }
    ensures rows { IfOk result (λ v. map (row_numbers T.number_of) v.items ≡ packed_boxes row_cmp (length types.now) (union_of (boxed_cmp row_cmp)
        (unpacked_boxes row_cmp (length types.now) (map (row_numbers T.number_of) left.now))
        (unpacked_boxes row_cmp (length types.now) (map (row_numbers T.number_of) right.now)))) }
    ensures boxes { IfOk result (λ v. All (λ b. IsBox T.IsPoint types.now b.1) v.items) }
    ensures few { IfOk result (λ v. length v.items ≤ limit) }
    ensures no_fault { (e : AnyFault) → result ≡ Err (OfOp e) → ⊥ }
    ensures limit { result ≡ Err OfLimit → limit < length (packed_boxes row_cmp (length types.now) (union_of (boxed_cmp row_cmp)
        (unpacked_boxes row_cmp (length types.now) (map (row_numbers T.number_of) left.now))
        (unpacked_boxes row_cmp (length types.now) (map (row_numbers T.number_of) right.now)))) }
    ensures cost { steps.new ≤ steps.old + bound (length left.now + length right.now) (length types.now) }
{
    let l = copied_boxes(alloc, left)?;
    let r = copied_boxes(alloc, right)?;
    union_boxes(alloc, types, l, r, limit, steps)
}

// The packed boxes of the union of two relations.
fn united_form<L: Ledger>(
    alloc: Global,
    left: &Relation,
    right: &Relation,
    commalist: &[usize],
    steps: &mut Steps<L>,
) -> Result<Vec<BoxRow<AnyType, Row>>, CellRefuse>
    requires heading { left.now.heading ≡ right.now.heading }
    requires intervals { AreIntervals left.now.heading commalist.now }
    ensures relation { IsRelation left.now }
    ensures rows { IfOk result (λ v. map (row_numbers number) v.items ≡ packed_boxes row_cmp (length commalist.now) (union_of (boxed_cmp row_cmp)
        (unpacked_boxes row_cmp (length commalist.now) (map (boxed commalist.now) left.now.rows))
        (unpacked_boxes row_cmp (length commalist.now) (map (boxed commalist.now) right.now.rows)))) }
    ensures boxes { IfOk result (λ v. All (λ b. IsBox IsPointOf (types_at left.now.heading commalist.now) b.1) v.items) }
    ensures no_fault { (e : AnyFault) → result ≡ Err (OfOp e) → ⊥ }
    ensures limit { result ≡ Err OfLimit → most_rows < length (packed_boxes row_cmp (length commalist.now) (union_of (boxed_cmp row_cmp)
        (unpacked_boxes row_cmp (length commalist.now) (map (boxed commalist.now) left.now.rows))
        (unpacked_boxes row_cmp (length commalist.now) (map (boxed commalist.now) right.now.rows)))) }
    ensures cost { steps.new ≤ steps.old + bound (length left.now.rows + length right.now.rows) (length commalist.now) }
{
    let types = types_at(alloc, left.heading().attributes(), commalist)?;
    let l = to_boxes(alloc, left, commalist)?;
    let r = to_boxes(alloc, right, commalist)?;
    union_boxes(alloc, types.as_slice(), l, r, MOST_ROWS, steps)
}

// The union under USING, by the boxes of all rows.
fn united_by_boxes<L: Ledger>(
    alloc: Global,
    left: &Relation,
    right: &Relation,
    commalist: &[usize],
    steps: &mut Steps<L>,
) -> Result<Relation, RowsRefuse>
    requires heading { left.now.heading ≡ right.now.heading }
    requires intervals { AreIntervals left.now.heading commalist.now }
    ensures rows { let rows = packed commalist.now (united (unpacked commalist.now left.now.rows) (unpacked commalist.now right.now.rows)) in
        MatchResult result (IsAnswer left.now.heading rows) (IsRefusal rows) }
    ensures cost { steps.new ≤ steps.old + bound (length left.now.rows + length right.now.rows) (length commalist.now) }
{
    let heading = right.heading().copy(alloc)?;
    match united_form(alloc, left, right, commalist, steps) {
        Ok(form) => from_boxes(alloc, heading, commalist, form),
        Err(refuse) => Err(refusal(refuse)),
    }
}

/// The rows of both, one after the other.
pub(crate) fn rows_of_both(
    alloc: Global,
    left: &Relation,
    right: &Relation,
) -> Result<Vec<Row>, Memory>
    ensures rows { IfOk result (λ v. v.items ≡ left.now.rows ++ right.now.rows) }
    ensures left { IsRelation left.now }
    ensures right { IsRelation right.now }
{
    let (few, more) = (left.rows(), right.rows());
    let mut rows = Vec::with_capacity(alloc, few.len().saturating_add(more.len()))?;
    push_copies(alloc, &mut rows, few)?;
    push_copies(alloc, &mut rows, more)?;
    Ok(rows)
}

// The union under USING of a single attribute, without boxes. There is none where the rows could not be brought in order.
fn united_on_one(
    alloc: Global,
    left: &Relation,
    right: &Relation,
    commalist: &[usize],
) -> Result<Option<Relation>, RowsRefuse>
    requires heading { left.now.heading ≡ right.now.heading }
    requires intervals { AreIntervals left.now.heading commalist.now }
    ensures { let rows = packed commalist.now (united (unpacked commalist.now left.now.rows) (unpacked commalist.now right.now.rows)) in
        MatchResult result (λ o. IfSome o (IsAnswer left.now.heading rows)) (IsRefusal rows) }
{
    if commalist.len() != 1 {
        return Ok(None);
    }
    let heading = left.heading().copy(alloc)?;
    let rows = rows_of_both(alloc, left, right)?;
    coalesced(alloc, heading, commalist[0], rows)
}

/// The union of two relations of one heading under USING of the attributes at the positions: the rows of either, both unpacked, are
/// packed.
///
/// Under USING of a single attribute the rows themselves are joined. Else the sweep goes over their boxes.
pub fn united<L: Ledger>(
    alloc: Global,
    left: &Relation,
    right: &Relation,
    commalist: &[usize],
    steps: &mut Steps<L>,
) -> Result<Relation, RowsRefuse>
    requires heading { left.now.heading ≡ right.now.heading }
    requires intervals { AreIntervals left.now.heading commalist.now }
    ensures rows { let rows = packed commalist.now (united (unpacked commalist.now left.now.rows) (unpacked commalist.now right.now.rows)) in
        MatchResult result (IsAnswer left.now.heading rows) (IsRefusal rows) }
    ensures cost { steps.new ≤ steps.old + bound (length left.now.rows + length right.now.rows) (length commalist.now) }
{
    match united_on_one(alloc, left, right, commalist)? {
        Some(relation) => Ok(relation),
        None => united_by_boxes(alloc, left, right, commalist, steps),
    }
}
