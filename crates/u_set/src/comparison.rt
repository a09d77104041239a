// Comparisons point by point.
ghost use Rattle.std.specs.Prelude.{◌≡◌, ◌+◌, ◌≤◌, map, length, IfOk};
ghost use Rattle.std.specs.List.{All};
ghost use Rattle.base_core.specs.Sets.{is_within, are_same};
ghost use Rattle.cell_packing.specs.Boxed.{boxed_cmp, unpacked_boxes};
ghost use Rattle.value_core.specs.RowPacking.{unpacked};
ghost use Rattle.value_core.specs.Values.{row_cmp, same_rows};
ghost use Rattle.cell_core.specs.Boxes.{IsBox};
ghost use Rattle.cell_core.specs.Cells.{row_numbers};
ghost use Rattle.cell_core.specs.Costs.{bound};
ghost use Rattle.u_set.specs.Boxes.{AreIntervals};

use crate::boxes::to_boxes;
use crate::positions::types_at;
use crate::row_comparison::{same_on_one, within_on_one};
use cell_core::{BoxRow, same_points, within_points};
use point_core::{Memory, PointType, Steps};
use std::alloc::Global;
use std::sync::ledger::Ledger;
use value_core::{Relation, Row};

/// Whether the boxes, unpacked on all sides, are equal.
pub fn u_equal<T: PointType, L: Ledger>(
    alloc: Global,
    types: &[T],
    left: &[BoxRow<T, Row>],
    right: &[BoxRow<T, Row>],
    steps: &mut Steps<L>,
) -> Result<bool, Memory>
    requires left { All (λ b. IsBox T.IsPoint types.now b.1) left.now }
    requires right { All (λ b. IsBox T.IsPoint types.now b.1) right.now }
    ensures answer { IfOk result (λ b. b ≡ are_same (boxed_cmp row_cmp)
        (unpacked_boxes row_cmp (length types.now) (map (row_numbers T.number_of) left.now))
        (unpacked_boxes row_cmp (length types.now) (map (row_numbers T.number_of) right.now))) }
    ensures cost { steps.new ≤ steps.old + bound (length left.now + length right.now) (length types.now) }
{
    same_points(alloc, types, left, right, steps)
}

/// Whether the left boxes, unpacked on all sides, are a subset of the right ones.
pub fn u_subset<T: PointType, L: Ledger>(
    alloc: Global,
    types: &[T],
    left: &[BoxRow<T, Row>],
    right: &[BoxRow<T, Row>],
    steps: &mut Steps<L>,
) -> Result<bool, Memory>
    requires left { All (λ b. IsBox T.IsPoint types.now b.1) left.now }
    requires right { All (λ b. IsBox T.IsPoint types.now b.1) right.now }
    ensures answer { IfOk result (λ b. b ≡ is_within (boxed_cmp row_cmp)
        (unpacked_boxes row_cmp (length types.now) (map (row_numbers T.number_of) left.now))
        (unpacked_boxes row_cmp (length types.now) (map (row_numbers T.number_of) right.now))) }
    ensures cost { steps.new ≤ steps.old + bound (length left.now + length right.now) (length types.now) }
{
    within_points(alloc, types, left, right, steps)
}

// Whether two relations of one heading are equal unpacked, by the boxes of their rows.
fn are_same_by_boxes<L: Ledger>(
    alloc: Global,
    left: &Relation,
    right: &Relation,
    commalist: &[usize],
    steps: &mut Steps<L>,
) -> Result<bool, Memory>
    requires heading { left.now.heading ≡ right.now.heading }
    requires intervals { AreIntervals left.now.heading commalist.now }
    ensures answer { IfOk result (λ b. b ≡ same_rows (unpacked commalist.now left.now.rows) (unpacked commalist.now right.now.rows)) }
    ensures cost { steps.new ≤ steps.old + bound (length left.now.rows + length right.now.rows) (length commalist.now) }
{
    let types = types_at(alloc, left.heading().attributes(), commalist)?;
    let l = to_boxes(alloc, left, commalist)?;
    let r = to_boxes(alloc, right, commalist)?;
    u_equal(alloc, types.as_slice(), l.as_slice(), r.as_slice(), steps)
}

/// Whether two relations of one heading, unpacked on the attributes at the positions, are equal.
///
/// Under USING of a single attribute their packed rows are compared. Else the sweep goes over their boxes.
pub fn are_same<L: Ledger>(
    alloc: Global,
    left: &Relation,
    right: &Relation,
    commalist: &[usize],
    steps: &mut Steps<L>,
) -> Result<bool, Memory>
    requires heading { left.now.heading ≡ right.now.heading }
    requires intervals { AreIntervals left.now.heading commalist.now }
    ensures answer { IfOk result (λ b. b ≡ same_rows (unpacked commalist.now left.now.rows) (unpacked commalist.now right.now.rows)) }
    ensures cost { steps.new ≤ steps.old + bound (length left.now.rows + length right.now.rows) (length commalist.now) }
{
    match same_on_one(alloc, left, right, commalist)? {
        Some(same) => Ok(same),
        None => are_same_by_boxes(alloc, left, right, commalist, steps),
    }
}

// Whether a relation is unpacked a subset of another of the same heading, by the boxes of their rows.
fn is_within_by_boxes<L: Ledger>(
    alloc: Global,
    left: &Relation,
    right: &Relation,
    commalist: &[usize],
    steps: &mut Steps<L>,
) -> Result<bool, Memory>
    requires heading { left.now.heading ≡ right.now.heading }
    requires intervals { AreIntervals left.now.heading commalist.now }
    ensures answer { IfOk result (λ b. b ≡ is_within row_cmp (unpacked commalist.now left.now.rows) (unpacked commalist.now right.now.rows)) }
    ensures cost { steps.new ≤ steps.old + bound (length left.now.rows + length right.now.rows) (length commalist.now) }
{
    let types = types_at(alloc, left.heading().attributes(), commalist)?;
    let l = to_boxes(alloc, left, commalist)?;
    let r = to_boxes(alloc, right, commalist)?;
    u_subset(alloc, types.as_slice(), l.as_slice(), r.as_slice(), steps)
}

/// Whether a relation, unpacked on the attributes at the positions, is a subset of another of the same heading, unpacked alike.
///
/// Under USING of a single attribute packed rows are compared. Else the sweep goes over the boxes.
pub fn is_within<L: Ledger>(
    alloc: Global,
    left: &Relation,
    right: &Relation,
    commalist: &[usize],
    steps: &mut Steps<L>,
) -> Result<bool, Memory>
    requires heading { left.now.heading ≡ right.now.heading }
    requires intervals { AreIntervals left.now.heading commalist.now }
    ensures answer { IfOk result (λ b. b ≡ is_within row_cmp (unpacked commalist.now left.now.rows) (unpacked commalist.now right.now.rows)) }
    ensures cost { steps.new ≤ steps.old + bound (length left.now.rows + length right.now.rows) (length commalist.now) }
{
    match within_on_one(alloc, left, right, commalist)? {
        Some(within) => Ok(within),
        None => is_within_by_boxes(alloc, left, right, commalist, steps),
    }
}
