// Strict inclusion point by point.
ghost use Rattle.std.specs.Prelude.{◌≡◌, ◌&&◌, ◌+◌, ◌≤◌, map, length, not, IfOk};
ghost use Rattle.std.specs.List.{All};
ghost use Rattle.base_core.specs.Sets.{is_within, are_same};
ghost use Rattle.cell_packing.specs.Boxed.{boxed_cmp, unpacked_boxes};
ghost use Rattle.value_core.specs.RowPacking.{unpacked};
ghost use Rattle.value_core.specs.Values.{row_cmp, same_rows};
ghost use Rattle.cell_core.specs.Boxes.{IsBox};
ghost use Rattle.cell_core.specs.Cells.{row_numbers};
ghost use Rattle.cell_core.specs.Costs.{bound};
ghost use Rattle.u_set.specs.Boxes.{AreIntervals};

use crate::boxes::to_boxes;
use crate::positions::types_at;
use crate::row_comparison::properly_within_on_one;
use cell_core::{BoxRow, CellRows, push_keys, rows_over_cells, same_keys};
use cell_sweep::pack_arranged;
use point_core::{Memory, PointType, Steps};
use std::alloc::Global;
use std::sync::ledger::Ledger;
use value_core::{Relation, Row};

// The first, and not the second.
fn first_alone(first: bool, second: bool) -> bool
    ensures { result ≡ (first && not second) }
{
    first && !second
}

/// Whether the left boxes, unpacked on all sides, are a subset of the right ones and not equal to them; by one numbering of both.
pub fn u_proper_subset<T: PointType, L: Ledger>(
    alloc: Global,
    types: &[T],
    left: &[BoxRow<T, Row>],
    right: &[BoxRow<T, Row>],
    steps: &mut Steps<L>,
) -> Result<bool, Memory>
    requires left { All (λ b. IsBox T.IsPoint types.now b.1) left.now }
    requires right { All (λ b. IsBox T.IsPoint types.now b.1) right.now }
    ensures answer { IfOk result (λ b. b ≡ (is_within (boxed_cmp row_cmp)
        (unpacked_boxes row_cmp (length types.now) (map (row_numbers T.number_of) left.now))
        (unpacked_boxes row_cmp (length types.now) (map (row_numbers T.number_of) right.now))
        && not (are_same (boxed_cmp row_cmp)
        (unpacked_boxes row_cmp (length types.now) (map (row_numbers T.number_of) left.now))
        (unpacked_boxes row_cmp (length types.now) (map (row_numbers T.number_of) right.now))))) }
    ensures cost { steps.new ≤ steps.old + bound (length left.now + length right.now) (length types.now) }
{
    let CellRows {
        sides,
        left: l,
        right: r,
    } = rows_over_cells(alloc, types, left, right, steps)?;
    let mut all = Vec::new(alloc);
    push_keys(alloc, &mut all, left, 0, sides.as_slice())?;
    push_keys(alloc, &mut all, right, left.len(), sides.as_slice())?;
    let all_form = pack_arranged(alloc, types.len(), all)?;
    let left_form = pack_arranged(alloc, types.len(), l)?;
    let right_form = pack_arranged(alloc, types.len(), r)?;
    let within = same_keys(all_form.as_slice(), right_form.as_slice());
    let same = same_keys(left_form.as_slice(), right_form.as_slice());
    Ok(first_alone(within, same))
}

// Whether a relation is unpacked a subset of another of the same heading and not equal to it, by the boxes of their rows.
fn is_properly_within_by_boxes<L: Ledger>(
    alloc: Global,
    left: &Relation,
    right: &Relation,
    commalist: &[usize],
    steps: &mut Steps<L>,
) -> Result<bool, Memory>
    requires heading { left.now.heading ≡ right.now.heading }
    requires intervals { AreIntervals left.now.heading commalist.now }
    ensures answer { IfOk result (λ b. b ≡ (is_within row_cmp (unpacked commalist.now left.now.rows) (unpacked commalist.now right.now.rows)
        && not (same_rows (unpacked commalist.now left.now.rows) (unpacked commalist.now right.now.rows)))) }
    ensures cost { steps.new ≤ steps.old + bound (length left.now.rows + length right.now.rows) (length commalist.now) }
{
    let types = types_at(alloc, left.heading().attributes(), commalist)?;
    let l = to_boxes(alloc, left, commalist)?;
    let r = to_boxes(alloc, right, commalist)?;
    u_proper_subset(alloc, types.as_slice(), l.as_slice(), r.as_slice(), steps)
}

/// Whether a relation, unpacked on the attributes at the positions, is a subset of another of the same heading, unpacked alike, and not
/// equal to it.
///
/// Under USING of a single attribute packed rows are compared. Else the sweep goes over the boxes.
pub fn is_properly_within<L: Ledger>(
    alloc: Global,
    left: &Relation,
    right: &Relation,
    commalist: &[usize],
    steps: &mut Steps<L>,
) -> Result<bool, Memory>
    requires heading { left.now.heading ≡ right.now.heading }
    requires intervals { AreIntervals left.now.heading commalist.now }
    ensures answer { IfOk result (λ b. b ≡ (is_within row_cmp (unpacked commalist.now left.now.rows) (unpacked commalist.now right.now.rows)
        && not (same_rows (unpacked commalist.now left.now.rows) (unpacked commalist.now right.now.rows)))) }
    ensures cost { steps.new ≤ steps.old + bound (length left.now.rows + length right.now.rows) (length commalist.now) }
{
    match properly_within_on_one(alloc, left, right, commalist)? {
        Some(strict) => Ok(strict),
        None => is_properly_within_by_boxes(alloc, left, right, commalist, steps),
    }
}
