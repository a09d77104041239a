// Labelled boxes compared by their points.
ghost use Rattle.std.specs.Prelude.{◌≡◌, ◌+◌, ◌≤◌, ◌↔◌, map, length, IfOk, IsTrue};
ghost use Rattle.std.specs.List.{All};
ghost use Rattle.base_core.specs.Sets.{is_within, are_same};
ghost use Rattle.cell_packing.specs.Boxed.{boxed_cmp, unpacked_boxes, packed_boxes};
ghost use Rattle.cell_core.specs.Boxes.{IsBox};
ghost use Rattle.cell_core.specs.Cells.{row_numbers};
ghost use Rattle.cell_core.specs.Costs.{bound};

use crate::boxes::BoxRow;
use crate::keys::push_keys;
use crate::packed::same_keys;
use crate::row_sides::numbered;
use cell_sweep::pack_arranged;
use point_core::{Label, Memory, PointType, Steps};
use presort::Numbers;
use std::alloc::Global;
use std::sync::ledger::Ledger;

/// Whether each point of a left row with the row's label is one of a right row of that label: whether the left rows,
/// unpacked on all sides, are a subset of the right ones.
pub fn within_points<T: PointType, P: Label + Numbers, L: Ledger>(
    alloc: Global,
    types: &[T],
    left: &[BoxRow<T, P>],
    right: &[BoxRow<T, P>],
    steps: &mut Steps<L>,
) -> Result<bool, Memory>
    requires left { All (λ r. IsBox T.IsPoint types.now r.1) left.now }
    requires right { All (λ r. IsBox T.IsPoint types.now r.1) right.now }
    ensures answer { IfOk result (λ b. b ≡ is_within (boxed_cmp P.order) (unpacked_boxes P.order (length types.now)
        (map (row_numbers T.number_of) left.now)) (unpacked_boxes P.order (length types.now) (map (row_numbers
        T.number_of) right.now))) }
    ensures cost { steps.new ≤ steps.old + bound (length left.now + length right.now) (length types.now) }
{
    let sides = numbered(alloc, types, left, right, steps)?;
    let mut all = Vec::new(alloc);
    push_keys(alloc, &mut all, left, 0, sides.as_slice())?;
    push_keys(alloc, &mut all, right, left.len(), sides.as_slice())?;
    let mut own = Vec::new(alloc);
    push_keys(alloc, &mut own, right, left.len(), sides.as_slice())?;
    let all_form = pack_arranged(alloc, types.len(), all)?;
    let right_form = pack_arranged(alloc, types.len(), own)?;
    Ok(same_keys(all_form.as_slice(), right_form.as_slice()))
}

/// Whether the left and the right rows have the same points with the same labels: whether they are equal, unpacked on
/// all sides; and so whether they are equal packed.
pub fn same_points<T: PointType, P: Label + Numbers, L: Ledger>(
    alloc: Global,
    types: &[T],
    left: &[BoxRow<T, P>],
    right: &[BoxRow<T, P>],
    steps: &mut Steps<L>,
) -> Result<bool, Memory>
    requires left { All (λ r. IsBox T.IsPoint types.now r.1) left.now }
    requires right { All (λ r. IsBox T.IsPoint types.now r.1) right.now }
    ensures answer { IfOk result (λ b. b ≡ are_same (boxed_cmp P.order) (unpacked_boxes P.order (length types.now)
        (map (row_numbers T.number_of) left.now)) (unpacked_boxes P.order (length types.now) (map (row_numbers
        T.number_of) right.now))) }
    ensures packed { IfOk result (λ b. IsTrue b ↔ (packed_boxes P.order (length types.now) (map (row_numbers T.number_of)
        left.now) ≡ packed_boxes P.order (length types.now) (map (row_numbers T.number_of) right.now))) }
    ensures cost { steps.new ≤ steps.old + bound (length left.now + length right.now) (length types.now) }
{
    let sides = numbered(alloc, types, left, right, steps)?;
    let mut l = Vec::new(alloc);
    push_keys(alloc, &mut l, left, 0, sides.as_slice())?;
    let mut r = Vec::new(alloc);
    push_keys(alloc, &mut r, right, left.len(), sides.as_slice())?;
    let left_form = pack_arranged(alloc, types.len(), l)?;
    let right_form = pack_arranged(alloc, types.len(), r)?;
    Ok(same_keys(left_form.as_slice(), right_form.as_slice()))
}
