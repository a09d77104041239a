// The cells at which live rows begin and end on a side.
ghost use Rattle.std.specs.Prelude.{◌≡◌, ℕ, ◌<◌, ◌≤◌, length, slice_index, flat_map, IfOk};
ghost use Rattle.std.specs.List.{All};
ghost use Rattle.cell_packing.specs.Covering.{Among};
ghost use Rattle.cell_sweep.specs.PackedRows.{cuts_of};
ghost use Rattle.cell_sweep.specs.Rows.{sides_of};

use crate::inward::IndexBox;
use point_core::Memory;
use std::alloc::Global;

// The ends of the live rows on a side.
fn ends_at(
    alloc: Global,
    boxes: &[IndexBox],
    live: &[usize],
    side: usize,
) -> Result<Vec<usize>, Memory>
    requires rows { All (λ r. r < length boxes.now) live.now }
    requires sides { All (λ x. side < length x.sides.items) boxes.now }
    ensures { IfOk result (λ v. v.items ≡ flat_map (cuts_of (sides_of boxes.now) side) live.now) }
{
    let mut out = Vec::with_capacity(alloc, live.len().saturating_mul(2))?;
    for r in live {
        let span = boxes[*r].sides[side];
        out.push(span.0)?;
        out.push(span.1)?;
    }
    Ok(out)
}

// The same in order.
pub fn cuts_at(
    alloc: Global,
    boxes: &[IndexBox],
    live: &[usize],
    side: usize,
) -> Result<Vec<usize>, Memory>
    requires rows { All (λ r. r < length boxes.now) live.now }
    requires sides { All (λ x. side < length x.sides.items) boxes.now }
    ensures order { IfOk result (λ v. (i j : ℕ) → i ≤ j → j < length v.items → slice_index v.items i ≤ slice_index v.items j) }
    ensures cuts { IfOk result (λ v. (c : ℕ) → Among c (flat_map (cuts_of (sides_of boxes.now) side) live.now) → Among c v.items) }
{
    let mut cuts = ends_at(alloc, boxes, live, side)?;
    cuts.sort()?;
    Ok(cuts)
}
