// What left boxes have in common with right boxes of their keys.
ghost use Rattle.std.specs.Prelude.{◌≡◌, ℕ, ◌<◌, ◌↔◌, List, length, IfOk};
ghost use Rattle.std.specs.List.{All};
ghost use Rattle.cell_packing.specs.Covering.{Among};
ghost use Rattle.cell_sweep.specs.PackedRows.{HasRow};
ghost use Rattle.cell_boxes.specs.Common.{EndsBy};
ghost use Rattle.cell_boxes.specs.Meetings.{Met, IsLabelled, IsShared};
ghost use Rattle.cell_boxes.specs.Rows.{Ascend, IsRow, PlainCellBox};

use crate::meeting::{Meeting, overlaps};
use cell_sweep::CellBox;
use point_core::{Label, Memory};
use std::alloc::Global;

// The box of the meeting, with the label of its left row.
fn with_left_label<Q: Label>(alloc: Global, labels: &[Q], m: Meeting) -> Result<CellBox<Q>, Memory>
    requires { m.0.0 < length labels.now }
    ensures label { IfOk result (λ z. IsRow labels.now m.0.0 z.0) }
    ensures sides { IfOk result (λ z. m.1 ≡ z.1) }
{
    let label = labels[m.left].copy(alloc)?;
    Ok(CellBox {
        label,
        sides: m.sides,
    })
}

// The same of each meeting.
fn with_left_labels<Q: Label>(
    alloc: Global,
    labels: &[Q],
    meetings: Vec<Meeting>,
) -> Result<Vec<CellBox<Q>>, Memory>
    requires { (m : Met) → Among m meetings.items → m.0.0 < length labels.now }
    ensures { IfOk result (λ v. (z : PlainCellBox Q) → Among z v.items ↔ IsLabelled labels.now meetings.items z) }
{
    let mut out = Vec::with_capacity(alloc, meetings.len())?;
    for m in meetings {
        let row = with_left_label(alloc, labels, m)?;
        out.push(row)?;
    }
    Ok(out)
}

/// What the left boxes have in common with the right boxes of their keys, in boxes with the labels of the left rows.
pub fn shared<P: Label, Q: Label>(
    alloc: Global,
    sides: usize,
    left: &[CellBox<P>],
    labels: &[Q],
    right: &[CellBox<P>],
) -> Result<Vec<CellBox<Q>>, Memory>
    requires left { All (λ x. length x.1 ≡ sides) left.now }
    requires right { All (λ x. length x.1 ≡ sides) right.now }
    requires left_order { Ascend P.order left.now }
    requires right_order { Ascend P.order right.now }
    requires labels { length labels.now ≡ length left.now }
    ensures grid_points { IfOk result (λ v. (l : Q) (grid_point : List ℕ) → length grid_point ≡ sides →
        HasRow v.items l grid_point ↔ IsShared left.now labels.now right.now l grid_point) }
    ensures lengths { IfOk result (λ v. All (λ x. length x.1 ≡ sides) v.items) }
    ensures ends { IfOk result (λ v. (z : PlainCellBox Q) → Among z v.items → (x : PlainCellBox P) × Among x left.now × EndsBy x.1 z.1) }
{
    let meetings = overlaps(alloc, sides, left, right)?;
    let out = with_left_labels(alloc, labels, meetings)?;
    Ok(out)
}
