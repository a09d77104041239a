// Left boxes less the right boxes of their keys.
ghost use Rattle.std.specs.Prelude.{◌≡◌, ℕ, ◌<◌, ◌≤◌, ◌↔◌, ◌++◌, List, ◌∷◌, length, map, IsTrue, OnOk, IfOk};
ghost use Rattle.std.specs.List.{All};
ghost use Rattle.std.specs.Vec.Iter.{into_iter_items};
ghost use Rattle.cell_packing.specs.Covering.{Among};
ghost use Rattle.cell_sweep.specs.PackedRows.{HasRow};
ghost use Rattle.cell_boxes.specs.Common.{EndsBy, first_of};
ghost use Rattle.cell_boxes.specs.Meetings.{Met};
ghost use Rattle.cell_boxes.specs.Outside.{IsRest, LeavesParts};
ghost use Rattle.cell_boxes.specs.Rows.{Ascend, IsRow, PlainCellBox};

use crate::meeting::{Meeting, overlaps};
use crate::outside::less;
use cell_sweep::{CellBox, IndexBox};
use point_core::{Label, Memory};
use std::alloc::Global;
use std::vec::IntoIter;

fn is_in(hole: &Meeting, row: usize) -> bool
    ensures { IsTrue result ↔ (hole.now.0.0 ≡ row) }
{
    hole.left == row
}

// The number of the first hole from `first` on that is not in the row.
fn holes_end(holes: &[Meeting], first: usize, row: usize) -> usize
    requires { first ≤ length holes.now }
    ensures from { first ≤ result }
    ensures within { result ≤ length holes.now }
    ensures same { (q : ℕ) (m : Met) → IsRow holes.now q m → first ≤ q → q < result → m.0.0 ≡ row }
    ensures other { (m : Met) → IsRow holes.now result m → m.0.0 ≡ row → ⊥ }
{
    let mut end = first;
    while end < holes.len() && is_in(&holes[end], row) {
        end += 1;
    }
    end
}

// Adds the parts, each with a copy of the label.
fn push_copies<Q: Label>(
    alloc: Global,
    out: &mut Vec<CellBox<Q>>,
    label: &Q,
    parts: Vec<IndexBox>,
) -> Result<(), Memory>
    ensures { OnOk result (out.new.items ≡ out.old.items ++ map (λ x. (label.now, x.sides.items)) parts.items) }
{
    for part in parts {
        let own = label.copy(alloc)?;
        out.push(CellBox {
            label: own,
            sides: part.sides,
        })?;
    }
    Ok(())
}

// Adds the parts with the label: the last one gets the label itself, and the others get copies.
fn push_labelled<Q: Label>(
    alloc: Global,
    out: &mut Vec<CellBox<Q>>,
    label: Q,
    parts: Vec<IndexBox>,
) -> Result<(), Memory>
    ensures { OnOk result (out.new.items ≡ out.old.items ++ map (λ x. (label, x.sides.items)) parts.items) }
{
    let mut others = parts;
    if let Some(last) = others.pop() {
        push_copies(alloc, out, &label, others)?;
        out.push(CellBox {
            label,
            sides: last.sides,
        })?;
    }
    Ok(())
}

// Adds what of the box of the sides is outside the holes from `first` up to before `end`, with the label. A box without a
// hole is added as it is.
fn push_rest<Q: Label>(
    alloc: Global,
    out: &mut Vec<CellBox<Q>>,
    label: Q,
    sides: Vec<(usize, usize)>,
    holes: &[Meeting],
    first: usize,
    end: usize,
) -> Result<(), Memory>
    requires range { first ≤ end }
    requires within { end ≤ length holes.now }
    requires same { (q : ℕ) (m : Met) → IsRow holes.now q m → first ≤ q → q < end → length m.1 ≡ length sides.items }
    requires order { (q r : ℕ) (m n : Met) → IsRow holes.now q m → IsRow holes.now r n → first ≤ q → q ≤ r → r < end → (first_of m.1).0 ≤ (first_of n.1).0 }
    ensures { OnOk result (LeavesParts label sides.items holes.now first end out.old.items out.new.items) }
{
    if first == end {
        out.push(CellBox { label, sides })?;
        return Ok(());
    }
    let parts = less(alloc, sides, holes, first, end)?;
    push_labelled(alloc, out, label, parts)?;
    Ok(())
}

// The sides of the next row.
fn next_sides<P: Drop>(
    alloc: Global,
    rows: &mut IntoIter<CellBox<P>, Global>,
) -> Vec<(usize, usize)>
    ensures { (x : PlainCellBox P) (xs : List (PlainCellBox P)) → into_iter_items rows.old ≡ x ∷ xs → (result.items ≡ x.1) × (into_iter_items rows.new ≡ xs) }
{
    match rows.next() {
        Some(row) => row.sides,
        None => Vec::new(alloc),
    }
}

/// What of the left boxes is outside the right boxes of their keys, in boxes with the labels of the left rows.
///
/// From a left box the holes that it has in common with rights are taken out in the order of their first cells. On one
/// side that takes, after `overlaps`, the time of the holes and of the parts; rights of a key that are packed leave a
/// part between each two of them, so these are not more than the rows and the answer together. A left box that stays
/// whole is moved, and so is its label.
pub fn rest<P: Label, Q: Label>(
    alloc: Global,
    sides: usize,
    left: Vec<CellBox<P>>,
    labels: Vec<Q>,
    right: &[CellBox<P>],
) -> Result<Vec<CellBox<Q>>, Memory>
    requires left { All (λ x. length x.1 ≡ sides) left.items }
    requires right { All (λ x. length x.1 ≡ sides) right.now }
    requires left_order { Ascend P.order left.items }
    requires right_order { Ascend P.order right.now }
    requires labels { length labels.items ≡ length left.items }
    ensures grid_points { IfOk result (λ v. (l : Q) (grid_point : List ℕ) → length grid_point ≡ sides →
        HasRow v.items l grid_point ↔ IsRest left.items labels.items right.now l grid_point) }
    ensures lengths { IfOk result (λ v. All (λ x. length x.1 ≡ sides) v.items) }
    ensures ends { IfOk result (λ v. (z : PlainCellBox Q) → Among z v.items → (x : PlainCellBox P) × Among x left.items × EndsBy x.1 z.1) }
{
    let meetings = overlaps(alloc, sides, left.as_slice(), right)?;
    let holes = meetings.as_slice();
    let mut out = Vec::with_capacity(alloc, left.len())?;
    let mut rows = left.into_iter();
    let mut first = 0;
    let mut row = 0;
    for label in labels {
        let end = holes_end(holes, first, row);
        let own = next_sides(alloc, &mut rows);
        push_rest(alloc, &mut out, label, own, holes, first, end)?;
        first = end;
        row += 1;
    }
    Ok(out)
}
