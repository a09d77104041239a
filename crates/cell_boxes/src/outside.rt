// What of a box is outside others.
ghost use Rattle.std.specs.Prelude.{◌≡◌, ℕ, ◌<◌, ◌≤◌, ◌↔◌, ◌++◌, List, [], ◌∷◌, length, flat_map, OnOk, IfOk};
ghost use Rattle.std.specs.List.{All};
ghost use Rattle.cell_packing.specs.Covering.{Among};
ghost use Rattle.cell_sweep.specs.Rows.{sides_of};
ghost use Rattle.cell_boxes.specs.Common.{At, EndsBy, first_of};
ghost use Rattle.cell_boxes.specs.Meetings.{Met};
ghost use Rattle.cell_boxes.specs.Outside.{part, beside, narrowed, outside_to, outside, past, ahead, HasBox, IsClear};
ghost use Rattle.cell_boxes.specs.Rows.{IsRow};

use crate::common::{both, first_cells};
use crate::meeting::Meeting;
use cell_sweep::IndexBox;
use point_core::Memory;
use std::alloc::Global;

// Adds the piece with other cells on the side, if they are any.
fn push_part(
    alloc: Global,
    out: &mut Vec<IndexBox>,
    piece: &IndexBox,
    side: usize,
    cells: (usize, usize),
) -> Result<(), Memory>
    requires { side < length piece.now.sides.items }
    ensures { OnOk result (sides_of out.new.items ≡ sides_of out.old.items ++ part piece.now.sides.items side cells) }
{
    if cells.0 < cells.1 {
        let mut sides = Vec::with_capacity(alloc, piece.sides.len())?;
        sides.extend_from_slice(piece.sides.as_slice())?;
        sides[side] = cells;
        out.push(IndexBox { sides })?;
    }
    Ok(())
}

// Adds what of the piece is before the cells on the side, and what is after them.
fn push_beside(
    alloc: Global,
    out: &mut Vec<IndexBox>,
    piece: &IndexBox,
    side: usize,
    cells: (usize, usize),
) -> Result<(), Memory>
    requires { side < length piece.now.sides.items }
    ensures { OnOk result (sides_of out.new.items ≡ sides_of out.old.items ++ beside piece.now.sides.items side cells) }
{
    let (begin, end) = piece.sides[side];
    push_part(alloc, out, piece, side, (begin, end.min(cells.0)))?;
    push_part(alloc, out, piece, side, (begin.max(cells.1), end))?;
    Ok(())
}

// Adds the piece itself with other cells on the side, if they are any.
fn move_part(
    out: &mut Vec<IndexBox>,
    piece: IndexBox,
    side: usize,
    cells: (usize, usize),
) -> Result<(), Memory>
    requires { side < length piece.sides.items }
    ensures { OnOk result (sides_of out.new.items ≡ sides_of out.old.items ++ part piece.sides.items side cells) }
{
    if cells.0 < cells.1 {
        let mut sides = piece.sides;
        sides[side] = cells;
        out.push(IndexBox { sides })?;
    }
    Ok(())
}

// Adds the same as `push_beside`, the last of it in the piece's own list.
fn move_beside(
    alloc: Global,
    out: &mut Vec<IndexBox>,
    piece: IndexBox,
    side: usize,
    cells: (usize, usize),
) -> Result<(), Memory>
    requires { side < length piece.sides.items }
    ensures { OnOk result (sides_of out.new.items ≡ sides_of out.old.items ++ beside piece.sides.items side cells) }
{
    let (begin, end) = piece.sides[side];
    let after = (begin.max(cells.1), end);
    if after.0 < after.1 {
        push_part(alloc, out, &piece, side, (begin, end.min(cells.0)))?;
        move_part(out, piece, side, after)?;
    } else {
        move_part(out, piece, side, (begin, end.min(cells.0)))?;
    }
    Ok(())
}

// Adds what of the piece is outside the hole on the first sides: side after side what is beside it there and within it on
// the sides before. Gives what of the piece is within the hole on these sides.
fn within_first(
    alloc: Global,
    out: &mut Vec<IndexBox>,
    piece: IndexBox,
    hole: &Meeting,
    count: usize,
) -> Result<IndexBox, Memory>
    requires same { length piece.sides.items ≡ length hole.now.1 }
    requires within { count ≤ length hole.now.1 }
    ensures out { OnOk result (sides_of out.new.items ≡ sides_of out.old.items ++ outside_to count piece.sides.items hole.now.1) }
    ensures rest { IfOk result (λ v. v.sides.items ≡ narrowed count piece.sides.items hole.now.1) }
    ensures sides { IfOk result (λ v. length v.sides.items ≡ length hole.now.1) }
{
    let mut rest = piece;
    for s in 0..count {
        let cells = hole.sides[s];
        push_beside(alloc, out, &rest, s, cells)?;
        rest.sides[s] = both(rest.sides[s], cells);
    }
    Ok(rest)
}

// Adds what of the piece is outside the hole. What is beside it on the last side has the piece's own list.
fn push_outside(
    alloc: Global,
    out: &mut Vec<IndexBox>,
    piece: IndexBox,
    hole: &Meeting,
) -> Result<(), Memory>
    requires { length piece.sides.items ≡ length hole.now.1 }
    ensures { OnOk result (sides_of out.new.items ≡ sides_of out.old.items ++ outside hole.now.1 piece.sides.items) }
{
    if hole.sides.len() == 0 {
        return Ok(());
    }
    let last = hole.sides.len() - 1;
    let rest = within_first(alloc, out, piece, hole, last)?;
    let cells = hole.sides[last];
    move_beside(alloc, out, rest, last, cells)?;
    Ok(())
}

// The piece is done where it ends before the hole begins; else what of it is outside the hole stays open.
fn push_piece(
    alloc: Global,
    done: &mut Vec<IndexBox>,
    next: &mut Vec<IndexBox>,
    piece: IndexBox,
    hole: &Meeting,
) -> Result<(), Memory>
    requires same { length piece.sides.items ≡ length hole.now.1 }
    ensures done { OnOk result (sides_of done.new.items ≡ sides_of done.old.items ++ past hole.now.1 piece.sides.items) }
    ensures next { OnOk result (sides_of next.new.items ≡ sides_of next.old.items ++ ahead hole.now.1 piece.sides.items) }
{
    if first_cells(piece.sides.as_slice()).1 <= first_cells(hole.sides.as_slice()).0 {
        done.push(piece)?;
    } else {
        push_outside(alloc, next, piece, hole)?;
    }
    Ok(())
}

// The same for each open piece.
fn opened(
    alloc: Global,
    done: &mut Vec<IndexBox>,
    pieces: Vec<IndexBox>,
    hole: &Meeting,
) -> Result<Vec<IndexBox>, Memory>
    requires same { All (λ x. length x.sides.items ≡ length hole.now.1) pieces.items }
    ensures done { OnOk result (sides_of done.new.items ≡ sides_of done.old.items ++ flat_map (λ x. past hole.now.1 x.sides.items) pieces.items) }
    ensures next { IfOk result (λ v. sides_of v.items ≡ flat_map (λ x. ahead hole.now.1 x.sides.items) pieces.items) }
{
    let mut next = Vec::new(alloc);
    for piece in pieces {
        push_piece(alloc, done, &mut next, piece, hole)?;
    }
    Ok(next)
}

// The box of the sides, alone.
fn one_box(alloc: Global, sides: Vec<(usize, usize)>) -> Result<Vec<IndexBox>, Memory>
    ensures { IfOk result (λ v. sides_of v.items ≡ sides.items ∷ []) }
{
    let mut out = Vec::with_capacity(alloc, 1)?;
    out.push(IndexBox { sides })?;
    Ok(out)
}

// Adds the boxes.
fn push_all(out: &mut Vec<IndexBox>, boxes: Vec<IndexBox>) -> Result<(), Memory>
    ensures { OnOk result (out.new.items ≡ out.old.items ++ boxes.items) }
{
    for b in boxes {
        out.push(b)?;
    }
    Ok(())
}

// What of the box of the sides is outside the holes from `first` up to before `end`, which stand by their first cells. So
// a piece that ends before a hole begins is not looked at again; on one side two pieces are open at most.
pub fn less(
    alloc: Global,
    sides: Vec<(usize, usize)>,
    holes: &[Meeting],
    first: usize,
    end: usize,
) -> Result<Vec<IndexBox>, Memory>
    requires range { first ≤ end }
    requires within { end ≤ length holes.now }
    requires same { (q : ℕ) (m : Met) → IsRow holes.now q m → first ≤ q → q < end → length m.1 ≡ length sides.items }
    requires order { (q r : ℕ) (m n : Met) → IsRow holes.now q m → IsRow holes.now r n → first ≤ q → q ≤ r → r < end → (first_of m.1).0 ≤ (first_of n.1).0 }
    ensures grid_points { IfOk result (λ v. (grid_point : List ℕ) → length grid_point ≡ length sides.items →
        HasBox (sides_of v.items) grid_point ↔ At sides.items grid_point × IsClear holes.now first end grid_point) }
    ensures lengths { IfOk result (λ v. All (λ x. length x.sides.items ≡ length sides.items) v.items) }
    ensures ends { IfOk result (λ v. (z : List (ℕ × ℕ)) → Among z (sides_of v.items) → EndsBy sides.items z) }
{
    let mut pieces = one_box(alloc, sides)?;
    let mut done = Vec::new(alloc);
    for h in first..end {
        pieces = opened(alloc, &mut done, pieces, &holes[h])?;
    }
    push_all(&mut done, pieces)?;
    Ok(done)
}
