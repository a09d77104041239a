// The pairs of rows of one key that may meet, sought on the side that parts the rows best.
ghost use Rattle.std.specs.Prelude.{◌≡◌, ℕ, ◌<◌, ◌↔◌, ◌⊎◌, true, false, [], ◌∷◌, length, get_or, map, IfOk};
ghost use Rattle.std.specs.List.{All};
ghost use Rattle.cell_packing.specs.Covering.{Among};
ghost use Rattle.cell_packing.specs.Packed.{no_cells};
ghost use Rattle.cell_boxes.specs.Answers.{PlainKeyedCellBox};
ghost use Rattle.cell_boxes.specs.Meetings.{IsLater, turned};
ghost use Rattle.cell_boxes.specs.Rows.{Ascend};
ghost use Rattle.cell_boxes.specs.Sides.{AreCandidates, IsOnSide, AreOnSide, renumbered as renumbered_as};

use crate::keyed::{KeyedCellBox, keys_sorted};
use crate::later::{later, push_turned};
use cell_sweep::CellBox;
use point_core::{Label, Memory};
use std::alloc::Global;

// The cells of the box on the side.
fn cells_on(sides: &[(usize, usize)], side: usize) -> (usize, usize)
    ensures { result ≡ get_or sides.now side no_cells }
{
    if side < sides.len() {
        return sides[side];
    }
    (0, 0)
}

// How long the rows are on the side together, and how far they reach there, with what is known so of others.
fn lengths_on<P>(rows: &[CellBox<P>], side: usize, known: (u128, u128)) -> (u128, u128) {
    let mut total = known.0;
    let mut extent = known.1;
    for row in rows {
        let (begin, end) = cells_on(row.sides.as_slice(), side);
        total = total.saturating_add(end.saturating_sub(begin) as u128);
        extent = extent.max(end as u128);
    }
    (total, extent)
}

// Whether rows of the first lengths are shorter for the length of their axis than those of the second.
fn are_shorter(first: (u128, u128), second: (u128, u128)) -> bool {
    first.0.saturating_mul(second.1) < second.0.saturating_mul(first.1)
}

// Whether they are at most half as long.
fn are_half(first: (u128, u128), second: (u128, u128)) -> bool {
    let twice = first.0.saturating_mul(2);
    twice.saturating_mul(second.1) <= second.0.saturating_mul(first.1)
}

// Whether rows of the lengths are to be sought on their side, where on the first side they have the second lengths, and
// on the best side so far the third.
fn are_better(lengths: (u128, u128), first: (u128, u128), least: (u128, u128)) -> bool {
    are_half(lengths, first) && are_shorter(lengths, least)
}

// The side on which the rows are shortest for the length of the axis, the first of these: the fewest overlap there where
// they are spread alike. Another side than the first costs a sort of its own, since the rows stand in the order of the
// first: so only one where they are at most half as long as there. This is an estimate; any side would do.
fn best_side<P>(sides: usize, left: &[CellBox<P>], right: &[CellBox<P>]) -> usize
    ensures { (result ≡ 0) ⊎ (result < sides) }
{
    if sides <= 1 {
        return 0;
    }
    let mut best = 0;
    let first = lengths_on(right, 0, lengths_on(left, 0, (0, 0)));
    let mut least = first;
    for side in 1..sides {
        let lengths = lengths_on(right, side, lengths_on(left, side, (0, 0)));
        if are_better(lengths, first, least) {
            best = side;
            least = lengths;
        }
    }
    best
}

// The pairs of rows of one key that overlap on the first side, each once: for a left row the rights that begin within it,
// and for a right row the lefts that begin within it and after its first cell.
fn pairs_on_first<P: Label>(
    alloc: Global,
    left: &[CellBox<P>],
    right: &[CellBox<P>],
) -> Result<Vec<(usize, usize)>, Memory>
    requires left { Ascend P.order left.now }
    requires right { Ascend P.order right.now }
    ensures { IfOk result (λ v. (p : ℕ × ℕ) → Among p v.items ↔ IsLater P.order false left.now right.now p ⊎ IsLater P.order true right.now left.now (turned p)) }
{
    let mut pairs = later(alloc, left, right, false)?;
    let others = later(alloc, right, left, true)?;
    push_turned(&mut pairs, others.as_slice())?;
    Ok(pairs)
}

// The row with its number, and its cells on the side alone.
fn row_on_side<P: Label>(
    alloc: Global,
    row: &CellBox<P>,
    number: usize,
    side: usize,
) -> Result<KeyedCellBox<P, usize>, Memory>
    ensures key { IfOk result (λ z. row.now.0 ≡ z.0) }
    ensures number { IfOk result (λ z. z.1 ≡ number) }
    ensures sides { IfOk result (λ z. get_or row.now.1 side no_cells ∷ [] ≡ z.2) }
{
    let key = row.label.copy(alloc)?;
    let cells = cells_on(row.sides.as_slice(), side);
    let mut sides = Vec::with_capacity(alloc, 1)?;
    sides.push(cells)?;
    Ok(KeyedCellBox {
        key,
        label: number,
        sides,
    })
}

// The same of each row.
fn rows_on_side<P: Label>(
    alloc: Global,
    rows: &[CellBox<P>],
    side: usize,
) -> Result<Vec<KeyedCellBox<P, usize>>, Memory>
    ensures { IfOk result (λ v. (z : PlainKeyedCellBox P ℕ) → Among z v.items ↔ IsOnSide side rows.now z) }
{
    let mut out = Vec::with_capacity(alloc, rows.len())?;
    for i in 0..rows.len() {
        let row = row_on_side(alloc, &rows[i], i, side)?;
        out.push(row)?;
    }
    Ok(out)
}

// The rows on the side by their keys and first cells there: the boxes with their keys, and the numbers.
fn side_in_order<P: Label>(
    alloc: Global,
    rows: &[CellBox<P>],
    side: usize,
) -> Result<(Vec<CellBox<P>>, Vec<usize>), Memory>
    ensures rows { IfOk result (λ v. AreOnSide side rows.now v.0.items v.1.items) }
    ensures order { IfOk result (λ v. Ascend P.order v.0.items) }
{
    let numbered = rows_on_side(alloc, rows, side)?;
    let (keys, numbers) = keys_sorted(alloc, numbered)?;
    Ok((keys, numbers))
}

// The pairs of what stands at their numbers.
fn renumbered(
    alloc: Global,
    pairs: &[(usize, usize)],
    lefts: &[usize],
    rights: &[usize],
) -> Result<Vec<(usize, usize)>, Memory>
    requires { All (λ p. (p.0 < length lefts.now) × (p.1 < length rights.now)) pairs.now }
    ensures { IfOk result (λ v. v.items ≡ map (renumbered_as lefts.now rights.now) pairs.now) }
{
    let mut out = Vec::with_capacity(alloc, pairs.len())?;
    for p in pairs {
        out.push((lefts[p.0], rights[p.1]))?;
    }
    Ok(out)
}

// The pairs of rows of one key that overlap on the side.
fn pairs_on_side<P: Label>(
    alloc: Global,
    side: usize,
    left: &[CellBox<P>],
    right: &[CellBox<P>],
) -> Result<Vec<(usize, usize)>, Memory>
    requires left { All (λ x. side < length x.1) left.now }
    requires right { All (λ x. side < length x.1) right.now }
    ensures { IfOk result (λ v. AreCandidates P.order left.now right.now v.items) }
{
    let (lefts, left_numbers) = side_in_order(alloc, left, side)?;
    let (rights, right_numbers) = side_in_order(alloc, right, side)?;
    let pairs = pairs_on_first(alloc, lefts.as_slice(), rights.as_slice())?;
    let out = renumbered(
        alloc,
        pairs.as_slice(),
        left_numbers.as_slice(),
        right_numbers.as_slice(),
    )?;
    Ok(out)
}

// Pairs of rows of one key, among them all that meet: those that overlap on the first side, or on another where that seems
// to be far fewer.
pub fn pairs_on_best_side<P: Label>(
    alloc: Global,
    sides: usize,
    left: &[CellBox<P>],
    right: &[CellBox<P>],
) -> Result<Vec<(usize, usize)>, Memory>
    requires left { All (λ x. length x.1 ≡ sides) left.now }
    requires right { All (λ x. length x.1 ≡ sides) right.now }
    requires left_order { Ascend P.order left.now }
    requires right_order { Ascend P.order right.now }
    ensures { IfOk result (λ v. AreCandidates P.order left.now right.now v.items) }
{
    let side = best_side(sides, left, right);
    if side == 0 {
        let pairs = pairs_on_first(alloc, left, right)?;
        return Ok(pairs);
    }
    let pairs = pairs_on_side(alloc, side, left, right)?;
    Ok(pairs)
}
