// Boxes with a cell between any two of them are their own packed form.
ghost use Rattle.std.specs.Prelude.{◌≡◌, ℕ, suc, true, ◌<◌, ◌≤◌, ◌↔◌, ◌++◌, List, length, map, IfOk, OnOk};
ghost use Rattle.std.specs.List.{All};
ghost use Rattle.std.specs.List.Sorted.{IsStrictlySortedBy};
ghost use Rattle.cell_packing.specs.Covering.{Among};
ghost use Rattle.cell_packing.specs.Live.{box};
ghost use Rattle.cell_sweep.specs.PackedRows.{IsUnitedRow, labelled, span_of};
ghost use Rattle.cell_sweep.specs.Parted.{IsGap, AreParted, HasCells, ComesBefore, EndsBefore, IsClear, StandsApart, AreApartRows, live_row};
ghost use Rattle.cell_sweep.specs.Rows.{sides_of, key_cmp, AreRows};
ghost use Rattle.cell_sweep.specs.declared.bare.NoLabel.{NoLabel as AnyBare};

use crate::bare::NoLabel;
use crate::inward::IndexBox;
use crate::key::CellBox;
use crate::united::united;
use point_core::{Label, Memory};
use std::alloc::Global;

// So many rows at most are looked at after a row, to see whether it is parted from the rest.
const MOST_ROWS_LOOKED_AT: usize = 16;

// The cells of the row on the side.
fn span(boxes: &[IndexBox], row: usize, side: usize) -> (usize, usize)
    requires row { row < length boxes.now }
    requires sides { All (λ x. side < length x.sides.items) boxes.now }
    ensures { result ≡ span_of (sides_of boxes.now) side row }
{
    boxes[row].sides[side]
}

// Whether a cell lies between the cells of both.
fn is_gap(x: (usize, usize), y: (usize, usize)) -> bool
    ensures { result ≡ true → IsGap x y }
{
    x.1 < y.0 || y.1 < x.0
}

// Whether the row has the sides and no more, and cells on each of them.
fn has_cells(boxes: &[IndexBox], sides: usize, row: usize) -> bool
    requires row { row < length boxes.now }
    requires sides { All (λ x. sides ≤ length x.sides.items) boxes.now }
    ensures { result ≡ true → HasCells (sides_of boxes.now) sides row }
{
    let mut side = 0;
    while side < sides && is_some(span(boxes, row, side)) {
        side += 1;
    }
    side == sides && boxes[row].sides.len() == sides
}

// Whether there is a cell.
fn is_some(x: (usize, usize)) -> bool
    ensures { result ≡ true → x.0 < x.1 }
{
    x.0 < x.1
}

// Whether a cell lies between the rows on one of the sides.
fn are_parted(boxes: &[IndexBox], sides: usize, row: usize, other: usize) -> bool
    requires row { row < length boxes.now }
    requires other { other < length boxes.now }
    requires sides { All (λ x. sides ≤ length x.sides.items) boxes.now }
    ensures { result ≡ true → AreParted (sides_of boxes.now) sides row other }
{
    let mut side = 0;
    while side < sides && !is_gap(span(boxes, row, side), span(boxes, other, side)) {
        side += 1;
    }
    side < sides
}

// Whether the row comes before the other.
fn comes_before(boxes: &[IndexBox], row: usize, other: usize) -> bool
    requires row { row < length boxes.now }
    requires other { other < length boxes.now }
    ensures { result ≡ true → ComesBefore (sides_of boxes.now) row other }
{
    boxes[row].sides.cmp(&boxes[other].sides).is_lt()
}

// Whether the row ends before the other begins, on their first side.
fn ends_before(boxes: &[IndexBox], row: usize, other: usize) -> bool
    requires row { row < length boxes.now }
    requires other { other < length boxes.now }
    requires sides { All (λ x. 0 < length x.sides.items) boxes.now }
    ensures { result ≡ true → EndsBefore (sides_of boxes.now) row other }
{
    span(boxes, row, 0).1 < span(boxes, other, 0).0
}

// Whether the other begins by the row's end on their first side, and is parted from it on another.
fn is_parted_near(boxes: &[IndexBox], sides: usize, row: usize, other: usize) -> bool
    requires row { row < length boxes.now }
    requires other { other < length boxes.now }
    requires some { 0 < sides }
    requires sides { All (λ x. sides ≤ length x.sides.items) boxes.now }
    ensures { result ≡ true → AreParted (sides_of boxes.now) sides row other }
{
    !ends_before(boxes, row, other) && are_parted(boxes, sides, row, other)
}

// Whether the live row is parted from those after it; `MOST_ROWS_LOOKED_AT` of them are looked at, at most.
fn is_clear(boxes: &[IndexBox], sides: usize, live: &[usize], at: usize) -> bool
    requires at { at < length live.now }
    requires rows { All (λ r. r < length boxes.now) live.now }
    requires some { 0 < sides }
    requires sides { All (λ x. sides ≤ length x.sides.items) boxes.now }
    ensures { result ≡ true → IsClear (sides_of boxes.now) sides live.now at }
{
    let row = live[at];
    let mut next = at + 1;
    while next < live.len()
        && next - at <= MOST_ROWS_LOOKED_AT
        && is_parted_near(boxes, sides, row, live[next])
    {
        next += 1;
    }
    next == live.len() || ends_before(boxes, row, live[next])
}

// Whether the live row comes before the next one.
fn is_in_order(boxes: &[IndexBox], live: &[usize], at: usize) -> bool
    requires at { at < length live.now }
    requires rows { All (λ r. r < length boxes.now) live.now }
    ensures { result ≡ true → suc at < length live.now → ComesBefore (sides_of boxes.now) (live_row live.now at) (live_row live.now (suc at)) }
{
    at + 1 == live.len() || comes_before(boxes, live[at], live[at + 1])
}

// Whether the live row has cells, comes before the next one, and is parted from those after it.
fn stands_apart(boxes: &[IndexBox], sides: usize, live: &[usize], at: usize) -> bool
    requires at { at < length live.now }
    requires rows { All (λ r. r < length boxes.now) live.now }
    requires some { 0 < sides }
    requires sides { All (λ x. sides ≤ length x.sides.items) boxes.now }
    ensures { result ≡ true → StandsApart (sides_of boxes.now) sides live.now at }
{
    has_cells(boxes, sides, live[at])
        && is_in_order(boxes, live, at)
        && is_clear(boxes, sides, live, at)
}

// Whether the live boxes are seen to be apart: not where too many of them lie side by side on their first side.
fn are_apart(boxes: &[IndexBox], sides: usize, live: &[usize]) -> bool
    requires rows { All (λ r. r < length boxes.now) live.now }
    requires sides { All (λ x. sides ≤ length x.sides.items) boxes.now }
    ensures { result ≡ true → AreApartRows (sides_of boxes.now) sides live.now }
{
    if sides < 2 {
        return false;
    }
    let mut at = 0;
    while at < live.len() && stands_apart(boxes, sides, live, at) {
        at += 1;
    }
    at == live.len()
}

// The sides of the box, in memory of their own.
fn copied_sides(alloc: Global, sides: &[(usize, usize)]) -> Result<Vec<(usize, usize)>, Memory>
    ensures { IfOk result (λ v. v.items ≡ sides.now) }
{
    let mut copy = Vec::with_capacity(alloc, sides.len())?;
    copy.extend_from_slice(sides)?;
    Ok(copy)
}

// Adds the live boxes, each with the label.
fn push_copies<P: Label>(
    alloc: Global,
    out: &mut Vec<CellBox<P>>,
    label: &P,
    boxes: &[IndexBox],
    live: &[usize],
) -> Result<(), Memory>
    requires rows { All (λ r. r < length boxes.now) live.now }
    ensures { OnOk result (out.new.items ≡ out.old.items ++ map (λ r. (label.now, box (sides_of boxes.now) r)) live.now) }
{
    for r in live {
        let own = label.copy(alloc)?;
        let sides = copied_sides(alloc, boxes[*r].sides.as_slice())?;
        out.push(CellBox { label: own, sides })?;
    }
    Ok(())
}

// Adds the rows, each with the label.
fn push_labelled<P: Label>(
    alloc: Global,
    out: &mut Vec<CellBox<P>>,
    label: &P,
    rows: Vec<CellBox<NoLabel>>,
) -> Result<(), Memory>
    ensures { OnOk result (out.new.items ≡ out.old.items ++ map (labelled label.now) rows.items) }
{
    for row in rows {
        let own = label.copy(alloc)?;
        out.push(CellBox {
            label: own,
            sides: row.sides,
        })?;
    }
    Ok(())
}

// Adds the packed form of the live boxes on their first sides, each row with the label: they themselves, where they are
// seen to be apart; else made from slices.
pub fn push_packed<P: Label>(
    alloc: Global,
    sides: usize,
    out: &mut Vec<CellBox<P>>,
    label: &P,
    boxes: &[IndexBox],
    live: &[usize],
) -> Result<(), Memory>
    requires rows { AreRows 0 (length boxes.now) live.now }
    requires sides { All (λ x. sides ≤ length x.sides.items) boxes.now }
    ensures { OnOk result ((rows : List (AnyBare × List (ℕ × ℕ))) × (out.new.items ≡ out.old.items ++ map (labelled label.now) rows) ×
        ((x : AnyBare × List (ℕ × ℕ)) → Among x rows ↔ (length x.1 ≡ sides) × IsUnitedRow sides (sides_of boxes.now) live.now x) ×
        IsStrictlySortedBy (key_cmp ⟦<NoLabel as Label>⟧.order) rows) }
{
    if are_apart(boxes, sides, live) {
        push_copies(alloc, out, label, boxes, live)?;
        return Ok(());
    }
    let rows = united(alloc, sides, boxes, live)?;
    push_labelled(alloc, out, label, rows)?;
    Ok(())
}
