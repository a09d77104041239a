// The rows that are live, kept up to date from cell to cell of a side.
ghost use Rattle.std.specs.Prelude.{◌≡◌, ℕ, ◌<◌, ◌≤◌, ◌↔◌, ◌⊎◌, List, length, slice_index_or, map, IfOk, true};
ghost use Rattle.std.specs.List.{All, filter};
ghost use Rattle.std.specs.List.Sorted.{IsStrictlySortedBy};
ghost use Rattle.std.specs.Ordering.{nat_cmp};
ghost use Rattle.cell_packing.specs.Covering.{Among};
ghost use Rattle.cell_packing.specs.Live.{span_has, side_has};
ghost use Rattle.cell_sweep.specs.PackedRows.{span_of};
ghost use Rattle.cell_sweep.specs.Rows.{sides_of};
ghost use Rattle.cell_sweep.specs.Sweeps.{AreStarts, AreLive, ComesTo, IsSweep};

use crate::inward::IndexBox;
use point_core::Memory;
use std::alloc::Global;

// A sweep over the cells of a side: the first cells of the rows with the rows, by the cell; how many of them have
// begun; and the rows that are live.
#[derive(Drop)]
pub struct Sweep {
    pub starts: Vec<(usize, usize)>,
    pub next: usize,
    pub live: Vec<usize>,
}

// The first cell of each row, with the row.
fn first_cells(
    alloc: Global,
    boxes: &[IndexBox],
    rows: &[usize],
    side: usize,
) -> Result<Vec<(usize, usize)>, Memory>
    requires rows { All (λ r. r < length boxes.now) rows.now }
    requires sides { All (λ x. side < length x.sides.items) boxes.now }
    ensures { IfOk result (λ v. v.items ≡ map (λ r. ((span_of (sides_of boxes.now) side r).0, r)) rows.now) }
{
    let mut out = Vec::with_capacity(alloc, rows.len())?;
    for r in rows {
        let span = boxes[*r].sides[side];
        out.push((span.0, *r))?;
    }
    Ok(out)
}

// The same by the cell.
fn starts_of(
    alloc: Global,
    boxes: &[IndexBox],
    rows: &[usize],
    side: usize,
) -> Result<Vec<(usize, usize)>, Memory>
    requires rows { All (λ r. r < length boxes.now) rows.now }
    requires sides { All (λ x. side < length x.sides.items) boxes.now }
    ensures { IfOk result (λ v. AreStarts (sides_of boxes.now) side rows.now v.items) }
{
    let mut starts = first_cells(alloc, boxes, rows, side)?;
    starts.sort()?;
    Ok(starts)
}

// A sweep before the first cell.
pub fn sweep_of(
    alloc: Global,
    boxes: &[IndexBox],
    rows: &[usize],
    side: usize,
) -> Result<Sweep, Memory>
    requires rows { All (λ r. r < length boxes.now) rows.now }
    requires sides { All (λ x. side < length x.sides.items) boxes.now }
    ensures { IfOk result (λ s. IsSweep (sides_of boxes.now) side rows.now 0 s) }
{
    let starts = starts_of(alloc, boxes, rows, side)?;
    let live = Vec::with_capacity(alloc, rows.len())?;
    Ok(Sweep {
        starts,
        next: 0,
        live,
    })
}

// The live rows, with those that begin by the cell, from `first` on; and how many have begun.
fn begun(
    starts: &[(usize, usize)],
    first: usize,
    live: Vec<usize>,
    cell: usize,
) -> Result<(usize, Vec<usize>), Memory>
    requires { first ≤ length starts.now }
    ensures from { IfOk result (λ v. first ≤ v.0) }
    ensures within { IfOk result (λ v. v.0 ≤ length starts.now) }
    ensures passed { IfOk result (λ v. (j : ℕ) → first ≤ j → j < v.0 → (slice_index_or {A = ℕ × ℕ} starts.now j (0, 0)).0 ≤ cell) }
    ensures ahead { IfOk result (λ v. v.0 < length starts.now → cell < (slice_index_or {A = ℕ × ℕ} starts.now v.0 (0, 0)).0) }
    ensures rows { IfOk result (λ v. (r : ℕ) → Among r v.1.items ↔ Among r live.items ⊎ ((j : ℕ) × (first ≤ j) × (j < v.0) × ((slice_index_or {A = ℕ × ℕ} starts.now j (0, 0)).1 ≡ r))) }
{
    let mut rows = live;
    let mut next = first;
    while next < starts.len() && starts[next].0 <= cell {
        rows.push(starts[next].1)?;
        next += 1;
    }
    Ok((next, rows))
}

fn has(span: (usize, usize), cell: usize) -> bool
    ensures { result ≡ span_has span cell }
{
    span.0 <= cell && cell < span.1
}

// Whether the side of the row has the cell; it has none where there is no such row or side.
fn side_has_cell(boxes: &[IndexBox], row: usize, side: usize, cell: usize) -> bool
    ensures { result ≡ side_has (sides_of boxes.now) side cell row }
{
    row < boxes.len() && side < boxes[row].sides.len() && has(boxes[row].sides[side], cell)
}

// Whether each number is less than the next one.
fn rise(numbers: &[usize]) -> bool
    ensures { result ≡ true → IsStrictlySortedBy nat_cmp numbers.now }
{
    let mut at = 1;
    while at < numbers.len() && numbers[at - 1] < numbers[at] {
        at += 1;
    }
    at >= numbers.len()
}

// The rows that have the cell, in order, each once.
fn in_order_at(
    boxes: &[IndexBox],
    rows: Vec<usize>,
    side: usize,
    cell: usize,
) -> Result<Vec<usize>, Memory>
    ensures { IfOk result (λ v. AreLive (sides_of boxes.now) side cell rows.items v.items) }
{
    let mut here = rows;
    here.retain(|row: &usize| side_has_cell(boxes, *row, side, cell));
    if rise(here.as_slice()) {
        return Ok(here);
    }
    here.sort()?;
    here.dedup();
    Ok(here)
}

// The sweep, come to the cell.
pub fn advance(sweep: Sweep, boxes: &[IndexBox], side: usize, cell: usize) -> Result<Sweep, Memory>
    requires starts { All (λ x. x.1 < length boxes.now) sweep.starts.items }
    requires within { sweep.next ≤ length sweep.starts.items }
    requires live { All (λ r. r < length boxes.now) sweep.live.items }
    requires sides { All (λ x. side < length x.sides.items) boxes.now }
    ensures live { IfOk result (λ s. ComesTo (sides_of boxes.now) side cell sweep (λ rows. s.live.items ≡ filter (side_has (sides_of boxes.now) side cell) rows)) }
    ensures sweep { IfOk result (λ s. ComesTo (sides_of boxes.now) side cell sweep (λ rows. IsSweep (sides_of boxes.now) side rows cell s)) }
{
    let Sweep { starts, next, live } = sweep;
    let (next, rows) = begun(starts.as_slice(), next, live, cell)?;
    let live = in_order_at(boxes, rows, side, cell)?;
    Ok(Sweep { starts, next, live })
}
