// The longest runs of cells of boxes on their first side.
ghost use Rattle.std.specs.Prelude.{◌≡◌, ℕ, ◌<◌, ◌≤◌, ◌↔◌, ◌⊎◌, List, length, ◌++◌, map, IfOk, OnOk, true};
ghost use Rattle.std.specs.List.{All};
ghost use Rattle.std.specs.List.Sorted.{IsStrictlySortedBy};
ghost use Rattle.cell_packing.specs.Covering.{Among};
ghost use Rattle.cell_packing.specs.Pieces.{AreApart, Covers};
ghost use Rattle.cell_sweep.specs.PackedRows.{IsUnitedRow, bare, span_of, alone};
ghost use Rattle.cell_sweep.specs.TwoSides.{run_row, bare_cmp, bare_spans, BeginInTurn, NoneAfter};
ghost use Rattle.cell_sweep.specs.Rows.{sides_of, key_cmp};
ghost use Rattle.cell_sweep.specs.declared.bare.NoLabel.{NoLabel as AnyBare};

use crate::bare::NoLabel;
use crate::inward::IndexBox;
use crate::key::CellBox;
use cell_packing::{Piece, add, join};
use point_core::{Label, Memory};
use std::alloc::Global;

// Adds the cells, if they are any.
fn push_span(out: &mut Vec<Piece<NoLabel>>, span: (usize, usize)) -> Result<(), Memory>
    ensures { OnOk result (out.new.items ≡ out.old.items ++ alone bare span) }
{
    if span.0 < span.1 {
        out.push(Piece {
            key: NoLabel,
            begin: span.0,
            end: span.1,
        })?;
    }
    Ok(())
}

// The cells of the row on its first side.
fn first_span(boxes: &[IndexBox], row: usize) -> (usize, usize)
    requires row { row < length boxes.now }
    requires sides { All (λ x. 0 < length x.sides.items) boxes.now }
    ensures { result ≡ span_of (sides_of boxes.now) 0 row }
{
    boxes[row].sides[0]
}

// The first of them.
fn begin_of(boxes: &[IndexBox], row: usize) -> usize
    requires row { row < length boxes.now }
    requires sides { All (λ x. 0 < length x.sides.items) boxes.now }
    ensures { result ≡ (span_of (sides_of boxes.now) 0 row).0 }
{
    first_span(boxes, row).0
}

// The cells of the live rows on their first side.
fn first_spans(
    alloc: Global,
    boxes: &[IndexBox],
    live: &[usize],
) -> Result<Vec<Piece<NoLabel>>, Memory>
    requires rows { All (λ r. r < length boxes.now) live.now }
    requires sides { All (λ x. 0 < length x.sides.items) boxes.now }
    ensures { IfOk result (λ v. v.items ≡ bare_spans (sides_of boxes.now) live.now) }
{
    let mut out = Vec::with_capacity(alloc, live.len())?;
    for r in live {
        push_span(&mut out, first_span(boxes, *r))?;
    }
    Ok(out)
}

// Whether none of the rows begins before the one before it on their first side.
fn begin_in_turn(boxes: &[IndexBox], rows: &[usize]) -> bool
    requires rows { All (λ r. r < length boxes.now) rows.now }
    requires sides { All (λ x. 0 < length x.sides.items) boxes.now }
    ensures { result ≡ true → BeginInTurn (sides_of boxes.now) rows.now }
{
    let mut at = 1;
    while at < rows.len() && begin_of(boxes, rows[at - 1]) <= begin_of(boxes, rows[at]) {
        at += 1;
    }
    at >= rows.len()
}

// Adds the cells, if they are any, to runs of which none begins after them.
fn add_span(runs: &mut Vec<Piece<NoLabel>>, span: (usize, usize)) -> Result<(), Memory>
    requires apart { AreApart bare_cmp runs.old.items }
    requires order { NoneAfter span.0 runs.old.items }
    ensures apart { OnOk result (AreApart bare_cmp runs.new.items) }
    ensures covers { OnOk result ((k : AnyBare) (i : ℕ) → Covers bare_cmp runs.new.items k i ↔ Covers bare_cmp runs.old.items k i ⊎ Covers bare_cmp (alone bare span) k i) }
    ensures order { OnOk result ((n : ℕ) → span.0 ≤ n → NoneAfter n runs.old.items → NoneAfter n runs.new.items) }
{
    if span.0 < span.1 {
        add(
            runs,
            Piece {
                key: NoLabel,
                begin: span.0,
                end: span.1,
            },
        )?;
    }
    Ok(())
}

// The longest runs of cells of rows that begin in turn, in the memory of the list.
fn runs_in_turn(
    memory: Vec<Piece<NoLabel>>,
    boxes: &[IndexBox],
    rows: &[usize],
) -> Result<Vec<Piece<NoLabel>>, Memory>
    requires rows { All (λ r. r < length boxes.now) rows.now }
    requires sides { All (λ x. 0 < length x.sides.items) boxes.now }
    requires turn { BeginInTurn (sides_of boxes.now) rows.now }
    ensures apart { IfOk result (λ v. AreApart bare_cmp v.items) }
    ensures covers { IfOk result (λ v. (k : AnyBare) (i : ℕ) → Covers bare_cmp v.items k i ↔ Covers bare_cmp (bare_spans (sides_of boxes.now) rows.now) k i) }
{
    let mut runs = memory;
    runs.clear();
    for r in rows {
        let span = first_span(boxes, *r);
        add_span(&mut runs, span)?;
    }
    Ok(runs)
}

// The longest runs of cells of the live rows on their first side. Those that begin in turn, as rows mostly do, take no
// memory but that of the list.
fn runs_of(
    alloc: Global,
    memory: Vec<Piece<NoLabel>>,
    boxes: &[IndexBox],
    live: &[usize],
) -> Result<Vec<Piece<NoLabel>>, Memory>
    requires rows { All (λ r. r < length boxes.now) live.now }
    requires sides { All (λ x. 0 < length x.sides.items) boxes.now }
    ensures apart { IfOk result (λ v. AreApart bare_cmp v.items) }
    ensures covers { IfOk result (λ v. (k : AnyBare) (i : ℕ) → Covers bare_cmp v.items k i ↔ Covers bare_cmp (bare_spans (sides_of boxes.now) live.now) k i) }
{
    if begin_in_turn(boxes, live) {
        let runs = runs_in_turn(memory, boxes, live)?;
        return Ok(runs);
    }
    let pieces = first_spans(alloc, boxes, live)?;
    let runs = join(alloc, pieces)?;
    Ok(runs)
}

// The same, as rows of one side.
pub fn first_runs(
    alloc: Global,
    memory: Vec<Piece<NoLabel>>,
    boxes: &[IndexBox],
    live: &[usize],
) -> Result<Vec<Piece<NoLabel>>, Memory>
    requires rows { All (λ r. r < length boxes.now) live.now }
    requires sides { All (λ x. 0 < length x.sides.items) boxes.now }
    ensures rows { IfOk result (λ v. (x : AnyBare × List (ℕ × ℕ)) → Among x (map run_row v.items) ↔ (length x.1 ≡ 1) × IsUnitedRow 1 (sides_of boxes.now) live.now x) }
    ensures sorted { IfOk result (λ v. IsStrictlySortedBy (key_cmp ⟦<NoLabel as Label>⟧.order) (map run_row v.items)) }
{
    let runs = runs_of(alloc, memory, boxes, live)?;
    Ok(runs)
}

// The run as a row of one side.
fn row_of(alloc: Global, run: &Piece<NoLabel>) -> Result<CellBox<NoLabel>, Memory>
    ensures { IfOk result (λ k. k ≡ run_row run.now) }
{
    let mut sides = Vec::with_capacity(alloc, 1)?;
    sides.push((run.begin, run.end))?;
    Ok(CellBox {
        label: NoLabel,
        sides,
    })
}

// The same of each.
fn rows_of(alloc: Global, runs: &[Piece<NoLabel>]) -> Result<Vec<CellBox<NoLabel>>, Memory>
    ensures { IfOk result (λ v. v.items ≡ map run_row runs.now) }
{
    let mut out = Vec::with_capacity(alloc, runs.len())?;
    for run in runs {
        let row = row_of(alloc, run)?;
        out.push(row)?;
    }
    Ok(out)
}

// The packed form on one side.
pub fn on_one_side(
    alloc: Global,
    boxes: &[IndexBox],
    live: &[usize],
) -> Result<Vec<CellBox<NoLabel>>, Memory>
    requires rows { All (λ r. r < length boxes.now) live.now }
    requires sides { All (λ x. 0 < length x.sides.items) boxes.now }
    ensures rows { IfOk result (λ v. (x : AnyBare × List (ℕ × ℕ)) → Among x v.items ↔ (length x.1 ≡ 1) × IsUnitedRow 1 (sides_of boxes.now) live.now x) }
    ensures sorted { IfOk result (λ v. IsStrictlySortedBy (key_cmp ⟦<NoLabel as Label>⟧.order) v.items) }
{
    let runs = first_runs(alloc, Vec::new(alloc), boxes, live)?;
    let rows = rows_of(alloc, runs.as_slice())?;
    Ok(rows)
}
