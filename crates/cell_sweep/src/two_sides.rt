// Boxes of cells on two sides as one set, packed: from slab to slab of the second side the runs of the first one.
ghost use Rattle.std.specs.Prelude.{◌≡◌, ℕ, ◌<◌, ◌≤◌, ◌↔◌, List, length, ◌++◌, map, IfOk, OnOk};
ghost use Rattle.std.specs.List.{All};
ghost use Rattle.std.specs.List.Sorted.{IsStrictlySortedBy};
ghost use Rattle.cell_packing.specs.Covering.{Among};
ghost use Rattle.cell_sweep.specs.PackedRows.{IsUnitedRow};
ghost use Rattle.cell_sweep.specs.TwoSides.{slab, slab_row};
ghost use Rattle.cell_sweep.specs.Rows.{sides_of, key_cmp, AreRows};
ghost use Rattle.cell_sweep.specs.declared.bare.NoLabel.{NoLabel as AnyBare};

use crate::bare::NoLabel;
use crate::cuts::cuts_at;
use crate::inward::IndexBox;
use crate::key::CellBox;
use crate::live::{advance, sweep_of};
use crate::runs::first_runs;
use cell_packing::{Piece, join};
use point_core::{Label, Memory};
use std::alloc::Global;

// Adds the runs, each over the cells of the second side from `begin` up to before `end`.
fn push_slab(
    out: &mut Vec<Piece<(usize, usize)>>,
    runs: &[Piece<NoLabel>],
    begin: usize,
    end: usize,
) -> Result<(), Memory>
    ensures { OnOk result (out.new.items ≡ out.old.items ++ map (slab begin end) runs.now) }
{
    for run in runs {
        out.push(Piece {
            key: (run.begin, run.end),
            begin,
            end,
        })?;
    }
    Ok(())
}

// The cells of both sides, as a row.
fn row_of(alloc: Global, piece: &Piece<(usize, usize)>) -> Result<CellBox<NoLabel>, Memory>
    ensures { IfOk result (λ k. k ≡ slab_row piece.now) }
{
    let mut sides = Vec::with_capacity(alloc, 2)?;
    sides.push(piece.key)?;
    sides.push((piece.begin, piece.end))?;
    Ok(CellBox {
        label: NoLabel,
        sides,
    })
}

// The same of each.
fn rows_of(alloc: Global, pieces: &[Piece<(usize, usize)>]) -> Result<Vec<CellBox<NoLabel>>, Memory>
    ensures { IfOk result (λ v. v.items ≡ map slab_row pieces.now) }
{
    let mut out = Vec::with_capacity(alloc, pieces.len())?;
    for piece in pieces {
        let row = row_of(alloc, piece)?;
        out.push(row)?;
    }
    Ok(out)
}

// The packed form of the live boxes on their first two sides.
pub fn on_two_sides(
    alloc: Global,
    boxes: &[IndexBox],
    live: &[usize],
) -> Result<Vec<CellBox<NoLabel>>, Memory>
    requires rows { AreRows 0 (length boxes.now) live.now }
    requires sides { All (λ x. 2 ≤ length x.sides.items) boxes.now }
    ensures rows { IfOk result (λ v. (x : AnyBare × List (ℕ × ℕ)) → Among x v.items ↔ (length x.1 ≡ 2) × IsUnitedRow 2 (sides_of boxes.now) live.now x) }
    ensures sorted { IfOk result (λ v. IsStrictlySortedBy (key_cmp ⟦<NoLabel as Label>⟧.order) v.items) }
{
    let cuts = cuts_at(alloc, boxes, live, 1)?;
    let mut pieces: Vec<Piece<(usize, usize)>> = Vec::with_capacity(alloc, cuts.len())?;
    let mut sweep = sweep_of(alloc, boxes, live, 1)?;
    let mut runs = Vec::new(alloc);
    let mut begin = 0;
    for i in 0..cuts.len() {
        let end = cuts[i];
        if begin < end {
            sweep = advance(sweep, boxes, 1, begin)?;
            runs = first_runs(alloc, runs, boxes, sweep.live.as_slice())?;
            push_slab(&mut pieces, runs.as_slice(), begin, end)?;
        }
        begin = end;
    }
    let packed = join(alloc, pieces)?;
    let rows = rows_of(alloc, packed.as_slice())?;
    Ok(rows)
}
