// Boxes of cells as one set, packed.
ghost use Rattle.std.specs.Prelude.{◌≡◌, ℕ, ◌<◌, ◌≤◌, ◌↔◌, List, [], ◌∷◌, length, IfOk};
ghost use Rattle.std.specs.List.{All};
ghost use Rattle.std.specs.List.Sorted.{IsStrictlySortedBy};
ghost use Rattle.cell_packing.specs.Covering.{Among};
ghost use Rattle.cell_sweep.specs.PackedRows.{IsUnitedRow, bare};
ghost use Rattle.cell_sweep.specs.Rows.{sides_of, key_cmp, no_sides, AreRows};
ghost use Rattle.cell_sweep.specs.declared.bare.NoLabel.{NoLabel as AnyBare};

use crate::bare::NoLabel;
use crate::cuts::cuts_at;
use crate::inward::{IndexBox, push_pieces, with_sides};
use crate::key::CellBox;
use crate::live::{advance, sweep_of};
use crate::runs::on_one_side;
use crate::two_sides::on_two_sides;
use cell_packing::{Piece, join};
use point_core::{Label, Memory};
use std::alloc::Global;

// A row of no sides.
fn one_row(alloc: Global) -> Result<Vec<CellBox<NoLabel>>, Memory>
    ensures { IfOk result (λ v. v.items ≡ no_sides bare ∷ []) }
{
    let mut out = Vec::new(alloc);
    out.push(CellBox {
        label: NoLabel,
        sides: Vec::new(alloc),
    })?;
    Ok(out)
}

// The packed form of the live boxes on their first sides: on the first, on the second, and so on.
pub fn united(
    alloc: Global,
    sides: usize,
    boxes: &[IndexBox],
    live: &[usize],
) -> Result<Vec<CellBox<NoLabel>>, Memory>
    requires rows { AreRows 0 (length boxes.now) live.now }
    requires sides { All (λ x. sides ≤ length x.sides.items) boxes.now }
    ensures rows { IfOk result (λ v. (x : AnyBare × List (ℕ × ℕ)) → Among x v.items ↔ (length x.1 ≡ sides) × IsUnitedRow sides (sides_of boxes.now) live.now x) }
    ensures sorted { IfOk result (λ v. IsStrictlySortedBy (key_cmp ⟦<NoLabel as Label>⟧.order) v.items) }
{
    if live.is_empty() {
        return Ok(Vec::new(alloc));
    }
    if sides == 0 {
        let rows = one_row(alloc)?;
        return Ok(rows);
    }
    if sides == 1 {
        let rows = on_one_side(alloc, boxes, live)?;
        return Ok(rows);
    }
    if sides == 2 {
        let rows = on_two_sides(alloc, boxes, live)?;
        return Ok(rows);
    }
    let side = sides - 1;
    let cuts = cuts_at(alloc, boxes, live, side)?;
    let mut pieces: Vec<Piece<CellBox<NoLabel>>> = Vec::new(alloc);
    let mut sweep = sweep_of(alloc, boxes, live, side)?;
    let mut begin = 0;
    for i in 0..cuts.len() {
        let end = cuts[i];
        if begin < end {
            sweep = advance(sweep, boxes, side, begin)?;
            let rows = united(alloc, side, boxes, sweep.live.as_slice())?;
            push_pieces(&mut pieces, rows, begin, end)?;
        }
        begin = end;
    }
    let runs = join(alloc, pieces)?;
    let rows = with_sides(alloc, runs)?;
    Ok(rows)
}
