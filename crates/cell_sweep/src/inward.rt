// Slices from the last side inward.
ghost use Rattle.std.specs.Prelude.{◌≡◌, ℕ, ◌<◌, ◌≤◌, ◌↔◌, ◌⊎◌, length, slice_index_or, slice_index, OnOk, OnErr, IfOk, ◌+◌, ◌-◌, ◌^◌, ◌∷◌, ◌++◌, [], map, Some, true, false, vec_len, List};
ghost use Rattle.std.specs.List.{All};
ghost use Rattle.std.specs.List.Sorted.{IsStrictlySortedBy};
ghost use Rattle.cell_packing.specs.Covering.{Among};
ghost use Rattle.cell_packing.specs.Live.{IsSliceRow, IsSomewhere};
ghost use Rattle.point_core.specs.LeastFault.{IsLeast};
ghost use Rattle.cell_sweep.specs.Rows.{sides_of, key_cmp, tag, with_last, no_sides, own_numbers as own_numbers_of, AreRows, labels_of, GivesLabel, GivesFault, volume};

use crate::cell_op::CellOp;
use crate::key::CellBox;
use crate::live::{advance, sweep_of};
use cell_packing::{Piece, join};
use point_core::{Fault, Memory, Steps, Stop};
use std::alloc::Global;
use std::sync::ledger::Ledger;

// The cells of each side: the first, and the one after the last.
#[derive(Drop)]
pub struct IndexBox {
    pub sides: Vec<(usize, usize)>,
}

// Each number less `by`.
fn own_numbers(alloc: Global, by: usize, rows: &[usize]) -> Result<Vec<usize>, Memory>
    requires { All (λ r. by ≤ r) rows.now }
    ensures { IfOk result (λ v. v.items ≡ own_numbers_of by rows.now) }
{
    let mut out = Vec::new(alloc);
    for r in rows {
        out.push(*r - by)?;
    }
    Ok(out)
}

fn are_none(left: &[usize], right: &[usize]) -> bool
    ensures yes { result ≡ true → (length left.now ≡ 0) × (length right.now ≡ 0) }
    ensures no { result ≡ false → (0 < length left.now) ⊎ (0 < length right.now) }
{
    left.len() == 0 && right.len() == 0
}

// The rows of a slice, as pieces of its cells: the first, and the one after the last.
pub fn push_pieces<P: Drop>(
    out: &mut Vec<Piece<CellBox<P>>>,
    rows: Vec<CellBox<P>>,
    begin: usize,
    end: usize,
) -> Result<(), Memory>
    ensures { OnOk result (out.new.items ≡ out.old.items ++ map (tag begin end) rows.items) }
{
    for row in rows {
        out.push(Piece {
            key: row,
            begin,
            end,
        })?;
    }
    Ok(())
}

fn with_side<P: Drop>(p: Piece<CellBox<P>>) -> Result<CellBox<P>, Memory>
    ensures { IfOk result (λ k. k ≡ with_last p) }
{
    let mut row = p.key;
    row.sides.push((p.begin, p.end))?;
    Ok(row)
}

// Each piece's row, with the piece's cells as one more side.
pub fn with_sides<P: Drop>(
    alloc: Global,
    pieces: Vec<Piece<CellBox<P>>>,
) -> Result<Vec<CellBox<P>>, Memory>
    ensures { IfOk result (λ v. v.items ≡ map with_last pieces.items) }
{
    let mut out = Vec::with_capacity(alloc, pieces.len())?;
    for p in pieces {
        let row = with_side(p)?;
        out.push(row)?;
    }
    Ok(out)
}

// The labels, with no sides.
pub fn without_labels<P: Drop>(alloc: Global, labels: Vec<P>) -> Result<Vec<CellBox<P>>, Memory>
    ensures { IfOk result (λ v. v.items ≡ map no_sides labels.items) }
{
    let mut out = Vec::new(alloc);
    for label in labels {
        out.push(CellBox {
            label,
            sides: Vec::new(alloc),
        })?;
    }
    Ok(out)
}

// The labels at a place of no sides.
fn leaf<O: CellOp, L: Ledger>(
    alloc: Global,
    left: &[usize],
    right: &[usize],
    split: usize,
    op: &O,
    least: &mut Option<Fault>,
    steps: &mut Steps<L>,
) -> Result<Vec<CellBox<O::Out>>, Memory>
    requires can { O.CanApply op.now left.now (own_numbers_of split right.now) }
    requires right { All (λ r. split ≤ r) right.now }
    ensures rows { IfOk result (λ v. v.items ≡ map no_sides (labels_of (O.means op.now left.now (own_numbers_of split right.now)))) }
    ensures least { OnOk result (IsLeast (λ e. (least.old ≡ Some e) ⊎ GivesFault (O.means op.now) split e left.now right.now) least.new) }
    ensures cost { steps.new ≤ steps.old + 1 }
{
    let own = own_numbers(alloc, split, right)?;
    match op.apply(alloc, left, &own, steps) {
        Ok(labels) => {
            let rows = without_labels(alloc, labels)?;
            Ok(rows)
        }
        Err(Stop::Fault(e)) => {
            *least = Some(Fault::least_of(*least, e));
            Ok(Vec::new(alloc))
        }
        Err(Stop::Memory) => Err(Memory),
    }
}

// The packed rows of the first sides, and the least fault over their places.
pub fn slices<O: CellOp, L: Ledger>(
    alloc: Global,
    sides: usize,
    counts: &[usize],
    boxes: &[IndexBox],
    left: &[usize],
    right: &[usize],
    split: usize,
    op: &O,
    least: &mut Option<Fault>,
    steps: &mut Steps<L>,
) -> Result<Vec<CellBox<O::Out>>, Memory>
    requires sides { sides ≤ length counts.now }
    requires few { All (λ n. n < 2 ^ 63) counts.now }
    requires split { split ≤ length boxes.now }
    requires left { AreRows 0 split left.now }
    requires right { AreRows split (length boxes.now) right.now }
    requires boxes { All (λ x. length x.sides.items ≡ length counts.now) boxes.now }
    requires cells { All (λ x. (s : ℕ) → s < length counts.now → (slice_index_or {A = ℕ × ℕ} x.sides.items s (0, 0)).1 ≤ slice_index counts.now s) boxes.now }
    requires can { (a b : List ℕ) → AreRows 0 split a → AreRows split (length boxes.now) b → O.CanApply op.now a (own_numbers_of split b) }
    ensures rows { IfOk result (λ v. (x : O.Out × List (ℕ × ℕ)) → Among x v.items ↔ (length x.1 ≡ sides) × IsSliceRow sides (GivesLabel (O.means op.now) split) (sides_of boxes.now) left.now right.now x.0 x.1) }
    ensures sorted { IfOk result (λ v. IsStrictlySortedBy (key_cmp O.Out.order) v.items) }
    ensures least { OnOk result (IsLeast (λ e. (least.old ≡ Some e) ⊎ IsSomewhere sides (GivesFault (O.means op.now) split) (sides_of boxes.now) left.now right.now e) least.new) }
    ensures cost { steps.new ≤ steps.old + volume sides counts.now }
    ensures idle { length left.now ≡ 0 → length right.now ≡ 0 → steps.new ≤ steps.old }
{
    if are_none(left, right) {
        return Ok(Vec::new(alloc));
    }
    if sides == 0 {
        let rows = leaf(alloc, left, right, split, op, least, steps)?;
        return Ok(rows);
    }
    let side = sides - 1;
    let mut pieces: Vec<Piece<CellBox<O::Out>>> = Vec::new(alloc);
    let mut lefts = sweep_of(alloc, boxes, left, side)?;
    let mut rights = sweep_of(alloc, boxes, right, side)?;
    for cell in 0..counts[side] {
        lefts = advance(lefts, boxes, side, cell)?;
        rights = advance(rights, boxes, side, cell)?;
        let l = lefts.live.as_slice();
        let r = rights.live.as_slice();
        let rows = slices(alloc, side, counts, boxes, l, r, split, op, least, steps)?;
        push_pieces(&mut pieces, rows, cell, cell + 1)?;
    }
    let runs = join(alloc, pieces)?;
    let rows = with_sides(alloc, runs)?;
    Ok(rows)
}
