// The rows that begin within others of their keys.
ghost use Rattle.std.specs.Prelude.{◌≡◌, ℕ, ◌+◌, ◌<◌, ◌≤◌, ◌↔◌, ◌⊎◌, length, cond, OnOk, IfOk, ◌++◌, map};
ghost use Rattle.std.specs.declared.cmp.Ordering.TheVariants.{Equal};
ghost use Rattle.cell_packing.specs.Covering.{Among};
ghost use Rattle.cell_boxes.specs.Common.{first_of};
ghost use Rattle.cell_boxes.specs.Rows.{IsRow, Ascend, PlainCellBox};
ghost use Rattle.cell_boxes.specs.Meetings.{AreBehind, IsLater, turned};

use crate::common::first_cells;
use crate::search::count_before;
use cell_sweep::CellBox;
use point_core::{Label, Memory};
use std::alloc::Global;

// The numbers of the rows of the row's key that begin within it, or, if `strict`, within it and after its first cell:
// from the first up to before the second. The first `known` rows are behind.
#[tactic(auto, using(crate::proofs::MeetingLemmas::before_later))]
fn range_within<P: Label>(
    row: &CellBox<P>,
    rows: &[CellBox<P>],
    strict: bool,
    known: usize,
) -> (usize, usize)
    requires known { known ≤ length rows.now }
    requires behind { AreBehind P.order strict row.now rows.now known }
    requires order { Ascend P.order rows.now }
    ensures first { result.0 ≤ length rows.now }
    ensures within { result.1 ≤ length rows.now }
    ensures behind { AreBehind P.order strict row.now rows.now result.0 }
    ensures rows { (j : ℕ) (y : PlainCellBox P) → IsRow rows.now j y → (result.0 ≤ j) × (j < result.1) ↔
        (P.order y.0 row.now.0 ≡ Equal) × (cond strict ((first_of row.now.1).0 + 1) (first_of row.now.1).0 ≤ (first_of y.1).0) × ((first_of y.1).0 < (first_of row.now.1).1) }
{
    let (begin, end) = first_cells(row.sides.as_slice());
    if end <= begin {
        return (known, known);
    }
    let cell = if strict { begin + 1 } else { begin };
    let first = count_before(rows, &row.label, cell, known);
    let last = count_before(rows, &row.label, end, first);
    (first, last)
}

// Adds the number with each number from `first` up to before `end`.
fn push_range(
    out: &mut Vec<(usize, usize)>,
    number: usize,
    first: usize,
    end: usize,
) -> Result<(), Memory>
    ensures { OnOk result ((p : ℕ × ℕ) → Among p out.new.items ↔ Among p out.old.items ⊎ ((p.0 ≡ number) × (first ≤ p.1) × (p.1 < end))) }
{
    for j in first..end {
        out.push((number, j))?;
    }
    Ok(())
}

// For each row of `from` the rows that begin within it; if `strict`, after its first cell. Both are in order, so what is
// behind one row is behind the next: this takes the time of the rows of both and of the pairs.
pub fn later<P: Label>(
    alloc: Global,
    from: &[CellBox<P>],
    rows: &[CellBox<P>],
    strict: bool,
) -> Result<Vec<(usize, usize)>, Memory>
    requires from { Ascend P.order from.now }
    requires rows { Ascend P.order rows.now }
    ensures { IfOk result (λ v. (p : ℕ × ℕ) → Among p v.items ↔ IsLater P.order strict from.now rows.now p) }
{
    let mut out = Vec::new(alloc);
    let mut known = 0;
    for i in 0..from.len() {
        let (first, end) = range_within(&from[i], rows, strict, known);
        push_range(&mut out, i, first, end)?;
        known = first;
    }
    Ok(out)
}

// Adds the pairs the other way round.
pub fn push_turned(out: &mut Vec<(usize, usize)>, pairs: &[(usize, usize)]) -> Result<(), Memory>
    ensures { OnOk result (out.new.items ≡ out.old.items ++ map turned pairs.now) }
{
    out.reserve(pairs.len())?;
    for p in pairs {
        out.push((p.1, p.0))?;
    }
    Ok(())
}
