// Whether boxes of one key are apart.
ghost use Rattle.std.specs.Prelude.{◌≡◌, ℕ, ◌+◌, ◌<◌, ◌≤◌, ◌↔◌, List, length, IsTrue, IfOk, true, false};
ghost use Rattle.std.specs.List.{All};
ghost use Rattle.cell_boxes.specs.Apartness.{AreApart, AllFollow, AreOwn, Follows};
ghost use Rattle.cell_boxes.specs.Common.{HaveCells};
ghost use Rattle.cell_boxes.specs.Meetings.{Met};
ghost use Rattle.cell_boxes.specs.Rows.{Ascend, IsRow, PlainCellBox};

use crate::meeting::{Meeting, overlaps};
use cell_sweep::CellBox;
use point_core::{Label, Memory};
use std::alloc::Global;

// Whether y is of another key, or begins where x has ended.
fn follows<P: Label>(x: &CellBox<P>, y: &CellBox<P>) -> bool
    requires x { 0 < length x.now.1 }
    requires y { 0 < length y.now.1 }
    ensures { IsTrue result ↔ Follows P.order x.now y.now }
{
    !x.label.compare(&y.label).is_eq() || x.sides[0].1 <= y.sides[0].0
}

// Whether each row follows the one before it, and so all of them.
fn all_follow<P: Label>(rows: &[CellBox<P>]) -> bool
    requires sides { All (λ x. 0 < length x.1) rows.now }
    requires cells { All (λ x. HaveCells x.1) rows.now }
    requires order { Ascend P.order rows.now }
    ensures yes { result ≡ true → AllFollow P.order (length rows.now) rows.now }
    ensures no { result ≡ false → (i : ℕ) × (x : PlainCellBox P) × (y : PlainCellBox P) × IsRow rows.now i x × IsRow rows.now (i + 1) y × (Follows P.order x y → ⊥) }
{
    for i in 1..rows.len() {
        if !follows(&rows[i - 1], &rows[i]) {
            return false;
        }
    }
    true
}

fn is_own(m: &Meeting) -> bool
    ensures { IsTrue result ↔ (m.now.0.0 ≡ m.now.0.1) }
{
    m.left == m.right
}

// Whether rows meet themselves alone.
fn are_own(meetings: &[Meeting]) -> bool
    ensures yes { result ≡ true → AreOwn meetings.now }
    ensures no { result ≡ false → (a : ℕ) × (m : Met) × IsRow meetings.now a m × (m.0.0 ≡ m.0.1 → ⊥) }
{
    for m in meetings {
        if !is_own(m) {
            return false;
        }
    }
    true
}

/// Whether no two of the rows that are of one key have a place in common.
///
/// On one side it is enough to look at neighbours. On more sides all meetings are made.
pub fn are_apart<P: Label>(alloc: Global, sides: usize, rows: &[CellBox<P>]) -> Result<bool, Memory>
    requires sides { All (λ x. length x.1 ≡ sides) rows.now }
    requires cells { All (λ x. HaveCells x.1) rows.now }
    requires order { Ascend P.order rows.now }
    ensures { IfOk result (λ b. IsTrue b ↔ AreApart P.order sides rows.now) }
{
    if sides == 1 {
        return Ok(all_follow(rows));
    }
    let meetings = overlaps(alloc, sides, rows, rows)?;
    Ok(are_own(meetings.as_slice()))
}
