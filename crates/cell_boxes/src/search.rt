// Where rows in order stop being before a key and a cell.
ghost use Rattle.std.specs.Prelude.{◌≡◌, ℕ, ◌<◌, ◌≤◌, ◌↔◌, length, IsTrue};
ghost use Rattle.cell_boxes.specs.Rows.{IsRow, IsBefore, Ascend, PlainCellBox};

use crate::common::first_cells;
use cell_sweep::CellBox;
use point_core::Label;
use std::cmp::Ordering;

// Whether the row is of a lesser key, or of the same and begins before the cell.
fn is_before<P: Label>(row: &CellBox<P>, key: &P, cell: usize) -> bool
    ensures { IsTrue result ↔ IsBefore P.order key.now cell row.now }
{
    match row.label.compare(key) {
        Ordering::Less => true,
        Ordering::Equal => first_cells(row.sides.as_slice()).0 < cell,
        Ordering::Greater => false,
    }
}

// How many rows are before the key and the cell, of which the first `known` are. It goes on from these row by row: who
// asks for keys and cells that rise comes past each row once.
pub fn count_before<P: Label>(rows: &[CellBox<P>], key: &P, cell: usize, known: usize) -> usize
    requires within { known ≤ length rows.now }
    requires known { (i : ℕ) (x : PlainCellBox P) → IsRow rows.now i x → i < known → IsBefore P.order key.now cell x }
    requires order { Ascend P.order rows.now }
    ensures within { result ≤ length rows.now }
    ensures before { (i : ℕ) (x : PlainCellBox P) → IsRow rows.now i x → i < result → IsBefore P.order key.now cell x }
    ensures others { (i : ℕ) (x : PlainCellBox P) → IsRow rows.now i x → result ≤ i → IsBefore P.order key.now cell x → ⊥ }
{
    let mut count = known;
    while count < rows.len() && is_before(&rows[count], key, cell) {
        count += 1;
    }
    count
}
