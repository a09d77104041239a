// Rows over numbered cells on one side, packed for all labels at once.
ghost use Rattle.std.specs.Prelude.{◌≡◌, ℕ, ◌<◌, ◌↔◌, List, length, ◌++◌, flat_map, get_or, slice_index_or, true, IfOk, OnOk};
ghost use Rattle.std.specs.List.Sorted.{IsStrictlySortedBy};
ghost use Rattle.cell_packing.specs.Covering.{Among};
ghost use Rattle.cell_packing.specs.Packed.{no_cells};
ghost use Rattle.cell_sweep.specs.PackedRows.{IsPackedOf, own_piece};
ghost use Rattle.cell_sweep.specs.Rows.{key_cmp};
ghost use Rattle.cell_sweep.specs.Runs.{HasOneSpan, IsParted, IsPartedAt, AreRuns};

use crate::inward::with_sides;
use crate::key::CellBox;
use cell_packing::{Piece, join};
use point_core::{Label, Memory};
use std::alloc::Global;
use std::cmp::Ordering;

// The cells of the first side; none where there are no sides.
fn first_cells(sides: &[(usize, usize)]) -> (usize, usize)
    ensures { result ≡ get_or sides.now 0 no_cells }
{
    if sides.is_empty() {
        return (0, 0);
    }
    sides[0]
}

// The row's cells on its first side, as a piece of its label; none where there are no cells. The room of its sides
// stays with the piece.
fn push_piece<P: Drop>(out: &mut Vec<Piece<CellBox<P>>>, row: CellBox<P>) -> Result<(), Memory>
    ensures { OnOk result (out.new.items ≡ out.old.items ++ own_piece row) }
{
    let mut key = row;
    let (begin, end) = first_cells(key.sides.as_slice());
    key.sides.clear();
    if begin < end {
        out.push(Piece { key, begin, end })?;
    }
    Ok(())
}

fn pieces_of<P: Drop>(
    alloc: Global,
    rows: Vec<CellBox<P>>,
) -> Result<Vec<Piece<CellBox<P>>>, Memory>
    ensures { IfOk result (λ v. v.items ≡ flat_map own_piece rows.items) }
{
    let mut out = Vec::with_capacity(alloc, rows.len())?;
    for row in rows {
        push_piece(&mut out, row)?;
    }
    Ok(out)
}

// Whether the row has one side, and cells there.
fn has_one_span<P>(row: &CellBox<P>) -> bool
    ensures { result ≡ true → HasOneSpan row.now }
{
    let (begin, end) = first_cells(row.sides.as_slice());
    row.sides.len() == 1 && begin < end
}

// Whether the row at the place has them.
fn has_one_span_at<P>(rows: &[CellBox<P>], at: usize) -> bool
    requires { at < length rows.now }
    ensures { result ≡ true → (d : P × List (ℕ × ℕ)) → HasOneSpan (slice_index_or rows.now at d) }
{
    has_one_span(&rows[at])
}

// Whether y is of a later label, or of the same one and a cell lies between.
fn is_parted<P: Label>(x: &CellBox<P>, y: &CellBox<P>) -> bool
    ensures { result ≡ true → IsParted P.order x.now y.now }
{
    match x.label.compare(&y.label) {
        Ordering::Less => true,
        Ordering::Equal => first_cells(x.sides.as_slice()).1 < first_cells(y.sides.as_slice()).0,
        Ordering::Greater => false,
    }
}

// Whether the row is parted from the next one.
fn is_parted_at<P: Label>(rows: &[CellBox<P>], at: usize) -> bool
    requires { at < length rows.now }
    ensures { result ≡ true → IsPartedAt P.order rows.now at }
{
    at + 1 == rows.len() || is_parted(&rows[at], &rows[at + 1])
}

// Whether the rows stand in order, each with cells, and those of one label with a cell between them.
fn are_runs<P: Label>(rows: &[CellBox<P>]) -> bool
    ensures { result ≡ true → AreRuns P.order rows.now }
{
    let mut at = 0;
    while at < rows.len() && has_one_span_at(rows, at) && is_parted_at(rows, at) {
        at += 1;
    }
    at == rows.len()
}

// The packed form of the rows on their first side, in the order of labels and then of cells: the rows themselves, where they are seen to
// be runs.
pub fn on_first_side<P: Label>(
    alloc: Global,
    rows: Vec<CellBox<P>>,
) -> Result<Vec<CellBox<P>>, Memory>
    ensures rows { IfOk result (λ v. (x : P × List (ℕ × ℕ)) → Among x v.items ↔ (length x.1 ≡ 1) × IsPackedOf 1 rows.items x) }
    ensures sorted { IfOk result (λ v. IsStrictlySortedBy (key_cmp P.order) v.items) }
{
    if are_runs(rows.as_slice()) {
        return Ok(rows);
    }
    let pieces = pieces_of(alloc, rows)?;
    let runs = join(alloc, pieces)?;
    let packed = with_sides(alloc, runs)?;
    Ok(packed)
}
