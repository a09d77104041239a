// The numbering of the cuts of all sides, and the rows as boxes of cells.
ghost use Rattle.std.specs.Prelude.{◌≡◌, ℕ, ◌<◌, ◌≤◌, ◌+◌, ◌*◌, ◌^◌, map, [], ◌++◌, List, get_or, length};
ghost use Rattle.std.specs.Prelude.{slice_index_or, OnOk, IfOk};
ghost use Rattle.std.specs.List.{All};
ghost use Rattle.cell_sweep.specs.Rows.{sides_of};
ghost use Rattle.cell_core.specs.Costs.{side_cost};
ghost use Rattle.cell_core.specs.Numbering.{IsSide};
ghost use Rattle.cell_core.specs.Cells.{rows_from, cells_at, side_of};

use crate::boxes::Sides;
use crate::number::{Side, numbering};
use cell_sweep::IndexBox;
use point_core::{Memory, PointType, Steps};
use std::alloc::Global;
use std::sync::ledger::Ledger;

// The numbers from `first` on, `count` of them.
pub fn row_range(alloc: Global, first: usize, count: usize) -> Result<Vec<usize>, Memory>
    requires { first + count < 2 ^ 62 }
    ensures { IfOk result (λ v. v.items ≡ rows_from first count) }
{
    let mut out = Vec::with_capacity(alloc, count)?;
    for r in 0..count {
        out.push(first + r)?;
    }
    Ok(out)
}

// The ends of one side.
pub fn ends_at<T: PointType>(sides: &Sides<T>, side: usize) -> (T::Point, T::Point)
    requires { side < length sides.now }
    ensures { (d : T.Point × T.Point) → result ≡ side_of side d sides.now }
{
    let i = &sides.list[side];
    (i.begin(), i.end())
}

// The side of each box, after those that are there.
fn push_sides<T: PointType>(
    rows: &[Sides<T>],
    side: usize,
    out: &mut Vec<(T::Point, T::Point)>,
) -> Result<(), Memory>
    requires { All (λ s. side < length s) rows.now }
    ensures items { OnOk result ((d : T.Point × T.Point) → out.new.items ≡
        out.old.items ++ map (side_of side d) rows.now) }
    ensures length { OnOk result (length out.new.items ≡ length out.old.items + length rows.now) }
{
    for s in rows {
        let ends = ends_at(s, side);
        out.push(ends)?;
    }
    Ok(())
}

// The cells of one row, side by side.
pub fn one_box<T: PointType>(
    alloc: Global,
    sides: &[Side<T>],
    row: usize,
) -> Result<IndexBox, Memory>
    requires { All (λ s. row < length s.2) sides.now }
    ensures { IfOk result (λ b. b.sides.items ≡ map (cells_at row) sides.now) }
{
    let mut list = Vec::with_capacity(alloc, sides.len())?;
    for s in sides {
        list.push(s.cells[row])?;
    }
    Ok(IndexBox { sides: list })
}

// The cells of each row.
pub fn cell_boxes<T: PointType>(
    alloc: Global,
    sides: &[Side<T>],
    count: usize,
) -> Result<Vec<IndexBox>, Memory>
    requires { All (λ s. count ≤ length s.2) sides.now }
    ensures length { IfOk result (λ v. length v.items ≡ count) }
    ensures boxes { IfOk result (λ v. (r : ℕ) → r < count → get_or (sides_of v.items) r [] ≡
        map (cells_at r) sides.now) }
{
    let mut out = Vec::with_capacity(alloc, count)?;
    for r in 0..count {
        let b = one_box(alloc, sides, r)?;
        out.push(b)?;
    }
    Ok(out)
}

// How many cells each side has.
pub fn cell_counts<T: PointType>(alloc: Global, sides: &[Side<T>]) -> Result<Vec<usize>, Memory>
    ensures { IfOk result (λ v. v.items ≡ map (λ s. length s.0) sides.now) }
{
    let mut out = Vec::with_capacity(alloc, sides.len())?;
    for s in sides {
        out.push(s.cuts.len())?;
    }
    Ok(out)
}

// The spans of one side of all rows, the left ones first, and their numbering.
fn one_side<T: PointType, L: Ledger>(
    alloc: Global,
    t: &T,
    left: &[Sides<T>],
    right: &[Sides<T>],
    side: usize,
    steps: &mut Steps<L>,
) -> Result<Side<T>, Memory>
    requires left { All (λ s. side < length s) left.now }
    requires right { All (λ s. side < length s) right.now }
    requires left_begins { All (λ s. (d : T.Point × T.Point) → T.IsPoint t.now (get_or s side d).0) left.now }
    requires left_ends { All (λ s. (d : T.Point × T.Point) → T.IsPoint t.now (get_or s side d).1) left.now }
    requires right_begins { All (λ s. (d : T.Point × T.Point) → T.IsPoint t.now (get_or s side d).0) right.now }
    requires right_ends { All (λ s. (d : T.Point × T.Point) → T.IsPoint t.now (get_or s side d).1) right.now }
    ensures side { IfOk result (λ v. (d : T.Point × T.Point) →
        IsSide T.number_of (T.IsPoint t.now) (T.last_number t.now) (map (side_of side d) (left.now ++ right.now)) v) }
    ensures cost { steps.new ≤ steps.old + side_cost (length left.now + length right.now) }
{
    let mut spans = Vec::with_capacity(alloc, left.len() + right.len())?;
    push_sides(left, side, &mut spans)?;
    push_sides(right, side, &mut spans)?;
    let v = numbering(alloc, t, spans.as_slice(), steps)?;
    Ok(v)
}

// The numbering of each side.
pub fn all_sides<T: PointType, L: Ledger>(
    alloc: Global,
    types: &[T],
    left: &[Sides<T>],
    right: &[Sides<T>],
    steps: &mut Steps<L>,
) -> Result<Vec<Side<T>>, Memory>
    requires left { All (λ s. length s ≡ length types.now) left.now }
    requires right { All (λ s. length s ≡ length types.now) right.now }
    requires left_points { All (λ s. (j : ℕ) (t : T) (d : T.Point × T.Point) → j < length types.now →
        T.IsPoint (slice_index_or types.now j t) (get_or s j d).0 ×
        T.IsPoint (slice_index_or types.now j t) (get_or s j d).1) left.now }
    requires right_points { All (λ s. (j : ℕ) (t : T) (d : T.Point × T.Point) → j < length types.now →
        T.IsPoint (slice_index_or types.now j t) (get_or s j d).0 ×
        T.IsPoint (slice_index_or types.now j t) (get_or s j d).1) right.now }
    ensures length { IfOk result (λ v. length v.items ≡ length types.now) }
    ensures sides { IfOk result (λ v. (j : ℕ) (t : T) (d : T.Point × T.Point) (e : List T.Point × List T.Point ×
        List (ℕ × ℕ)) → j < length types.now → IsSide T.number_of (T.IsPoint (slice_index_or types.now j t))
        (T.last_number (slice_index_or types.now j t)) (map (side_of j d) (left.now ++ right.now)) (get_or v.items j
        e)) }
    ensures cost { steps.new ≤ steps.old + length types.now * side_cost (length left.now + length right.now) }
{
    let mut out = Vec::with_capacity(alloc, types.len())?;
    for j in 0..types.len() {
        let side = one_side(alloc, &types[j], left, right, j, steps)?;
        out.push(side)?;
    }
    Ok(out)
}
