// The numbering of the sides of rows, whose ends are read from the rows themselves.
ghost use Rattle.std.specs.Prelude.{◌≡◌, ℕ, ◌<◌, ◌≤◌, ◌+◌, ◌*◌, ◌++◌, List, map, length, get_or, slice_index_or, IfOk};
ghost use Rattle.std.specs.List.{All};
ghost use Rattle.interval_core.specs.Members.{HasEndsIn};
ghost use Rattle.cell_core.specs.Boxes.{IsBox};
ghost use Rattle.cell_core.specs.Cells.{side_of};
ghost use Rattle.cell_core.specs.Costs.{bound, side_cost};
ghost use Rattle.cell_core.specs.Numbering.{AreEnds, IsSide};

use crate::boxes::BoxRow;
use crate::grids::ends_at;
use crate::number::{Side, put_ends, side_by_ends};
use point_core::{Memory, PointType, Steps};
use std::alloc::Global;
use std::sync::ledger::Ledger;

// The ends of one side of a row.
fn row_ends<T: PointType, P>(rows: &[BoxRow<T, P>], r: usize, side: usize) -> (T::Point, T::Point)
    requires within { r < length rows.now }
    requires sides { All (λ s. side < length s) (map (λ x. x.1) rows.now) }
    ensures { (d : T.Point × T.Point) → result ≡ get_or (map (side_of side d) (map (λ x. x.1) rows.now)) r d }
{
    let row = &rows[r];
    ends_at(&row.sides, side)
}

// The ends of one side of a row, where the right rows follow the left ones.
fn ends_of<T: PointType, P>(
    left: &[BoxRow<T, P>],
    right: &[BoxRow<T, P>],
    r: usize,
    side: usize,
) -> (T::Point, T::Point)
    requires within { r < length left.now + length right.now }
    requires left { All (λ s. side < length s) (map (λ x. x.1) left.now) }
    requires right { All (λ s. side < length s) (map (λ x. x.1) right.now) }
    ensures { (d : T.Point × T.Point) → result ≡ get_or (map (side_of side d) (map (λ x. x.1) left.now ++
        map (λ x. x.1) right.now)) r d }
{
    if r < left.len() {
        row_ends(left, r, side)
    } else {
        row_ends(right, r - left.len(), side)
    }
}

// The ends of one side of all rows with their places, the left ones first.
fn all_ends<T: PointType, P, L: Ledger>(
    alloc: Global,
    t: &T,
    left: &[BoxRow<T, P>],
    right: &[BoxRow<T, P>],
    side: usize,
    steps: &mut Steps<L>,
) -> Result<Vec<(T::Point, usize)>, Memory>
    requires left { All (λ s. side < length s) (map (λ r. r.1) left.now) }
    requires right { All (λ s. side < length s) (map (λ r. r.1) right.now) }
    requires left_points { All (λ s. (d : T.Point × T.Point) → HasEndsIn T.IsPoint t.now (get_or s side d))
        (map (λ r. r.1) left.now) }
    requires right_points { All (λ s. (d : T.Point × T.Point) → HasEndsIn T.IsPoint t.now (get_or s side d))
        (map (λ r. r.1) right.now) }
    ensures ends { IfOk result (λ v. (d : T.Point × T.Point) →
        AreEnds T.number_of (T.IsPoint t.now) (T.last_number t.now) (map (side_of side d) (map (λ r. r.1) left.now ++
        map (λ r. r.1) right.now)) (length left.now + length right.now) v.items) }
    ensures cost { steps.new ≤ steps.old + (length left.now + length right.now) }
{
    let count = left.len() + right.len();
    let mut list = Vec::with_capacity(alloc, 2 * count)?;
    for r in 0..count {
        let ends = ends_of(left, right, r, side);
        put_ends(t, ends, r, &mut list, steps)?;
    }
    Ok(list)
}

// The numbering of one side of all rows, the left ones first.
fn row_side<T: PointType, P, L: Ledger>(
    alloc: Global,
    t: &T,
    left: &[BoxRow<T, P>],
    right: &[BoxRow<T, P>],
    side: usize,
    steps: &mut Steps<L>,
) -> Result<Side<T>, Memory>
    requires left { All (λ s. side < length s) (map (λ r. r.1) left.now) }
    requires right { All (λ s. side < length s) (map (λ r. r.1) right.now) }
    requires left_points { All (λ s. (d : T.Point × T.Point) → HasEndsIn T.IsPoint t.now (get_or s side d))
        (map (λ r. r.1) left.now) }
    requires right_points { All (λ s. (d : T.Point × T.Point) → HasEndsIn T.IsPoint t.now (get_or s side d))
        (map (λ r. r.1) right.now) }
    ensures side { IfOk result (λ v. (d : T.Point × T.Point) →
        IsSide T.number_of (T.IsPoint t.now) (T.last_number t.now) (map (side_of side d) (map (λ r. r.1) left.now ++
        map (λ r. r.1) right.now)) v) }
    ensures cost { steps.new ≤ steps.old + side_cost (length left.now + length right.now) }
{
    let mut list = all_ends(alloc, t, left, right, side, steps)?;
    let v = side_by_ends(alloc, t, left.len() + right.len(), &mut list, steps)?;
    Ok(v)
}

// The numbering of each side, of the left and the right rows together.
pub fn numbered<T: PointType, P, L: Ledger>(
    alloc: Global,
    types: &[T],
    left: &[BoxRow<T, P>],
    right: &[BoxRow<T, P>],
    steps: &mut Steps<L>,
) -> Result<Vec<Side<T>>, Memory>
    requires left { All (λ r. IsBox T.IsPoint types.now r.1) left.now }
    requires right { All (λ r. IsBox T.IsPoint types.now r.1) right.now }
    ensures length { IfOk result (λ v. length v.items ≡ length types.now) }
    ensures sides { IfOk result (λ v. (j : ℕ) (t : T) (d : T.Point × T.Point) (e : List T.Point × List T.Point ×
        List (ℕ × ℕ)) → j < length types.now → IsSide T.number_of (T.IsPoint (slice_index_or types.now j t))
        (T.last_number (slice_index_or types.now j t)) (map (side_of j d) (map (λ r. r.1) left.now ++ map (λ r. r.1)
        right.now)) (get_or v.items j e)) }
    ensures cost { steps.new ≤ steps.old + bound (length left.now + length right.now) (length types.now) }
    ensures numbering { steps.new ≤ steps.old + length types.now * side_cost (length left.now + length right.now) }
{
    let mut out = Vec::with_capacity(alloc, types.len())?;
    for j in 0..types.len() {
        let side = row_side(alloc, &types[j], left, right, j, steps)?;
        out.push(side)?;
    }
    Ok(out)
}
