// Whether rows on one side are apart label by label, which is less work than packing them.
ghost use Rattle.std.specs.Prelude.{◌≡◌, ◌<◌, ◌≤◌, ◌+◌, ◌*◌, ℕ, pos, ◌+ℤ◌, ◌<ℤ◌, [], ◌∷◌, true, suc, map, length, get_or, IfOk, IsPermutation};
ghost use Rattle.std.specs.List.{All};
ghost use Rattle.base_core.specs.Sets.{in_order};
ghost use Rattle.cell_packing.specs.Boxed.{boxed_cmp, packed_boxes, Boxed};
ghost use Rattle.cell_core.specs.Apart.{first_side, HasOneSide, IsBeyond, AreBeyond};
ghost use Rattle.cell_core.specs.Boxes.{IsBox};
ghost use Rattle.cell_core.specs.Cells.{row_numbers};

use crate::boxes::BoxRow;
use point_core::{Label, Memory, PointType, Steps};
use std::alloc::Global;
use std::cmp::Ordering;
use std::sync::ledger::Ledger;

// The rows by label; those of one label stand as they stood.
fn by_label<'a, T: PointType, P: Label>(
    alloc: Global,
    rows: &'a [BoxRow<T, P>],
) -> Result<Vec<&'a BoxRow<T, P>>, Memory>
    ensures { IfOk result (λ v. IsPermutation rows.now (map (λ r. r.now) v.items)) }
{
    let mut list = Vec::with_capacity(alloc, rows.len())?;
    for row in rows {
        list.push(row)?;
    }
    list.sort_by(|a: &&BoxRow<T, P>, b: &&BoxRow<T, P>| a.label.compare(&b.label))?;
    Ok(list)
}

// The ends of the one side.
fn ends_of<T: PointType, P>(row: &BoxRow<T, P>) -> (T::Point, T::Point)
    requires { length row.now.1 ≡ 1 }
    ensures side { HasOneSide (row_numbers T.number_of row.now) }
    ensures ends { (d : T.Point × T.Point) → result ≡ get_or row.now.1 0 d }
{
    let side = &row.sides.list[0];
    (side.begin(), side.end())
}

// Whether the point after `end` is before `begin`.
fn is_past<T: PointType, L: Ledger>(
    t: &T,
    end: T::Point,
    begin: T::Point,
    steps: &mut Steps<L>,
) -> bool
    requires end { T.IsPoint t.now end }
    requires begin { T.IsPoint t.now begin }
    ensures answer { result ≡ true → (T.number_of end +ℤ pos 1) <ℤ T.number_of begin }
    ensures cost { steps.new ≤ steps.old + 2 }
{
    match t.next(end, steps) {
        Some(after) => t.compare(after, begin, steps).is_lt(),
        None => false,
    }
}

// Whether y begins after the point after the end of x.
fn begins_past<T: PointType, P, L: Ledger>(
    t: &T,
    x: &BoxRow<T, P>,
    y: &BoxRow<T, P>,
    steps: &mut Steps<L>,
) -> bool
    requires x { IsBox T.IsPoint (t.now ∷ []) x.now.1 }
    requires y { IsBox T.IsPoint (t.now ∷ []) y.now.1 }
    ensures answer { result ≡ true → ((first_side (row_numbers T.number_of x.now)).1 +ℤ pos 1)
        <ℤ (first_side (row_numbers T.number_of y.now)).0 }
    ensures cost { steps.new ≤ steps.old + 2 }
{
    let before = ends_of(x);
    let next = ends_of(y);
    is_past(t, before.1, next.0, steps)
}

// Whether y is of a later label than x, or of the same and begins after the point after the end of x.
fn is_beyond<T: PointType, P: Label, L: Ledger>(
    t: &T,
    x: &BoxRow<T, P>,
    y: &BoxRow<T, P>,
    steps: &mut Steps<L>,
) -> bool
    requires x { IsBox T.IsPoint (t.now ∷ []) x.now.1 }
    requires y { IsBox T.IsPoint (t.now ∷ []) y.now.1 }
    ensures answer { result ≡ true → IsBeyond P.order (row_numbers T.number_of x.now) (row_numbers T.number_of y.now) }
    ensures cost { steps.new ≤ steps.old + 2 }
{
    match x.label.compare(&y.label) {
        Ordering::Less => true,
        Ordering::Equal => begins_past(t, x, y, steps),
        Ordering::Greater => false,
    }
}

// Whether the row i is the first one or beyond the one before it.
fn stands_apart<T: PointType, P: Label, L: Ledger>(
    t: &T,
    rows: &[&BoxRow<T, P>],
    i: usize,
    steps: &mut Steps<L>,
) -> bool
    requires within { i < length rows.now }
    requires boxes { All (λ r. IsBox T.IsPoint (t.now ∷ []) r.now.1) rows.now }
    ensures side { (d : Boxed P) → HasOneSide (get_or (map (λ r. row_numbers T.number_of r.now) rows.now) i d) }
    ensures beyond { result ≡ true → (j : ℕ) (d : Boxed P) → suc j ≡ i → IsBeyond P.order
        (get_or (map (λ r. row_numbers T.number_of r.now) rows.now) j d)
        (get_or (map (λ r. row_numbers T.number_of r.now) rows.now) i d) }
    ensures cost { steps.new ≤ steps.old + 2 }
{
    let _ends = ends_of(rows[i]);
    i == 0 || is_beyond(t, rows[i - 1], rows[i], steps)
}

// Whether each row but the first is beyond the one before it.
fn stand_apart<T: PointType, P: Label, L: Ledger>(
    t: &T,
    rows: &[&BoxRow<T, P>],
    steps: &mut Steps<L>,
) -> bool
    requires { All (λ r. IsBox T.IsPoint (t.now ∷ []) r.now.1) rows.now }
    ensures answer { result ≡ true → AreBeyond P.order (map (λ r. row_numbers T.number_of r.now) rows.now) }
    ensures cost { steps.new ≤ steps.old + 2 * length rows.now }
{
    for i in 0..rows.len() {
        if !stands_apart(t, rows, i, steps) {
            return false;
        }
    }
    true
}

// Whether the rows on one side, by label and else as they stand, are each beyond the one before it; then they are their
// packed form.
pub(crate) fn are_apart<T: PointType, P: Label, L: Ledger>(
    alloc: Global,
    t: &T,
    rows: &[BoxRow<T, P>],
    steps: &mut Steps<L>,
) -> Result<bool, Memory>
    requires { All (λ r. IsBox T.IsPoint (t.now ∷ []) r.1) rows.now }
    ensures answer { IfOk result (λ b. b ≡ true → in_order (boxed_cmp P.order) (map (row_numbers T.number_of) rows.now) ≡
        packed_boxes P.order 1 (map (row_numbers T.number_of) rows.now)) }
    ensures cost { steps.new ≤ steps.old + 2 * length rows.now }
{
    let list = by_label(alloc, rows)?;
    Ok(stand_apart(t, list.as_slice(), steps))
}
