// The numbering of the cuts of one side, and the way back.
ghost use Rattle.std.specs.Prelude.{◌≡◌, ℕ, ℤ, pos, ◌+ℤ◌, ◌-ℤ◌, ◌≤ℤ◌, ◌<ℤ◌, ◌<◌, ◌≤◌, ◌*◌, ◌+◌, ◌^◌, suc, min, true};
ghost use Rattle.std.specs.Prelude.{false, map, [], List, get_or, length, slice_index_or, OnOk, IfOk};
ghost use Rattle.std.specs.List.{All};
ghost use Rattle.point_core.specs.Pairs.{InOrder};
ghost use Rattle.cell_core.specs.Numbering.{cut_at, Rises, IsLastOf, IsPut, IsAdded, IsCellAt, AreEnds, IsSide};
ghost use Rattle.cell_core.specs.Costs.{side_cost};

use point_core::{Memory, PointType, Steps};
use std::alloc::Global;
use std::marker::Model;
use std::sync::ledger::Ledger;

// Adds the point after `end` with its place, if there is one.
fn put_after<T: PointType, L: Ledger>(
    t: &T,
    end: T::Point,
    tag: usize,
    list: &mut Vec<(T::Point, usize)>,
    steps: &mut Steps<L>,
) -> Result<(), Memory>
    requires { T.IsPoint t.now end }
    ensures put { OnOk result (IsPut T.number_of (T.IsPoint t.now) (T.last_number t.now) end tag list.old.items
        list.new.items) }
    ensures cost { steps.new ≡ steps.old + 1 }
{
    match t.next(end, steps) {
        Some(q) => {
            list.push((q, tag))?;
            Ok(())
        }
        None => Ok(()),
    }
}

// Adds the ends of the span at the place r with their places: 2r for its begin, 2r + 1 for the point after its end.
pub fn put_ends<T: PointType, L: Ledger>(
    t: &T,
    span: (T::Point, T::Point),
    r: usize,
    list: &mut Vec<(T::Point, usize)>,
    steps: &mut Steps<L>,
) -> Result<(), Memory>
    requires few { r < 2 ^ 61 }
    requires begin { T.IsPoint t.now span.0 }
    requires end { T.IsPoint t.now span.1 }
    ensures ends { OnOk result ((spans : List (T.Point × T.Point)) → r < length spans → span ≡ get_or spans r span →
        AreEnds T.number_of (T.IsPoint t.now) (T.last_number t.now) spans r list.old.items →
        AreEnds T.number_of (T.IsPoint t.now) (T.last_number t.now) spans (r + 1) list.new.items) }
    ensures cost { steps.new ≤ steps.old + 1 }
{
    list.push((span.0, 2 * r))?;
    put_after(t, span.1, 2 * r + 1, list, steps)?;
    Ok(())
}

// The ends of the spans with their places.
fn ends_list<T: PointType, L: Ledger>(
    alloc: Global,
    t: &T,
    spans: &[(T::Point, T::Point)],
    steps: &mut Steps<L>,
) -> Result<Vec<(T::Point, usize)>, Memory>
    requires few { length spans.now < 2 ^ 61 }
    requires begins { All (λ x. T.IsPoint t.now x.0) spans.now }
    requires ends { All (λ x. T.IsPoint t.now x.1) spans.now }
    ensures ends { IfOk result (λ v. AreEnds T.number_of (T.IsPoint t.now) (T.last_number t.now) spans.now
        (length spans.now) v.items) }
    ensures cost { steps.new ≤ steps.old + length spans.now }
{
    let mut list = Vec::with_capacity(alloc, 2 * spans.len())?;
    for r in 0..spans.len() {
        let span = spans[r];
        put_ends(t, span, r, &mut list, steps)?;
    }
    Ok(list)
}

// Whether p is the last of the cuts.
fn is_last<T: PointType, L: Ledger>(
    t: &T,
    cuts: &[T::Point],
    p: T::Point,
    steps: &mut Steps<L>,
) -> bool
    requires cuts { All (T.IsPoint t.now) cuts.now }
    requires p { T.IsPoint t.now p }
    ensures yes { result ≡ true → IsLastOf (map T.number_of cuts.now) (T.number_of p) }
    ensures no { result ≡ false → ¬ (IsLastOf (map T.number_of cuts.now) (T.number_of p)) }
    ensures cost { steps.new ≤ steps.old + 1 }
{
    let n = cuts.len();
    if n == 0 {
        return false;
    }
    t.compare(cuts[n - 1], p, steps).is_eq()
}

// The cuts with p at their end.
fn add<T: PointType, L: Ledger>(
    t: &T,
    cuts: &mut Vec<T::Point>,
    p: T::Point,
    steps: &mut Steps<L>,
) -> Result<(), Memory>
    requires cuts { All (T.IsPoint t.now) cuts.old.items }
    requires p { T.IsPoint t.now p }
    ensures added { OnOk result (IsAdded T.number_of p cuts.old.items cuts.new.items) }
    ensures cost { steps.new ≤ steps.old + 1 }
{
    let last = is_last(t, cuts.as_slice(), p, steps);
    if !last {
        cuts.push(p)?;
    }
    Ok(())
}

// The different points of an ordered list, and the cell of each place; `count` where the list hasn't the place.
fn cells_of<T: PointType, L: Ledger>(
    alloc: Global,
    t: &T,
    list: &[(T::Point, usize)],
    count: usize,
    cuts: &mut Vec<T::Point>,
    steps: &mut Steps<L>,
) -> Result<Vec<usize>, Memory>
    requires points { All (λ x. T.IsPoint t.now x.0) list.now }
    requires grid_points { All (λ x. x.1 < count) list.now }
    requires order { InOrder T.number_of list.now }
    requires none { cuts.old.items ≡ [] }
    ensures points { OnOk result (All (T.IsPoint t.now) cuts.new.items) }
    ensures rises { OnOk result (Rises (map T.number_of cuts.new.items) (T.last_number t.now +ℤ pos 1)) }
    ensures length { IfOk result (λ v. length v.items ≡ count) }
    ensures cells { IfOk result (λ v. (tag : ℕ) → tag < count → IsCellAt T.number_of cuts.new.items
        (T.last_number t.now +ℤ pos 1) count list.now tag (get_or v.items tag 0)) }
    ensures count { OnOk result (length cuts.new.items ≤ length list.now) }
    ensures cost { steps.new ≤ steps.old + length list.now }
{
    let mut table = vec![in alloc; count; count]?;
    for x in list {
        add(t, cuts, x.0, steps)?;
        table[x.1] = cuts.len() - 1;
    }
    Ok(table)
}

// The two cells of each span; `last` for a place without a cell, whose stand-in in the table is no less.
fn cell_pairs(
    alloc: Global,
    count: usize,
    last: usize,
    table: &[usize],
) -> Result<Vec<(usize, usize)>, Memory>
    requires few { count < 2 ^ 61 }
    requires length { length table.now ≡ 2 * count }
    ensures length { IfOk result (λ v. length v.items ≡ count) }
    ensures pairs { IfOk result (λ v. (r : ℕ) (d : ℕ × ℕ) → r < count → get_or v.items r d ≡
        (min (get_or table.now (2 * r) 0) last, min (get_or table.now (2 * r + 1) 0) last)) }
{
    let mut out = Vec::with_capacity(alloc, count)?;
    for r in 0..count {
        out.push((table[2 * r].min(last), table[2 * r + 1].min(last)))?;
    }
    Ok(out)
}

// The last point before the cell i + 1.
fn last_before<T: PointType, L: Ledger>(
    t: &T,
    cuts: &[T::Point],
    i: usize,
    steps: &mut Steps<L>,
) -> T::Point
    requires points { All (T.IsPoint t.now) cuts.now }
    requires rises { Rises (map T.number_of cuts.now) (T.last_number t.now +ℤ pos 1) }
    requires within { i < length cuts.now }
    ensures point { T.IsPoint t.now result }
    ensures number { T.number_of result +ℤ pos 1 ≡ cut_at (map T.number_of cuts.now) (T.last_number t.now +ℤ pos 1)
        (suc i) }
    ensures cost { steps.new ≤ steps.old + 1 }
{
    if i + 1 < cuts.len() {
        t.prior(cuts[i + 1], steps).unwrap()
    } else {
        t.last()
    }
}

// The last point of each cell.
fn lasts<T: PointType, L: Ledger>(
    alloc: Global,
    t: &T,
    cuts: &[T::Point],
    steps: &mut Steps<L>,
) -> Result<Vec<T::Point>, Memory>
    requires points { All (T.IsPoint t.now) cuts.now }
    requires rises { Rises (map T.number_of cuts.now) (T.last_number t.now +ℤ pos 1) }
    ensures length { IfOk result (λ v. length v.items ≡ length cuts.now) }
    ensures points { IfOk result (λ v. All (T.IsPoint t.now) v.items) }
    ensures numbers { IfOk result (λ v. (i : ℕ) (d : _) → i < length cuts.now →
        T.number_of (slice_index_or v.items i d) +ℤ pos 1 ≡
        cut_at (map T.number_of cuts.now) (T.last_number t.now +ℤ pos 1) (suc i)) }
    ensures cost { steps.new ≤ steps.old + length cuts.now }
{
    let mut out = Vec::with_capacity(alloc, cuts.len())?;
    for i in 0..cuts.len() {
        let p = last_before(t, cuts, i, steps);
        out.push(p)?;
    }
    Ok(out)
}

// A side: the cuts, the last point of each cell, and the cells of each span, the first and the one after the last.
#[derive(Drop)]
pub struct Side<T: PointType> {
    pub cuts: Vec<T::Point>,
    pub lasts: Vec<T::Point>,
    pub cells: Vec<(usize, usize)>,
}

impl<T: PointType> Model for Side<T> {
    ghost use Rattle.std.specs.Prelude.{List, ℕ};

    ghost Value = { List T.Point × List T.Point × List (ℕ × ℕ) };

    ghost view = { λ s. (s.cuts.items, s.lasts.items, s.cells.items) };
}

// The numbering of one side by the ends of its `count` spans, which are put in order.
pub fn side_by_ends<T: PointType, L: Ledger>(
    alloc: Global,
    t: &T,
    count: usize,
    list: &mut Vec<(T::Point, usize)>,
    steps: &mut Steps<L>,
) -> Result<Side<T>, Memory>
    requires few { count < 2 ^ 61 }
    requires points { All (λ x. T.IsPoint t.now x.0) list.old.items }
    requires grid_points { All (λ x. x.1 < 2 * count) list.old.items }
    requires count { length list.old.items ≤ 2 * count }
    ensures side { IfOk result (λ s. (spans : List (T.Point × T.Point)) → length spans ≡ count →
        AreEnds T.number_of (T.IsPoint t.now) (T.last_number t.now) spans count list.old.items →
        IsSide T.number_of (T.IsPoint t.now) (T.last_number t.now) spans s) }
    ensures cost { steps.new + count ≤ steps.old + side_cost count }
{
    let mut cuts = Vec::with_capacity(alloc, list.len())?;
    t.sort(alloc, list, steps)?;
    let table = cells_of(alloc, t, list.as_slice(), 2 * count, &mut cuts, steps)?;
    let cells = cell_pairs(alloc, count, cuts.len(), table.as_slice())?;
    let ends = lasts(alloc, t, cuts.as_slice(), steps)?;
    let side = Side {
        cuts,
        lasts: ends,
        cells,
    };
    Ok(side)
}

// The numbering of one side.
pub fn numbering<T: PointType, L: Ledger>(
    alloc: Global,
    t: &T,
    spans: &[(T::Point, T::Point)],
    steps: &mut Steps<L>,
) -> Result<Side<T>, Memory>
    requires few { length spans.now < 2 ^ 61 }
    requires begins { All (λ x. T.IsPoint t.now x.0) spans.now }
    requires ends { All (λ x. T.IsPoint t.now x.1) spans.now }
    ensures side { IfOk result (λ s. IsSide T.number_of (T.IsPoint t.now) (T.last_number t.now) spans.now s) }
    ensures cost { steps.new ≤ steps.old + side_cost (length spans.now) }
{
    let mut list = ends_list(alloc, t, spans, steps)?;
    let side = side_by_ends(alloc, t, spans.len(), &mut list, steps)?;
    Ok(side)
}
