// Whether rows with the same values at some positions have intervals that are apart.
ghost use Rattle.std.specs.Prelude.{◌≡◌, ◌<◌, ℕ, suc, ◌+ℤ◌, ◌<ℤ◌, [], ◌∷◌, ◌++◌, true, false, map, length, get_or, slice_index_or, IfOk, OnOk, IsPermutation};
ghost use Rattle.std.specs.List.{All};
ghost use Rattle.point_core.specs.Points.{number};
ghost use Rattle.interval_core.specs.Members.{span};
ghost use Rattle.value_core.specs.Plain.{plain};
ghost use Rattle.value_core.specs.Values.{Row as PlainRow, truth, value_cmp, row_cmp, IsRelation};
ghost use Rattle.relation_core.specs.Agreement.{part_of};
ghost use Rattle.u_set.specs.Apart.{gap_of, span_in, HasInterval, IsBeyond, AreBeyond, AreApart, IsChain};
ghost use Rattle.u_set.specs.Boxes.{AreIntervals};

use crate::intervals::interval_of;
use interval_core::Interval;
use point_core::{AnyType, Memory};
use presort::{Numbers, SortKeys, arrange};
use std::alloc::Global;
use std::cmp::Ordering;
use value_core::{Relation, Row, Value};

/// How many points are left at least between the intervals of rows that are apart.
#[derive(Clone, Copy)]
pub enum Gap {
    /// They have no point in common.
    Zero,
    /// Neither does one follow the other.
    One,
}

// A row with the positions of its label.
#[derive(Clone, Copy)]
struct Labelled<'a> {
    row: &'a Row,
    label: &'a [usize],
}

impl<'a> Numbers for Labelled<'a> {
    fn put_numbers(&self, lines: &mut SortKeys) {
        let values = self.row.values();
        for position in self.label {
            if *position < values.len() {
                values[*position].put_numbers(lines);
            }
        }
    }
}

// Adds the rows with the positions.
fn push_rows<'a>(
    list: &mut Vec<Labelled<'a>>,
    rows: &'a [Row],
    label: &'a [usize],
) -> Result<(), Memory>
    ensures { OnOk result (map (λ r. r.row.now) list.new.items ≡ map (λ r. r.row.now) list.old.items ++ rows.now) }
{
    list.reserve(rows.len())?;
    for row in rows {
        list.push(Labelled { row, label })?;
    }
    Ok(())
}

/// The value at the position, or another one past the end.
pub fn value_or<'a>(values: &'a [Value], position: usize, other: &'a Value) -> &'a Value
    ensures { plain result.now ≡ slice_index_or (map plain values.now) position (plain other.now) }
{
    if position < values.len() {
        return &values[position];
    }
    other
}

// How the values of two rows at the position stand to each other. FALSE stands past the end.
fn compare_values(x: &[Value], y: &[Value], position: usize) -> Ordering
    ensures { result ≡ value_cmp (slice_index_or (map plain x.now) position (truth false)) (slice_index_or (map plain y.now) position (truth false)) }
{
    let past = Value::Truth(false);
    value_or(x, position, &past).cmp(value_or(y, position, &past))
}

/// How the values of two rows at the positions stand to each other. FALSE stands past the end.
pub fn compare_at(x: &Row, y: &Row, positions: &[usize]) -> Ordering
    ensures { result ≡ row_cmp (part_of positions.now x.now) (part_of positions.now y.now) }
{
    let (left, right) = (x.values(), y.values());
    for position in positions {
        let order = compare_values(left, right, *position);
        if !order.is_eq() {
            return order;
        }
    }
    Ordering::Equal
}

// The order of rows by their values at the label's positions and then by that at another one. Where these are all the values that a row
// has, rows in their own order need the label alone: a stable sort leaves those of one label as they are.
fn compare_rows(x: &Row, y: &Row, label: &[usize], at: usize) -> Ordering {
    let order = compare_at(x, y, label);
    if order.is_eq() && label.len() + 1 < x.values().len() {
        return compare_at(x, y, &[at]);
    }
    order
}

// The rows by their values at the label's positions and then by that at another one. Those of two relations, one after the other, are
// merged first; then they are brought near the order of their labels.
fn by_label<'a>(
    alloc: Global,
    rows: Vec<Labelled<'a>>,
    at: usize,
) -> Result<Vec<Labelled<'a>>, Memory>
    ensures { IfOk result (λ v. IsPermutation (map (λ r. r.row.now) rows.entry.items) (map (λ r. r.row.now) v.items)) }
{
    let mut list = rows;
    list.sort_by(|x: &Labelled, y: &Labelled| x.row.cmp(y.row))?;
    arrange(alloc, &mut list)?;
    list.sort_by(|x: &Labelled, y: &Labelled| compare_rows(x.row, y.row, x.label, at))?;
    Ok(list)
}

// The numbers of the interval's ends.
fn ends_of(interval: &Interval<AnyType>) -> (i64, i64)
    ensures { result ≡ span number interval.now }
{
    (interval.begin().number(), interval.end().number())
}

// The numbers of the ends of the row's interval.
fn ends_at(row: &Row, at: usize) -> (i64, i64)
    requires { HasInterval at row.now }
    ensures { result ≡ span_in at row.now }
{
    let values = row.values();
    let interval = interval_of(&values[at]);
    ends_of(&interval)
}

// Whether what begins there begins after the end, with the gap between.
fn is_past(end: i64, begin: i64, gap: Gap) -> bool
    ensures { result ≡ true → (end +ℤ gap_of gap) <ℤ begin }
{
    match gap {
        Gap::Zero => end < begin,
        Gap::One => end.checked_add(1).is_some_and(|next| next < begin),
    }
}

/// Whether y begins after the end of x, with the gap between.
pub(crate) fn begins_past(x: &Row, y: &Row, at: usize, gap: Gap) -> bool
    requires x { HasInterval at x.now }
    requires y { HasInterval at y.now }
    ensures { result ≡ true → ((span_in at x.now).1 +ℤ gap_of gap) <ℤ (span_in at y.now).0 }
{
    let before = ends_at(x, at);
    let next = ends_at(y, at);
    is_past(before.1, next.0, gap)
}

/// Whether y has later values at the label's positions than x, or the same and begins after the end of x, with the gap between.
pub(crate) fn is_beyond(x: &Row, y: &Row, label: &[usize], at: usize, gap: Gap) -> bool
    requires x { HasInterval at x.now }
    requires y { HasInterval at y.now }
    ensures { result ≡ true → IsBeyond label.now at gap x.now y.now }
{
    match compare_at(x, y, label) {
        Ordering::Less => true,
        Ordering::Equal => begins_past(x, y, at, gap),
        Ordering::Greater => false,
    }
}

// Whether the row i is the first one or beyond the one before it.
fn stands_apart(rows: &[Labelled], i: usize, label: &[usize], at: usize, gap: Gap) -> bool
    requires within { i < length rows.now }
    requires spans { All (λ r. HasInterval at r.row.now) rows.now }
    ensures { result ≡ true → (j : ℕ) (d : PlainRow) → suc j ≡ i → IsBeyond label.now at gap
        (get_or (map (λ r. r.row.now) rows.now) j d) (get_or (map (λ r. r.row.now) rows.now) i d) }
{
    i == 0 || is_beyond(rows[i - 1].row, rows[i].row, label, at, gap)
}

// Whether each row but the first is beyond the one before it.
fn stand_apart(rows: &[Labelled], label: &[usize], at: usize, gap: Gap) -> bool
    requires { All (λ r. HasInterval at r.row.now) rows.now }
    ensures { result ≡ true → AreBeyond label.now at gap (map (λ r. r.row.now) rows.now) }
{
    for i in 0..rows.len() {
        if !stands_apart(rows, i, label, at, gap) {
            return false;
        }
    }
    true
}

// Whether the rows are apart, by one sort.
fn sorted_apart(
    alloc: Global,
    rows: Vec<Labelled>,
    label: &[usize],
    at: usize,
    gap: Gap,
) -> Result<bool, Memory>
    requires { All (λ r. HasInterval at r.row.now) rows.items }
    ensures { IfOk result (λ b. b ≡ true → IsChain label.now at gap (map (λ r. r.row.now) rows.entry.items)) }
{
    let list = by_label(alloc, rows, at)?;
    Ok(stand_apart(list.as_slice(), label, at, gap))
}

/// Whether the rows of both relations, sorted by their values at the positions of the label and then by where their intervals at
/// another position begin, begin each after the end of the one before it of the same label, with the gap between. So a row that
/// stands in both is not apart.
pub(crate) fn are_both_apart(
    alloc: Global,
    left: &Relation,
    right: &Relation,
    label: &[usize],
    at: usize,
    gap: Gap,
) -> Result<bool, Memory>
    requires heading { left.now.heading ≡ right.now.heading }
    requires interval { AreIntervals left.now.heading (at ∷ []) }
    ensures left { IsRelation left.now }
    ensures right { IsRelation right.now }
    ensures chain { IfOk result (λ b. b ≡ true → IsChain label.now at gap (left.now.rows ++ right.now.rows)) }
{
    let (few, more) = (left.rows(), right.rows());
    let mut list = Vec::new(alloc);
    push_rows(&mut list, few, label)?;
    push_rows(&mut list, more, label)?;
    sorted_apart(alloc, list, label, at, gap)
}

/// Whether the rows, sorted by their values at the positions of the label and then by where their intervals at another position
/// begin, begin each after the end of the one before it of the same label, with the gap between.
///
/// No row is copied. The rows of a relation are sorted already where the label comes first in the heading.
pub fn are_apart(
    alloc: Global,
    r: &Relation,
    label: &[usize],
    at: usize,
    gap: Gap,
) -> Result<bool, Memory>
    requires { AreIntervals r.now.heading (at ∷ []) }
    ensures answer { IfOk result (λ b. b ≡ true → AreApart label.now at gap r.now.rows) }
    ensures chain { IfOk result (λ b. b ≡ true → IsChain label.now at gap r.now.rows) }
    ensures relation { IsRelation r.now }
{
    let rows = r.rows();
    let mut list = Vec::new(alloc);
    push_rows(&mut list, rows, label)?;
    sorted_apart(alloc, list, label, at, gap)
}
