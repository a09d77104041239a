// The rows that begin within others of their keys.
ghost use Rattle.std.specs.Prelude.{◌≡◌, ℕ, ◌<◌, ◌≤◌, ◌↔◌, ◌⊎◌, ℤ, ◌≤ℤ◌, ◌++◌, map, length, true, OnOk, IfOk, IsTrue};
ghost use Rattle.cell_packing.specs.Covering.{Among};
ghost use Rattle.cell_boxes.specs.Meetings.{turned};
ghost use Rattle.u_join.specs.RowPairs.{seen, Ascend, HaveOrder, IsMeeting, IsUpTo, IsBehind, IsLater, AreBehind, AreAhead, AreWithin};

use crate::standing::{Standing, compare_keys};
use point_core::Memory;
use std::alloc::Global;
use std::cmp::Ordering;

// Whether the one comes before the other, or is it if `too`.
fn is_up_to(too: bool, begin: i64, point: i64) -> bool
    ensures { IsTrue result ↔ IsUpTo too begin point }
{
    if too { begin <= point } else { begin < point }
}

// Whether the row is of a lesser key than the other, or of the same and begins before the point, or at it if `too`.
fn is_behind(row: &Standing, other: &Standing, point: i64, too: bool) -> bool
    ensures { IsTrue result ↔ IsBehind too (seen other.now).1 point (seen row.now) }
{
    match compare_keys(row, other) {
        Ordering::Less => true,
        Ordering::Equal => is_up_to(too, row.begin, point),
        Ordering::Greater => false,
    }
}

/// How many rows are behind, of which the first `known` are. It goes on from these row by row: who asks for keys and points that rise
/// comes past each row once.
pub(crate) fn count_behind(
    rows: &[Standing],
    other: &Standing,
    point: i64,
    too: bool,
    known: usize,
) -> usize
    requires within { known ≤ length rows.now }
    requires known { AreBehind seen too (seen other.now).1 point rows.now known }
    requires order { Ascend seen rows.now }
    ensures within { result ≤ length rows.now }
    ensures more { known ≤ result }
    ensures behind { AreBehind seen too (seen other.now).1 point rows.now result }
    ensures ahead { AreAhead seen too (seen other.now).1 point rows.now result }
{
    let mut count = known;
    while count < rows.len() && is_behind(&rows[count], other, point, too) {
        count += 1;
    }
    count
}

// The numbers of the rows of the row's key that begin within it, or, if `strict`, within it and after its first point: from the first
// up to before the second. The first `known` rows are behind.
fn range_within(x: &Standing, rows: &[Standing], strict: bool, known: usize) -> (usize, usize)
    requires interval { x.now.begin ≤ℤ x.now.end }
    requires within { known ≤ length rows.now }
    requires known { AreBehind seen strict (seen x.now).1 x.now.begin rows.now known }
    requires order { Ascend seen rows.now }
    ensures first { result.0 ≤ length rows.now }
    ensures end { result.1 ≤ length rows.now }
    ensures behind { AreBehind seen strict (seen x.now).1 x.now.begin rows.now result.0 }
    ensures rows { AreWithin seen strict (seen x.now) rows.now result.0 result.1 }
{
    let first = count_behind(rows, x, x.begin, strict, known);
    let end = count_behind(rows, x, x.end, true, first);
    (first, end)
}

// Adds the number with each number from `first` up to before `end`.
fn push_range(
    out: &mut Vec<(usize, usize)>,
    number: usize,
    first: usize,
    end: usize,
) -> Result<(), Memory>
    ensures { OnOk result ((p : ℕ × ℕ) → Among p out.new.items ↔ Among p out.old.items ⊎ ((p.0 ≡ number) × (first ≤ p.1) × (p.1 < end))) }
{
    for j in first..end {
        out.push((number, j))?;
    }
    Ok(())
}

// For each row of `from` the rows that begin within it; if `strict`, after its first point. Both are in order, so what is behind one
// row is behind the next: this takes the time of the rows of both and of the pairs.
fn later(
    alloc: Global,
    from: &[Standing],
    rows: &[Standing],
    strict: bool,
) -> Result<Vec<(usize, usize)>, Memory>
    requires intervals { HaveOrder seen from.now }
    requires from { Ascend seen from.now }
    requires rows { Ascend seen rows.now }
    ensures { IfOk result (λ v. (p : ℕ × ℕ) → Among p v.items ↔ IsLater seen strict from.now rows.now p) }
{
    let mut out = Vec::new(alloc);
    let mut known = 0;
    for i in 0..from.len() {
        let (first, end) = range_within(&from[i], rows, strict, known);
        push_range(&mut out, i, first, end)?;
        known = first;
    }
    Ok(out)
}

// Adds the pairs the other way round.
fn push_turned(out: &mut Vec<(usize, usize)>, pairs: &[(usize, usize)]) -> Result<(), Memory>
    ensures { OnOk result (out.new.items ≡ out.old.items ++ map turned pairs.now) }
{
    out.reserve(pairs.len())?;
    for p in pairs {
        out.push((p.1, p.0))?;
    }
    Ok(())
}

/// The numbers of a left and a right row of one key whose intervals meet, each pair once: for a left row the rights that begin within
/// it, and for a right row the lefts that begin within it and after its first point.
pub(crate) fn meeting_pairs(
    alloc: Global,
    left: &[Standing],
    right: &[Standing],
) -> Result<Vec<(usize, usize)>, Memory>
    requires lefts { HaveOrder seen left.now }
    requires rights { HaveOrder seen right.now }
    requires left { Ascend seen left.now }
    requires right { Ascend seen right.now }
    ensures { IfOk result (λ v. (p : ℕ × ℕ) → Among p v.items ↔ IsMeeting seen left.now right.now p) }
{
    let mut pairs = later(alloc, left, right, false)?;
    let others = later(alloc, right, left, true)?;
    push_turned(&mut pairs, others.as_slice())?;
    Ok(pairs)
}
