// What is left of rows' intervals, where those of other rows with the same key are taken away.
ghost use Rattle.std.specs.Prelude.{◌≡◌, ℤ, pos, ◌<◌, ◌≤◌, ◌↔◌, ◌≤ℤ◌, ◌+ℤ◌, map, length, IfOk, OnOk, IsTrue};
ghost use Rattle.std.specs.Int.{int_max};
ghost use Rattle.point_core.specs.Whole.{least_whole, greatest_whole};
ghost use Rattle.cell_boxes.specs.Rows.{IsRow};
ghost use Rattle.u_join.specs.RowPairs.{seen, Ascend, HaveOrder};
ghost use Rattle.u_join.specs.Rests.{IsPast, ArePast, AreMeeting, IsCut, AreCutTo, AreRests};

use crate::standing::{Standing, compare_keys};
use crate::sweeping::count_behind;
use point_core::Memory;
use std::alloc::Global;
use std::cmp::Ordering;

// Whether the row is of a lesser key than the other, or of the same and ends before the other begins.
fn is_past(row: &Standing, other: &Standing) -> bool
    ensures { IsTrue result ↔ IsPast (seen other.now) (seen row.now) }
{
    match compare_keys(row, other) {
        Ordering::Less => true,
        Ordering::Equal => row.end < other.begin,
        Ordering::Greater => false,
    }
}

// How many rows are past before one that is not, of which the first `known` are.
fn count_past(rows: &[Standing], other: &Standing, known: usize) -> usize
    requires within { known ≤ length rows.now }
    requires known { ArePast seen (seen other.now) rows.now known }
    ensures within { result ≤ length rows.now }
    ensures past { ArePast seen (seen other.now) rows.now result }
    ensures next { (y : Standing) → IsRow rows.now result y → IsPast (seen other.now) (seen y) → ⊥ }
{
    let mut count = known;
    while count < rows.len() && is_past(&rows[count], other) {
        count += 1;
    }
    count
}

// The numbers of the rows of the row's key that may have numbers of it: from the first up to before the second. The first `known`
// rows are past.
fn range_meeting(x: &Standing, rows: &[Standing], known: usize) -> (usize, usize)
    requires interval { x.now.begin ≤ℤ x.now.end }
    requires within { known ≤ length rows.now }
    requires known { ArePast seen (seen x.now) rows.now known }
    requires order { Ascend seen rows.now }
    requires intervals { HaveOrder seen rows.now }
    ensures within { result.0 ≤ length rows.now }
    ensures past { ArePast seen (seen x.now) rows.now result.0 }
    ensures rows { AreMeeting seen (seen x.now) rows.now result.0 result.1 }
{
    let first = count_past(rows, x, known);
    let end = count_behind(rows, x, x.end, true, first);
    (first, end)
}

// Adds the row with the numbers from the one up to before the other, if there are any.
fn push_between<'a>(
    parts: &mut Vec<Standing<'a>>,
    x: &Standing<'a>,
    from: i128,
    to: i128,
) -> Result<(), Memory>
    requires from { least_whole ≤ℤ from }
    requires to { to ≤ℤ (greatest_whole +ℤ pos 1) }
    ensures { OnOk result (IsCut (seen x.now) from to (map seen parts.old.items) (map seen parts.new.items)) }
{
    if from < to {
        let part = Standing {
            begin: from as i64,
            end: (to - 1) as i64,
            ..*x
        };
        parts.push(part)?;
    }
    Ok(())
}

// Adds what of x there is from the number up to before y begins.
fn push_before<'a>(
    parts: &mut Vec<Standing<'a>>,
    x: &Standing<'a>,
    from: i128,
    y: &Standing,
) -> Result<(), Memory>
    requires { least_whole ≤ℤ from }
    ensures { OnOk result (IsCut (seen x.now) from y.now.begin (map seen parts.old.items) (map seen parts.new.items)) }
{
    push_between(parts, x, from, i128::from(y.begin))
}

// Adds what of x there is from the number on.
fn push_last<'a>(parts: &mut Vec<Standing<'a>>, x: &Standing<'a>, from: i128) -> Result<(), Memory>
    requires { least_whole ≤ℤ from }
    ensures { OnOk result (IsCut (seen x.now) from (x.now.end +ℤ pos 1) (map seen parts.old.items) (map seen parts.new.items)) }
{
    push_between(parts, x, from, i128::from(x.end) + 1)
}

// The number from which on what is left of x begins, where it is after y and not before `from`.
fn after(from: i128, y: &Standing) -> i128
    ensures { result ≡ int_max from (y.now.end +ℤ pos 1) }
{
    let next = i128::from(y.end) + 1;
    if from < next { next } else { from }
}

// The number at which the row begins.
fn begin_of(x: &Standing) -> i128
    ensures number { result ≡ x.now.begin }
    ensures whole { least_whole ≤ℤ x.now.begin }
{
    i128::from(x.begin)
}

// Adds what of the row is left where the rows with these numbers are taken away.
fn push_rest<'a>(
    parts: &mut Vec<Standing<'a>>,
    x: &Standing<'a>,
    rows: &[Standing],
    first: usize,
    end: usize,
) -> Result<(), Memory>
    requires order { Ascend seen rows.now }
    requires rows { AreMeeting seen (seen x.now) rows.now first end }
    ensures { OnOk result (AreCutTo seen (seen x.now) rows.now (x.now.end +ℤ pos 1) (map seen parts.old.items) (map seen parts.new.items)) }
{
    let mut from = begin_of(x);
    for j in first..end {
        let y = &rows[j];
        push_before(parts, x, from, y)?;
        from = after(from, y);
    }
    push_last(parts, x, from)
}

/// What is left of the intervals of the left rows, where those of the right rows of their keys are taken away: each left row once for
/// each part of it. Both are in order, so what is past for one row is past for the next. Where right rows of one key do not overlap, this
/// takes the time of the rows of both and of the parts.
pub(crate) fn rests_of<'a>(
    alloc: Global,
    left: &[Standing<'a>],
    right: &[Standing],
) -> Result<Vec<Standing<'a>>, Memory>
    requires lefts { HaveOrder seen left.now }
    requires rights { HaveOrder seen right.now }
    requires left { Ascend seen left.now }
    requires right { Ascend seen right.now }
    ensures { IfOk result (λ v. AreRests seen left.now right.now (length left.now) (map seen v.items)) }
{
    let mut parts = Vec::new(alloc);
    let mut known = 0;
    for i in 0..left.len() {
        let x = &left[i];
        let (first, end) = range_meeting(x, right, known);
        push_rest(&mut parts, x, right, first, end)?;
        known = first;
    }
    Ok(parts)
}
