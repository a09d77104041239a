// Runs: spans of points that rows of one key have. By these a foreign key is looked at of which one attribute is unpacked.
// Hashes and marks choose which rows are looked at, and their order: what is seen is seen of the rows themselves.
ghost use Rattle.std.specs.Prelude.{◌≡◌, ◌<◌, ℕ, ◌≤ℤ◌, ◌+ℤ◌, pos, List, [], ◌∷◌, true, false, length, map, slice_index_or, IfOk, OnOk};
ghost use Rattle.std.specs.List.{All};
ghost use Rattle.point_core.specs.Points.{number};
ghost use Rattle.interval_core.specs.Members.{span};
ghost use Rattle.cell_packing.specs.Covering.{Among};
ghost use Rattle.value_core.specs.Plain.{plain};
ghost use Rattle.value_core.specs.Values.{Row as PlainRow, truth, IsRelation};
ghost use Rattle.relation_core.specs.Agreement.{part_of};
ghost use Rattle.u_set.specs.Apart.{span_in, HasInterval};
ghost use Rattle.u_set.specs.Boxes.{AreIntervals};
ghost use Rattle.u_constraints.specs.Covers.{IsCovered, IsRun};

use crate::marks::{is_marked, key_hash, marks_of};
use interval_core::Interval;
use point_core::{AnyType, Memory};
use std::alloc::Global;
use std::cmp::Ordering;
use u_set::interval_of;
use value_core::{Relation, Row, Value};

/// The attributes of a key in one of the two headings: the one that is unpacked, and the others.
#[derive(Clone, Copy)]
pub(crate) struct KeySide<'a> {
    pub label: &'a [usize],
    pub at: usize,
}

/// The points from begin to end, and a row whose key the rows have that have these points.
#[derive(Clone, Copy)]
struct Run<'a> {
    row: &'a Row,
    hash: u64,
    begin: i64,
    end: i64,
}

/// The value at the position, or another one past the end.
fn value_or<'a>(values: &'a [Value], position: usize, other: &'a Value) -> &'a Value
    ensures { plain result.now ≡ slice_index_or (map plain values.now) position (plain other.now) }
{
    values.get(position).unwrap_or(other)
}

/// Whether the values of two rows at a position each are the same. FALSE stands past the end.
fn are_equal(x: &[Value], here: usize, y: &[Value], there: usize) -> bool
    ensures { result ≡ true → slice_index_or (map plain x.now) here (truth false) ≡ slice_index_or (map plain y.now) there (truth false) }
{
    let past = Value::Truth(false);
    value_or(x, here, &past)
        .cmp(value_or(y, there, &past))
        .is_eq()
}

/// Whether the values of the one row at positions are those of the other at as many.
fn agree(x: &Row, here: &[usize], y: &Row, there: &[usize]) -> bool
    requires { length here.now ≡ length there.now }
    ensures { result ≡ true → part_of here.now x.now ≡ part_of there.now y.now }
{
    let (left, right) = (x.values(), y.values());
    for (i, position) in here.iter().enumerate() {
        if !are_equal(left, *position, right, there[i]) {
            return false;
        }
    }
    true
}

/// The numbers of the interval's ends.
fn ends_of(interval: &Interval<AnyType>) -> (i64, i64)
    ensures { result ≡ span number interval.now }
{
    (interval.begin().number(), interval.end().number())
}

/// The numbers of the ends of the row's interval.
pub(crate) fn ends_at(row: &Row, at: usize) -> (i64, i64)
    requires { HasInterval at row.now }
    ensures { result ≡ span_in at row.now }
{
    let values = row.values();
    let interval = interval_of(&values[at]);
    ends_of(&interval)
}

/// The run of one row's points.
fn run_of<'a>(row: &'a Row, hash: u64, at: usize) -> Run<'a>
    requires { HasInterval at row.now }
    ensures row { result.row.now ≡ row.now }
    ensures ends { (result.begin, result.end) ≡ span_in at row.now }
{
    let (begin, end) = ends_at(row, at);
    Run {
        row,
        hash,
        begin,
        end,
    }
}

/// Adds the run of the row's points, if the hash of the row's key has a mark.
fn add_marked<'a>(
    list: &mut Vec<Run<'a>>,
    row: &'a Row,
    side: KeySide<'_>,
    marks: &[bool],
) -> Result<(), Memory>
    requires { HasInterval side.at row.now }
    ensures { (label : List ℕ) (rows : List PlainRow) → Among row.now rows → All (λ r. IsRun label side.entry.at rows r.row.now r.begin r.end) list.old.items
        → OnOk result (All (λ r. IsRun label side.entry.at rows r.row.now r.begin r.end) list.new.items) }
{
    let hash = key_hash(row, side.label);
    if is_marked(marks, hash) {
        list.push(run_of(row, hash, side.at))?;
    }
    Ok(())
}

/// The runs of each row's points, of the rows the hash of whose key has a mark.
fn marked_runs<'a>(
    alloc: Global,
    rows: &'a [Row],
    side: KeySide<'_>,
    marks: &[bool],
) -> Result<Vec<Run<'a>>, Memory>
    requires { All (HasInterval side.at) rows.now }
    ensures { IfOk result (λ v. (label : List ℕ) → All (λ r. IsRun label side.entry.at rows.now r.row.now r.begin r.end) v.items) }
{
    let mut list = Vec::new(alloc);
    for row in rows {
        add_marked(&mut list, row, side, marks)?;
    }
    Ok(list)
}

/// The order of runs by their hashes, and then by where they begin.
fn compare_runs(x: &Run, y: &Run) -> Ordering {
    x.hash.cmp(&y.hash).then(x.begin.cmp(&y.begin))
}

/// Whether the one run goes on with the other, which has its key.
fn goes_on(x: &Run, y: &Run, label: &[usize]) -> bool
    ensures key { result ≡ true → part_of label.now x.now.row.now ≡ part_of label.now y.now.row.now }
    ensures near { result ≡ true → y.now.begin ≤ℤ (x.now.end +ℤ pos 1) }
{
    let near = y.begin <= x.end.saturating_add(1);
    near && agree(x.row, label, y.row, label)
}

/// The run that goes on with the next one; else the next one, where the run is added to those that are done.
fn taken<'a>(
    done: &mut Vec<Run<'a>>,
    run: Run<'a>,
    next: Run<'a>,
    label: &[usize],
) -> Result<Run<'a>, Memory>
    ensures runs { (at : ℕ) (rows : List PlainRow) → All (λ r. IsRun label.now at rows r.row.now r.begin r.end) done.old.items
        → IsRun label.now at rows run.entry.row.now run.entry.begin run.entry.end → IsRun label.now at rows next.entry.row.now next.entry.begin next.entry.end
        → IfOk result (λ r. All (λ r. IsRun label.now at rows r.row.now r.begin r.end) done.new.items × IsRun label.now at rows r.row.now r.begin r.end) }
{
    if goes_on(&run, &next, label) {
        let end = run.end.max(next.end);
        return Ok(Run { end, ..run });
    }
    done.push(run)?;
    Ok(next)
}

/// The runs with each one and those that go on with it as one.
fn joined<'a>(alloc: Global, runs: &[Run<'a>], label: &[usize]) -> Result<Vec<Run<'a>>, Memory>
    ensures { (at : ℕ) (rows : List PlainRow) → All (λ r. IsRun label.now at rows r.row.now r.begin r.end) runs.now
        → IfOk result (λ v. All (λ r. IsRun label.now at rows r.row.now r.begin r.end) v.items) }
{
    let mut done = Vec::new(alloc);
    let Some(first) = runs.first() else {
        return Ok(done);
    };
    let mut run = *first;
    for next in runs {
        run = taken(&mut done, run, *next, label)?;
    }
    done.push(run)?;
    Ok(done)
}

/// The runs of the rows the hash of whose key has a mark, by hash and begin.
fn sought_runs<'a>(
    alloc: Global,
    rows: &'a [Row],
    side: KeySide<'_>,
    marks: &[bool],
) -> Result<Vec<Run<'a>>, Memory>
    requires { All (HasInterval side.at) rows.now }
    ensures { IfOk result (λ v. All (λ r. IsRun side.entry.label.now side.entry.at rows.now r.row.now r.begin r.end) v.items) }
{
    let mut list = marked_runs(alloc, rows, side, marks)?;
    list.sort_by(|x: &Run, y: &Run| compare_runs(x, y))?;
    joined(alloc, list.as_slice(), side.label)
}

/// Whether the one run does not stand behind the other.
fn is_not_behind(x: &Run, y: &Run) -> bool {
    !compare_runs(x, y).is_gt()
}

/// Whether the run has all points of the other.
fn has_points_of(run: &Run, asked: &Run) -> bool
    ensures begin { result ≡ true → run.now.begin ≤ℤ asked.now.begin }
    ensures end { result ≡ true → asked.now.end ≤ℤ run.now.end }
{
    run.begin <= asked.begin && asked.end <= run.end
}

/// Whether one of the runs, which are in order, has the key and all points of the run that is asked for.
fn is_in_run(runs: &[Run], asked: &Run, own: &[usize], theirs: &[usize]) -> bool
    requires { length own.now ≡ length theirs.now }
    ensures { (at : ℕ) (rows : List PlainRow) → All (λ r. IsRun theirs.now at rows r.row.now r.begin r.end) runs.now → result ≡ true
        → IsCovered theirs.now at rows (part_of own.now asked.now.row.now) (asked.now.begin, asked.now.end) }
{
    let count = runs.partition_point(|run| is_not_behind(run, asked));
    if count == 0 {
        return false;
    }
    let run = &runs[count - 1];
    has_points_of(run, asked) && agree(asked.row, own, run.row, theirs)
}

/// Whether each of the rows has its key and points in one of the runs, which are in order.
fn are_in_runs(runs: &[Run], rows: &[Row], own: KeySide<'_>, theirs: &[usize]) -> bool
    requires intervals { All (HasInterval own.at) rows.now }
    requires many { length own.label.now ≡ length theirs.now }
    ensures { (at : ℕ) (others : List PlainRow) → All (λ r. IsRun theirs.now at others r.row.now r.begin r.end) runs.now → result ≡ true
        → All (λ x. IsCovered theirs.now at others (part_of own.entry.label.now x) (span_in own.entry.at x)) rows.now }
{
    for row in rows {
        let asked = run_of(row, key_hash(row, own.label), own.at);
        if !is_in_run(runs, &asked, own.label, theirs) {
            return false;
        }
    }
    true
}

/// Whether it is seen that the other's rows of each row's key have all of its points. Where they touch one another by order of hash and
/// begin, they are so seen.
pub(crate) fn are_covered(
    alloc: Global,
    of: &Relation,
    own: KeySide<'_>,
    other: &Relation,
    theirs: KeySide<'_>,
) -> Result<bool, Memory>
    requires own { AreIntervals of.now.heading (own.at ∷ []) }
    requires theirs { AreIntervals other.now.heading (theirs.at ∷ []) }
    requires many { length own.label.now ≡ length theirs.label.now }
    ensures covered { IfOk result (λ b. b ≡ true
        → All (λ x. IsCovered theirs.entry.label.now theirs.entry.at other.now.rows (part_of own.entry.label.now x) (span_in own.entry.at x)) of.now.rows) }
    ensures relations { IsRelation of.now × IsRelation other.now }
{
    let (rows, others) = (of.rows(), other.rows());
    let marks = marks_of(alloc, rows, own.label)?;
    let runs = sought_runs(alloc, others, theirs, marks.as_slice())?;
    Ok(are_in_runs(runs.as_slice(), rows, own, theirs.label))
}
