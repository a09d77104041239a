// Rows in the order of some of their values and of where their intervals begin.
ghost use Rattle.std.specs.Prelude.{◌≡◌, ◌≤ℤ◌, ◌∷◌, [], false, map, slice_index_or, IfOk, IsPermutation};
ghost use Rattle.std.specs.List.{All};
ghost use Rattle.std.specs.declared.cmp.Ordering.TheVariants.{Equal};
ghost use Rattle.point_core.specs.Points.{number};
ghost use Rattle.interval_core.specs.Members.{span};
ghost use Rattle.value_core.specs.Plain.{plain};
ghost use Rattle.value_core.specs.Values.{truth, value_cmp, row_cmp, IsRelation};
ghost use Rattle.u_set.specs.Apart.{span_in, HasInterval};
ghost use Rattle.u_set.specs.Boxes.{AreIntervals};
ghost use Rattle.u_join.specs.RowPairs.{stood, seen, stood_cmp, Ascend};

use interval_core::Interval;
use point_core::{AnyType, Memory};
use presort::{Numbers, SortKeys, arrange, unsigned};
use std::alloc::Global;
use std::cmp::Ordering;
use u_set::{interval_of, value_or};
use value_core::{Relation, Row, Value};

/// A row with the positions of its key, and the numbers of its interval's ends.
#[derive(Clone, Copy)]
pub(crate) struct Standing<'a> {
    pub row: &'a Row,
    pub key: &'a [usize],
    pub begin: i64,
    pub end: i64,
}

impl<'a> Numbers for Standing<'a> {
    fn put_numbers(&self, lines: &mut SortKeys) {
        let values = self.row.values();
        for position in self.key {
            if *position < values.len() {
                values[*position].put_numbers(lines);
            }
        }
        lines.put(unsigned(self.begin));
    }
}

// How the values of two rows at positions stand to each other. FALSE stands past the end.
fn compare_values(x: &[Value], here: usize, y: &[Value], there: usize) -> Ordering
    ensures { result ≡ value_cmp (slice_index_or (map plain x.now) here (truth false)) (slice_index_or (map plain y.now) there (truth false)) }
{
    let past = Value::Truth(false);
    value_or(x, here, &past).cmp(value_or(y, there, &past))
}

/// How the keys of two rows stand to each other.
pub(crate) fn compare_keys(x: &Standing, y: &Standing) -> Ordering
    ensures { result ≡ row_cmp (seen x.now).1 (seen y.now).1 }
{
    let (left, right) = (x.row.values(), y.row.values());
    let (here, there) = (x.key, y.key);
    for i in 0..here.len() {
        if i >= there.len() {
            return Ordering::Greater;
        }
        let order = compare_values(left, here[i], right, there[i]);
        if !order.is_eq() {
            return order;
        }
    }
    if here.len() < there.len() {
        return Ordering::Less;
    }
    Ordering::Equal
}

// The order of rows by their keys and then by where their intervals begin.
fn compare(x: &Standing, y: &Standing) -> Ordering
    ensures { result ≡ stood_cmp (seen x.now) (seen y.now) }
{
    match compare_keys(x, y) {
        Ordering::Equal => x.begin.cmp(&y.begin),
        by_key => by_key,
    }
}

// The numbers of the interval's ends.
fn ends_of(interval: &Interval<AnyType>) -> (i64, i64)
    ensures { result ≡ span number interval.now }
{
    (interval.begin().number(), interval.end().number())
}

// The row with the positions of its key and the interval at another one.
fn with_ends<'a>(row: &'a Row, key: &'a [usize], at: usize) -> Standing<'a>
    requires { HasInterval at row.now }
    ensures { seen result ≡ stood key.now at row.now }
{
    let values = row.values();
    let interval = interval_of(&values[at]);
    let (begin, end) = ends_of(&interval);
    Standing {
        row,
        key,
        begin,
        end,
    }
}

// Each of the rows so.
fn standing_rows<'a>(
    alloc: Global,
    rows: &'a [Row],
    key: &'a [usize],
    at: usize,
) -> Result<Vec<Standing<'a>>, Memory>
    requires { All (λ r. HasInterval at r) rows.now }
    ensures { IfOk result (λ v. map seen v.items ≡ map (stood key.now at) rows.now) }
{
    let mut list = Vec::with_capacity(alloc, rows.len())?;
    for row in rows {
        list.push(with_ends(row, key, at))?;
    }
    Ok(list)
}

// The rows by their keys and then by where their intervals begin. They are brought near that order first.
fn in_order<'a>(alloc: Global, rows: Vec<Standing<'a>>) -> Result<Vec<Standing<'a>>, Memory>
    ensures moved { IfOk result (λ v. IsPermutation rows.entry.items v.items) }
    ensures order { IfOk result (λ v. Ascend seen v.items) }
{
    let mut list = rows;
    arrange(alloc, &mut list)?;
    list.sort_by(|x: &Standing, y: &Standing| compare(x, y))?;
    Ok(list)
}

/// The rows of the relation by their values at the positions of the key, and then by where their intervals at another position begin.
/// No row is copied.
pub(crate) fn rows_standing<'a>(
    alloc: Global,
    r: &'a Relation,
    key: &'a [usize],
    at: usize,
) -> Result<Vec<Standing<'a>>, Memory>
    requires { AreIntervals r.now.heading (at ∷ []) }
    ensures rows { IfOk result (λ v. IsPermutation (map (stood key.now at) r.now.rows) (map seen v.items)) }
    ensures order { IfOk result (λ v. Ascend seen v.items) }
    ensures relation { IsRelation r.now }
{
    let rows = standing_rows(alloc, r.rows(), key, at)?;
    let list = in_order(alloc, rows)?;
    Ok(list)
}

/// Whether y is of another key than x, or begins after the end of x.
pub(crate) fn are_apart(x: &Standing, y: &Standing) -> bool
    ensures { result ≡ false → (row_cmp (seen x.now).1 (seen y.now).1 ≡ Equal) × (y.now.begin ≤ℤ x.now.end) }
{
    x.end < y.begin || !compare_keys(x, y).is_eq()
}

/// Whether of the rows, which stand in order, no two of one key have intervals that overlap.
pub(crate) fn stand_apart(rows: &[Standing]) -> bool {
    for i in 1..rows.len() {
        if !are_apart(&rows[i - 1], &rows[i]) {
            return false;
        }
    }
    true
}
