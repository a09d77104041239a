// Rows of a stored log.
ghost use Rattle.std.specs.Prelude.{◌≡◌, ◌<◌, ◌≤◌, ◌≤ℤ◌, IfOk, length, map};
ghost use Rattle.std.specs.List.Sorted.{IsStrictlySortedBy};
ghost use Rattle.base_core.specs.Sets.{has};
ghost use Rattle.point_core.specs.Points.{integers, number};
ghost use Rattle.value_core.specs.Attributes.{value_at, put_span};
ghost use Rattle.value_core.specs.Plain.{plain};
ghost use Rattle.value_core.specs.Values.{interval, row_cmp};
ghost use Rattle.log_times.specs.Logs.{stamped, unstamped, statements, is_standing, closed_row, HasStatements, IsStoredRow};

use interval_core::Interval;
use point_core::{AnyPoint, AnyType, Label, Memory};
use std::alloc::Global;
use std::cmp::Ordering;
use value_core::{Row, Value};

/// The end of a row that still stands.
pub(crate) const OPEN_END: i64 = i64::MAX;

/// The interval of the statements from one number to another.
fn interval_of(begin: i64, end: i64) -> Value
    requires { begin ≤ℤ end }
    ensures { plain result ≡ interval integers (begin, end) }
{
    Value::Span(Interval::of(AnyPoint::Integer(begin), AnyPoint::Integer(end)))
}

/// The numbers of an interval's ends.
fn ends(i: &Interval<AnyType>) -> (i64, i64)
    ensures { result ≡ (number i.now.0, number i.now.1) }
{
    (i.begin().number(), i.end().number())
}

/// The row with an interval of statements at the place, in front of what stood there.
pub(crate) fn stamped(
    alloc: Global,
    row: &Row,
    side: usize,
    begin: i64,
    end: i64,
) -> Result<Row, Memory>
    requires within { side ≤ length row.now }
    requires ordered { begin ≤ℤ end }
    ensures { IfOk result (λ r. r ≡ stamped side (begin, end) row.now) }
{
    let same = row.copy(alloc)?;
    let mut values = same.into_values();
    let value = interval_of(begin, end);
    values.insert(side, value)?;
    Ok(Row::make(values))
}

/// The row with another interval of statements at the place.
fn with_statements(row: Row, side: usize, begin: i64, end: i64) -> Row
    requires interval { HasStatements side row }
    requires ordered { begin ≤ℤ end }
    ensures { result ≡ put_span row side (begin, end) }
{
    let value = interval_of(begin, end);
    let mut values = row.into_values();
    values[side] = value;
    Row::make(values)
}

/// The numbers of the first and the last statement of a row of the log.
pub(crate) fn statements(row: &Row, side: usize) -> (i64, i64)
    requires { HasStatements side row.now }
    ensures { result ≡ statements side row.now }
{
    match &row.values()[side] {
        Value::Span(i) => ends(i),
        _ => unreachable!(),
    }
}

/// Whether the row still stands.
pub(crate) fn is_standing(row: &Row, side: usize) -> bool
    requires { HasStatements side row.now }
    ensures { result ≡ is_standing side row.now }
{
    statements(row, side).1 == OPEN_END
}

/// The row as the log has it after the statement of this number: one that stands ends there.
pub(crate) fn closed_row(alloc: Global, row: &Row, side: usize, number: i64) -> Result<Row, Memory>
    requires { IsStoredRow side number row.now }
    ensures { IfOk result (λ r. r ≡ closed_row side number row.now) }
{
    let same = row.copy(alloc)?;
    if !is_standing(row, side) {
        return Ok(same);
    }
    let begin = statements(row, side).0;
    Ok(with_statements(same, side, begin, number))
}

/// Whether the row without its interval is among the rows, which are in order.
pub(crate) fn has_rest(rows: &[Row], row: &Row, side: usize) -> bool
    requires sorted { IsStrictlySortedBy row_cmp rows.now }
    requires within { side < length row.now }
    ensures { result ≡ has row_cmp rows.now (unstamped side row.now) }
{
    rows.binary_search_by(|key| compare_rest(key, row, side))
        .is_ok()
}

/// How the key stands to the row without its interval.
fn compare_rest(key: &Row, row: &Row, side: usize) -> Ordering
    requires { side < length row.now }
    ensures { result ≡ row_cmp key.now (unstamped side row.now) }
{
    if key.values().len() < side {
        return key.cmp(row);
    }
    compare_parts(key.values(), row.values(), side)
}

/// How the values of a key stand to those of a row without the one at the place.
fn compare_parts(key: &[Value], row: &[Value], side: usize) -> Ordering
    requires key { side ≤ length key.now }
    requires within { side < length row.now }
    ensures { result ≡ row_cmp (map plain key.now) (unstamped side (map plain row.now)) }
{
    let (key_front, key_back) = key.split_at(side);
    let (front, back) = row.split_at(side);
    let order = key_front.cmp(&front);
    if !order.is_eq() {
        return order;
    }
    key_back.cmp(&back.split_at(1).1)
}
