// Rows that begin with given values.
ghost use Rattle.std.specs.Prelude.{◌≡◌, filter, length, map, take};
ghost use Rattle.std.specs.List.Sorted.{IsStrictlySortedBy};
ghost use Rattle.std.specs.Ordering.{is_lt};
ghost use Rattle.value_core.specs.Plain.{plain};
ghost use Rattle.value_core.specs.Values.{row_cmp};
ghost use Rattle.u_constraints.specs.Prefixes.{begins_with};

use std::cmp::Ordering;
use value_core::{Row, Value};

/// The row's first values.
pub(crate) fn prefix(row: &Row, count: usize) -> &[Value]
    ensures { map plain result.now ≡ take count row.now }
{
    let values = row.values();
    values.split_at(count.min(values.len())).0
}

/// How the row's first values stand to these, of which it has as many.
fn compare_prefix(row: &Row, values: &Row) -> Ordering
    ensures { result ≡ row_cmp (take (length values.now) row.now) values.now }
{
    let values = values.values();
    prefix(row, values.len()).cmp(&values)
}

/// Whether the row's first values are less than these.
fn begins_below(row: &Row, values: &Row) -> bool
    ensures { result ≡ is_lt (row_cmp (take (length values.now) row.now) values.now) }
{
    compare_prefix(row, values).is_lt()
}

/// Whether the row's first values are these.
fn begins_with(row: &Row, values: &Row) -> bool
    ensures { result ≡ begins_with values.now row.now }
{
    compare_prefix(row, values).is_eq()
}

/// The rows that begin with these values, and no others. Rows in order are in the order of their first values too, so that these stand
/// together: both of their ends are found by halving.
pub fn with_prefix<'a>(rows: &'a [Row], values: &Row) -> &'a [Row]
    requires { IsStrictlySortedBy row_cmp rows.now }
    ensures { result.now ≡ filter (begins_with values.now) rows.now }
{
    let begin = rows.partition_point(|row| begins_below(row, values));
    let rest = rows.split_at(begin).1;
    let count = rest.partition_point(|row| begins_with(row, values));
    rest.split_at(count).0
}
