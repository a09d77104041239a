// Rows by their values in front of a place.
ghost use Rattle.std.specs.Prelude.{◌≡◌, filter, map, take};
ghost use Rattle.std.specs.List.Sorted.{IsStrictlySortedBy};
ghost use Rattle.std.specs.Ordering.{is_lt};
ghost use Rattle.value_core.specs.Plain.{plain};
ghost use Rattle.value_core.specs.Values.{row_cmp};
ghost use Rattle.log_times.specs.Fronts.{has_front, is_behind};

use std::cmp::Ordering;
use value_core::{Row, Value};

/// The row's values in front of the place.
fn front(row: &Row, side: usize) -> &[Value]
    ensures { map plain result.now ≡ take side row.now }
{
    let values = row.values();
    values.split_at(side.min(values.len())).0
}

/// How the row's values in front of the place stand to those of another row.
fn compare_fronts(row: &Row, other: &Row, side: usize) -> Ordering
    ensures { result ≡ row_cmp (take side row.now) (take side other.now) }
{
    front(row, side).cmp(&front(other, side))
}

/// Whether they are less than those of the other row.
fn comes_before(row: &Row, other: &Row, side: usize) -> bool
    ensures { result ≡ is_lt (row_cmp (take side row.now) (take side other.now)) }
{
    compare_fronts(row, other, side).is_lt()
}

/// Whether they are those of the other row.
fn has_front(row: &Row, other: &Row, side: usize) -> bool
    ensures { result ≡ has_front side other.now row.now }
{
    compare_fronts(row, other, side).is_eq()
}

/// Of rows in order, those that have the values of one row in front of the place, and those that have greater ones there. Rows in order
/// are in the order of these values too, so that either stand together: their ends are found by halving.
pub(crate) fn split_front<'a>(rows: &'a [Row], one: &Row, side: usize) -> (&'a [Row], &'a [Row])
    requires { IsStrictlySortedBy row_cmp rows.now }
    ensures same { result.0.now ≡ filter (has_front side one.now) rows.now }
    ensures behind { result.1.now ≡ filter (is_behind side one.now) rows.now }
{
    let begin = rows.partition_point(|row| comes_before(row, one, side));
    let rest = rows.split_at(begin).1;
    let count = rest.partition_point(|row| has_front(row, one, side));
    rest.split_at(count)
}
