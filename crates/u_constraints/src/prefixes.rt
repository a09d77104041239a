// Rows by their first values. Rows in order are in the order of these too.
ghost use Rattle.std.specs.Prelude.{◌≡◌, take};
ghost use Rattle.std.specs.Ordering.{is_lt};
ghost use Rattle.value_core.specs.Values.{row_cmp};
ghost use Rattle.u_constraints.specs.Prefixes.{counts_from, prefixes_ascend};

use crate::beginning::prefix;
use value_core::Row;

/// Whether the positions are the first ones, in order.
pub(crate) fn are_first(positions: &[usize]) -> bool
    ensures { result ≡ counts_from 0 positions.now }
{
    for (at, position) in positions.iter().enumerate() {
        if *position != at {
            return false;
        }
    }
    true
}

/// Whether the first values of the one row are less than those of the other.
fn begins_less(x: &Row, y: &Row, count: usize) -> bool
    ensures { result ≡ is_lt (row_cmp (take count x.now) (take count y.now)) }
{
    prefix(x, count).cmp(&prefix(y, count)).is_lt()
}

/// Whether each row has less first values than the next one.
pub(crate) fn prefixes_ascend(rows: &[Row], count: usize) -> bool
    ensures { result ≡ prefixes_ascend count rows.now }
{
    let Some((first, rest)) = rows.split_first() else {
        return true;
    };
    let mut last = first;
    for row in rest {
        if !begins_less(last, row, count) {
            return false;
        }
        last = row;
    }
    true
}
