// Lists of rows of a stored log.
ghost use Rattle.std.specs.Prelude.{◌≡◌, ◌≤◌, ◌++◌, ℕ, IfOk, OnOk, length};
ghost use Rattle.std.specs.List.{All};
ghost use Rattle.std.specs.List.Sorted.{IsStrictlySortedBy};
ghost use Rattle.value_core.specs.Values.{Row as PlainRow, row_cmp};
ghost use Rattle.log_times.specs.Logs.{closed, HasStatements, IsStoredRow};
ghost use Rattle.log_times.specs.Turns.{begun, goes, lost};

use crate::fronts::split_front;
use crate::rows::{OPEN_END, closed_row, has_rest, is_standing, stamped};
use point_core::Memory;
use relation_core::keep;
use std::alloc::Global;
use value_core::Row;

/// The rows as the log has them after the statement.
pub(crate) fn closed_rows(
    alloc: Global,
    rows: &[Row],
    side: usize,
    number: i64,
) -> Result<Vec<Row>, Memory>
    requires { All (IsStoredRow side number) rows.now }
    ensures { IfOk result (λ list. list.items ≡ closed side number rows.now) }
{
    let mut list = Vec::with_capacity(alloc, rows.len())?;
    for row in rows {
        list.push(closed_row(alloc, row, side, number)?)?;
    }
    Ok(list)
}

/// Adds the stored rows of those that stand from the statement on.
pub(crate) fn add_begun(
    alloc: Global,
    list: &mut Vec<Row>,
    rows: &[Row],
    side: usize,
    number: i64,
) -> Result<(), Memory>
    requires { All (λ (x : PlainRow). side ≤ length x) rows.now }
    ensures { OnOk result (list.new.items ≡ list.old.items ++ begun side number rows.now) }
{
    for row in rows {
        list.push(stamped(alloc, row, side, number, OPEN_END)?)?;
    }
    Ok(())
}

/// Whether the row stands and its row is among those that go, which are in order.
fn goes(row: &Row, side: usize, gone: &[Row]) -> bool
    requires interval { HasStatements side row.now }
    requires sorted { IsStrictlySortedBy row_cmp gone.now }
    ensures { result ≡ goes side gone.now row.now }
{
    is_standing(row, side) && has_rest(gone, row, side)
}

/// Adds the stored rows of those that go, which are in order.
fn add_lost(
    alloc: Global,
    list: &mut Vec<Row>,
    rows: &[Row],
    side: usize,
    gone: &[Row],
) -> Result<(), Memory>
    requires intervals { All (HasStatements side) rows.now }
    requires sorted { IsStrictlySortedBy row_cmp gone.now }
    ensures { OnOk result (list.new.items ≡ list.old.items ++ lost side gone.now rows.now) }
{
    for row in rows {
        keep(alloc, list, row, goes(row, side, gone))?;
    }
    Ok(())
}

/// The stored rows of those that go, where both are in order. Only stored rows are looked at that have, in front of the place, the values
/// of one that goes: those with the same values there stand together, among the stored rows and among those that go.
pub(crate) fn lost_rows(
    alloc: Global,
    rows: &[Row],
    side: usize,
    gone: &[Row],
) -> Result<Vec<Row>, Memory>
    requires intervals { All (HasStatements side) rows.now }
    requires rows { IsStrictlySortedBy row_cmp rows.now }
    requires sorted { IsStrictlySortedBy row_cmp gone.now }
    ensures { IfOk result (λ list. list.items ≡ lost side gone.now rows.now) }
{
    let mut list = Vec::new(alloc);
    let mut rest = rows;
    let mut left = gone;
    'front: while let Some((first, _)) = left.split_first() {
        let (run, after) = split_front(rest, first, side);
        let (same, behind) = split_front(left, first, side);
        add_lost(alloc, &mut list, run, side, same)?;
        rest = after;
        left = behind;
    }
    Ok(list)
}
