// The rows of a relvar that still stand, by its log.
ghost use Rattle.std.specs.Prelude.{◌≡◌, ◌<◌, ◌∷◌, ◌++◌, [], if◌then◌else◌, IfOk, OnOk, length, map, filter};
ghost use Rattle.std.specs.List.{All};
ghost use Rattle.point_core.specs.Points.{number};
ghost use Rattle.log_times.specs.Logs.{unstamped, statements, is_standing, HasStatements};
ghost use Rattle.log_times.specs.Turns.{without};
ghost use Rattle.log_turns.specs.Turned.{IsValueBefore};

use interval_core::Interval;
use log_times::Log;
use point_core::{AnyType, Label, Memory};
use std::alloc::Global;
use value_core::{Relation, Row, Value};

/// The end of a row that still stands.
const OPEN_END: i64 = i64::MAX;

/// The number of an interval's end.
fn end_of(i: &Interval<AnyType>) -> i64
    ensures { result ≡ number i.now.1 }
{
    i.end().number()
}

/// The number of the last statement of a row of the log.
fn last_statement(row: &Row, side: usize) -> i64
    requires { HasStatements side row.now }
    ensures { result ≡ (statements side row.now).1 }
{
    match &row.values()[side] {
        Value::Span(i) => end_of(i),
        _ => unreachable!(),
    }
}

/// Whether the row still stands.
fn is_standing(row: &Row, side: usize) -> bool
    requires { HasStatements side row.now }
    ensures { result ≡ is_standing side row.now }
{
    last_statement(row, side) == OPEN_END
}

/// The relvar's row of a row of the log.
fn unstamped(alloc: Global, row: &Row, side: usize) -> Result<Row, Memory>
    requires { side < length row.now }
    ensures { IfOk result (λ r. r ≡ unstamped side row.now) }
{
    let same = row.copy(alloc)?;
    let mut values = same.into_values();
    drop(values.remove(side));
    Ok(Row::make(values))
}

/// Adds the relvar's row of a row of the log, if it still stands.
fn add_standing(alloc: Global, list: &mut Vec<Row>, row: &Row, side: usize) -> Result<(), Memory>
    requires { HasStatements side row.now }
    ensures { OnOk result (list.new.items ≡ list.old.items ++ (if is_standing side row.now then unstamped side row.now ∷ [] else [])) }
{
    if is_standing(row, side) {
        list.push(unstamped(alloc, row, side)?)?;
    }
    Ok(())
}

/// The relvar's rows of those that still stand.
fn standing_rows(alloc: Global, rows: &[Row], side: usize) -> Result<Vec<Row>, Memory>
    requires { All (HasStatements side) rows.now }
    ensures { IfOk result (λ list. list.items ≡ map (unstamped side) (filter (is_standing side) rows.now)) }
{
    let mut list = Vec::new(alloc);
    for row in rows {
        add_standing(alloc, &mut list, row, side)?;
    }
    Ok(list)
}

/// The value of the log's relvar after the last statement, by what still stands. The value after the next one gives the heading.
pub(crate) fn value_before(alloc: Global, log: &Log, next: &Relation) -> Result<Relation, Memory>
    requires { next.now.heading ≡ without log.now.side log.now.stored.heading }
    ensures { IfOk result (IsValueBefore log.now next.now) }
{
    let rows = standing_rows(alloc, log.stored().rows(), log.side())?;
    let heading = next.heading().copy(alloc)?;
    let relation = Relation::of_few(heading, rows)?;
    Ok(relation)
}
