// The log where its relvar gains rows and loses others: what is stored is changed in place.
ghost use Rattle.std.specs.Prelude.{◌≡◌, ◌+◌, ◌≤◌, ◌-ℤ◌, ◌<ℤ◌, pos, true, IfOk, OnErr, OnOk, length};
ghost use Rattle.point_core.specs.Whole.{least_whole};
ghost use Rattle.value_core.specs.Values.{most_rows, IsRelation};
ghost use Rattle.relation_core.specs.Operators.{united};
ghost use Rattle.log_times.specs.Logs.{open_end, standing, IsStored};
ghost use Rattle.log_times.specs.Turns.{without, exchanged, IsExact};
ghost use Rattle.log_turns.specs.Changed.{with_change, IsChangeBy};
ghost use Rattle.log_turns.specs.Turned.{IsAfter};

use crate::exchange::exchanged;
use log_times::{Log, Turn, turned};
use point_core::Memory;
use std::alloc::Global;
use value_core::{MOST_ROWS, Relation, RowsRefuse};

/// Brings the log to the statement of this number, at which its relvar gains rows that it did not have and loses others that it had. What
/// stays is not copied. For want of memory the log stays.
pub fn change(
    alloc: Global,
    log: &mut Log,
    come: &Relation,
    gone: &Relation,
    number: i64,
) -> Result<(), Memory>
    requires come { come.now.heading ≡ without log.old.side log.old.stored.heading }
    requires gone { gone.now.heading ≡ without log.old.side log.old.stored.heading }
    requires first { least_whole <ℤ number }
    requires next { log.old.last ≡ number -ℤ pos 1 }
    requires last { number <ℤ open_end }
    requires exact { IsExact (standing log.old.side log.old.stored.rows) come.now.rows gone.now.rows }
    requires few { length log.old.stored.rows + (length come.now.rows + length gone.now.rows) ≤ most_rows }
    ensures changed { OnOk result (IsAfter log.old (with_change log.old come.now gone.now) number log.new) }
    ensures err { OnErr result (log.new ≡ log.old) }
{
    let turn = turn_of(alloc, log, come, gone, number)?;
    bring(alloc, log, turn, number)
}

// What is stored gains and loses by the rows that come and those that go at the statement of this number.
fn turn_of(
    alloc: Global,
    log: &Log,
    come: &Relation,
    gone: &Relation,
    number: i64,
) -> Result<Turn, Memory>
    requires come { come.now.heading ≡ without log.now.side log.now.stored.heading }
    requires gone { gone.now.heading ≡ without log.now.side log.now.stored.heading }
    requires first { least_whole <ℤ number }
    requires next { log.now.last ≡ number -ℤ pos 1 }
    requires last { number <ℤ open_end }
    requires exact { IsExact (standing log.now.side log.now.stored.rows) come.now.rows gone.now.rows }
    requires few { length log.now.stored.rows + length come.now.rows ≤ most_rows }
    ensures { IfOk result (IsChangeBy log.now come.now gone.now number) }
{
    match turned(alloc, log.stored(), log.side(), come, gone, number) {
        Ok(turn) => Ok(turn),
        Err(RowsRefuse::TooMany) => unreachable!(),
        Err(RowsRefuse::Memory) => Err(Memory),
    }
}

// Brings the log to the statement of this number by what is stored gains and loses. For a while both stand in the log; where they might be
// too many rows together, what is stored is made anew.
fn bring(alloc: Global, log: &mut Log, turn: Turn, number: i64) -> Result<(), Memory>
    requires come { turn.come.heading ≡ log.old.stored.heading }
    requires gone { turn.gone.heading ≡ log.old.stored.heading }
    requires exact { IsExact log.old.stored.rows turn.come.rows turn.gone.rows }
    requires few { length (exchanged log.old.stored.rows turn.come.rows turn.gone.rows) ≤ most_rows }
    requires stored { IsStored log.old.side number (exchanged log.old.stored.rows turn.come.rows turn.gone.rows) }
    ensures brought { OnOk result (log.new ≡ record { side = log.old.side; last = number; stored = record { heading = log.old.stored.heading; rows = exchanged log.old.stored.rows turn.come.rows turn.gone.rows } }) }
    ensures err { OnErr result (log.new ≡ log.old) }
{
    let Turn { come, gone } = turn;
    if have_room(log.stored(), &come) {
        return log.exchange(alloc, come, &gone, number);
    }
    let next = made_anew(alloc, log, &come, &gone, number)?;
    *log = next;
    Ok(())
}

// Whether there is room for the rows that come beside those that are stored.
fn have_room(stored: &Relation, come: &Relation) -> bool
    ensures few { result ≡ true → length (united stored.now.rows come.now.rows) ≤ most_rows }
    ensures relation { IsRelation stored.now }
{
    stored.rows().len() + come.rows().len() <= MOST_ROWS
}

// The log after the statement of this number, made anew by what is stored gains and loses.
fn made_anew(
    alloc: Global,
    log: &Log,
    come: &Relation,
    gone: &Relation,
    number: i64,
) -> Result<Log, Memory>
    requires relation { IsRelation log.now.stored }
    requires come { come.now.heading ≡ log.now.stored.heading }
    requires gone { gone.now.heading ≡ log.now.stored.heading }
    requires exact { IsExact log.now.stored.rows come.now.rows gone.now.rows }
    requires few { length (exchanged log.now.stored.rows come.now.rows gone.now.rows) ≤ most_rows }
    requires stored { IsStored log.now.side number (exchanged log.now.stored.rows come.now.rows gone.now.rows) }
    ensures { IfOk result (λ l. l ≡ record { side = log.now.side; last = number; stored = record { heading = log.now.stored.heading; rows = exchanged log.now.stored.rows come.now.rows gone.now.rows } }) }
{
    match exchanged(alloc, log.stored(), come, gone) {
        Ok(rows) => Ok(Log::make(log.side(), number, rows)),
        Err(RowsRefuse::TooMany) => unreachable!(),
        Err(RowsRefuse::Memory) => Err(Memory),
    }
}
