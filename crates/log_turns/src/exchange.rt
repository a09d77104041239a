// What a stored log gains and loses at a statement, by the value of its relvar then.
ghost use Rattle.std.specs.Prelude.{◌≡◌, pos, ◌-ℤ◌, ◌<ℤ◌, MatchResult};
ghost use Rattle.point_core.specs.Whole.{least_whole};
ghost use Rattle.relation_core.specs.Answers.{IsAnswer, IsRefusal};
ghost use Rattle.value_core.specs.Values.{IsRelation};
ghost use Rattle.log_times.specs.Kept.{log_relation};
ghost use Rattle.log_times.specs.Logs.{moved, open_end};
ghost use Rattle.log_times.specs.Turns.{without, exchanged, IsExact};
ghost use Rattle.log_turns.specs.Turned.{IsTurnTo};

use crate::standing::value_before;
use log_times::{Log, Turn, turned};
use relation_core::{absent, minus, union};
use std::alloc::Global;
use value_core::{Relation, RowsRefuse};

/// What the stored log gains and loses at the statement of this number, where its relvar then has this value.
pub(crate) fn turn_to(
    alloc: Global,
    log: &Log,
    now: &Relation,
    number: i64,
) -> Result<Turn, RowsRefuse>
    requires heading { now.now.heading ≡ without log.now.side log.now.stored.heading }
    requires first { least_whole <ℤ number }
    requires next { log.now.last ≡ number -ℤ pos 1 }
    requires last { number <ℤ open_end }
    ensures { MatchResult result (IsTurnTo log.now now.now number) (IsRefusal (moved log.now.side number now.now.rows (log_relation log.now).rows)) }
{
    let before = value_before(alloc, log, now)?;
    let come = absent(alloc, now, &before)?;
    let gone = absent(alloc, &before, now)?;
    turned(alloc, log.stored(), log.side(), &come, &gone, number)
}

/// The rows without those that go, and with those that come. They are counted when all is done, and where none go they are copied once.
pub(crate) fn exchanged(
    alloc: Global,
    rows: &Relation,
    come: &Relation,
    gone: &Relation,
) -> Result<Relation, RowsRefuse>
    requires relation { IsRelation rows.now }
    requires come { come.now.heading ≡ rows.now.heading }
    requires gone { gone.now.heading ≡ rows.now.heading }
    requires exact { IsExact rows.now.rows come.now.rows gone.now.rows }
    ensures { MatchResult result (IsAnswer rows.now.heading (exchanged rows.now.rows come.now.rows gone.now.rows)) (IsRefusal (exchanged rows.now.rows come.now.rows gone.now.rows)) }
{
    if gone.rows().is_empty() {
        return union(alloc, rows, come);
    }
    let left = minus(alloc, rows, gone)?;
    union(alloc, &left, come)
}
