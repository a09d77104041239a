// The log after one statement more.
ghost use Rattle.std.specs.Prelude.{◌≡◌, pos, ◌-ℤ◌, ◌<ℤ◌, MatchResult};
ghost use Rattle.point_core.specs.Whole.{least_whole};
ghost use Rattle.relation_core.specs.Answers.{IsRefusal};
ghost use Rattle.log_times.specs.Kept.{log_relation};
ghost use Rattle.log_times.specs.Logs.{moved, open_end};
ghost use Rattle.log_times.specs.Turns.{without};
ghost use Rattle.log_turns.specs.Turned.{IsAfter};

use crate::exchange::{exchanged, turn_to};
use log_times::Log;
use std::alloc::Global;
use value_core::{Relation, RowsRefuse};

/// The log after the statement of this number, where its relvar then has this value. It is refused exactly where it would have more than
/// 100,000 rows.
pub fn turned(alloc: Global, log: &Log, now: &Relation, number: i64) -> Result<Log, RowsRefuse>
    requires heading { now.now.heading ≡ without log.now.side log.now.stored.heading }
    requires first { least_whole <ℤ number }
    requires next { log.now.last ≡ number -ℤ pos 1 }
    requires last { number <ℤ open_end }
    ensures { MatchResult result (IsAfter log.now now.now number) (IsRefusal (moved log.now.side number now.now.rows (log_relation log.now).rows)) }
{
    let turn = turn_to(alloc, log, now, number)?;
    let rows = exchanged(alloc, log.stored(), &turn.come, &turn.gone)?;
    Ok(Log::make(log.side(), number, rows))
}
