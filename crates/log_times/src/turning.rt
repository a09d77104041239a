// What a stored log gains and loses at a statement.
ghost use Rattle.std.specs.Prelude.{◌≡◌, ◌≤◌, ◌++◌, ℕ, pos, ◌-ℤ◌, ◌<ℤ◌, IfOk, MatchResult, length};
ghost use Rattle.std.specs.List.{All};
ghost use Rattle.point_core.specs.Whole.{least_whole};
ghost use Rattle.value_core.specs.Values.{Row as PlainRow};
ghost use Rattle.relation_core.specs.Answers.{IsRefusal};
ghost use Rattle.log_times.specs.Logs.{closed, standing, open_end, IsStored, IsStoredRow};
ghost use Rattle.log_times.specs.Turns.{without, begun, gained, IsLogHeading, IsExact};
ghost use Rattle.log_times.specs.Answers.{IsTurnOf};

use crate::lists::{add_begun, closed_rows, lost_rows};
use point_core::Memory;
use relation_core::{relation, selection};
use std::alloc::Global;
use value_core::{Relation, Row, RowsRefuse};

/// Rows that a stored log gains at a statement, and rows that it then loses.
#[derive(Drop)]
pub struct Turn {
    pub come: Relation,
    pub gone: Relation,
}

/// What the stored log gains and loses at the statement of this number, in which its relvar gains the rows that come and then loses those
/// that go. It is refused exactly where it gains more than 100,000 rows.
pub fn turned(
    alloc: Global,
    log: &Relation,
    side: usize,
    come: &Relation,
    gone: &Relation,
    number: i64,
) -> Result<Turn, RowsRefuse>
    requires heading { IsLogHeading side log.now.heading }
    requires come { come.now.heading ≡ without side log.now.heading }
    requires gone { gone.now.heading ≡ without side log.now.heading }
    requires first { least_whole <ℤ number }
    requires last { number <ℤ open_end }
    requires stored { IsStored side (number -ℤ pos 1) log.now.rows }
    requires exact { IsExact (standing side log.now.rows) come.now.rows gone.now.rows }
    ensures { MatchResult result (IsTurnOf side number come.now gone.now log.now) (IsRefusal (gained side number come.now.rows gone.now.rows log.now.rows)) }
{
    let (rows, coming, going) = (log.rows(), come.rows(), gone.rows());
    let lost = lost_rows(alloc, rows, side, going)?;
    let list = gained_rows(alloc, lost.as_slice(), coming, side, number)?;
    let more = relation(alloc, log.heading(), list)?;
    let less = selection(alloc, log, lost)?;
    Ok(Turn {
        come: more,
        gone: less,
    })
}

/// The rows that go, ended at the statement before, and the stored rows of those that come.
fn gained_rows(
    alloc: Global,
    lost: &[Row],
    come: &[Row],
    side: usize,
    number: i64,
) -> Result<Vec<Row>, Memory>
    requires first { least_whole <ℤ number }
    requires stored { All (IsStoredRow side (number -ℤ pos 1)) lost.now }
    requires long { All (λ (x : PlainRow). side ≤ length x) come.now }
    ensures { IfOk result (λ list. list.items ≡ closed side (number -ℤ pos 1) lost.now ++ begun side number come.now) }
{
    let mut list = closed_rows(alloc, lost, side, number - 1)?;
    add_begun(alloc, &mut list, come, side, number)?;
    Ok(list)
}
