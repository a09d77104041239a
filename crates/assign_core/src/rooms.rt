// Logs and stored rows that stand ready beside new values of base relvars, if there is room for all rows.
ghost use Rattle.std.specs.Prelude.{◌≡◌, ◌≤◌, ◌<ℤ◌, ◌+◌, ◌+ℤ◌, ℤ, pos, true, length, map, nat_le, IfErr, IfOk};
ghost use Rattle.point_core.specs.Whole.{greatest_whole};
ghost use Rattle.value_core.specs.Limits.{most_rows_in_all};
ghost use Rattle.tree_core.specs.Relvars.{read_relvars, Entries};
ghost use Rattle.meaning_core.specs.Logs.{turned_relvar, AreInStep};
ghost use Rattle.meaning_core.specs.StoredRows.{AreStored, HaveTheirRows};
ghost use Rattle.meaning_core.specs.WellMade.{IsWellMade};
ghost use Rattle.relvar_logs.specs.Changes.{changed, AreChanges};
ghost use Rattle.relvar_logs.specs.Room.{rows_of_logs};
ghost use Rattle.relvar_logs.specs.Turning.{AreNext};
ghost use Rattle.stored_views.specs.Moves.{moves_cost};
ghost use Rattle.stored_views.specs.NextRows.{renewed, AreNextTo};
ghost use Rattle.stored_views.specs.Stored.{rows_among};
ghost use Rattle.assign_core.specs.Breaches.{rows_of_all};
ghost use Rattle.assign_core.specs.Moving.{IsCrowded};
ghost use Rattle.assign_core.specs.Room.{have_room, HasStoredRoom};

use crate::counting::{are_few, rows_of_bases};
use crate::logs::ready_logs;
use log_times::Log;
use point_core::{Code, Steps};
use relvar_logs::room_beside as room_beside_logs;
use std::alloc::Global;
use std::sync::ledger::Ledger;
use stored_views::{next_rows, room_beside};
use tree_core::Relvars;
use value_core::{MOST_ROWS_IN_ALL, Refuse, Relation, RowsRefuse};

/// The logs and the stored rows that stand ready where base relvars get new values, or the refusal of too many rows.
pub(crate) fn ready_beside<L: Ledger>(
    alloc: Global,
    relvars: &Relvars,
    stored: &[Option<Relation>],
    changes: &[Option<Relation>],
    steps: &mut Steps<L>,
) -> Result<(Vec<Option<Log>>, Vec<Option<Relation>>), Refuse>
    requires made { IsWellMade (read_relvars relvars.now) }
    requires step { AreInStep (read_relvars relvars.now).accepted (read_relvars relvars.now).relvars }
    requires room { ((read_relvars relvars.now).accepted +ℤ pos 1) <ℤ greatest_whole }
    requires stored { AreStored (read_relvars relvars.now).relvars stored.now }
    requires changes { AreChanges changes.now (read_relvars relvars.now).relvars }
    requires length { length changes.now ≡ length relvars.now.list.entries }
    ensures logs { IfOk result (λ r. AreNext (read_relvars relvars.now).accepted (changed changes.now (read_relvars relvars.now).relvars) r.0.items (changed changes.now (read_relvars relvars.now).relvars)) }
    ensures rows { IfOk result (λ r. AreStored (changed changes.now (read_relvars relvars.now).relvars) (renewed r.1.items stored.now)) }
    ensures places { IfOk result (λ r. AreNextTo r.1.items stored.now) }
    ensures room { IfOk result (λ r. have_room (changed changes.now (read_relvars relvars.now).relvars) ≡ true) }
    ensures refused { IfErr result (IsCrowded (changed changes.now (read_relvars relvars.now).relvars)) }
    ensures cost { steps.new ≤ steps.old + moves_cost (read_relvars relvars.now).relvars (changed changes.now (read_relvars relvars.now).relvars) }
{
    let logs = ready_logs(alloc, relvars, changes)?;
    let rows = ready_rows(alloc, relvars, stored, changes, steps)?;
    if all_fit(relvars, changes, logs.as_slice(), stored, rows.as_slice()) {
        return Ok((logs, rows));
    }
    drop(logs);
    drop(rows);
    Err(Refuse::Plain(Code::E46))
}

// The stored rows that stand ready where base relvars get new values, or the refusal of too many rows of one view.
fn ready_rows<L: Ledger>(
    alloc: Global,
    relvars: &Relvars,
    stored: &[Option<Relation>],
    changes: &[Option<Relation>],
    steps: &mut Steps<L>,
) -> Result<Vec<Option<Relation>>, Refuse>
    requires made { IsWellMade (read_relvars relvars.now) }
    requires stored { AreStored (read_relvars relvars.now).relvars stored.now }
    requires changes { AreChanges changes.now (read_relvars relvars.now).relvars }
    requires length { length changes.now ≡ length relvars.now.list.entries }
    ensures rows { IfOk result (λ v. AreStored (changed changes.now (read_relvars relvars.now).relvars) (renewed v.items stored.now)) }
    ensures places { IfOk result (λ v. AreNextTo v.items stored.now) }
    ensures refused { IfErr result (IsCrowded (changed changes.now (read_relvars relvars.now).relvars)) }
    ensures cost { steps.new ≤ steps.old + moves_cost (read_relvars relvars.now).relvars (changed changes.now (read_relvars relvars.now).relvars) }
{
    match next_rows(alloc, relvars, stored, changes, steps) {
        Ok(rows) => Ok(rows),
        Err(RowsRefuse::TooMany) => Err(Refuse::Plain(Code::E46)),
        Err(RowsRefuse::Memory) => Err(Refuse::Memory),
    }
}

// Whether the base relvars, with these values, the logs and the stored views, with what stands ready for them, have few rows together.
fn all_fit(
    relvars: &Relvars,
    changes: &[Option<Relation>],
    logs: &[Option<Log>],
    stored: &[Option<Relation>],
    rows: &[Option<Relation>],
) -> bool
    ghost behind: { ℤ × Entries }
    requires room { (behind.0 +ℤ pos 1) <ℤ greatest_whole }
    requires length { length changes.now ≡ length relvars.now.list.entries }
    requires logs { AreNext behind.0 behind.1 logs.now (read_relvars relvars.now).relvars }
    requires rows { HaveTheirRows behind.1 (read_relvars relvars.now).relvars (renewed rows.now stored.now) }
    ensures { result ≡ nat_le (rows_of_all (changed changes.now (read_relvars relvars.now).relvars) + rows_of_logs (map (λ r. (r.0, turned_relvar behind.1 r.1)) (read_relvars relvars.now).relvars)
        + rows_among behind.1 (read_relvars relvars.now).relvars) most_rows_in_all }
{
    match room_beside_logs(relvars, logs, MOST_ROWS_IN_ALL) {
        Some(room) => match room_beside(relvars, stored, rows, room) {
            Some(room) => are_few(relvars, changes, room),
            None => false,
        },
        None => false,
    }
}

/// How many rows the base relvars and the stored views have together.
pub(crate) fn rows_beside_logs(relvars: &Relvars, stored: &[Option<Relation>]) -> usize
    requires stored { AreStored (read_relvars relvars.now).relvars stored.now }
    requires room { HasStoredRoom (read_relvars relvars.now) }
    ensures { result ≡ rows_of_all (read_relvars relvars.now).relvars + rows_among (read_relvars relvars.now).relvars (read_relvars relvars.now).relvars }
{
    match room_beside(relvars, stored, &[], MOST_ROWS_IN_ALL) {
        Some(room) => rows_of_bases(relvars) + (MOST_ROWS_IN_ALL - room),
        None => unreachable!(),
    }
}
