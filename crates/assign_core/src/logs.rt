// Logs that stand ready beside new values of base relvars.
ghost use Rattle.std.specs.Prelude.{◌≡◌, ◌+◌, ◌<ℤ◌, ◌+ℤ◌, ℤ, pos, true, ◌&&◌, length, map, nat_le, IfOk, IfErr};
ghost use Rattle.point_core.specs.Whole.{greatest_whole};
ghost use Rattle.value_core.specs.Limits.{most_rows_in_all};
ghost use Rattle.tree_core.specs.Relvars.{read_relvars, Entries};
ghost use Rattle.meaning_core.specs.Logs.{turned_logs, turned_relvar, AreInStep};
ghost use Rattle.meaning_core.specs.WellMade.{IsWellMade};
ghost use Rattle.relvar_logs.specs.Changes.{changed, AreChanges};
ghost use Rattle.relvar_logs.specs.Room.{are_each_few, rows_of_logs};
ghost use Rattle.relvar_logs.specs.Turning.{AreNext};
ghost use Rattle.assign_core.specs.Breaches.{rows_of_all};
ghost use Rattle.assign_core.specs.Assignments.{IsRefusedFor};
ghost use Rattle.assign_core.specs.Logs.{have_log_room, if_log_room};

use crate::counting::are_few;
use log_times::Log;
use point_core::Code;
use relvar_logs::{next_logs, room_beside};
use std::alloc::Global;
use tree_core::Relvars;
use value_core::{MOST_ROWS_IN_ALL, Refuse, Relation};

/// The logs that stand ready where base relvars get new values, or the refusal of too many rows.
pub(crate) fn ready_logs(
    alloc: Global,
    relvars: &Relvars,
    changes: &[Option<Relation>],
) -> Result<Vec<Option<Log>>, Refuse>
    requires made { IsWellMade (read_relvars relvars.now) }
    requires step { AreInStep (read_relvars relvars.now).accepted (read_relvars relvars.now).relvars }
    requires room { ((read_relvars relvars.now).accepted +ℤ pos 1) <ℤ greatest_whole }
    requires changes { AreChanges changes.now (read_relvars relvars.now).relvars }
    requires length { length changes.now ≡ length relvars.now.list.entries }
    ensures next { IfOk result (λ v. AreNext (read_relvars relvars.now).accepted (changed changes.now (read_relvars relvars.now).relvars) v.items (changed changes.now (read_relvars relvars.now).relvars)) }
    ensures room { IfOk result (λ v. have_log_room (turned_logs (changed changes.now (read_relvars relvars.now).relvars)) ≡ true) }
    ensures refused { IfErr result (λ refuse. IsRefusedFor refuse (if_log_room (changed changes.now (read_relvars relvars.now).relvars))) }
{
    let next = next_logs(alloc, relvars, changes)?;
    if logs_fit(relvars, changes, next.as_slice()) {
        return Ok(next);
    }
    drop(next);
    Err(Refuse::Plain(Code::E46))
}

// Whether there is room for the rows of the base relvars with these values and for those of the logs, with what stands ready.
fn logs_fit(relvars: &Relvars, changes: &[Option<Relation>], next: &[Option<Log>]) -> bool
    ghost behind: { ℤ × Entries }
    requires room { (behind.0 +ℤ pos 1) <ℤ greatest_whole }
    requires length { length changes.now ≡ length relvars.now.list.entries }
    requires next { AreNext behind.0 behind.1 next.now (read_relvars relvars.now).relvars }
    ensures { result ≡ (nat_le (rows_of_all (changed changes.now (read_relvars relvars.now).relvars) + rows_of_logs (map (λ r. (r.0, turned_relvar behind.1 r.1)) (read_relvars relvars.now).relvars)) most_rows_in_all
        && are_each_few (map (λ r. (r.0, turned_relvar behind.1 r.1)) (read_relvars relvars.now).relvars)) }
{
    match room_beside(relvars, next, MOST_ROWS_IN_ALL) {
        Some(room) => are_few(relvars, changes, room),
        None => false,
    }
}
