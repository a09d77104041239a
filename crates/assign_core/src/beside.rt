// Assignments beside logs that they leave.
ghost use Rattle.std.specs.Prelude.{◌≡◌, ◌≤◌, ◌<ℤ◌, ◌+ℤ◌, pos, true, map};
ghost use Rattle.point_core.specs.Whole.{greatest_whole};
ghost use Rattle.tree_core.specs.Items.{read_assignment};
ghost use Rattle.tree_core.specs.Relvars.{read_relvars};
ghost use Rattle.meaning_core.specs.Logs.{AreInStep};
ghost use Rattle.assign_core.specs.Databases.{IsKept};
ghost use Rattle.value_core.specs.Limits.{most_rows_in_all};
ghost use Rattle.assign_core.specs.Breaches.{rows_of_all};
ghost use Rattle.assign_core.specs.Beside.{has_log_of, is_one_logged, FitsBeside, IsBeside};

use crate::counting::rows_of_bases;
use relvar_logs::{room_beside, room_for_change};
use tree_core::{Assignment, Relvar, Relvars};
use value_core::{MOST_ROWS, MOST_ROWS_IN_ALL, Name};

/// So many sources at most may give as many rows as a relation may have.
const MOST_SOURCES: usize = MOST_ROWS_IN_ALL / MOST_ROWS;

/// Whether no target of the list has a log, and all rows fit, whatever the sources give.
pub(crate) fn leaves_logs(relvars: &Relvars, list: &[Assignment]) -> bool
    requires kept { IsKept (read_relvars relvars.now) }
    requires step { AreInStep (read_relvars relvars.now).accepted (read_relvars relvars.now).relvars }
    requires room { ((read_relvars relvars.now).accepted +ℤ pos 1) <ℤ greatest_whole }
    ensures { result ≡ true → IsBeside (read_relvars relvars.now) (map read_assignment list.now) }
{
    if list.len() > MOST_SOURCES || is_one_logged(relvars, list) {
        return false;
    }
    match room_beside(relvars, &[], MOST_ROWS_IN_ALL) {
        Some(room) => rows_of_bases(relvars) + list.len() * MOST_ROWS <= room,
        None => false,
    }
}

/// Whether so many rows more fit in any case: in the relvar of the name, in its log, and beside all others. They do not where it has
/// several logs.
pub(crate) fn fits_beside(relvars: &Relvars, name: &Name, more: usize) -> bool
    requires { rows_of_all (read_relvars relvars.now).relvars ≤ most_rows_in_all }
    ensures { result ≡ true → FitsBeside (read_relvars relvars.now) name.now more }
{
    match room_for_change(relvars, name, more, MOST_ROWS_IN_ALL) {
        Some(room) => rows_of_bases(relvars) + more <= room,
        None => false,
    }
}

// Whether one of the targets has a log.
fn is_one_logged(relvars: &Relvars, list: &[Assignment]) -> bool
    ensures { result ≡ is_one_logged (read_relvars relvars.now).relvars (map read_assignment list.now) }
{
    for assignment in list {
        if has_log_of(relvars, &assignment.target) {
            return true;
        }
    }
    false
}

// Whether there is a log of the relvar of this name.
fn has_log_of(relvars: &Relvars, name: &Name) -> bool
    ensures { result ≡ has_log_of (read_relvars relvars.now).relvars name.now }
{
    for (_, relvar) in &relvars.list {
        match relvar {
            Relvar::Log { of, log: _ } => {
                if of == name {
                    return true;
                }
            }
            Relvar::Base {
                value: _,
                constraints: _,
            } => (),
            Relvar::View { tree: _, kind: _ } => (),
        }
    }
    false
}
