// Logs among relvars, and how many rows they have.
ghost use Rattle.std.specs.Prelude.{◌≡◌, ◌<◌, ◌<ℤ◌, ◌+ℤ◌, ℤ, pos, get_or, length, map, true, IfSome, None};
ghost use Rattle.point_core.specs.Whole.{greatest_whole};
ghost use Rattle.tree_core.specs.Relvars.{read_relvar, read_relvars, Entries};
ghost use Rattle.meaning_core.specs.Logs.{has_log, is_log, turned_relvar};
ghost use Rattle.relvar_logs.specs.Changes.{IsSoAt};
ghost use Rattle.relvar_logs.specs.Room.{are_each_few, left_of, rows_of_logs, IsCountedAs};
ghost use Rattle.relvar_logs.specs.Turning.{AreNext, IsNext};

use log_times::Log;
use tree_core::{Relvar, Relvars};

/// Whether one of them is a log.
pub fn has_log(relvars: &Relvars) -> bool
    ensures { result ≡ has_log (read_relvars relvars.now).relvars }
{
    for (_, relvar) in &relvars.list {
        if is_log(relvar) {
            return true;
        }
    }
    false
}

// Whether it is a log.
fn is_log(relvar: &Relvar) -> bool
    ensures { result ≡ is_log (read_relvar relvar.now) }
{
    match relvar {
        Relvar::Log { of: _, log: _ } => true,
        Relvar::Base {
            value: _,
            constraints: _,
        } => false,
        Relvar::View { tree: _, kind: _ } => false,
    }
}

/// What is left of the number without the rows of the logs, as they are with what stands ready for the next statement, behind which these are
/// the relvars; none, where they are more.
pub fn room_beside(relvars: &Relvars, next: &[Option<Log>], most: usize) -> Option<usize>
    ghost behind: { ℤ × Entries }
    requires room { (behind.0 +ℤ pos 1) <ℤ greatest_whole }
    requires next { AreNext behind.0 behind.1 next.now (read_relvars relvars.now).relvars }
    ensures left { result ≡ left_of most (rows_of_logs (map (λ r. (r.0, turned_relvar behind.1 r.1)) (read_relvars relvars.now).relvars)) }
    ensures few { IfSome result (λ room. are_each_few (map (λ r. (r.0, turned_relvar behind.1 r.1)) (read_relvars relvars.now).relvars) ≡ true) }
{
    let mut room = most;
    for at in 0..relvars.list.len() {
        let count = rows_at(relvars, next, at);
        if count > room {
            return None;
        }
        room -= count;
    }
    Some(room)
}

// How many rows the entry at the place has as a log, with what stands ready for it.
fn rows_at(relvars: &Relvars, next: &[Option<Log>], at: usize) -> usize
    ghost behind: { ℤ × Entries }
    requires room { (behind.0 +ℤ pos 1) <ℤ greatest_whole }
    requires at { at < length relvars.now.list.entries }
    requires next { IsSoAt at (IsNext behind.0 behind.1 (get_or next.now at None)) (read_relvars relvars.now).relvars }
    ensures { IsSoAt at (IsCountedAs behind.1 result) (read_relvars relvars.now).relvars }
{
    match relvars.list.get_index(at) {
        Some((_, relvar)) => {
            if at < next.len() {
                return rows_of(relvar, &next[at]);
            }
            rows_of(relvar, &None)
        }
        None => unreachable!(),
    }
}

// How many rows the relvar has as a log, with what stands ready for it.
fn rows_of(relvar: &Relvar, next: &Option<Log>) -> usize
    ghost behind: { ℤ × Entries }
    requires room { (behind.0 +ℤ pos 1) <ℤ greatest_whole }
    requires next { IsNext behind.0 behind.1 next.now (read_relvar relvar.now) }
    ensures { IsCountedAs behind.1 result (read_relvar relvar.now) }
{
    match relvar {
        Relvar::Log { of: _, log } => match next {
            Some(next) => next.stored().rows().len(),
            None => log.stored().rows().len(),
        },
        Relvar::Base {
            value: _,
            constraints: _,
        } => 0,
        Relvar::View { tree: _, kind: _ } => 0,
    }
}
