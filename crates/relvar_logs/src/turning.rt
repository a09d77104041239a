// Logs after one statement more.
ghost use Rattle.std.specs.Prelude.{◌≡◌, ◌<◌, ◌≤◌, ◌<ℤ◌, ◌+ℤ◌, ◌-ℤ◌, ℕ, pos, suc, None, drop, get_or, length, map};
ghost use Rattle.point_core.specs.Whole.{greatest_whole};
ghost use Rattle.tree_core.specs.Relvars.{read_entry, read_relvar, read_relvars, Entries};
ghost use Rattle.meaning_core.specs.Declarations.{counted};
ghost use Rattle.meaning_core.specs.Logs.{turned_relvar, AreInStep, IsInStep};
ghost use Rattle.relvar_logs.specs.Changes.{turned_at, IsSoAt};
ghost use Rattle.relvar_logs.specs.Turning.{turned_first, AreNext, IsNext};

use log_times::Log;
use tree_core::{Relvar, Relvars};

/// Counts a statement, and brings each log to it: by what stands ready for it, or, where its relvar stays as it was, with the same rows.
/// It takes no memory.
pub fn count(relvars: &mut Relvars, next: &mut [Option<Log>])
    requires room { ((read_relvars relvars.old).accepted +ℤ pos 1) <ℤ greatest_whole }
    requires next { AreNext (read_relvars relvars.old).accepted (read_relvars relvars.old).relvars next.old (read_relvars relvars.old).relvars }
    ensures counted { read_relvars relvars.new ≡ counted (read_relvars relvars.old) }
    ensures step { AreInStep (read_relvars relvars.new).accepted (read_relvars relvars.new).relvars }
{
    let number = relvars.accepted + 1;
    let count = relvars.list.len();
    turn_first(relvars, next, count, number);
    relvars.accepted = number;
}

/// Brings the logs among the first so many entries to the statement of this number, behind which these are all relvars.
pub(crate) fn turn_first(relvars: &mut Relvars, next: &mut [Option<Log>], count: usize, number: i64)
    ghost all: { Entries }
    requires room { number <ℤ greatest_whole }
    requires count { count ≤ length relvars.old.list.entries }
    requires next { AreNext (number -ℤ pos 1) all next.old (map read_entry relvars.old.list.entries) }
    ensures list { map read_entry relvars.new.list.entries ≡ turned_first all count (map read_entry relvars.old.list.entries) }
    ensures step { (i : ℕ) → i < count → IsSoAt i (IsInStep number all) (map read_entry relvars.new.list.entries) }
    ensures ordinals { relvars.new.ordinals ≡ relvars.old.ordinals }
    ensures rules { relvars.new.rules ≡ relvars.old.rules }
    ensures accepted { relvars.new.accepted ≡ relvars.old.accepted }
{
    for at in 0..count {
        let log = take_at(next, at);
        turn_at(relvars, at, log, number);
    }
}

// Takes the log that stands ready for the entry at a place, if there is one.
fn take_at(next: &mut [Option<Log>], at: usize) -> Option<Log>
    ensures log { result ≡ get_or next.old at None }
    ensures behind { drop (suc at) next.new ≡ drop (suc at) next.old }
{
    if at < next.len() {
        return next[at].take();
    }
    None
}

// Brings the entry at a place to the statement of this number, if it is a log.
fn turn_at(relvars: &mut Relvars, at: usize, next: Option<Log>, number: i64)
    ghost all: { Entries }
    requires room { number <ℤ greatest_whole }
    requires at { at < length relvars.old.list.entries }
    requires next { IsSoAt at (IsNext (number -ℤ pos 1) all next) (map read_entry relvars.old.list.entries) }
    ensures list { map read_entry relvars.new.list.entries ≡ turned_at at (turned_relvar all) (map read_entry relvars.old.list.entries) }
    ensures step { IsSoAt at (IsInStep number all) (map read_entry relvars.new.list.entries) }
    ensures ordinals { relvars.new.ordinals ≡ relvars.old.ordinals }
    ensures rules { relvars.new.rules ≡ relvars.old.rules }
    ensures accepted { relvars.new.accepted ≡ relvars.old.accepted }
{
    let (_, relvar) = relvars.list.pair_mut(at);
    turn(relvar, next, number);
}

// Brings the relvar to the statement of this number, if it is a log: by what stands ready, or with the same rows.
fn turn(relvar: &mut Relvar, next: Option<Log>, number: i64)
    ghost all: { Entries }
    requires room { number <ℤ greatest_whole }
    requires next { IsNext (number -ℤ pos 1) all next (read_relvar relvar.old) }
    ensures turned { read_relvar relvar.new ≡ turned_relvar all (read_relvar relvar.old) }
    ensures step { IsInStep number all (read_relvar relvar.new) }
{
    match relvar {
        Relvar::Log { of: _, log } => match next {
            Some(next) => {
                *log = next;
            }
            None => log.advance(number),
        },
        Relvar::Base {
            value: _,
            constraints: _,
        } => drop(next),
        Relvar::View { tree: _, kind: _ } => drop(next),
    }
}
