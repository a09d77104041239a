// Rows that a base relvar gained and rows that it lost, which its log is to tell.
ghost use Rattle.std.specs.Prelude.{◌≡◌, ◌≤◌, ◌<◌, ◌<ℤ◌, ◌+ℤ◌, ◌-ℤ◌, pos, suc, zero, false, true, length, map, IfSome, MatchOption, OnErr, OnOk};
ghost use Rattle.std.specs.List.{All};
ghost use Rattle.point_core.specs.Whole.{greatest_whole, least_whole};
ghost use Rattle.value_core.specs.Values.{most_rows};
ghost use Rattle.tree_core.specs.Relvars.{read_entry, read_relvar, read_relvars, Entries};
ghost use Rattle.meaning_core.specs.Declarations.{counted};
ghost use Rattle.meaning_core.specs.Logs.{turned_logs, turned_relvar, AreInStep, IsInStep};
ghost use Rattle.relvar_logs.specs.Changes.{turned_at, IsSoAt};
ghost use Rattle.relvar_logs.specs.Fitting.{IsFitting};
ghost use Rattle.relvar_logs.specs.LoggedChanges.{is_log_of, logs_of, AreChanging, HasRoomForChange};
ghost use Rattle.relvar_logs.specs.Passed.{ArePassed, IsChangingLog};

use crate::entries::{bring_log, change_relvar, fitting_rows, is_log_of};
use point_core::Memory;
use std::alloc::Global;
use tree_core::Relvars;
use value_core::{MOST_ROWS, Name, Relation};

/// What is left of the number without the rows of all logs, where the log of the relvar of this name gains so many rows. None is told
/// where they might be too many, and where the relvar has several logs.
pub fn room_for_change(relvars: &Relvars, name: &Name, more: usize, most: usize) -> Option<usize>
    ensures { IfSome result (λ room. HasRoomForChange name.now more most room (read_relvars relvars.now).relvars) }
{
    if more > MOST_ROWS || more > most {
        return None;
    }
    let mut room = most - more;
    let mut own = 0;
    for at in 0..relvars.list.len() {
        let count = rows_at(relvars, name, at, more)?;
        own += logs_at(relvars, name, at);
        if count > room || own > 1 {
            return None;
        }
        room -= count;
    }
    Some(room)
}

// How many rows the entry at a place has as a log, if it may have so many more where it is the log of the relvar of this name.
fn rows_at(relvars: &Relvars, name: &Name, at: usize, more: usize) -> Option<usize>
    requires at { at < length relvars.now.list.entries }
    requires more { more ≤ most_rows }
    ensures { IfSome result (λ count. IsSoAt at (IsFitting name.now more count) (read_relvars relvars.now).relvars) }
{
    match relvars.list.get_index(at) {
        Some((_, relvar)) => fitting_rows(relvar, name, more),
        None => unreachable!(),
    }
}

// One, if the entry at a place is a log of the relvar of this name, and else none.
fn logs_at(relvars: &Relvars, name: &Name, at: usize) -> usize
    requires at { at < length relvars.now.list.entries }
    ensures one { result ≤ 1 }
    ensures own { IsSoAt at (λ r. is_log_of name.now r ≡ true → 1 ≤ result) (read_relvars relvars.now).relvars }
{
    if is_log_at(relvars, name, at) {
        return 1;
    }
    0
}

// Whether the entry at a place is a log of the relvar of this name.
fn is_log_at(relvars: &Relvars, name: &Name, at: usize) -> bool
    requires { at < length relvars.now.list.entries }
    ensures { IsSoAt at (λ r. is_log_of name.now r ≡ result) (read_relvars relvars.now).relvars }
{
    match relvars.list.get_index(at) {
        Some((_, relvar)) => is_log_of(relvar, name),
        None => unreachable!(),
    }
}

/// Counts a statement in which one base relvar alone changed: the one of this name, which gained these rows and lost those. Its log, if it
/// has one, changes in place, and the others are brought to the statement as they are. For want of memory nothing changes.
pub fn count_change(
    alloc: Global,
    relvars: &mut Relvars,
    name: &Name,
    come: &Relation,
    gone: &Relation,
) -> Result<(), Memory>
    requires room { ((read_relvars relvars.old).accepted +ℤ pos 1) <ℤ greatest_whole }
    requires once { length (logs_of name.now (read_relvars relvars.old).relvars) ≤ 1 }
    requires changing { AreChanging (read_relvars relvars.old).accepted (read_relvars relvars.old).relvars name.now come.now gone.now (read_relvars relvars.old).relvars }
    ensures counted { OnOk result (read_relvars relvars.new ≡ counted (read_relvars relvars.old)) }
    ensures step { OnOk result (AreInStep (read_relvars relvars.new).accepted (read_relvars relvars.new).relvars) }
    ensures err { OnErr result (read_relvars relvars.new ≡ read_relvars relvars.old) }
{
    change_log(alloc, relvars, name, come, gone)?;
    bring_logs(relvars);
    Ok(())
}

/// Brings the log of the relvar of this name, if it has one, to the next statement, in which the relvar gains these rows and loses those. For
/// want of memory nothing changes.
pub fn change_log(
    alloc: Global,
    relvars: &mut Relvars,
    name: &Name,
    come: &Relation,
    gone: &Relation,
) -> Result<(), Memory>
    ghost all: { Entries }
    requires room { ((read_relvars relvars.old).accepted +ℤ pos 1) <ℤ greatest_whole }
    requires once { length (logs_of name.now (read_relvars relvars.old).relvars) ≤ 1 }
    requires changing { AreChanging (read_relvars relvars.old).accepted all name.now come.now gone.now (read_relvars relvars.old).relvars }
    ensures passed { OnOk result (ArePassed ((read_relvars relvars.old).accepted +ℤ pos 1) all zero (read_relvars relvars.old).relvars (read_relvars relvars.new).relvars) }
    ensures err { OnErr result (read_relvars relvars.new ≡ read_relvars relvars.old) }
    ensures ordinals { relvars.new.ordinals ≡ relvars.old.ordinals }
    ensures rules { relvars.new.rules ≡ relvars.old.rules }
    ensures accepted { relvars.new.accepted ≡ relvars.old.accepted }
{
    let number = relvars.accepted + 1;
    match log_place(relvars, name) {
        Some(at) => change_at(alloc, relvars, at, come, gone, number),
        None => Ok(()),
    }
}

// The place of the first log of the relvar of this name, if it has one.
fn log_place(relvars: &Relvars, name: &Name) -> Option<usize>
    ensures { MatchOption result (All (λ r. is_log_of name.now r.1 ≡ false) (read_relvars relvars.now).relvars) (λ at. IsSoAt at (λ r. is_log_of name.now r ≡ true) (read_relvars relvars.now).relvars) }
{
    for at in 0..relvars.list.len() {
        if is_log_at(relvars, name, at) {
            return Some(at);
        }
    }
    None
}

// Brings the log at a place to the statement of this number, in which its relvar gained and lost these rows.
fn change_at(
    alloc: Global,
    relvars: &mut Relvars,
    at: usize,
    come: &Relation,
    gone: &Relation,
    number: i64,
) -> Result<(), Memory>
    ghost all: { Entries }
    requires first { least_whole <ℤ number }
    requires room { number <ℤ greatest_whole }
    requires at { at < length relvars.old.list.entries }
    requires changing { IsSoAt at (IsChangingLog (number -ℤ pos 1) all come.now gone.now) (map read_entry relvars.old.list.entries) }
    ensures list { OnOk result (map read_entry relvars.new.list.entries ≡ turned_at at (turned_relvar all) (map read_entry relvars.old.list.entries)) }
    ensures step { OnOk result (IsSoAt at (IsInStep number all) (map read_entry relvars.new.list.entries)) }
    ensures err { OnErr result (map read_entry relvars.new.list.entries ≡ map read_entry relvars.old.list.entries) }
    ensures ordinals { relvars.new.ordinals ≡ relvars.old.ordinals }
    ensures rules { relvars.new.rules ≡ relvars.old.rules }
    ensures accepted { relvars.new.accepted ≡ relvars.old.accepted }
{
    let (_, relvar) = relvars.list.pair_mut(at);
    change_relvar(alloc, relvar, come, gone, number)
}

/// Counts a statement: each log that does not tell it yet is brought to it. It takes no memory.
pub fn bring_logs(relvars: &mut Relvars)
    requires room { ((read_relvars relvars.old).accepted +ℤ pos 1) <ℤ greatest_whole }
    ensures counted { (es : Entries) → ArePassed ((read_relvars relvars.old).accepted +ℤ pos 1) es zero es (read_relvars relvars.old).relvars → read_relvars relvars.new ≡ counted (record (read_relvars relvars.old) { relvars = es }) }
    ensures step { (es : Entries) → ArePassed ((read_relvars relvars.old).accepted +ℤ pos 1) es zero es (read_relvars relvars.old).relvars → AreInStep (read_relvars relvars.new).accepted (read_relvars relvars.new).relvars }
{
    let number = relvars.accepted + 1;
    bring_all(relvars, number);
    relvars.accepted = number;
}

// Brings each log that is not there yet to the statement of this number.
fn bring_all(relvars: &mut Relvars, number: i64)
    requires room { number <ℤ greatest_whole }
    ensures list { (es : Entries) → ArePassed number es zero es (map read_entry relvars.old.list.entries) → map read_entry relvars.new.list.entries ≡ turned_logs es }
    ensures step { (es : Entries) → ArePassed number es zero es (map read_entry relvars.old.list.entries) → AreInStep number (map read_entry relvars.new.list.entries) }
    ensures ordinals { relvars.new.ordinals ≡ relvars.old.ordinals }
    ensures rules { relvars.new.rules ≡ relvars.old.rules }
    ensures accepted { relvars.new.accepted ≡ relvars.old.accepted }
{
    let count = relvars.list.len();
    for at in 0..count {
        bring_at(relvars, at, number);
    }
}

// Brings the log at a place to the statement of this number, unless it is there already.
fn bring_at(relvars: &mut Relvars, at: usize, number: i64)
    requires room { number <ℤ greatest_whole }
    requires at { at < length relvars.old.list.entries }
    ensures passed { (all es : Entries) → ArePassed number all at es (map read_entry relvars.old.list.entries) → ArePassed number all (suc at) es (map read_entry relvars.new.list.entries) }
    ensures length { length relvars.new.list.entries ≡ length relvars.old.list.entries }
    ensures ordinals { relvars.new.ordinals ≡ relvars.old.ordinals }
    ensures rules { relvars.new.rules ≡ relvars.old.rules }
    ensures accepted { relvars.new.accepted ≡ relvars.old.accepted }
{
    let (_, relvar) = relvars.list.pair_mut(at);
    bring_log(relvar, number);
}
