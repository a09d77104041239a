// The exchange of all that stands ready: new values, and rows.
ghost use Rattle.std.specs.Prelude.{◌≡◌, ◌<◌, ◌≤◌, [], ◌∷◌, drop, take, IfOk, IfSome, IsOk, length, map, OnOk, OnErr};
ghost use Rattle.std.specs.Vec.{vec_len};
ghost use Rattle.tree_core.specs.Relvars.{read_entry, read_relvar};
ghost use Rattle.meaning_core.specs.Names.{with_value};
ghost use Rattle.relvar_logs.specs.Changes.{turned_at, IsSoAt};
ghost use Rattle.assign_core.specs.Changes.{value_or, value_there};
ghost use Rattle.assign_core.specs.Exchanges.{exchanged_by, filled, place_of, refilled_relvar, replaced, turned, ArePrepared, AreValues, IsHeldFor, IsHeldOf, MayTurn};
ghost use Rattle.assign_core.specs.Hashed.{AreHashed, AreHashesIn};
ghost use Rattle.assign_core.specs.Turnovers.{renewed_relvar, IsExchangeAt, MayExchange};

use crate::hashed::{Hashed, HashedRelvar, put_hashes, take_hashes};
use crate::room::{Held, hold, let_in, put_back};
use change_rows::Exchange;
use point_core::Memory;
use relation_core::Hashes;
use std::alloc::Global;
use tree_core::{Relvar, Relvars};
use value_core::Relation;

/// A change of the base relvar at a place: a new value, or rows that come to it and others that go.
#[derive(Drop)]
pub(crate) enum Change {
    Value(usize, Relation),
    Rows(usize, Exchange),
}

/// What stands ready before anything changes: changes of base relvars, each of another one.
#[derive(Drop)]
pub(crate) struct Ready {
    pub changes: Vec<Change>,
}

/// Exchanges all, or nothing for want of memory. New values want none, and the old ones stand in their places then: a second exchange
/// takes the first one back. Of rows only the room for those that come wants memory. It is made for all before any of them comes.
pub(crate) fn exchange(
    relvars: &mut Relvars,
    hashed: &mut Hashed,
    alloc: Global,
    changes: &mut Vec<Change>,
) -> Result<(), Memory>
    requires changes { ArePrepared changes.old.items (map read_entry relvars.old.list.entries) }
    requires hashed { AreHashed hashed.old (map read_entry relvars.old.list.entries) }
    ensures done { OnOk result (map read_entry relvars.new.list.entries ≡ exchanged_by changes.old.items (map read_entry relvars.old.list.entries)) }
    ensures err { OnErr result (map read_entry relvars.new.list.entries ≡ map read_entry relvars.old.list.entries) }
    ensures sure { AreValues changes.old.items → IsOk result }
    ensures back { AreValues changes.old.items → changes.new.items ≡ map (replaced (map read_entry relvars.old.list.entries)) changes.old.items }
    ensures ordinals { relvars.new.ordinals ≡ relvars.old.ordinals }
    ensures rules { relvars.new.rules ≡ relvars.old.rules }
    ensures accepted { relvars.new.accepted ≡ relvars.old.accepted }
    ensures hashed { AreHashed hashed.new (map read_entry relvars.new.list.entries) }
{
    exchange_from(relvars, hashed, alloc, changes, 0)
}

// Exchanges all from a place of the list on, or nothing for want of memory.
fn exchange_from(
    relvars: &mut Relvars,
    hashed: &mut Hashed,
    alloc: Global,
    changes: &mut Vec<Change>,
    from: usize,
) -> Result<(), Memory>
    requires from { from ≤ vec_len changes.old }
    requires changes { ArePrepared (drop from changes.old.items) (map read_entry relvars.old.list.entries) }
    requires hashed { AreHashed hashed.old (map read_entry relvars.old.list.entries) }
    ensures done { OnOk result (map read_entry relvars.new.list.entries ≡ exchanged_by (drop from changes.old.items) (map read_entry relvars.old.list.entries)) }
    ensures err { OnErr result (map read_entry relvars.new.list.entries ≡ map read_entry relvars.old.list.entries) }
    ensures sure { AreValues (drop from changes.old.items) → IsOk result }
    ensures len { vec_len changes.new ≡ vec_len changes.old }
    ensures front { take from changes.new.items ≡ take from changes.old.items }
    ensures back { AreValues (drop from changes.old.items) → drop from changes.new.items ≡ map (replaced (map read_entry relvars.old.list.entries)) (drop from changes.old.items) }
    ensures ordinals { relvars.new.ordinals ≡ relvars.old.ordinals }
    ensures rules { relvars.new.rules ≡ relvars.old.rules }
    ensures accepted { relvars.new.accepted ≡ relvars.old.accepted }
    ensures hashed { AreHashed hashed.new (map read_entry relvars.new.list.entries) }
{
    if from >= changes.len() {
        return Ok(());
    }
    let held = hold_for(relvars, hashed, alloc, &changes[from])?;
    match exchange_from(relvars, hashed, alloc, changes, from + 1) {
        Ok(()) => {
            turn(relvars, hashed, alloc, &mut changes[from], held);
            Ok(())
        }
        Err(memory) => {
            release(relvars, hashed, alloc, &changes[from], held);
            Err(memory)
        }
    }
}

// Takes the rows out of the base relvar of a change of rows, and makes room for those that come. For want of memory they stay.
fn hold_for(
    relvars: &mut Relvars,
    hashed: &mut Hashed,
    alloc: Global,
    change: &Change,
) -> Result<Option<Held>, Memory>
    requires may { IsSoAt (place_of change.now) (MayTurn change.now) (map read_entry relvars.old.list.entries) }
    requires hashed { AreHashed hashed.old (map read_entry relvars.old.list.entries) }
    ensures back { IfOk result (λ h. turned_at (place_of change.now) (filled h) (map read_entry relvars.new.list.entries) ≡ map read_entry relvars.old.list.entries) }
    ensures held { IfOk result (λ h. IsSoAt (place_of change.now) (IsHeldFor change.now h) (map read_entry relvars.new.list.entries)) }
    ensures err { OnErr result (map read_entry relvars.new.list.entries ≡ map read_entry relvars.old.list.entries) }
    ensures sure { AreValues (change.now ∷ []) → IsOk result }
    ensures ordinals { relvars.new.ordinals ≡ relvars.old.ordinals }
    ensures rules { relvars.new.rules ≡ relvars.old.rules }
    ensures accepted { relvars.new.accepted ≡ relvars.old.accepted }
    ensures hashed { AreHashed hashed.new (map read_entry relvars.new.list.entries) }
{
    match change {
        Change::Value(_, _) => Ok(None),
        Change::Rows(at, rows) => {
            let held = hold_at(relvars, hashed, alloc, *at, rows)?;
            Ok(Some(held))
        }
    }
}

// Makes the change. What is held are the rows that it changes.
fn turn(
    relvars: &mut Relvars,
    hashed: &mut Hashed,
    alloc: Global,
    change: &mut Change,
    held: Option<Held>,
)
    requires held { IsSoAt (place_of change.old) (IsHeldFor change.old held) (map read_entry relvars.old.list.entries) }
    requires hashed { AreHashed hashed.old (map read_entry relvars.old.list.entries) }
    ensures list { map read_entry relvars.new.list.entries ≡ turned_at (place_of change.old) (λ r. turned change.old (filled held r)) (map read_entry relvars.old.list.entries) }
    ensures back { AreValues (change.old ∷ []) → change.new ≡ replaced (map read_entry relvars.old.list.entries) change.old }
    ensures ordinals { relvars.new.ordinals ≡ relvars.old.ordinals }
    ensures rules { relvars.new.rules ≡ relvars.old.rules }
    ensures accepted { relvars.new.accepted ≡ relvars.old.accepted }
    ensures hashed { AreHashed hashed.new (map read_entry relvars.new.list.entries) }
{
    match change {
        Change::Value(at, value) => {
            drop(held);
            exchange_value_at(relvars, hashed, alloc, *at, value);
        }
        Change::Rows(at, rows) => match held {
            Some(held) => let_in_at(relvars, hashed, alloc, *at, held, rows),
            None => unreachable!(),
        },
    }
}

// Puts what is held for a change back.
fn release(
    relvars: &mut Relvars,
    hashed: &mut Hashed,
    alloc: Global,
    change: &Change,
    held: Option<Held>,
)
    requires held { IsSoAt (place_of change.now) (IsHeldFor change.now held) (map read_entry relvars.old.list.entries) }
    requires hashed { AreHashed hashed.old (map read_entry relvars.old.list.entries) }
    ensures list { map read_entry relvars.new.list.entries ≡ turned_at (place_of change.now) (filled held) (map read_entry relvars.old.list.entries) }
    ensures ordinals { relvars.new.ordinals ≡ relvars.old.ordinals }
    ensures rules { relvars.new.rules ≡ relvars.old.rules }
    ensures accepted { relvars.new.accepted ≡ relvars.old.accepted }
    ensures hashed { AreHashed hashed.new (map read_entry relvars.new.list.entries) }
{
    match change {
        Change::Value(_, _) => drop(held),
        Change::Rows(at, rows) => match held {
            Some(held) => put_back_at(relvars, hashed, alloc, *at, held, rows),
            None => unreachable!(),
        },
    }
}

// Exchanges the value of the base relvar at a place with another one, and drops its hashes.
fn exchange_value_at(
    relvars: &mut Relvars,
    hashed: &mut Hashed,
    alloc: Global,
    at: usize,
    other: &mut Relation,
)
    requires at { at < length relvars.old.list.entries }
    requires hashed { AreHashed hashed.old (map read_entry relvars.old.list.entries) }
    ensures list { map read_entry relvars.new.list.entries ≡ turned_at at (with_value other.old) (map read_entry relvars.old.list.entries) }
    ensures back { other.new ≡ value_there at other.old (map read_entry relvars.old.list.entries) }
    ensures ordinals { relvars.new.ordinals ≡ relvars.old.ordinals }
    ensures rules { relvars.new.rules ≡ relvars.old.rules }
    ensures accepted { relvars.new.accepted ≡ relvars.old.accepted }
    ensures hashed { AreHashed hashed.new (map read_entry relvars.new.list.entries) }
{
    drop(take_hashes(hashed, alloc, at));
    let (_, relvar) = relvars.list.pair_mut(at);
    exchange_value(relvar, other);
}

// Exchanges the value of a base relvar with another one.
fn exchange_value(relvar: &mut Relvar, other: &mut Relation)
    ensures value { read_relvar relvar.new ≡ with_value other.old (read_relvar relvar.old) }
    ensures back { other.new ≡ value_or other.old (read_relvar relvar.old) }
{
    if let Relvar::Base {
        value,
        constraints: _,
    } = relvar
    {
        std::mem::swap(value, other);
    }
}

/// Takes the rows out of the base relvar at a place, with their hashes, and makes room for those that come. For want of memory they stay.
pub(crate) fn hold_at(
    relvars: &mut Relvars,
    hashed: &mut Hashed,
    alloc: Global,
    at: usize,
    rows: &Exchange,
) -> Result<Held, Memory>
    requires may { IsExchangeAt at rows.now (map read_entry relvars.old.list.entries) }
    requires hashed { AreHashed hashed.old (map read_entry relvars.old.list.entries) }
    ensures back { IfOk result (λ h. turned_at at (refilled_relvar h) (map read_entry relvars.new.list.entries) ≡ map read_entry relvars.old.list.entries) }
    ensures held { IfOk result (λ h. IsSoAt at (IsHeldOf h rows.now) (map read_entry relvars.new.list.entries)) }
    ensures err { OnErr result (map read_entry relvars.new.list.entries ≡ map read_entry relvars.old.list.entries) }
    ensures ordinals { relvars.new.ordinals ≡ relvars.old.ordinals }
    ensures rules { relvars.new.rules ≡ relvars.old.rules }
    ensures accepted { relvars.new.accepted ≡ relvars.old.accepted }
    ensures hashed { AreHashed hashed.new (map read_entry relvars.new.list.entries) }
{
    let hashes = take_hashes(hashed, alloc, at);
    let (_, relvar) = relvars.list.pair_mut(at);
    hold_of(relvar, alloc, hashes, rows)
}

// Takes the rows out of a base relvar, and makes room for those that come. For want of memory they stay.
fn hold_of(
    relvar: &mut Relvar,
    alloc: Global,
    hashes: Vec<Hashes>,
    rows: &Exchange,
) -> Result<Held, Memory>
    requires may { MayExchange rows.now (read_relvar relvar.old) }
    requires hashes { AreHashesIn hashes.items (read_relvar relvar.old) }
    ensures back { IfOk result (λ h. refilled_relvar h (read_relvar relvar.new) ≡ read_relvar relvar.old) }
    ensures held { IfOk result (λ h. IsHeldOf h rows.now (read_relvar relvar.new)) }
    ensures err { OnErr result (read_relvar relvar.new ≡ read_relvar relvar.old) }
{
    match relvar {
        Relvar::Base {
            value,
            constraints: _,
        } => hold(value, alloc, hashes, rows),
        Relvar::View { tree: _, kind: _ } => unreachable!(),
        Relvar::Log { of: _, log: _ } => unreachable!(),
    }
}

/// Puts the rows that come among those of the base relvar at a place that are held, and takes those that go out of them. Where they are few
/// the relvar has hashes from now on; where they are many its hashes are dropped.
pub(crate) fn let_in_at(
    relvars: &mut Relvars,
    hashed: &mut Hashed,
    alloc: Global,
    at: usize,
    held: Held,
    rows: &mut Exchange,
)
    requires held { IsSoAt at (IsHeldOf held rows.old) (map read_entry relvars.old.list.entries) }
    requires hashed { AreHashed hashed.old (map read_entry relvars.old.list.entries) }
    ensures list { map read_entry relvars.new.list.entries ≡ turned_at at (λ r. renewed_relvar rows.old (refilled_relvar held r)) (map read_entry relvars.old.list.entries) }
    ensures ordinals { relvars.new.ordinals ≡ relvars.old.ordinals }
    ensures rules { relvars.new.rules ≡ relvars.old.rules }
    ensures accepted { relvars.new.accepted ≡ relvars.old.accepted }
    ensures hashed { AreHashed hashed.new (map read_entry relvars.new.list.entries) }
{
    drop(take_hashes(hashed, alloc, at));
    let (_, relvar) = relvars.list.pair_mut(at);
    match let_in_of(relvar, alloc, held, rows) {
        Some(list) => put_hashes(hashed, HashedRelvar { at, list }),
        None => {}
    }
}

// Puts the rows that come among those of a base relvar that are held, and takes those that go out of them; and their hashes, where few
// have changed.
fn let_in_of(
    relvar: &mut Relvar,
    alloc: Global,
    held: Held,
    rows: &mut Exchange,
) -> Option<Vec<Hashes>>
    requires held { IsHeldOf held rows.old (read_relvar relvar.old) }
    ensures value { read_relvar relvar.new ≡ renewed_relvar rows.old (refilled_relvar held (read_relvar relvar.old)) }
    ensures hashes { IfSome result (λ v. AreHashesIn v.items (read_relvar relvar.new)) }
{
    match relvar {
        Relvar::Base {
            value,
            constraints: _,
        } => let_in(value, alloc, held, rows),
        Relvar::View { tree: _, kind: _ } => unreachable!(),
        Relvar::Log { of: _, log: _ } => unreachable!(),
    }
}

/// Puts the rows of the base relvar at a place that are held back into it.
pub(crate) fn put_back_at(
    relvars: &mut Relvars,
    hashed: &mut Hashed,
    alloc: Global,
    at: usize,
    held: Held,
    rows: &Exchange,
)
    requires held { IsSoAt at (IsHeldOf held rows.now) (map read_entry relvars.old.list.entries) }
    requires hashed { AreHashed hashed.old (map read_entry relvars.old.list.entries) }
    ensures list { map read_entry relvars.new.list.entries ≡ turned_at at (refilled_relvar held) (map read_entry relvars.old.list.entries) }
    ensures ordinals { relvars.new.ordinals ≡ relvars.old.ordinals }
    ensures rules { relvars.new.rules ≡ relvars.old.rules }
    ensures accepted { relvars.new.accepted ≡ relvars.old.accepted }
    ensures hashed { AreHashed hashed.new (map read_entry relvars.new.list.entries) }
{
    drop(take_hashes(hashed, alloc, at));
    let (_, relvar) = relvars.list.pair_mut(at);
    put_back_of(relvar, held, rows);
}

// Puts the rows of a base relvar that are held back into it.
fn put_back_of(relvar: &mut Relvar, held: Held, rows: &Exchange)
    requires { IsHeldOf held rows.now (read_relvar relvar.old) }
    ensures { read_relvar relvar.new ≡ refilled_relvar held (read_relvar relvar.old) }
{
    match relvar {
        Relvar::Base {
            value,
            constraints: _,
        } => put_back(value, held, rows),
        Relvar::View { tree: _, kind: _ } => drop(held),
        Relvar::Log { of: _, log: _ } => drop(held),
    }
}
