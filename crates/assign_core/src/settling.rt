// The exchange of what stands ready, which is taken back where it breaks a database constraint.
ghost use Rattle.std.specs.Prelude.{◌≡◌, ◌+◌, ◌≤◌, false, map, IfOk, OnOk, Some};
ghost use Rattle.std.specs.List.{list_any};
ghost use Rattle.tree_core.specs.Relvars.{read_entry, read_relvar, read_relvars};
ghost use Rattle.meaning_core.specs.Names.{with_value};
ghost use Rattle.relvar_logs.specs.Changes.{IsChange, IsSoAt};
ghost use Rattle.stored_views.specs.Stored.{has_stored};
ghost use Rattle.assign_core.specs.Costs.{rules_cost};
ghost use Rattle.assign_core.specs.Databases.{IsKept, IsSettled};
ghost use Rattle.assign_core.specs.Exchanges.{exchanged_by, place_of, with_ready, ArePrepared, AreValues, IsReady, IsValueFor, MayTurn};
ghost use Rattle.assign_core.specs.Hashed.{AreHashed};
ghost use Rattle.assign_core.specs.Leanings.{DoOthersHold};
ghost use Rattle.assign_core.specs.Turnovers.{renewed_relvar, IsExchangeAt, MayExchange};

use crate::exchange::{Change, Ready, exchange};
use crate::hashed::Hashed;
use crate::room::{hold, let_in};
use crate::rules::{check_rules, leaning};
use change_rows::Exchange;
use point_core::{Memory, Steps};
use std::alloc::Global;
use std::sync::ledger::Ledger;
use tree_core::{Relvar, Relvars};
use value_core::{Refuse, Relation};

/// Exchanges what stands ready, unless a database constraint is broken afterwards: then, and for want of memory, nothing changes. There are no
/// stored views.
/// Constraints that name no relvar that changes, themselves or through views, are not asked; where there are no others, rows go in place.
pub(crate) fn settle<L: Ledger>(
    alloc: Global,
    relvars: &mut Relvars,
    hashed: &mut Hashed,
    ready: Ready,
    steps: &mut Steps<L>,
) -> Result<(), Refuse>
    requires kept { IsKept (read_relvars relvars.old) }
    requires unstored { has_stored (read_relvars relvars.old).relvars ≡ false }
    requires hashed { AreHashed hashed.old (read_relvars relvars.old).relvars }
    requires ready { IsReady ready (read_relvars relvars.old).relvars }
    ensures settled { IsSettled result (read_relvars relvars.old) (read_relvars relvars.new) (with_ready ready (read_relvars relvars.old).relvars) }
    ensures hashed { AreHashed hashed.new (read_relvars relvars.new).relvars }
    ensures cost { steps.new ≤ steps.old + rules_cost (with_ready ready (read_relvars relvars.old).relvars) (read_relvars relvars.old).rules }
{
    let list = leaning(alloc, relvars, &ready)?;
    let told = list.as_slice();
    if is_one_told(told) {
        return settle_and_check(alloc, relvars, hashed, ready, told, steps);
    }
    let Ready { mut changes } = ready;
    exchange(relvars, hashed, alloc, &mut changes)?;
    Ok(())
}

// Whether one of them is told.
fn is_one_told(told: &[bool]) -> bool
    ensures { result ≡ list_any (λ b. b) told.now }
{
    told.iter().any(|b| *b)
}

// Exchanges what stands ready, and takes that back where one of the database constraints that are told is broken or memory is wanting.
fn settle_and_check<L: Ledger>(
    alloc: Global,
    relvars: &mut Relvars,
    hashed: &mut Hashed,
    ready: Ready,
    told: &[bool],
    steps: &mut Steps<L>,
) -> Result<(), Refuse>
    requires kept { IsKept (read_relvars relvars.old) }
    requires unstored { has_stored (read_relvars relvars.old).relvars ≡ false }
    requires hashed { AreHashed hashed.old (read_relvars relvars.old).relvars }
    requires ready { IsReady ready (read_relvars relvars.old).relvars }
    requires others { DoOthersHold (with_ready ready (read_relvars relvars.old).relvars) told.now (read_relvars relvars.old).rules }
    ensures settled { IsSettled result (read_relvars relvars.old) (read_relvars relvars.new) (with_ready ready (read_relvars relvars.old).relvars) }
    ensures hashed { AreHashed hashed.new (read_relvars relvars.new).relvars }
    ensures cost { steps.new ≤ steps.old + rules_cost (with_ready ready (read_relvars relvars.old).relvars) (read_relvars relvars.old).rules }
{
    let mut changes = values(alloc, relvars, ready)?;
    exchange(relvars, hashed, alloc, &mut changes)?;
    match check_rules(alloc, relvars, &[], told, steps) {
        Ok(()) => Ok(()),
        Err(refuse) => {
            exchange_back(relvars, hashed, alloc, &mut changes);
            Err(refuse)
        }
    }
}

/// Exchanges values, which wants no memory.
pub(crate) fn exchange_back(
    relvars: &mut Relvars,
    hashed: &mut Hashed,
    alloc: Global,
    changes: &mut Vec<Change>,
)
    requires values { AreValues changes.old.items }
    requires changes { ArePrepared changes.old.items (map read_entry relvars.old.list.entries) }
    requires hashed { AreHashed hashed.old (map read_entry relvars.old.list.entries) }
    ensures list { map read_entry relvars.new.list.entries ≡ exchanged_by changes.old.items (map read_entry relvars.old.list.entries) }
    ensures ordinals { relvars.new.ordinals ≡ relvars.old.ordinals }
    ensures rules { relvars.new.rules ≡ relvars.old.rules }
    ensures accepted { relvars.new.accepted ≡ relvars.old.accepted }
    ensures hashed { AreHashed hashed.new (map read_entry relvars.new.list.entries) }
{
    match exchange(relvars, hashed, alloc, changes) {
        Ok(()) => (),
        Err(_) => unreachable!(),
    }
}

/// What stands ready as new values.
pub(crate) fn values(alloc: Global, relvars: &Relvars, ready: Ready) -> Result<Vec<Change>, Memory>
    requires ready { IsReady ready (read_relvars relvars.now).relvars }
    ensures values { IfOk result (λ v. AreValues v.items) }
    ensures changes { IfOk result (λ v. ArePrepared v.items (read_relvars relvars.now).relvars) }
    ensures ready { IfOk result (λ v. exchanged_by v.items (read_relvars relvars.now).relvars ≡ with_ready ready (read_relvars relvars.now).relvars) }
{
    let Ready { mut changes } = ready;
    for at in 0..changes.len() {
        make_value(alloc, relvars, &mut changes[at])?;
    }
    Ok(changes)
}

// Makes a new value of a change.
fn make_value(alloc: Global, relvars: &Relvars, change: &mut Change) -> Result<(), Memory>
    requires may { IsSoAt (place_of change.old) (MayTurn change.old) (read_relvars relvars.now).relvars }
    ensures { OnOk result (IsValueFor (read_relvars relvars.now).relvars change.old change.new) }
{
    match change {
        Change::Value(_, _) => (),
        Change::Rows(at, rows) => {
            let place = *at;
            let value = value_after(alloc, relvars, place, rows)?;
            *change = Change::Value(place, value);
        }
    }
    Ok(())
}

// The value of the base relvar at a place after an exchange of its rows.
fn value_after(
    alloc: Global,
    relvars: &Relvars,
    at: usize,
    rows: &mut Exchange,
) -> Result<Relation, Memory>
    requires may { IsExchangeAt at rows.old (read_relvars relvars.now).relvars }
    ensures { IfOk result (λ v. IsSoAt at (λ r. IsChange (Some v) r × (with_value v r ≡ renewed_relvar rows.old r)) (read_relvars relvars.now).relvars) }
{
    match relvars.list.get_index(at) {
        Some((_, relvar)) => new_value(alloc, relvar, rows),
        None => unreachable!(),
    }
}

// The value of a base relvar after an exchange of its rows.
fn new_value(alloc: Global, relvar: &Relvar, rows: &mut Exchange) -> Result<Relation, Memory>
    requires may { MayExchange rows.old (read_relvar relvar.now) }
    ensures change { IfOk result (λ v. IsChange (Some v) (read_relvar relvar.now)) }
    ensures ready { IfOk result (λ v. with_value v (read_relvar relvar.now) ≡ renewed_relvar rows.old (read_relvar relvar.now)) }
{
    match relvar {
        Relvar::Base {
            value,
            constraints: _,
        } => {
            let mut new = value.copy(alloc)?;
            let held = hold(&mut new, alloc, Vec::new(alloc), rows)?;
            drop(let_in(&mut new, alloc, held, rows));
            Ok(new)
        }
        Relvar::View { tree: _, kind: _ } => unreachable!(),
        Relvar::Log { of: _, log: _ } => unreachable!(),
    }
}
