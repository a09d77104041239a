// Assignments beside logs: rows of one base relvar are exchanged in place, as they are in its log; other values are made whole, and the
// logs of their relvars with them.
ghost use Rattle.std.specs.Prelude.{◌≡◌, ◌≤◌, ◌+◌, ◌<ℤ◌, ◌+ℤ◌, List, false, is_ok, map, pos, true, IfOk, IfErr, OnErr, OnOk, Ok};
ghost use Rattle.std.specs.List.{All};
ghost use Rattle.point_core.specs.Whole.{greatest_whole};
ghost use Rattle.tree_core.specs.Items.{read_assignment, PlainAssignment};
ghost use Rattle.tree_core.specs.Relvars.{read_relvars, Entries, State};
ghost use Rattle.meaning_core.specs.Declarations.{counted};
ghost use Rattle.meaning_core.specs.Logs.{AreInStep};
ghost use Rattle.meaning_core.specs.StoredRows.{AreStored};
ghost use Rattle.meaning_core.specs.Updates.{IsTypedAssignment};
ghost use Rattle.change_rows.specs.Exchanges.{IsExchange};
ghost use Rattle.relvar_logs.specs.Changes.{changed, AreChanges};
ghost use Rattle.stored_views.specs.Stored.{has_stored};
ghost use Rattle.assign_core.specs.Assignments.{after_assignments, evaluated, IsAssignedBeside, IsRefusedFor};
ghost use Rattle.assign_core.specs.Costs.{assignments_cost, constraints_cost, constraints_cost_of, rules_cost_of};
ghost use Rattle.assign_core.specs.Databases.{IsKept};
ghost use Rattle.assign_core.specs.Hashed.{AreHashed};
ghost use Rattle.assign_core.specs.InPlace.{changed_in_place, IsDiffering, IsInPlace, IsPrepared, MayGoInPlace};
ghost use Rattle.assign_core.specs.Logs.{counted_if, unless_logs_full};
ghost use Rattle.assign_core.specs.Targets.{entries_after, entries_before, IsTarget};
ghost use Rattle.assign_core.specs.Turnovers.{IsKnown};

use crate::addition::admit_rows;
use crate::admitting::admit_values;
use crate::beside::fits_beside;
use crate::changes::none_yet;
use crate::evaluating::evaluate_list;
use crate::exchange::{Ready, hold_at, let_in_at, put_back_at};
use crate::hashed::Hashed;
use crate::logs::ready_logs;
use crate::packing::whole;
use crate::pending::{Pending, alone};
use crate::settling::settle;
use crate::target::Target;
use crate::turnover::{Known, have_room};
use change_rows::Exchange;
use log_times::Log;
use point_core::{Memory, Steps};
use relation_core::absent;
use relvar_logs::{bring_logs, change_log, count};
use std::alloc::Global;
use std::sync::ledger::Ledger;
use tree_core::{Assignment, Relvars};
use value_core::{Name, Refuse, Relation};

/// A base relvar whose rows are exchanged in place, as they are in its log: its name and its place, the rows, and those of them that are new
/// or were there.
#[derive(Drop)]
pub(crate) struct InPlace {
    pub name: Name,
    pub at: usize,
    pub rows: Exchange,
    pub differ: Exchange,
}

/// What stands ready for assignments beside logs.
#[derive(Drop)]
pub(crate) enum Prepared {
    /// Rows of one base relvar and of its log.
    Rows(InPlace),
    /// New values, and the logs after them.
    Values(Ready, Vec<Option<Log>>),
}

/// What stands ready for assignments beside logs, or why they are refused: too many rows, those of logs too, come before broken
/// constraints.
pub(crate) fn prepare_beside<L: Ledger>(
    alloc: Global,
    list: &[Assignment],
    relvars: &Relvars,
    stored: &[Option<Relation>],
    hashed: &Hashed,
    steps: &mut Steps<L>,
) -> Result<Prepared, Refuse>
    requires kept { IsKept (read_relvars relvars.now) }
    requires stored { AreStored (read_relvars relvars.now).relvars stored.now }
    requires step { AreInStep (read_relvars relvars.now).accepted (read_relvars relvars.now).relvars }
    requires room { ((read_relvars relvars.now).accepted +ℤ pos 1) <ℤ greatest_whole }
    requires hashed { AreHashed hashed.now (read_relvars relvars.now).relvars }
    requires typed { All (λ a. IsTypedAssignment (read_relvars relvars.now) (read_assignment a)) list.now }
    ensures prepared { IfOk result (IsPrepared (read_relvars relvars.now) (map read_assignment list.now)) }
    ensures refused { IfErr result (λ refuse. IsRefusedFor refuse
        (unless_logs_full (evaluated (read_relvars relvars.now).relvars (read_relvars relvars.now).relvars (map read_assignment list.now)) (after_assignments (read_relvars relvars.now).relvars (map read_assignment list.now)))) }
    ensures cost { steps.new ≤ steps.old + assignments_cost (read_relvars relvars.now).relvars (map read_assignment list.now) }
{
    let pending = evaluate_list(alloc, list, relvars, stored, hashed, steps)?;
    match pending {
        Pending::Rows(target, rows, known) => prepare_rows(alloc, target, rows, known, steps),
        Pending::Values(changes) => prepare_values(alloc, relvars, changes, steps),
    }
}

// What stands ready where base relvars get new values, or why these are refused.
fn prepare_values<L: Ledger>(
    alloc: Global,
    relvars: &Relvars,
    changes: Vec<Option<Relation>>,
    steps: &mut Steps<L>,
) -> Result<Prepared, Refuse>
    requires kept { IsKept (read_relvars relvars.now) }
    requires step { AreInStep (read_relvars relvars.now).accepted (read_relvars relvars.now).relvars }
    requires room { ((read_relvars relvars.now).accepted +ℤ pos 1) <ℤ greatest_whole }
    requires changes { AreChanges changes.items (read_relvars relvars.now).relvars }
    ensures prepared { (list : List PlainAssignment) → evaluated (read_relvars relvars.now).relvars (read_relvars relvars.now).relvars list ≡ Ok (changed changes.items (read_relvars relvars.now).relvars) → IfOk result (IsPrepared (read_relvars relvars.now) list) }
    ensures refused { (list : List PlainAssignment) → evaluated (read_relvars relvars.now).relvars (read_relvars relvars.now).relvars list ≡ Ok (changed changes.items (read_relvars relvars.now).relvars) → IfErr result (λ refuse. IsRefusedFor refuse
        (unless_logs_full (evaluated (read_relvars relvars.now).relvars (read_relvars relvars.now).relvars list) (after_assignments (read_relvars relvars.now).relvars list))) }
    ensures cost { steps.new ≤ steps.old + constraints_cost (changed changes.items (read_relvars relvars.now).relvars) }
{
    let next = ready_logs(alloc, relvars, changes.as_slice())?;
    let ready = admit_values(alloc, relvars, changes, steps)?;
    Ok(Prepared::Values(ready, next))
}

// What stands ready where rows of one base relvar are exchanged, or why that is refused.
fn prepare_rows<L: Ledger>(
    alloc: Global,
    target: Target<'_>,
    rows: Exchange,
    known: Known<'_>,
    steps: &mut Steps<L>,
) -> Result<Prepared, Refuse>
    requires kept { IsKept (read_relvars target.relvars.now) }
    requires step { AreInStep (read_relvars target.relvars.now).accepted (entries_before target) }
    requires room { ((read_relvars target.relvars.now).accepted +ℤ pos 1) <ℤ greatest_whole }
    requires target { IsTarget target }
    requires exchange { IsExchange target.value.now rows }
    requires known { IsKnown target.value.now rows known }
    ensures prepared { (list : List PlainAssignment) → evaluated (entries_before target.entry) (entries_before target.entry) list ≡ entries_after target.entry rows → IfOk result (IsPrepared (read_relvars target.entry.relvars.now) list) }
    ensures refused { (list : List PlainAssignment) → evaluated (entries_before target.entry) (entries_before target.entry) list ≡ entries_after target.entry rows → IfErr result (λ refuse. IsRefusedFor refuse
        (unless_logs_full (evaluated (entries_before target.entry) (entries_before target.entry) list) (after_assignments (entries_before target.entry) list))) }
    ensures cost { steps.new ≤ steps.old + constraints_cost_of (entries_after target.entry rows) }
{
    if may_go_in_place(target, &rows) {
        return prepare_in_place(alloc, target, rows, known, steps);
    }
    let value = whole(alloc, target.value, target.place, &rows)?;
    let changes = alone(alloc, target, value)?;
    prepare_values(alloc, target.relvars, changes, steps)
}

// Whether the rows may be exchanged in place: they, those of the log, and all others have room in any case, and there are no database
// constraints.
fn may_go_in_place(target: Target<'_>, rows: &Exchange) -> bool
    requires kept { IsKept (read_relvars target.relvars.now) }
    ensures { result ≡ true → MayGoInPlace target.entry rows.now }
{
    let more = rows.come.rows().len() + rows.gone.rows().len();
    have_room(target.value, rows)
        && target.relvars.rules.is_empty()
        && fits_beside(target.relvars, target.name, more)
}

// What stands ready where rows are exchanged in place, or why that is refused.
fn prepare_in_place<L: Ledger>(
    alloc: Global,
    target: Target<'_>,
    rows: Exchange,
    known: Known<'_>,
    steps: &mut Steps<L>,
) -> Result<Prepared, Refuse>
    requires kept { IsKept (read_relvars target.relvars.now) }
    requires step { AreInStep (read_relvars target.relvars.now).accepted (entries_before target) }
    requires target { IsTarget target }
    requires exchange { IsExchange target.value.now rows }
    requires known { IsKnown target.value.now rows known }
    requires may { MayGoInPlace target rows }
    ensures prepared { (list : List PlainAssignment) → evaluated (entries_before target.entry) (entries_before target.entry) list ≡ entries_after target.entry rows → IfOk result (IsPrepared (read_relvars target.entry.relvars.now) list) }
    ensures refused { (list : List PlainAssignment) → evaluated (entries_before target.entry) (entries_before target.entry) list ≡ entries_after target.entry rows → IfErr result (λ refuse. IsRefusedFor refuse
        (unless_logs_full (evaluated (entries_before target.entry) (entries_before target.entry) list) (after_assignments (entries_before target.entry) list))) }
    ensures cost { steps.new ≤ steps.old + constraints_cost_of (entries_after target.entry rows) }
{
    let none = none_yet(alloc, target.relvars)?;
    admit_rows(alloc, target, &rows, known, none.as_slice(), steps)?;
    let differ = differing(alloc, target.value, &rows)?;
    let name = target.name.copy(alloc)?;
    Ok(Prepared::Rows(InPlace {
        name,
        at: target.at,
        rows,
        differ,
    }))
}

// The same exchange by rows that are new and rows that are there.
fn differing(alloc: Global, value: &Relation, rows: &Exchange) -> Result<Exchange, Memory>
    ensures { IfOk result (IsDiffering value.now rows.now) }
{
    let more = absent(alloc, &rows.come, value)?;
    let come = absent(alloc, &more, &rows.gone)?;
    let strange = absent(alloc, &rows.gone, value)?;
    let gone = absent(alloc, &rows.gone, &strange)?;
    Ok(Exchange { come, gone })
}

/// Makes the changes that stand ready beside logs, and counts the statement.
pub(crate) fn perform_prepared<L: Ledger>(
    alloc: Global,
    relvars: &mut Relvars,
    hashed: &mut Hashed,
    prepared: Prepared,
    steps: &mut Steps<L>,
) -> Result<(), Refuse>
    requires kept { IsKept (read_relvars relvars.old) }
    requires unstored { has_stored (read_relvars relvars.old).relvars ≡ false }
    requires step { AreInStep (read_relvars relvars.old).accepted (read_relvars relvars.old).relvars }
    requires room { ((read_relvars relvars.old).accepted +ℤ pos 1) <ℤ greatest_whole }
    requires hashed { AreHashed hashed.old (read_relvars relvars.old).relvars }
    requires prepared { (list : List PlainAssignment) × IsPrepared (read_relvars relvars.old) list prepared }
    ensures assigned { (list : List PlainAssignment) → IsPrepared (read_relvars relvars.old) list prepared → (mid : State) × IsAssignedBeside result (read_relvars relvars.old) mid list × (read_relvars relvars.new ≡ counted_if (is_ok result) mid) }
    ensures kept { IsKept (read_relvars relvars.new) }
    ensures step { AreInStep (read_relvars relvars.new).accepted (read_relvars relvars.new).relvars }
    ensures hashed { AreHashed hashed.new (read_relvars relvars.new).relvars }
    ensures cost { (list : List PlainAssignment) → IsPrepared (read_relvars relvars.old) list prepared → steps.new ≤ steps.old + rules_cost_of (read_relvars relvars.old).rules (after_assignments (read_relvars relvars.old).relvars list) }
{
    match prepared {
        Prepared::Rows(change) => {
            exchange_in_place(alloc, relvars, hashed, change)?;
            Ok(())
        }
        Prepared::Values(ready, next) => {
            let mut next = next;
            settle(alloc, relvars, hashed, ready, steps)?;
            count(relvars, &mut next);
            Ok(())
        }
    }
}

/// Exchanges rows of a base relvar and of its log in place, and counts the statement. The room for those that come is made, and the log
/// changed, before the relvar is: for want of memory nothing changes.
pub(crate) fn exchange_in_place(
    alloc: Global,
    relvars: &mut Relvars,
    hashed: &mut Hashed,
    change: InPlace,
) -> Result<(), Memory>
    ghost all: { Entries }
    requires all { all ≡ changed_in_place change (read_relvars relvars.old).relvars }
    requires kept { IsKept (read_relvars relvars.old) }
    requires step { AreInStep (read_relvars relvars.old).accepted (read_relvars relvars.old).relvars }
    requires room { ((read_relvars relvars.old).accepted +ℤ pos 1) <ℤ greatest_whole }
    requires hashed { AreHashed hashed.old (read_relvars relvars.old).relvars }
    requires change { IsInPlace (read_relvars relvars.old) change }
    ensures done { OnOk result (read_relvars relvars.new ≡ counted (record (read_relvars relvars.old) { relvars = all })) }
    ensures step { AreInStep (read_relvars relvars.new).accepted (read_relvars relvars.new).relvars }
    ensures err { OnErr result (read_relvars relvars.new ≡ read_relvars relvars.old) }
    ensures hashed { AreHashed hashed.new (read_relvars relvars.new).relvars }
{
    let InPlace {
        name,
        at,
        mut rows,
        differ,
    } = change;
    let held = hold_at(relvars, hashed, alloc, at, &rows)?;
    match change_log(alloc, relvars, &name, &differ.come, &differ.gone) {
        Ok(()) => {
            let_in_at(relvars, hashed, alloc, at, held, &mut rows);
            bring_logs(relvars);
            Ok(())
        }
        Err(memory) => {
            put_back_at(relvars, hashed, alloc, at, held, &rows);
            Err(memory)
        }
    }
}
