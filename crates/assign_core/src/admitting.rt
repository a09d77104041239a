// New values that stand ready once they are checked, or why they are refused.
ghost use Rattle.std.specs.Prelude.{◌≡◌, ◌≤◌, ◌+◌, [], ◌∷◌, ◌++◌, Ok, IfOk, IfErr, OnOk};
ghost use Rattle.point_core.specs.Faults.{OrFault};
ghost use Rattle.tree_core.specs.Relvars.{read_relvars, Entries};
ghost use Rattle.change_rows.specs.Exchanges.{IsExchange};
ghost use Rattle.relvar_logs.specs.Changes.{AreChanges, changed};
ghost use Rattle.assign_core.specs.Assignments.{kept_or_refused, of_values, IsAdmitted, IsRefusedFor};
ghost use Rattle.assign_core.specs.Costs.{constraints_cost, constraints_cost_of};
ghost use Rattle.assign_core.specs.Databases.{IsKept};
ghost use Rattle.assign_core.specs.declared.exchange.Change.TheVariants.{Rows};
ghost use Rattle.assign_core.specs.Exchanges.{value_here, values_from, with_ready, IsReady};
ghost use Rattle.assign_core.specs.Pendings.{IsPending};
ghost use Rattle.assign_core.specs.Targets.{entries_after, entries_before, IsTarget};
ghost use Rattle.assign_core.specs.Turnovers.{IsKnown};

use crate::addition::admit_rows;
use crate::changes::none_yet;
use crate::checking::After;
use crate::counting::are_few;
use crate::differences::check_changes;
use crate::exchange::{Change, Ready};
use crate::packing::whole;
use crate::pending::{Pending, alone};
use crate::target::Target;
use crate::turnover::{Known, have_room};
use change_rows::Exchange;
use point_core::{Code, Memory, Steps};
use std::alloc::Global;
use std::sync::ledger::Ledger;
use tree_core::Relvars;
use value_core::{MOST_ROWS_IN_ALL, Refuse, Relation};

/// What stands ready for base relvars that get new values, or why these are refused.
pub(crate) fn admit_pending<L: Ledger>(
    alloc: Global,
    relvars: &Relvars,
    pending: Pending<'_>,
    steps: &mut Steps<L>,
) -> Result<Ready, Refuse>
    requires kept { IsKept (read_relvars relvars.now) }
    requires pending { (meant : OrFault Entries) × IsPending relvars.now meant pending }
    ensures ready { IfOk result (λ r. IsReady r (read_relvars relvars.now).relvars) }
    ensures meant { (meant : OrFault Entries) → IsPending relvars.now meant pending.entry → IfOk result (λ r. of_values meant ≡ Ok (with_ready r (read_relvars relvars.now).relvars)) }
    ensures refused { (meant : OrFault Entries) → IsPending relvars.now meant pending.entry → IfErr result (λ refuse. IsRefusedFor refuse (of_values meant)) }
    ensures cost { (meant : OrFault Entries) → IsPending relvars.now meant pending.entry → steps.new ≤ steps.old + constraints_cost_of meant }
{
    match pending {
        Pending::Rows(target, rows, known) => admit_exchange(alloc, target, rows, known, steps),
        Pending::Values(changes) => admit_values(alloc, relvars, changes, steps),
    }
}

// What stands ready where rows of the target are exchanged, or why that is refused.
fn admit_exchange<L: Ledger>(
    alloc: Global,
    target: Target<'_>,
    rows: Exchange,
    known: Known<'_>,
    steps: &mut Steps<L>,
) -> Result<Ready, Refuse>
    requires kept { IsKept (read_relvars target.relvars.now) }
    requires target { IsTarget target }
    requires exchange { IsExchange target.value.now rows }
    requires known { IsKnown target.value.now rows known }
    ensures ready { IfOk result (λ r. IsReady r (entries_before target.entry)) }
    ensures meant { IfOk result (λ r. of_values (entries_after target.entry rows) ≡ Ok (with_ready r (entries_before target.entry))) }
    ensures refused { IfErr result (λ refuse. IsRefusedFor refuse (of_values (entries_after target.entry rows))) }
    ensures cost { steps.new ≤ steps.old + constraints_cost_of (entries_after target.entry rows) }
{
    if !have_room(target.value, &rows) {
        return admit_whole(alloc, target, &rows, steps);
    }
    let none = none_yet(alloc, target.relvars)?;
    admit_rows(alloc, target, &rows, known, none.as_slice(), steps)?;
    let ready = rows_alone(alloc, target.at, rows)?;
    Ok(ready)
}

// The same where there is no room for the rows that come beside those that are there: the value is made whole.
fn admit_whole<L: Ledger>(
    alloc: Global,
    target: Target<'_>,
    rows: &Exchange,
    steps: &mut Steps<L>,
) -> Result<Ready, Refuse>
    requires kept { IsKept (read_relvars target.relvars.now) }
    requires target { IsTarget target }
    requires exchange { IsExchange target.value.now rows.now }
    ensures ready { IfOk result (λ r. IsReady r (entries_before target.entry)) }
    ensures meant { IfOk result (λ r. of_values (entries_after target.entry rows.now) ≡ Ok (with_ready r (entries_before target.entry))) }
    ensures refused { IfErr result (λ refuse. IsRefusedFor refuse (of_values (entries_after target.entry rows.now))) }
    ensures cost { steps.new ≤ steps.old + constraints_cost_of (entries_after target.entry rows.now) }
{
    let value = whole(alloc, target.value, target.place, rows)?;
    let changes = alone(alloc, target, value)?;
    admit_values(alloc, target.relvars, changes, steps)
}

// Rows that are exchanged at a place, and nothing else.
fn rows_alone(alloc: Global, at: usize, rows: Exchange) -> Result<Ready, Memory>
    ensures { IfOk result (λ r. r.changes.items ≡ Rows at rows ∷ []) }
{
    let mut changes = Vec::new(alloc);
    changes.push(Change::Rows(at, rows))?;
    Ok(Ready { changes })
}

/// New values as what stands ready, or why they are refused.
pub(crate) fn admit_values<L: Ledger>(
    alloc: Global,
    relvars: &Relvars,
    changes: Vec<Option<Relation>>,
    steps: &mut Steps<L>,
) -> Result<Ready, Refuse>
    requires kept { IsKept (read_relvars relvars.now) }
    requires changes { AreChanges changes.items (read_relvars relvars.now).relvars }
    ensures ready { IfOk result (λ r. IsReady r (read_relvars relvars.now).relvars) }
    ensures made { IfOk result (λ r. with_ready r (read_relvars relvars.now).relvars ≡ changed changes.items (read_relvars relvars.now).relvars) }
    ensures admitted { IfOk result (λ r. kept_or_refused (changed changes.items (read_relvars relvars.now).relvars) ≡ Ok (changed changes.items (read_relvars relvars.now).relvars)) }
    ensures refused { IfErr result (λ refuse. IsRefusedFor refuse (kept_or_refused (changed changes.items (read_relvars relvars.now).relvars))) }
    ensures cost { steps.new ≤ steps.old + constraints_cost (changed changes.items (read_relvars relvars.now).relvars) }
{
    admit(alloc, relvars, changes.as_slice(), steps)?;
    let ready = as_ready(alloc, changes)?;
    Ok(ready)
}

// New values that stand ready, one place for each relvar and view, as changes.
fn as_ready(alloc: Global, changes: Vec<Option<Relation>>) -> Result<Ready, Memory>
    ensures { IfOk result (λ r. r.changes.items ≡ values_from 0 changes.items) }
{
    let (mut changes, mut list) = (changes, Vec::new(alloc));
    for at in 0..changes.len() {
        add_value(&mut list, at, &mut changes[at])?;
    }
    Ok(Ready { changes: list })
}

// Puts the new value for a place behind the changes, if there is one.
fn add_value(list: &mut Vec<Change>, at: usize, change: &mut Option<Relation>) -> Result<(), Memory>
    ensures { OnOk result (list.new.items ≡ list.old.items ++ value_here at change.old) }
{
    match change.take() {
        Some(value) => {
            list.push(Change::Value(at, value))?;
            Ok(())
        }
        None => Ok(()),
    }
}

// Refuses too many rows, and then a broken constraint.
fn admit<L: Ledger>(
    alloc: Global,
    relvars: &Relvars,
    changes: &[Option<Relation>],
    steps: &mut Steps<L>,
) -> Result<(), Refuse>
    requires kept { IsKept (read_relvars relvars.now) }
    requires changes { AreChanges changes.now (read_relvars relvars.now).relvars }
    ensures admitted { IsAdmitted result (changed changes.now (read_relvars relvars.now).relvars) }
    ensures cost { steps.new ≤ steps.old + constraints_cost (changed changes.now (read_relvars relvars.now).relvars) }
{
    if !are_few(relvars, changes, MOST_ROWS_IN_ALL) {
        return Err(Refuse::Plain(Code::E46));
    }
    check_changes(alloc, After { relvars, changes }, steps)
}
