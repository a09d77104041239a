// Assignments where rows of views are stored: all values are made whole, and the stored rows move with them.
ghost use Rattle.std.specs.Prelude.{◌≡◌, ◌≤◌, ◌<ℤ◌, ◌+◌, ◌+ℤ◌, List, is_ok, length, map, pos, true, IfErr, IfOk, Ok};
ghost use Rattle.std.specs.List.{All};
ghost use Rattle.point_core.specs.Whole.{greatest_whole};
ghost use Rattle.tree_core.specs.Items.{read_assignment, PlainAssignment};
ghost use Rattle.tree_core.specs.Relvars.{read_relvars, State};
ghost use Rattle.meaning_core.specs.Logs.{AreInStep};
ghost use Rattle.meaning_core.specs.StoredRows.{AreStored};
ghost use Rattle.meaning_core.specs.Updates.{IsTypedAssignment};
ghost use Rattle.stored_views.specs.NextRows.{renewed, AreNextTo};
ghost use Rattle.assign_core.specs.Assignments.{after_assignments, evaluated, IsAssigned, IsRefusedFor};
ghost use Rattle.assign_core.specs.Costs.{assignments_cost, cost_of_assignments, moves_cost_of, rules_cost, rules_cost_of};
ghost use Rattle.assign_core.specs.Databases.{IsKept, IsSettled};
ghost use Rattle.assign_core.specs.Exchanges.{exchanged_by, ArePrepared, AreValues};
ghost use Rattle.assign_core.specs.Hashed.{AreHashed};
ghost use Rattle.assign_core.specs.Keeping.{AreStoredIn};
ghost use Rattle.assign_core.specs.Leanings.{DoOthersHold};
ghost use Rattle.assign_core.specs.Logs.{counted_if};
ghost use Rattle.assign_core.specs.Moving.{IsMoving};
ghost use Rattle.assign_core.specs.Room.{unless_full};

use crate::admitting::admit_values;
use crate::evaluating::new_values;
use crate::exchange::{Change, Ready, exchange};
use crate::hashed::Hashed;
use crate::rooms::ready_beside;
use crate::rules::{check_rules, leaning};
use crate::settling::{exchange_back, values};
use log_times::Log;
use point_core::Steps;
use relvar_logs::count;
use std::alloc::Global;
use std::sync::ledger::Ledger;
use stored_views::exchange_rows;
use tree_core::{Assignment, Relvars};
use value_core::{Refuse, Relation};

/// What stands ready for assignments where rows of views are stored: new values, and the logs and the stored rows after them.
#[derive(Drop)]
pub(crate) struct Moving {
    pub ready: Ready,
    pub logs: Vec<Option<Log>>,
    pub rows: Vec<Option<Relation>>,
}

/// New values of base relvars, and the rows that views then have, one place for each entry.
#[derive(Drop)]
pub(crate) struct Moved {
    pub changes: Vec<Change>,
    pub rows: Vec<Option<Relation>>,
}

/// Gives each target the value of its source, all together, brings stored rows up to date, and counts the statement; or refuses and changes
/// nothing.
pub(crate) fn assign_moving<L: Ledger>(
    alloc: Global,
    relvars: &mut Relvars,
    hashed: &mut Hashed,
    stored: &mut Vec<Option<Relation>>,
    list: &[Assignment],
    steps: &mut Steps<L>,
) -> Result<(), Refuse>
    requires kept { IsKept (read_relvars relvars.old) }
    requires step { AreInStep (read_relvars relvars.old).accepted (read_relvars relvars.old).relvars }
    requires room { ((read_relvars relvars.old).accepted +ℤ pos 1) <ℤ greatest_whole }
    requires hashed { AreHashed hashed.old (read_relvars relvars.old).relvars }
    requires stored { AreStoredIn (read_relvars relvars.old) stored.old.items }
    requires typed { All (λ a. IsTypedAssignment (read_relvars relvars.old) (read_assignment a)) list.now }
    ensures assigned { (mid : State) × IsAssigned result (read_relvars relvars.old) mid (map read_assignment list.now) × (read_relvars relvars.new ≡ counted_if (is_ok result) mid) }
    ensures kept { IsKept (read_relvars relvars.new) }
    ensures step { AreInStep (read_relvars relvars.new).accepted (read_relvars relvars.new).relvars }
    ensures hashed { AreHashed hashed.new (read_relvars relvars.new).relvars }
    ensures stored { AreStoredIn (read_relvars relvars.new) stored.new.items }
    ensures cost { steps.new ≤ steps.old + cost_of_assignments (read_relvars relvars.old) (map read_assignment list.now) }
{
    let moving = prepare_moving(alloc, list, relvars, stored.as_slice(), steps)?;
    perform_moving(alloc, relvars, hashed, stored, moving, steps)
}

// What stands ready, or why the assignments are refused: too many rows come before broken constraints.
fn prepare_moving<L: Ledger>(
    alloc: Global,
    list: &[Assignment],
    relvars: &Relvars,
    stored: &[Option<Relation>],
    steps: &mut Steps<L>,
) -> Result<Moving, Refuse>
    requires kept { IsKept (read_relvars relvars.now) }
    requires step { AreInStep (read_relvars relvars.now).accepted (read_relvars relvars.now).relvars }
    requires room { ((read_relvars relvars.now).accepted +ℤ pos 1) <ℤ greatest_whole }
    requires stored { AreStored (read_relvars relvars.now).relvars stored.now }
    requires typed { All (λ a. IsTypedAssignment (read_relvars relvars.now) (read_assignment a)) list.now }
    ensures moving { IfOk result (IsMoving (read_relvars relvars.now) stored.now (map read_assignment list.now)) }
    ensures refused { IfErr result (λ refuse. IsRefusedFor refuse
        (unless_full (evaluated (read_relvars relvars.now).relvars (read_relvars relvars.now).relvars (map read_assignment list.now)) (after_assignments (read_relvars relvars.now).relvars (map read_assignment list.now)))) }
    ensures cost { steps.new ≤ steps.old + (assignments_cost (read_relvars relvars.now).relvars (map read_assignment list.now)
        + moves_cost_of (read_relvars relvars.now).relvars (evaluated (read_relvars relvars.now).relvars (read_relvars relvars.now).relvars (map read_assignment list.now))) }
{
    let changes = new_values(alloc, list, relvars, stored, steps)?;
    let (logs, rows) = ready_beside(alloc, relvars, stored, changes.as_slice(), steps)?;
    let ready = admit_values(alloc, relvars, changes, steps)?;
    Ok(Moving { ready, logs, rows })
}

// Makes the changes that stand ready, and counts the statement.
fn perform_moving<L: Ledger>(
    alloc: Global,
    relvars: &mut Relvars,
    hashed: &mut Hashed,
    stored: &mut Vec<Option<Relation>>,
    moving: Moving,
    steps: &mut Steps<L>,
) -> Result<(), Refuse>
    requires kept { IsKept (read_relvars relvars.old) }
    requires step { AreInStep (read_relvars relvars.old).accepted (read_relvars relvars.old).relvars }
    requires room { ((read_relvars relvars.old).accepted +ℤ pos 1) <ℤ greatest_whole }
    requires hashed { AreHashed hashed.old (read_relvars relvars.old).relvars }
    requires stored { AreStoredIn (read_relvars relvars.old) stored.old.items }
    requires moving { (list : List PlainAssignment) × IsMoving (read_relvars relvars.old) stored.old.items list moving }
    ensures assigned { (list : List PlainAssignment) → IsMoving (read_relvars relvars.old) stored.old.items list moving
        → (mid : State) × IsAssigned result (read_relvars relvars.old) mid list × (read_relvars relvars.new ≡ counted_if (is_ok result) mid) }
    ensures kept { IsKept (read_relvars relvars.new) }
    ensures step { AreInStep (read_relvars relvars.new).accepted (read_relvars relvars.new).relvars }
    ensures hashed { AreHashed hashed.new (read_relvars relvars.new).relvars }
    ensures stored { AreStoredIn (read_relvars relvars.new) stored.new.items }
    ensures cost { (list : List PlainAssignment) → IsMoving (read_relvars relvars.old) stored.old.items list moving
        → steps.new ≤ steps.old + rules_cost_of (read_relvars relvars.old).rules (after_assignments (read_relvars relvars.old).relvars list) }
{
    let told = leaning(alloc, relvars, &moving.ready)?;
    let Moving {
        ready,
        mut logs,
        rows,
    } = moving;
    let changes = values(alloc, relvars, ready)?;
    let mut moved = Moved { changes, rows };
    move_and_check(
        alloc,
        relvars,
        hashed,
        stored,
        &mut moved,
        told.as_slice(),
        steps,
    )?;
    count(relvars, &mut logs);
    Ok(())
}

// Exchanges values and stored rows, and takes that back where one of the database constraints that are told is broken or memory is wanting.
fn move_and_check<L: Ledger>(
    alloc: Global,
    relvars: &mut Relvars,
    hashed: &mut Hashed,
    stored: &mut Vec<Option<Relation>>,
    moved: &mut Moved,
    told: &[bool],
    steps: &mut Steps<L>,
) -> Result<(), Refuse>
    requires kept { IsKept (read_relvars relvars.old) }
    requires hashed { AreHashed hashed.old (read_relvars relvars.old).relvars }
    requires stored { AreStored (read_relvars relvars.old).relvars stored.old.items }
    requires values { AreValues moved.old.changes.items }
    requires changes { ArePrepared moved.old.changes.items (read_relvars relvars.old).relvars }
    requires rows { AreStored (exchanged_by moved.old.changes.items (read_relvars relvars.old).relvars) (renewed moved.old.rows.items stored.old.items) }
    requires places { AreNextTo moved.old.rows.items stored.old.items }
    requires others { DoOthersHold (exchanged_by moved.old.changes.items (read_relvars relvars.old).relvars) told.now (read_relvars relvars.old).rules }
    ensures settled { IsSettled result (read_relvars relvars.old) (read_relvars relvars.new) (exchanged_by moved.old.changes.items (read_relvars relvars.old).relvars) }
    ensures hashed { AreHashed hashed.new (read_relvars relvars.new).relvars }
    ensures stored { AreStored (read_relvars relvars.new).relvars stored.new.items }
    ensures length { length stored.new.items ≡ length stored.old.items }
    ensures cost { steps.new ≤ steps.old + rules_cost (exchanged_by moved.old.changes.items (read_relvars relvars.old).relvars) (read_relvars relvars.old).rules }
{
    exchange(relvars, hashed, alloc, &mut moved.changes)?;
    exchange_stored(stored, &mut moved.rows);
    match check_rules(alloc, relvars, stored.as_slice(), told, steps) {
        Ok(()) => Ok(()),
        Err(refuse) => {
            exchange_back(relvars, hashed, alloc, &mut moved.changes);
            exchange_stored(stored, &mut moved.rows);
            Err(refuse)
        }
    }
}

// Exchanges the stored rows with those that stand ready. It takes no memory, and once more takes it back.
fn exchange_stored(stored: &mut Vec<Option<Relation>>, rows: &mut Vec<Option<Relation>>)
    requires { AreNextTo rows.old.items stored.old.items }
    ensures forward { stored.new.items ≡ renewed rows.old.items stored.old.items }
    ensures back { renewed rows.new.items stored.new.items ≡ stored.old.items }
    ensures places { AreNextTo rows.new.items stored.new.items }
{
    exchange_rows(stored, rows);
}
