// Assignments, which are counted where they are done.
ghost use Rattle.std.specs.Prelude.{◌≡◌, ◌⊎◌, ◌≤◌, ◌<ℤ◌, ◌+◌, ◌+ℤ◌, pos, false, is_ok, map, Ok};
ghost use Rattle.std.specs.List.{All};
ghost use Rattle.point_core.specs.Whole.{greatest_whole};
ghost use Rattle.tree_core.specs.Items.{read_assignment};
ghost use Rattle.tree_core.specs.Relvars.{read_relvars, State};
ghost use Rattle.meaning_core.specs.Declarations.{counted};
ghost use Rattle.meaning_core.specs.Logs.{has_log, AreInStep};
ghost use Rattle.meaning_core.specs.Updates.{IsTypedAssignment};
ghost use Rattle.stored_views.specs.Stored.{has_stored};
ghost use Rattle.assign_core.specs.Arrivals.{way_of};
ghost use Rattle.assign_core.specs.Assignments.{IsAssigned, IsAssignedBeside};
ghost use Rattle.assign_core.specs.Costs.{cost_of_assignments};
ghost use Rattle.assign_core.specs.Databases.{IsKept};
ghost use Rattle.assign_core.specs.Hashed.{AreHashed};
ghost use Rattle.assign_core.specs.Beside.{IsBeside};
ghost use Rattle.assign_core.specs.Keeping.{AreStoredIn};
ghost use Rattle.assign_core.specs.Logs.{counted_if, is_brought, IsUnstored};
ghost use Rattle.assign_core.specs.NewRows.{HasLogRoomIf, HasRoomIf, IsFoundIf, IsListFor, IsPaidFor, IsToldOf, StaysUnless, TakesNoneIf};

use crate::beside::leaves_logs;
use crate::filling::fill;
use crate::gaining::bring_logged;
use crate::hashed::Hashed;
use crate::in_place::{perform_prepared, prepare_beside};
use crate::moving::assign_moving;
use crate::new_rows::{Coming, bring};
use crate::preparing::prepare;
use crate::settling::settle;
use point_core::Steps;
use relvar_logs::{count, has_log};
use std::alloc::Global;
use std::sync::ledger::Ledger;
use stored_views::has_stored;
use tree_core::{Assignment, Relvars};
use value_core::{Name, Refuse, Relation};

/// Gives each target the value of its source, all together, and counts the statement; or refuses and changes nothing.
pub(crate) fn assign<L: Ledger>(
    alloc: Global,
    relvars: &mut Relvars,
    hashed: &mut Hashed,
    stored: &mut Vec<Option<Relation>>,
    list: &[Assignment],
    steps: &mut Steps<L>,
) -> Result<(), Refuse>
    requires kept { IsKept (read_relvars relvars.old) }
    requires step { AreInStep (read_relvars relvars.old).accepted (read_relvars relvars.old).relvars }
    requires room { ((read_relvars relvars.old).accepted +ℤ pos 1) <ℤ greatest_whole }
    requires hashed { AreHashed hashed.old (read_relvars relvars.old).relvars }
    requires stored { AreStoredIn (read_relvars relvars.old) stored.old.items }
    requires typed { All (λ a. IsTypedAssignment (read_relvars relvars.old) (read_assignment a)) list.now }
    ensures assigned { (mid : State) × IsAssigned result (read_relvars relvars.old) mid (map read_assignment list.now) × (read_relvars relvars.new ≡ counted_if (is_ok result) mid) }
    ensures kept { IsKept (read_relvars relvars.new) }
    ensures step { AreInStep (read_relvars relvars.new).accepted (read_relvars relvars.new).relvars }
    ensures hashed { AreHashed hashed.new (read_relvars relvars.new).relvars }
    ensures stored { AreStoredIn (read_relvars relvars.new) stored.new.items }
    ensures cost { steps.new ≤ steps.old + cost_of_assignments (read_relvars relvars.old) (map read_assignment list.now) }
{
    if has_stored(relvars) {
        return assign_moving(alloc, relvars, hashed, stored, list, steps);
    }
    assign_unstored(alloc, relvars, hashed, list, steps)
}

// Where there is no stored view.
fn assign_unstored<L: Ledger>(
    alloc: Global,
    relvars: &mut Relvars,
    hashed: &mut Hashed,
    list: &[Assignment],
    steps: &mut Steps<L>,
) -> Result<(), Refuse>
    requires kept { IsKept (read_relvars relvars.old) }
    requires unstored { has_stored (read_relvars relvars.old).relvars ≡ false }
    requires step { AreInStep (read_relvars relvars.old).accepted (read_relvars relvars.old).relvars }
    requires room { ((read_relvars relvars.old).accepted +ℤ pos 1) <ℤ greatest_whole }
    requires hashed { AreHashed hashed.old (read_relvars relvars.old).relvars }
    requires typed { All (λ a. IsTypedAssignment (read_relvars relvars.old) (read_assignment a)) list.now }
    ensures assigned { (mid : State) × IsAssignedBeside result (read_relvars relvars.old) mid (map read_assignment list.now) × (read_relvars relvars.new ≡ counted_if (is_ok result) mid) }
    ensures kept { IsKept (read_relvars relvars.new) }
    ensures step { AreInStep (read_relvars relvars.new).accepted (read_relvars relvars.new).relvars }
    ensures hashed { AreHashed hashed.new (read_relvars relvars.new).relvars }
    ensures cost { steps.new ≤ steps.old + cost_of_assignments (read_relvars relvars.old) (map read_assignment list.now) }
{
    if !has_log(relvars) {
        return assign_alone(alloc, relvars, hashed, list, steps);
    }
    if leaves_logs(relvars, list) {
        return assign_beside(alloc, relvars, hashed, list, steps);
    }
    assign_logged(alloc, relvars, hashed, list, steps)
}

// Where there is no log.
fn assign_alone<L: Ledger>(
    alloc: Global,
    relvars: &mut Relvars,
    hashed: &mut Hashed,
    list: &[Assignment],
    steps: &mut Steps<L>,
) -> Result<(), Refuse>
    requires kept { IsKept (read_relvars relvars.old) }
    requires unstored { has_stored (read_relvars relvars.old).relvars ≡ false }
    requires alone { has_log (read_relvars relvars.old).relvars ≡ false }
    requires room { ((read_relvars relvars.old).accepted +ℤ pos 1) <ℤ greatest_whole }
    requires hashed { AreHashed hashed.old (read_relvars relvars.old).relvars }
    requires typed { All (λ a. IsTypedAssignment (read_relvars relvars.old) (read_assignment a)) list.now }
    ensures assigned { (mid : State) × IsAssignedBeside result (read_relvars relvars.old) mid (map read_assignment list.now) × (read_relvars relvars.new ≡ counted_if (is_ok result) mid) }
    ensures kept { IsKept (read_relvars relvars.new) }
    ensures step { AreInStep (read_relvars relvars.new).accepted (read_relvars relvars.new).relvars }
    ensures hashed { AreHashed hashed.new (read_relvars relvars.new).relvars }
    ensures cost { steps.new ≤ steps.old + cost_of_assignments (read_relvars relvars.old) (map read_assignment list.now) }
{
    fill(alloc, list, relvars, hashed)?;
    let ready = prepare(alloc, list, relvars, &[], hashed, steps)?;
    settle(alloc, relvars, hashed, ready, steps)?;
    count_alone(relvars);
    Ok(())
}

// Where there are logs, and each of them is left.
fn assign_beside<L: Ledger>(
    alloc: Global,
    relvars: &mut Relvars,
    hashed: &mut Hashed,
    list: &[Assignment],
    steps: &mut Steps<L>,
) -> Result<(), Refuse>
    requires kept { IsKept (read_relvars relvars.old) }
    requires unstored { has_stored (read_relvars relvars.old).relvars ≡ false }
    requires step { AreInStep (read_relvars relvars.old).accepted (read_relvars relvars.old).relvars }
    requires beside { IsBeside (read_relvars relvars.old) (map read_assignment list.now) }
    requires room { ((read_relvars relvars.old).accepted +ℤ pos 1) <ℤ greatest_whole }
    requires hashed { AreHashed hashed.old (read_relvars relvars.old).relvars }
    requires typed { All (λ a. IsTypedAssignment (read_relvars relvars.old) (read_assignment a)) list.now }
    ensures assigned { (mid : State) × IsAssignedBeside result (read_relvars relvars.old) mid (map read_assignment list.now) × (read_relvars relvars.new ≡ counted_if (is_ok result) mid) }
    ensures kept { IsKept (read_relvars relvars.new) }
    ensures step { AreInStep (read_relvars relvars.new).accepted (read_relvars relvars.new).relvars }
    ensures hashed { AreHashed hashed.new (read_relvars relvars.new).relvars }
    ensures cost { steps.new ≤ steps.old + cost_of_assignments (read_relvars relvars.old) (map read_assignment list.now) }
{
    fill(alloc, list, relvars, hashed)?;
    let ready = prepare(alloc, list, relvars, &[], hashed, steps)?;
    settle(alloc, relvars, hashed, ready, steps)?;
    count(relvars, &mut []);
    Ok(())
}

// Where there are logs. They change with their relvars: in place, or by what stands ready before anything changes.
fn assign_logged<L: Ledger>(
    alloc: Global,
    relvars: &mut Relvars,
    hashed: &mut Hashed,
    list: &[Assignment],
    steps: &mut Steps<L>,
) -> Result<(), Refuse>
    requires kept { IsKept (read_relvars relvars.old) }
    requires unstored { has_stored (read_relvars relvars.old).relvars ≡ false }
    requires step { AreInStep (read_relvars relvars.old).accepted (read_relvars relvars.old).relvars }
    requires room { ((read_relvars relvars.old).accepted +ℤ pos 1) <ℤ greatest_whole }
    requires hashed { AreHashed hashed.old (read_relvars relvars.old).relvars }
    requires typed { All (λ a. IsTypedAssignment (read_relvars relvars.old) (read_assignment a)) list.now }
    ensures assigned { (mid : State) × IsAssignedBeside result (read_relvars relvars.old) mid (map read_assignment list.now) × (read_relvars relvars.new ≡ counted_if (is_ok result) mid) }
    ensures kept { IsKept (read_relvars relvars.new) }
    ensures step { AreInStep (read_relvars relvars.new).accepted (read_relvars relvars.new).relvars }
    ensures hashed { AreHashed hashed.new (read_relvars relvars.new).relvars }
    ensures cost { steps.new ≤ steps.old + cost_of_assignments (read_relvars relvars.old) (map read_assignment list.now) }
{
    fill(alloc, list, relvars, hashed)?;
    let prepared = prepare_beside(alloc, list, relvars, &[], hashed, steps)?;
    perform_prepared(alloc, relvars, hashed, prepared, steps)
}

/// Brings rows to a base relvar, and counts the statement. Where rows of views are stored they are left; where there are logs too, unless they
/// are simply added and there is room for them in any case.
pub(crate) fn bring_counted<L: Ledger>(
    alloc: Global,
    relvars: &mut Relvars,
    hashed: &mut Hashed,
    target: &Name,
    way: Coming<'_>,
    rows: Relation,
    steps: &mut Steps<L>,
) -> Result<bool, Refuse>
    requires kept { IsKept (read_relvars relvars.old) }
    requires step { AreInStep (read_relvars relvars.old).accepted (read_relvars relvars.old).relvars }
    requires room { ((read_relvars relvars.old).accepted +ℤ pos 1) <ℤ greatest_whole }
    requires hashed { AreHashed hashed.old (read_relvars relvars.old).relvars }
    requires listed { IsListFor rows.heading (way_of way) }
    ensures brought { (mid : State) × IsToldOf (way_of way.entry) result (read_relvars relvars.old) mid target.now rows × (read_relvars relvars.new ≡ counted_if (is_brought result) mid) }
    ensures found { IsFoundIf result (read_relvars relvars.old) target.now rows.heading }
    ensures beside { HasRoomIf (way_of way.entry) result (read_relvars relvars.old) target.now rows }
    ensures stays { StaysUnless result (read_relvars relvars.old) (read_relvars relvars.new) }
    ensures none { TakesNoneIf result steps.old steps.new }
    ensures kept { IsKept (read_relvars relvars.new) }
    ensures step { AreInStep (read_relvars relvars.new).accepted (read_relvars relvars.new).relvars }
    ensures hashed { AreHashed hashed.new (read_relvars relvars.new).relvars }
    ensures stored { (read_relvars relvars.new ≡ read_relvars relvars.old) ⊎ IsUnstored (read_relvars relvars.old) (read_relvars relvars.new) }
    ensures cost { IsPaidFor (way_of way.entry) (read_relvars relvars.old) target.now rows steps.old steps.new }
{
    if has_stored(relvars) {
        drop(rows);
        return Ok(false);
    }
    if has_log(relvars) {
        return bring_beside(alloc, relvars, hashed, target, way, rows, steps);
    }
    bring_alone(alloc, relvars, hashed, target, way, rows, steps)
}

// Where there is no log.
fn bring_alone<L: Ledger>(
    alloc: Global,
    relvars: &mut Relvars,
    hashed: &mut Hashed,
    target: &Name,
    way: Coming<'_>,
    rows: Relation,
    steps: &mut Steps<L>,
) -> Result<bool, Refuse>
    requires kept { IsKept (read_relvars relvars.old) }
    requires unstored { has_stored (read_relvars relvars.old).relvars ≡ false }
    requires alone { has_log (read_relvars relvars.old).relvars ≡ false }
    requires room { ((read_relvars relvars.old).accepted +ℤ pos 1) <ℤ greatest_whole }
    requires hashed { AreHashed hashed.old (read_relvars relvars.old).relvars }
    requires listed { IsListFor rows.heading (way_of way) }
    ensures brought { (mid : State) × IsToldOf (way_of way.entry) result (read_relvars relvars.old) mid target.now rows × (read_relvars relvars.new ≡ counted_if (is_brought result) mid) }
    ensures found { IsFoundIf result (read_relvars relvars.old) target.now rows.heading }
    ensures beside { HasLogRoomIf (way_of way.entry) result (read_relvars relvars.old) target.now rows }
    ensures stays { StaysUnless result (read_relvars relvars.old) (read_relvars relvars.new) }
    ensures none { TakesNoneIf result steps.old steps.new }
    ensures kept { IsKept (read_relvars relvars.new) }
    ensures step { AreInStep (read_relvars relvars.new).accepted (read_relvars relvars.new).relvars }
    ensures hashed { AreHashed hashed.new (read_relvars relvars.new).relvars }
    ensures unstored { IsUnstored (read_relvars relvars.old) (read_relvars relvars.new) }
    ensures cost { IsPaidFor (way_of way.entry) (read_relvars relvars.old) target.now rows steps.old steps.new }
{
    match bring(alloc, relvars, hashed, target, way, rows, steps) {
        Ok(true) => {
            count_alone(relvars);
            Ok(true)
        }
        Ok(false) => Ok(false),
        Err(refuse) => Err(refuse),
    }
}

// Where there are logs.
fn bring_beside<L: Ledger>(
    alloc: Global,
    relvars: &mut Relvars,
    hashed: &mut Hashed,
    target: &Name,
    way: Coming<'_>,
    rows: Relation,
    steps: &mut Steps<L>,
) -> Result<bool, Refuse>
    requires kept { IsKept (read_relvars relvars.old) }
    requires unstored { has_stored (read_relvars relvars.old).relvars ≡ false }
    requires step { AreInStep (read_relvars relvars.old).accepted (read_relvars relvars.old).relvars }
    requires room { ((read_relvars relvars.old).accepted +ℤ pos 1) <ℤ greatest_whole }
    requires hashed { AreHashed hashed.old (read_relvars relvars.old).relvars }
    ensures brought { (mid : State) × IsToldOf (way_of way.entry) result (read_relvars relvars.old) mid target.now rows × (read_relvars relvars.new ≡ counted_if (is_brought result) mid) }
    ensures found { IsFoundIf result (read_relvars relvars.old) target.now rows.heading }
    ensures beside { HasLogRoomIf (way_of way.entry) result (read_relvars relvars.old) target.now rows }
    ensures stays { StaysUnless result (read_relvars relvars.old) (read_relvars relvars.new) }
    ensures none { TakesNoneIf result steps.old steps.new }
    ensures kept { IsKept (read_relvars relvars.new) }
    ensures step { AreInStep (read_relvars relvars.new).accepted (read_relvars relvars.new).relvars }
    ensures hashed { AreHashed hashed.new (read_relvars relvars.new).relvars }
    ensures unstored { IsUnstored (read_relvars relvars.old) (read_relvars relvars.new) }
    ensures cost { IsPaidFor (way_of way.entry) (read_relvars relvars.old) target.now rows steps.old steps.new }
{
    match way {
        Coming::Insert(None) => bring_logged(alloc, relvars, hashed, target, rows, steps),
        _ => {
            drop(rows);
            Ok(false)
        }
    }
}

/// Counts a statement where there is no log.
pub(crate) fn count_alone(relvars: &mut Relvars)
    requires alone { has_log (read_relvars relvars.old).relvars ≡ false }
    requires room { ((read_relvars relvars.old).accepted +ℤ pos 1) <ℤ greatest_whole }
    ensures counted { read_relvars relvars.new ≡ counted (read_relvars relvars.old) }
    ensures list { relvars.new.list ≡ relvars.old.list }
    ensures step { AreInStep (read_relvars relvars.new).accepted (read_relvars relvars.new).relvars }
{
    relvars.accepted += 1;
}

/// Counts a statement that changes no base relvar. It takes no memory.
pub(crate) fn count_idle(relvars: &mut Relvars)
    requires step { AreInStep (read_relvars relvars.old).accepted (read_relvars relvars.old).relvars }
    requires room { ((read_relvars relvars.old).accepted +ℤ pos 1) <ℤ greatest_whole }
    ensures counted { read_relvars relvars.new ≡ counted (read_relvars relvars.old) }
    ensures step { AreInStep (read_relvars relvars.new).accepted (read_relvars relvars.new).relvars }
{
    if has_log(relvars) {
        count(relvars, &mut []);
    } else {
        count_alone(relvars);
    }
}
