// Constraints after a change.
ghost use Rattle.std.specs.Prelude.{◌≡◌, ◌+◌, ◌<◌, ◌≤◌, ◌^◌, length, option_map, slice_index_or, is_some, None, Some, Err, IfOk};
ghost use Rattle.std.specs.List.{All};
ghost use Rattle.std.specs.Result.{result_err};
ghost use Rattle.value_core.specs.declared.refuse.Refuse.TheVariants.{Broken};
ghost use Rattle.value_core.specs.Values.{Name as PlainName};
ghost use Rattle.tree_core.specs.Relvars.{read_relvars, read_relvar, PlainRelvar};
ghost use Rattle.u_constraints.specs.Constraints.{broken, names_relvar};
ghost use Rattle.assign_core.specs.Breaches.{first_broken, first_in, first_of, rows_named, value_at};
ghost use Rattle.relvar_logs.specs.Changes.{AreChanges, changed_relvar, change_named};
ghost use Rattle.assign_core.specs.Changes.{Tells};
ghost use Rattle.assign_core.specs.Checks.{after, before, can_break, AllChecked, AreChecked, HeldBefore, IsChecked};
ghost use Rattle.assign_core.specs.Costs.{cost_over, looked_at, looked_at_in, looked_at_all};

use crate::changes::{current, newer};
use point_core::{Code, Memory, Steps};
use std::alloc::Global;
use std::sync::ledger::Ledger;
use tree_core::{Relvar, Relvars};
use u_constraints::holds;
use value_core::{Constraint, Name, Refuse, Relation};

/// The relvars, and the new values that stand ready for them.
#[derive(Clone, Copy)]
pub(crate) struct After<'a> {
    pub relvars: &'a Relvars,
    pub changes: &'a [Option<Relation>],
}

// A relvar's newest value, and whether it is a new one.
#[derive(Clone, Copy)]
struct Own<'a> {
    of: &'a Relation,
    changes: bool,
}

/// Tells the first broken constraint, by relvars in order of declaration and by number.
pub(crate) fn check<L: Ledger>(
    alloc: Global,
    new: After<'_>,
    steps: &mut Steps<L>,
) -> Result<(), Refuse>
    requires changes { AreChanges new.changes.now (read_relvars new.relvars.now).relvars }
    requires checked { AllChecked (after new) (after new) }
    requires held { first_broken (before new) ≡ None }
    ensures told { Tells result (first_broken (after new.entry)) }
    ensures cost { steps.new ≤ steps.old + looked_at_all (after new.entry) (after new.entry) }
{
    for at in 0..new.changes.len() {
        check_at(alloc, new, at, steps)?;
    }
    Ok(())
}

// Tells the first broken constraint of the relvar at a place.
fn check_at<L: Ledger>(
    alloc: Global,
    new: After<'_>,
    at: usize,
    steps: &mut Steps<L>,
) -> Result<(), Refuse>
    requires changes { AreChanges new.changes.now (read_relvars new.relvars.now).relvars }
    requires within { at < length new.relvars.now.list.entries }
    requires length { length new.changes.now ≡ length new.relvars.now.list.entries }
    requires checked { (d : PlainName × PlainRelvar) → AreChecked (after new) (slice_index_or (after new) at d).1 }
    requires held { first_broken (before new) ≡ None }
    ensures told { (d : PlainName × PlainRelvar) → Tells result (first_in (after new.entry) (slice_index_or (after new.entry) at d).0 (slice_index_or (after new.entry) at d).1) }
    ensures cost { (d : PlainName × PlainRelvar) → steps.new ≤ steps.old + looked_at_in (after new.entry) (slice_index_or (after new.entry) at d).1 }
{
    match new.relvars.list.get_index(at) {
        Some((name, relvar)) => check_relvar(alloc, new, name, &new.changes[at], relvar, steps),
        None => unreachable!(),
    }
}

// Tells the first broken constraint of a relvar with a new value, if there is one.
fn check_relvar<L: Ledger>(
    alloc: Global,
    new: After<'_>,
    name: &Name,
    change: &Option<Relation>,
    relvar: &Relvar,
    steps: &mut Steps<L>,
) -> Result<(), Refuse>
    requires changes { AreChanges new.changes.now (read_relvars new.relvars.now).relvars }
    requires length { length new.changes.now ≡ length new.relvars.now.list.entries }
    requires checked { AreChecked (after new) (changed_relvar change.now (read_relvar relvar.now)) }
    requires held { first_in (before new) name.now (read_relvar relvar.now) ≡ None }
    ensures told { Tells result (first_in (after new.entry) name.now (changed_relvar change.now (read_relvar relvar.now))) }
    ensures cost { steps.new ≤ steps.old + looked_at_in (after new.entry) (changed_relvar change.now (read_relvar relvar.now)) }
{
    match relvar {
        Relvar::Base { value, constraints } => {
            let own = Own {
                of: newer(change, value),
                changes: change.is_some(),
            };
            check_list(alloc, new, name, own, constraints.list.as_slice(), steps)
        }
        Relvar::View { tree: _, kind: _ } => Ok(()),
        Relvar::Log { of: _, log: _ } => Ok(()),
    }
}

// Tells the first broken one among constraints, numbered from 1.
fn check_list<L: Ledger>(
    alloc: Global,
    new: After<'_>,
    name: &Name,
    own: Own<'_>,
    list: &[Constraint],
    steps: &mut Steps<L>,
) -> Result<(), Refuse>
    requires changes { AreChanges new.changes.now (read_relvars new.relvars.now).relvars }
    requires length { length new.changes.now ≡ length new.relvars.now.list.entries }
    requires checked { All (IsChecked (after new) own.of.now.heading) list.now }
    requires held { All (HeldBefore new own.changes own.of.now.rows) list.now }
    ensures told { Tells result (first_of (after new.entry) name.now own.entry.of.now.rows 1 list.now) }
    ensures cost { steps.new ≤ steps.old + looked_at (after new.entry) own.entry.of.now.rows list.now }
{
    for (at, constraint) in list.iter().enumerate() {
        let answer = check_one(alloc, new, own, constraint, steps)?;
        if let Err(code) = answer {
            return Err(breach(alloc, code, name, at));
        }
    }
    Ok(())
}

// Whether a constraint holds after the change.
fn check_one<L: Ledger>(
    alloc: Global,
    new: After<'_>,
    own: Own<'_>,
    constraint: &Constraint,
    steps: &mut Steps<L>,
) -> Result<Result<(), Code>, Memory>
    requires changes { AreChanges new.changes.now (read_relvars new.relvars.now).relvars }
    requires length { length new.changes.now ≡ length new.relvars.now.list.entries }
    requires checked { IsChecked (after new) own.of.now.heading constraint.now }
    requires held { HeldBefore new own.changes own.of.now.rows constraint.now }
    ensures answer { IfOk result (λ answer. result_err answer ≡ broken constraint.now own.entry.of.now.rows (rows_named (after new.entry) constraint.now)) }
    ensures cost { steps.new ≤ steps.old + cost_over (after new.entry) own.entry.of.now.rows constraint.now }
{
    if !can_break(new, own.changes, constraint) {
        return Ok(Ok(()));
    }
    let other = named(new, constraint);
    holds(alloc, constraint, own.of, other, steps)
}

// Whether the change can break a constraint: its own relvar or the one that it names gets a new value.
fn can_break(new: After<'_>, own: bool, constraint: &Constraint) -> bool
    requires { length new.changes.now ≡ length new.relvars.now.list.entries }
    ensures { result ≡ can_break new.entry own constraint.now }
{
    own || match constraint {
        Constraint::Foreign(_, _, name, _) => is_changed(new, name),
        Constraint::History(rule) => is_changed(new, &rule.since),
        Constraint::Key(_)
        | Constraint::Packed(_)
        | Constraint::WhenUnpacked(_, _)
        | Constraint::UKey(_, _) => false,
    }
}

// Whether a new value stands ready for the relvar of this name.
fn is_changed(new: After<'_>, name: &Name) -> bool
    requires { length new.changes.now ≡ length new.relvars.now.list.entries }
    ensures { result ≡ is_some (change_named new.entry.changes.now (before new.entry) name.now) }
{
    match new.relvars.list.get_full(name) {
        Some((at, _, _)) => new.changes[at].is_some(),
        None => false,
    }
}

// The newest value of the relvar that a constraint names, if it names one.
fn named<'a>(new: After<'a>, constraint: &Constraint) -> Option<&'a Relation>
    requires changes { AreChanges new.changes.now (read_relvars new.relvars.now).relvars }
    requires length { length new.changes.now ≡ length new.relvars.now.list.entries }
    ensures { option_map (λ v. v.now) result ≡ value_at (after new.entry) (names_relvar constraint.now) }
{
    match constraint {
        Constraint::Foreign(_, _, name, _) => current(new.relvars, new.changes, name),
        Constraint::History(rule) => current(new.relvars, new.changes, &rule.since),
        Constraint::Key(_)
        | Constraint::Packed(_)
        | Constraint::WhenUnpacked(_, _)
        | Constraint::UKey(_, _) => None,
    }
}

/// What is refused where a constraint of the relvar is broken, by its index; or want of memory.
pub(crate) fn breach(alloc: Global, code: Code, name: &Name, at: usize) -> Refuse
    requires { at + 1 < 2 ^ 64 }
    ensures { Tells (Err result) (Some (Broken code name.now (at + 1))) }
{
    match (name.copy(alloc), u32::try_from(at + 1)) {
        (Ok(relvar), Ok(number)) => Refuse::Broken {
            code,
            relvar,
            number,
        },
        _ => Refuse::Memory,
    }
}
