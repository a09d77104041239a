// Constraints after rows have come to one base relvar and others have gone: those of its touched keys, and those of the relvars that
// name it.
ghost use Rattle.std.specs.Prelude.{◌≡◌, ◌+◌, ◌<◌, ◌≤◌, List, length, option_map, slice_index_or, true, None, Some, IfOk, if◌then◌else◌};
ghost use Rattle.std.specs.List.{All};
ghost use Rattle.std.specs.Result.{result_err};
ghost use Rattle.value_core.specs.Values.{Name as PlainName, Row, most_rows};
ghost use Rattle.relation_core.specs.Operators.{united};
ghost use Rattle.tree_core.specs.Relvars.{read_relvars, read_relvar, relvar_named, PlainRelvar};
ghost use Rattle.u_constraints.specs.Constraints.{broken, names_relvar};
ghost use Rattle.assign_core.specs.Breaches.{first_broken, first_in, first_of, rows_named, value_of, value_if, value_at};
ghost use Rattle.assign_core.specs.Changes.{Tells};
ghost use Rattle.assign_core.specs.Checks.{AllChecked, AreChecked, IsChecked};
ghost use Rattle.assign_core.specs.Costs.{cost_over, looked_at, looked_at_in, looked_at_all};
ghost use Rattle.assign_core.specs.Turnovers.{renewed, renewed_relvar, after_turnover, before_turnover, names_changed, rows_after, IsKnown, IsMade, IsTurnover};

use crate::changes::value_of;
use crate::checking::breach;
use crate::packing::are_same;
use change_rows::Exchange;
use point_core::{Code, Memory, Steps};
use relation_core::Hashes;
use row_removal::remove;
use std::alloc::Global;
use std::sync::ledger::Ledger;
use tree_core::{Relvar, Relvars};
use u_constraints::{Change, are_all, holds, holds_across, holds_with};
use value_core::{Constraint, MOST_ROWS, Name, Positions, Refuse, Relation};

/// What is known of a relation whose rows are exchanged: hashes of those before, and the list on which those after are packed, if one is.
#[derive(Clone, Copy)]
pub(crate) struct Known<'a> {
    pub hashes: &'a [Hashes],
    pub packed: Option<&'a Positions>,
}

/// Rows that a base relvar is to gain, and rows that it is then to lose: the place and the name of the relvar, its value, the rows, and
/// the new value where it is made already, and what else is known.
#[derive(Clone, Copy)]
pub(crate) struct Turnover<'a> {
    pub relvars: &'a Relvars,
    pub at: usize,
    pub name: &'a Name,
    pub value: &'a Relation,
    pub rows: &'a Exchange,
    pub new: Option<&'a Relation>,
    pub known: Known<'a>,
}

/// Whether there is room for the rows that come beside those that are there.
pub(crate) fn have_room(value: &Relation, rows: &Exchange) -> bool
    ensures { result ≡ true → length (united value.now.rows rows.now.come.rows) ≤ most_rows }
{
    value.rows().len() + rows.come.rows().len() <= MOST_ROWS
}

// A relvar's value before the turnover, and whether it is the one that changes.
#[derive(Clone, Copy)]
struct Own<'a> {
    of: &'a Relation,
    changes: bool,
}

/// Tells the first constraint that is broken after the turnover, by relvars in order of declaration and by number.
pub(crate) fn check_turnover<L: Ledger>(
    alloc: Global,
    turnover: Turnover<'_>,
    steps: &mut Steps<L>,
) -> Result<(), Refuse>
    requires turnover { IsTurnover turnover }
    requires made { IsMade turnover }
    requires known { IsKnown turnover.value.now turnover.rows.now turnover.known }
    requires checked { AllChecked (before_turnover turnover) (before_turnover turnover) }
    requires held { first_broken (before_turnover turnover) ≡ None }
    ensures told { Tells result (first_broken (after_turnover turnover.entry)) }
    ensures cost { steps.new ≤ steps.old + looked_at_all (after_turnover turnover.entry) (after_turnover turnover.entry) }
{
    for at in 0..turnover.relvars.list.len() {
        check_at(alloc, turnover, at, steps)?;
    }
    Ok(())
}

// Tells the first broken constraint of the relvar at a place.
fn check_at<L: Ledger>(
    alloc: Global,
    turnover: Turnover<'_>,
    at: usize,
    steps: &mut Steps<L>,
) -> Result<(), Refuse>
    requires turnover { IsTurnover turnover }
    requires made { IsMade turnover }
    requires known { IsKnown turnover.value.now turnover.rows.now turnover.known }
    requires within { at < length turnover.relvars.now.list.entries }
    requires checked { AllChecked (before_turnover turnover) (before_turnover turnover) }
    requires held { first_broken (before_turnover turnover) ≡ None }
    ensures told { (d : PlainName × PlainRelvar) → Tells result (first_in (after_turnover turnover.entry) (slice_index_or (after_turnover turnover.entry) at d).0 (slice_index_or (after_turnover turnover.entry) at d).1) }
    ensures cost { (d : PlainName × PlainRelvar) → steps.new ≤ steps.old + looked_at_in (after_turnover turnover.entry) (slice_index_or (after_turnover turnover.entry) at d).1 }
{
    match turnover.relvars.list.get_index(at) {
        Some((name, relvar)) => {
            check_relvar(alloc, turnover, name, relvar, at == turnover.at, steps)
        }
        None => unreachable!(),
    }
}

// Tells the first broken constraint of a relvar, if there is one.
fn check_relvar<L: Ledger>(
    alloc: Global,
    turnover: Turnover<'_>,
    name: &Name,
    relvar: &Relvar,
    changes: bool,
    steps: &mut Steps<L>,
) -> Result<(), Refuse>
    requires turnover { IsTurnover turnover }
    requires made { IsMade turnover }
    requires known { IsKnown turnover.value.now turnover.rows.now turnover.known }
    requires own { changes ≡ true → value_of (read_relvar relvar.now) ≡ Some turnover.value.now }
    requires checked { AreChecked (before_turnover turnover) (read_relvar relvar.now) }
    requires held { first_in (before_turnover turnover) name.now (read_relvar relvar.now) ≡ None }
    ensures told { Tells result (first_in (after_turnover turnover.entry) name.now (if changes then renewed_relvar turnover.entry.rows.now (read_relvar relvar.now) else read_relvar relvar.now)) }
    ensures cost { steps.new ≤ steps.old + looked_at_in (after_turnover turnover.entry) (if changes then renewed_relvar turnover.entry.rows.now (read_relvar relvar.now) else read_relvar relvar.now) }
{
    match relvar {
        Relvar::Base { value, constraints } => {
            let own = Own { of: value, changes };
            check_list(
                alloc,
                turnover,
                name,
                own,
                constraints.list.as_slice(),
                steps,
            )
        }
        Relvar::View { tree: _, kind: _ } => Ok(()),
        Relvar::Log { of: _, log: _ } => Ok(()),
    }
}

// Tells the first broken one among constraints, numbered from 1.
fn check_list<L: Ledger>(
    alloc: Global,
    turnover: Turnover<'_>,
    name: &Name,
    own: Own<'_>,
    list: &[Constraint],
    steps: &mut Steps<L>,
) -> Result<(), Refuse>
    requires turnover { IsTurnover turnover }
    requires made { IsMade turnover }
    requires known { IsKnown turnover.value.now turnover.rows.now turnover.known }
    requires own { own.changes ≡ true → own.of.now ≡ turnover.value.now }
    requires checked { All (IsChecked (before_turnover turnover) own.of.now.heading) list.now }
    requires held { All (λ c. broken c own.of.now.rows (rows_named (before_turnover turnover) c) ≡ None) list.now }
    ensures told { Tells result (first_of (after_turnover turnover.entry) name.now (rows_after turnover.entry own.entry.changes own.entry.of.now.rows) 1 list.now) }
    ensures cost { steps.new ≤ steps.old + looked_at (after_turnover turnover.entry) (rows_after turnover.entry own.entry.changes own.entry.of.now.rows) list.now }
{
    for (at, constraint) in list.iter().enumerate() {
        let answer = check_one(alloc, turnover, own, constraint, steps)?;
        if let Err(code) = answer {
            return Err(breach(alloc, code, name, at));
        }
    }
    Ok(())
}

// Whether a constraint holds after the turnover. Only what the rows touch is looked at.
fn check_one<L: Ledger>(
    alloc: Global,
    turnover: Turnover<'_>,
    own: Own<'_>,
    constraint: &Constraint,
    steps: &mut Steps<L>,
) -> Result<Result<(), Code>, Memory>
    requires turnover { IsTurnover turnover }
    requires made { IsMade turnover }
    requires known { IsKnown turnover.value.now turnover.rows.now turnover.known }
    requires own { own.changes ≡ true → own.of.now ≡ turnover.value.now }
    requires checked { IsChecked (before_turnover turnover) own.of.now.heading constraint.now }
    requires held { broken constraint.now own.of.now.rows (rows_named (before_turnover turnover) constraint.now) ≡ None }
    ensures answer { IfOk result (λ answer. result_err answer ≡ broken constraint.now (rows_after turnover.entry own.entry.changes own.entry.of.now.rows) (rows_named (after_turnover turnover.entry) constraint.now)) }
    ensures cost { steps.new ≤ steps.old + cost_over (after_turnover turnover.entry) (rows_after turnover.entry own.entry.changes own.entry.of.now.rows) constraint.now }
{
    match (own.changes, names_changed(turnover, constraint)) {
        (true, true) => holds_within(alloc, turnover, constraint, steps),
        (true, false) if is_told(turnover, own.of, constraint) => Ok(Ok(())),
        (true, false) => {
            let other = named(turnover.relvars, constraint);
            let Exchange { come, gone } = turnover.rows;
            let change = Change {
                of: own.of,
                hashes: turnover.known.hashes,
                come,
                gone,
            };
            holds_with(alloc, constraint, change, other, steps)
        }
        (false, true) => holds_of_other(alloc, turnover, own.of, constraint, steps),
        (false, false) => Ok(Ok(())),
    }
}

// Whether a constraint of the relvar that changes holds after the turnover by the list alone on which its rows are then packed: it asks
// that they are, or for a key of all attributes besides.
fn is_told(turnover: Turnover<'_>, of: &Relation, constraint: &Constraint) -> bool
    requires turnover { IsTurnover turnover }
    requires known { IsKnown turnover.value.now turnover.rows.now turnover.known }
    requires own { of.now ≡ turnover.value.now }
    requires checked { IsChecked (before_turnover turnover) of.now.heading constraint.now }
    ensures { result ≡ true → (others : List Row) → broken constraint.now (rows_after turnover.entry true of.now.rows) others ≡ None }
{
    // Each row has a value of each attribute.
    let _come = turnover.rows.come.rows();
    let many = of.heading().attributes().len();
    match (turnover.known.packed, constraint) {
        (Some(commalist), Constraint::Packed(own)) => are_same(own, commalist),
        (Some(commalist), Constraint::UKey(own, key)) => {
            are_same(own, commalist) && are_all(key.list.as_slice(), many)
        }
        _ => false,
    }
}

// Whether a constraint that names the relvar itself holds after the turnover.
fn holds_within<L: Ledger>(
    alloc: Global,
    turnover: Turnover<'_>,
    constraint: &Constraint,
    steps: &mut Steps<L>,
) -> Result<Result<(), Code>, Memory>
    requires turnover { IsTurnover turnover }
    requires made { IsMade turnover }
    requires names { names_changed turnover (names_relvar constraint.now) ≡ true }
    requires checked { IsChecked (before_turnover turnover) turnover.value.now.heading constraint.now }
    ensures answer { IfOk result (λ answer. result_err answer ≡ broken constraint.now (rows_after turnover.entry true turnover.entry.value.now.rows) (rows_named (after_turnover turnover.entry) constraint.now)) }
    ensures cost { steps.new ≤ steps.old + cost_over (after_turnover turnover.entry) (rows_after turnover.entry true turnover.entry.value.now.rows) constraint.now }
{
    match turnover.new {
        Some(all) => holds(alloc, constraint, all, Some(all), steps),
        None => {
            let all = renewed(alloc, turnover)?;
            holds(alloc, constraint, &all, Some(&all), steps)
        }
    }
}

// Whether a constraint of another relvar, which names the one that changes, holds after the turnover. Only rows there with the key of a
// row that goes are asked, and those that come are looked at.
fn holds_of_other<L: Ledger>(
    alloc: Global,
    turnover: Turnover<'_>,
    of: &Relation,
    constraint: &Constraint,
    steps: &mut Steps<L>,
) -> Result<Result<(), Code>, Memory>
    requires turnover { IsTurnover turnover }
    requires names { names_changed turnover (names_relvar constraint.now) ≡ true }
    requires checked { IsChecked (before_turnover turnover) of.now.heading constraint.now }
    requires held { broken constraint.now of.now.rows (rows_named (before_turnover turnover) constraint.now) ≡ None }
    ensures answer { IfOk result (λ answer. result_err answer ≡ broken constraint.now of.now.rows (rows_named (after_turnover turnover.entry) constraint.now)) }
    ensures cost { steps.new ≤ steps.old + cost_over (after_turnover turnover.entry) of.now.rows constraint.now }
{
    let Exchange { come, gone } = turnover.rows;
    let change = Change {
        of: turnover.value,
        hashes: turnover.known.hashes,
        come,
        gone,
    };
    holds_across(alloc, constraint, of, change, steps)
}

// The value of the relvar that changes, after the turnover.
fn renewed(alloc: Global, turnover: Turnover<'_>) -> Result<Relation, Memory>
    requires { IsTurnover turnover }
    ensures { IfOk result (λ r. r ≡ renewed turnover.entry.value.now turnover.entry.rows.now) }
{
    let mut all = turnover.value.copy(alloc)?;
    let come = turnover.rows.come.copy(alloc)?;
    all.insert(come)?;
    remove(&mut all, alloc, &turnover.rows.gone);
    Ok(all)
}

// Whether a constraint names the relvar that changes.
fn names_changed(turnover: Turnover<'_>, constraint: &Constraint) -> bool
    ensures { result ≡ names_changed turnover.entry (names_relvar constraint.now) }
{
    match constraint {
        Constraint::Foreign(_, _, name, _) => turnover.name == name,
        Constraint::History(rule) => *turnover.name == rule.since,
        Constraint::Key(_)
        | Constraint::Packed(_)
        | Constraint::WhenUnpacked(_, _)
        | Constraint::UKey(_, _) => false,
    }
}

// The value of the base relvar that a constraint names, if it names one.
fn named<'a>(relvars: &'a Relvars, constraint: &Constraint) -> Option<&'a Relation>
    ensures { option_map (λ v. v.now) result ≡ value_at (read_relvars relvars.now).relvars (names_relvar constraint.now) }
{
    match constraint {
        Constraint::Foreign(_, _, name, _) => value_named(relvars, name),
        Constraint::History(rule) => value_named(relvars, &rule.since),
        Constraint::Key(_)
        | Constraint::Packed(_)
        | Constraint::WhenUnpacked(_, _)
        | Constraint::UKey(_, _) => None,
    }
}

/// The value of the base relvar of this name, if there is one.
pub(crate) fn value_named<'a>(relvars: &'a Relvars, name: &Name) -> Option<&'a Relation>
    ensures { option_map (λ v. v.now) result ≡ value_if (relvar_named (read_relvars relvars.now).relvars name.now) }
{
    match relvars.list.get_full(name) {
        Some((_, _, relvar)) => value_of(relvar),
        None => None,
    }
}
