// TERMINATE as assignments.
ghost use Rattle.std.specs.Prelude.{◌≡◌, IfOk, Some, map, option_map};
ghost use Rattle.scalar_core.specs.Expressions.{read};
ghost use Rattle.tree_core.specs.Items.{read_assignment, read_item};
ghost use Rattle.tree_core.specs.Relvars.{read_relvars};
ghost use Rattle.tree_core.specs.Trees.{read_tree};
ghost use Rattle.meaning_core.specs.Endings.{history_of, rule_if, rule_of};
ghost use Rattle.meaning_core.specs.WellMade.{IsWellMade};
ghost use Rattle.update_core.specs.Endings.{ended_in, meant_by};
ghost use Rattle.since_during.specs.Joinable.{AreJoinable, IsEndingForm, IsJoinable};
ghost use Rattle.since_during.specs.Ended.{both_of, facts, other_facts, with_ended, with_facts, without_ended};
ghost use Rattle.since_during.specs.Sides.{IsNarrow};

use crate::headings::name_at;
use crate::joining::{Sides, joined_history};
use crate::relvars::{heading_named, history_of, rule_of};
use point_core::{Memory, Place};
use scalar_core::Scalar;
use std::alloc::Global;
use tree_core::{Assignment, Item, ItemForm, RelTree, Relvars, negation};
use update_core::{condition, type_at};
use value_core::{HistoryRule, Name};

/// What ends: the facts that meet the condition, at a point. The places are those of the item and of AT.
#[derive(Clone, Copy)]
struct Ending<'a> {
    place: Place,
    at: Place,
    end: &'a Scalar,
    condition: &'a Option<Scalar>,
}

/// The assignments that a TERMINATE stands for where these are the relvars: the facts of which its condition holds last up to
/// its point in the during relvar of its history, and are no longer in the since relvar.
pub fn terminate(alloc: Global, item: &Item, relvars: &Relvars) -> Result<Vec<Assignment>, Memory>
    requires form { IsEndingForm (read_item item.now).form }
    requires made { IsWellMade (read_relvars relvars.now) }
    ensures { IfOk result (λ v. map read_assignment v.items ≡ meant_by (read_relvars relvars.now).relvars (read_item item.now)) }
{
    match &item.form {
        ItemForm::Terminate {
            at,
            at_place,
            condition,
        } => {
            let ending = Ending {
                place: item.place,
                at: *at_place,
                end: at,
                condition,
            };
            ended_in(alloc, relvars, &item.target, ending)
        }
        _ => unreachable!(),
    }
}

/// The assignments of an ending for the view of the name.
fn ended_in(
    alloc: Global,
    relvars: &Relvars,
    target: &Name,
    ending: Ending<'_>,
) -> Result<Vec<Assignment>, Memory>
    requires { AreJoinable (read_relvars relvars.now).relvars (history_of (read_relvars relvars.now).relvars target.now) }
    ensures { IfOk result (λ v. map read_assignment v.items
        ≡ ended_in (read_relvars relvars.now).relvars ending.entry.place ending.entry.at (rule_of (read_relvars relvars.now).relvars target.now)
        (history_of (read_relvars relvars.now).relvars target.now) (read ending.entry.end.now) (option_map read ending.entry.condition.now)) }
{
    match history_of(relvars, target) {
        Some(names) => ended_by(alloc, relvars, names, ending),
        None => Ok(Vec::new(alloc)),
    }
}

/// The assignments of an ending for the history of these relvars.
fn ended_by(
    alloc: Global,
    relvars: &Relvars,
    names: &(Name, Name),
    ending: Ending<'_>,
) -> Result<Vec<Assignment>, Memory>
    requires { AreJoinable (read_relvars relvars.now).relvars (Some names.now) }
    ensures { IfOk result (λ v. map read_assignment v.items
        ≡ ended_in (read_relvars relvars.now).relvars ending.entry.place ending.entry.at (rule_if (read_relvars relvars.now).relvars (Some names.now))
        (Some names.now) (read ending.entry.end.now) (option_map read ending.entry.condition.now)) }
{
    match rule_of(relvars, &names.1) {
        Some(rule) => ended_under(alloc, relvars, names, rule, ending),
        None => Ok(Vec::new(alloc)),
    }
}

/// The assignments of an ending for the history of these relvars and this rule.
fn ended_under(
    alloc: Global,
    relvars: &Relvars,
    names: &(Name, Name),
    rule: &HistoryRule,
    ending: Ending<'_>,
) -> Result<Vec<Assignment>, Memory>
    requires { IsJoinable (read_relvars relvars.now).relvars names.now rule.now }
    ensures { IfOk result (λ v. map read_assignment v.items
        ≡ ended_in (read_relvars relvars.now).relvars ending.entry.place ending.entry.at (Some rule.now)
        (Some names.now) (read ending.entry.end.now) (option_map read ending.entry.condition.now)) }
{
    let since = heading_named(relvars, &names.0);
    let during = heading_named(relvars, &names.1);
    let sides = Sides {
        place: ending.place,
        over: type_at(during, rule.span_here),
        point: name_at(since, rule.point_there),
        span: name_at(during, rule.span_here),
        during_name: &names.1,
        since,
        during,
    };
    both(alloc, sides, &names.0, ending)
}

/// What the two relvars get.
fn both(
    alloc: Global,
    sides: Sides<'_>,
    since: &Name,
    ending: Ending<'_>,
) -> Result<Vec<Assignment>, Memory>
    requires { IsNarrow sides }
    ensures { IfOk result (λ v. map read_assignment v.items ≡ both_of sides.entry since.now ending.entry) }
{
    let more = with_ended(alloc, sides, since, ending)?;
    let rest = without_ended(alloc, sides, since, ending)?;
    let list = vec![in alloc; more, rest]?;
    Ok(list)
}

/// The facts that meet the condition, or the others.
fn facts(alloc: Global, sides: Sides<'_>, since: &Name, c: Scalar) -> Result<RelTree, Memory>
    ensures { IfOk result (λ t. read_tree t ≡ facts sides.entry since.now (read c)) }
{
    let own = RelTree::of_name(alloc, sides.place, sides.since, since)?;
    own.restricted(alloc, sides.place, sides.since, c)
}

/// The during relvar's rows, and the facts that end.
fn ended_facts(
    alloc: Global,
    sides: Sides<'_>,
    since: &Name,
    ending: Ending<'_>,
) -> Result<RelTree, Memory>
    requires { IsNarrow sides }
    ensures { IfOk result (λ t. read_tree t ≡ with_facts sides.entry since.now ending.entry) }
{
    let c = condition(alloc, sides.place, ending.condition)?;
    let rows = facts(alloc, sides, since, c)?;
    let end = ending.end.copy(alloc)?;
    joined_history(alloc, sides, ending.at, end, rows)
}

/// The during relvar gets the facts that end.
fn with_ended(
    alloc: Global,
    sides: Sides<'_>,
    since: &Name,
    ending: Ending<'_>,
) -> Result<Assignment, Memory>
    requires { IsNarrow sides }
    ensures { IfOk result (λ a. read_assignment a ≡ with_ended sides.entry since.now ending.entry) }
{
    let target = sides.during_name.copy(alloc)?;
    let tree = ended_facts(alloc, sides, since, ending)?;
    Ok(Assignment { target, tree })
}

/// The other facts.
fn other_facts(
    alloc: Global,
    sides: Sides<'_>,
    since: &Name,
    ending: Ending<'_>,
) -> Result<RelTree, Memory>
    ensures { IfOk result (λ t. read_tree t ≡ other_facts sides.entry since.now ending.entry) }
{
    let c = condition(alloc, sides.place, ending.condition)?;
    let not = negation(alloc, sides.place, c)?;
    facts(alloc, sides, since, not)
}

/// The since relvar keeps the others.
fn without_ended(
    alloc: Global,
    sides: Sides<'_>,
    since: &Name,
    ending: Ending<'_>,
) -> Result<Assignment, Memory>
    ensures { IfOk result (λ a. read_assignment a ≡ without_ended sides.entry since.now ending.entry) }
{
    let target = since.copy(alloc)?;
    let tree = other_facts(alloc, sides, since, ending)?;
    Ok(Assignment { target, tree })
}
