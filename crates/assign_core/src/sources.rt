// The values of sources.
ghost use Rattle.std.specs.Prelude.{◌≡◌, ◌<◌, ◌≤◌, ◌+◌, List, [], ◌∷◌, map, length, OnOk};
ghost use Rattle.std.specs.List.{All};
ghost use Rattle.relation_core.specs.Answers.{Answers, under};
ghost use Rattle.scalar_core.specs.Answers.{Gives};
ghost use Rattle.value_core.specs.Values.{Name as PlainName};
ghost use Rattle.tree_core.specs.Items.{read_assignment};
ghost use Rattle.tree_core.specs.Relvars.{read_relvars, PlainRelvar};
ghost use Rattle.tree_core.specs.Trees.{heading_of, read_tree};
ghost use Rattle.meaning_core.specs.Meanings.{meaning_in};
ghost use Rattle.meaning_core.specs.Names.{IsFirstAt};
ghost use Rattle.meaning_core.specs.StoredRows.{AreStored};
ghost use Rattle.meaning_core.specs.Updates.{IsTypedAssignment};
ghost use Rattle.meaning_core.specs.WellMade.{IsTypedFor, IsWellMade};
ghost use Rattle.algebra_core.specs.Costs.{cost_with};
ghost use Rattle.assign_core.specs.Assignments.{seen_by, evaluated};
ghost use Rattle.relvar_logs.specs.Changes.{AreChanges, changed};
ghost use Rattle.assign_core.specs.Costs.{sources_cost};
ghost use Rattle.assign_core.specs.Renewed.{renewing, AreRenewed};

use algebra_core::eval;
use point_core::{Steps, Stop};
use relvar_logs::change_of;
use std::alloc::Global;
use std::sync::ledger::Ledger;
use tree_core::{Assignment, RelTree, Relvars};
use value_core::{Name, Relation};

/// Evaluates the sources in order. Each sees the old relvars, its own target alone with its newest value.
pub(crate) fn evaluate<L: Ledger>(
    alloc: Global,
    list: &[Assignment],
    relvars: &Relvars,
    stored: &[Option<Relation>],
    changes: &mut Vec<Option<Relation>>,
    steps: &mut Steps<L>,
) -> Result<(), Stop>
    requires well_made { IsWellMade (read_relvars relvars.now) }
    requires stored { AreStored (read_relvars relvars.now).relvars stored.now }
    requires typed { All (λ a. IsTypedAssignment (read_relvars relvars.now) (read_assignment a)) list.now }
    requires changes { AreChanges changes.old.items (read_relvars relvars.now).relvars }
    requires none { AreRenewed [] changes.old.items (read_relvars relvars.now).relvars }
    ensures changes { AreChanges changes.new.items (read_relvars relvars.now).relvars }
    ensures value { Gives (λ done. changed changes.new.items (read_relvars relvars.now).relvars) result
        (evaluated (read_relvars relvars.now).relvars (changed changes.old.items (read_relvars relvars.now).relvars) (map read_assignment list.now)) }
    ensures cost { steps.new ≤ steps.old + sources_cost (read_relvars relvars.now).relvars (changed changes.old.items (read_relvars relvars.now).relvars) (map read_assignment list.now) }
{
    for assignment in list {
        evaluate_one(alloc, assignment, relvars, stored, changes, steps)?;
    }
    Ok(())
}

// Evaluates a source, whose value then stands ready for its target.
fn evaluate_one<L: Ledger>(
    alloc: Global,
    assignment: &Assignment,
    relvars: &Relvars,
    stored: &[Option<Relation>],
    changes: &mut Vec<Option<Relation>>,
    steps: &mut Steps<L>,
) -> Result<(), Stop>
    requires well_made { IsWellMade (read_relvars relvars.now) }
    requires stored { AreStored (read_relvars relvars.now).relvars stored.now }
    requires typed { IsTypedAssignment (read_relvars relvars.now) (read_assignment assignment.now) }
    requires changes { AreChanges changes.old.items (read_relvars relvars.now).relvars }
    ensures changes { AreChanges changes.new.items (read_relvars relvars.now).relvars }
    ensures value { Gives (λ done. changed changes.new.items (read_relvars relvars.now).relvars) result
        (evaluated (read_relvars relvars.now).relvars (changed changes.old.items (read_relvars relvars.now).relvars) (read_assignment assignment.now ∷ [])) }
    ensures cost { steps.new ≤ steps.old + cost_with (renewing changes.old.items (read_relvars relvars.now).relvars assignment.now.target)
        (seen_by (read_relvars relvars.now).relvars (changed changes.old.items (read_relvars relvars.now).relvars) assignment.now.target) (read_tree assignment.now.tree) }
    ensures renewed { OnOk result ((done : List PlainName) → AreRenewed done changes.old.items (read_relvars relvars.now).relvars
        → AreRenewed (assignment.now.target ∷ done) changes.new.items (read_relvars relvars.now).relvars) }
{
    let value = source(
        alloc,
        &assignment.tree,
        &assignment.target,
        relvars,
        stored,
        changes.as_slice(),
        steps,
    )?;
    let at = place(relvars, assignment);
    changes[at] = Some(value);
    Ok(())
}

/// The value of a source that sees the old relvars, the one of this name alone with its newest value.
pub(crate) fn source<L: Ledger>(
    alloc: Global,
    tree: &RelTree,
    name: &Name,
    relvars: &Relvars,
    stored: &[Option<Relation>],
    changes: &[Option<Relation>],
    steps: &mut Steps<L>,
) -> Result<Relation, Stop>
    requires well_made { IsWellMade (read_relvars relvars.now) }
    requires stored { AreStored (read_relvars relvars.now).relvars stored.now }
    requires typed { IsTypedFor (read_relvars relvars.now) (read_tree tree.now) }
    requires changes { AreChanges changes.now (read_relvars relvars.now).relvars }
    ensures value { Answers result (under (heading_of (read_tree tree.now))
        (meaning_in (seen_by (read_relvars relvars.now).relvars (changed changes.now (read_relvars relvars.now).relvars) name.now) (read_tree tree.now))) }
    ensures cost { steps.new ≤ steps.old + cost_with (renewing changes.now (read_relvars relvars.now).relvars name.now)
        (seen_by (read_relvars relvars.now).relvars (changed changes.now (read_relvars relvars.now).relvars) name.now) (read_tree tree.now) }
{
    match change_of(relvars, changes, name) {
        Some(value) => eval(alloc, tree, relvars, stored, Some(name), Some(value), steps),
        None => eval(alloc, tree, relvars, stored, None, None, steps),
    }
}

// The place of the target.
fn place(relvars: &Relvars, assignment: &Assignment) -> usize
    requires { IsTypedAssignment (read_relvars relvars.now) (read_assignment assignment.now) }
    ensures within { result < length relvars.now.list.entries }
    ensures first { (r : PlainRelvar) × IsFirstAt (read_relvars relvars.now).relvars assignment.now.target result r }
{
    match relvars.list.get_full(&assignment.target) {
        Some((at, _, _)) => at,
        None => unreachable!(),
    }
}
