// The operands of stored views, once base relvars have new values.
ghost use Rattle.std.specs.Prelude.{◌≡◌, option_map, Some, IfSome};
ghost use Rattle.value_core.specs.Values.{IsRelation};
ghost use Rattle.tree_core.specs.Relvars.{read_relvar, read_relvars, relvar_heading};
ghost use Rattle.tree_core.specs.Trees.{read_tree};
ghost use Rattle.meaning_core.specs.WellMade.{IsBase};
ghost use Rattle.relvar_logs.specs.Changes.{changed, changed_relvar, newest, IsChange};
ghost use Rattle.stored_views.specs.Moves.{AreFirstChanges};
ghost use Rattle.stored_views.specs.Operands.{value_if, AreOperands, ArePartOperands, ArePartValues, AreValues, IsOperand, IsValue};

use crate::places::there;
use tree_core::{RelForm, RelTree, Relvar, Relvars};
use value_core::Relation;

/// The newest values of the operands.
pub(crate) fn operands<'a>(
    relvars: &'a Relvars,
    changes: &'a [Option<Relation>],
    tree: &RelTree,
) -> (&'a Relation, Option<&'a Relation>)
    requires operands { AreOperands (read_relvars relvars.now).relvars (read_tree tree.now) }
    requires changes { AreFirstChanges changes.now (read_relvars relvars.now).relvars }
    ensures values { AreValues (changed changes.now (read_relvars relvars.now).relvars) (read_tree tree.now) result.0.now (option_map (λ r. r.now) result.1) }
    ensures left { IsRelation result.0.now }
    ensures right { IfSome (option_map (λ r. r.now) result.1) (λ r. IsRelation r) }
{
    match &tree.form {
        RelForm::Using(_, part) => part_operands(relvars, changes, part),
        RelForm::Pack(_, part) => (newest_named(relvars, changes, part), None),
        _ => unreachable!(),
    }
}

// Those of the part of USING.
fn part_operands<'a>(
    relvars: &'a Relvars,
    changes: &'a [Option<Relation>],
    part: &RelTree,
) -> (&'a Relation, Option<&'a Relation>)
    requires operands { ArePartOperands (read_relvars relvars.now).relvars (read_tree part.now) }
    requires changes { AreFirstChanges changes.now (read_relvars relvars.now).relvars }
    ensures values { ArePartValues (changed changes.now (read_relvars relvars.now).relvars) (read_tree part.now) result.0.now (option_map (λ r. r.now) result.1) }
    ensures left { IsRelation result.0.now }
    ensures right { IfSome (option_map (λ r. r.now) result.1) (λ r. IsRelation r) }
{
    match &part.form {
        RelForm::Infix(_, l, r) => {
            let left = newest_named(relvars, changes, l);
            let right = newest_named(relvars, changes, r);
            (left, Some(right))
        }
        RelForm::Project(_, t) => (newest_named(relvars, changes, t), None),
        _ => unreachable!(),
    }
}

// The newest value of the base relvar that the operand names.
fn newest_named<'a>(
    relvars: &'a Relvars,
    changes: &'a [Option<Relation>],
    operand: &RelTree,
) -> &'a Relation
    requires operand { IsOperand (read_relvars relvars.now).relvars (read_tree operand.now) }
    requires changes { AreFirstChanges changes.now (read_relvars relvars.now).relvars }
    ensures value { IsValue (changed changes.now (read_relvars relvars.now).relvars) (read_tree operand.now) result.now }
    ensures relation { IsRelation result.now }
{
    let RelForm::Named(name) = &operand.form else {
        unreachable!()
    };
    match relvars.list.get_full(name) {
        Some((at, _, relvar)) => newest(relvar, there(changes, at)),
        None => unreachable!(),
    }
}

// The new value of the base relvar, or its old one.
fn newest<'a>(relvar: &'a Relvar, change: Option<&'a Relation>) -> &'a Relation
    requires base { IsBase (Some (read_relvar relvar.now)) }
    requires change { IsChange (option_map (λ r. r.now) change) (read_relvar relvar.now) }
    ensures value { value_if (Some (changed_relvar (option_map (λ r. r.now) change.entry) (read_relvar relvar.now))) ≡ Some result.now }
    ensures heading { result.now.heading ≡ relvar_heading (read_relvar relvar.now) }
    ensures relation { IsRelation result.now }
{
    match relvar {
        Relvar::Base {
            value,
            constraints: _,
        } => newer(change, value),
        Relvar::View { tree: _, kind: _ } => unreachable!(),
        Relvar::Log { of: _, log: _ } => unreachable!(),
    }
}

// The new value, or the old one where there is none.
fn newer<'a>(change: Option<&'a Relation>, old: &'a Relation) -> &'a Relation
    ensures value { result.now ≡ newest (option_map (λ r. r.now) change.entry) old.now }
    ensures relation { IsRelation result.now }
{
    match change {
        Some(value) => {
            let _ = value.heading();
            value
        }
        None => {
            let _ = old.heading();
            old
        }
    }
}
