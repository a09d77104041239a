// Changes by a condition without USING: they leave their target's rows where a condition does not hold, and add those of another
// condition with new values.
ghost use Rattle.std.specs.Prelude.{◌≡◌, [], IfSome};
ghost use Rattle.tree_core.specs.Trees.{extend, infix_of, read_sets, read_tree};
ghost use Rattle.tree_core.specs.declared.tree.InfixWord.TheVariants.{Union as UnionOf};
ghost use Rattle.assign_core.specs.PlainChanges.{IsPlainChanged, IsPlainDeletion, IsPlainPortion, IsPlainRevision};

use crate::portion::{Deletion, Portion, is_target, negated};
use crate::revision::{Changed, Revision};
use tree_core::{Assignment, InfixWord, RelForm, RelTree, Sets};
use value_core::{Name, Positions};

/// The assignment as a deletion without USING, where it is one. The list of no attribute stands in the place of that of its USING.
pub(crate) fn as_plain_deletion<'a: 'b, 'b>(
    assignment: &'a Assignment,
    none: &'b Positions,
) -> Option<Deletion<'a, 'b>>
    requires { none.now ≡ [] }
    ensures same { IfSome result (λ d. d.assignment.now ≡ assignment.now) }
    ensures is { IfSome result IsPlainDeletion }
{
    let kept = as_plain_portion(&assignment.tree, &assignment.target, none)?;
    let gone = negated(kept.condition)?;
    Some(Deletion {
        assignment,
        kept,
        gone,
    })
}

// The expression as rows of the target where a condition holds, where it is some.
fn as_plain_portion<'a>(
    tree: &'a RelTree,
    target: &Name,
    none: &'a Positions,
) -> Option<Portion<'a>>
    requires { none.now ≡ [] }
    ensures { IfSome result (λ p. IsPlainPortion p target.now (read_tree tree.now)) }
{
    match &tree.form {
        RelForm::Restrict(condition, of) if is_target(of, target) => Some(Portion {
            place: tree.place,
            commalist: none,
            condition,
        }),
        _ => None,
    }
}

/// The assignment as a revision without USING, where it is one. The list of no attribute stands in the place of that of its USING.
pub(crate) fn as_plain_revision<'a: 'b, 'b>(
    assignment: &'a Assignment,
    none: &'b Positions,
) -> Option<Revision<'a, 'b>>
    requires { none.now ≡ [] }
    ensures same { IfSome result (λ r. r.assignment.now ≡ assignment.now) }
    ensures is { IfSome result IsPlainRevision }
{
    match &assignment.tree.form {
        RelForm::Infix(word, left, right) => joined_by(assignment, *word, left, right, none),
        _ => None,
    }
}

// The assignment of two expressions joined by a word as a revision, where it is one.
fn joined_by<'a: 'b, 'b>(
    assignment: &'a Assignment,
    word: InfixWord,
    left: &'a RelTree,
    right: &'a RelTree,
    none: &'b Positions,
) -> Option<Revision<'a, 'b>>
    requires none { none.now ≡ [] }
    requires joined { read_tree assignment.now.tree ≡ infix_of assignment.now.tree.place assignment.now.tree.heading word (read_tree left.now) (read_tree right.now) }
    ensures same { IfSome result (λ r. r.assignment.now ≡ assignment.now) }
    ensures is { IfSome result IsPlainRevision }
{
    match word {
        InfixWord::Union => of_parts(assignment, left, right, none),
        _ => None,
    }
}

// The assignment of the union of two expressions as a revision, where it is one.
fn of_parts<'a: 'b, 'b>(
    assignment: &'a Assignment,
    left: &'a RelTree,
    right: &'a RelTree,
    none: &'b Positions,
) -> Option<Revision<'a, 'b>>
    requires none { none.now ≡ [] }
    requires joined { read_tree assignment.now.tree ≡ infix_of assignment.now.tree.place assignment.now.tree.heading UnionOf (read_tree left.now) (read_tree right.now) }
    ensures same { IfSome result (λ r. r.assignment.now ≡ assignment.now) }
    ensures is { IfSome result IsPlainRevision }
{
    let kept = as_plain_portion(left, &assignment.target, none)?;
    let gone = negated(kept.condition)?;
    let changed = as_plain_changed(right, &assignment.target, none)?;
    Some(Revision {
        assignment,
        commalist: none,
        kept,
        gone,
        changed,
    })
}

// The expression as rows of the target with new values, where it is some.
fn as_plain_changed<'a>(
    tree: &'a RelTree,
    target: &Name,
    none: &'a Positions,
) -> Option<Changed<'a>>
    requires { none.now ≡ [] }
    ensures { IfSome result (λ x. IsPlainChanged x target.now (read_tree tree.now)) }
{
    match &tree.form {
        RelForm::Extend(sets, of) => with_items(tree, sets, of, target, none),
        _ => None,
    }
}

// The same of an extension.
fn with_items<'a>(
    tree: &RelTree,
    sets: &'a Sets,
    of: &'a RelTree,
    target: &Name,
    none: &'a Positions,
) -> Option<Changed<'a>>
    requires none { none.now ≡ [] }
    requires extended { read_tree tree.now ≡ extend tree.now.place tree.now.heading (read_sets sets.now) (read_tree of.now) }
    ensures { IfSome result (λ x. IsPlainChanged x target.now (read_tree tree.now)) }
{
    let portion = as_plain_portion(of, target, none)?;
    Some(Changed {
        place: tree.place,
        commalist: none,
        sets,
        portion,
    })
}
