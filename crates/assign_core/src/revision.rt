// Assignments under USING that leave their target's rows at the points where a condition does not hold, and add those of another
// condition with new values.
ghost use Rattle.std.specs.Prelude.{◌≡◌, IfSome};
ghost use Rattle.tree_core.specs.Trees.{extend, infix_of, using, read_sets, read_tree};
ghost use Rattle.tree_core.specs.declared.tree.InfixWord.TheVariants.{Union as UnionOf};
ghost use Rattle.assign_core.specs.Revisions.{IsChanged, IsRevision};

use crate::packing::are_same;
use crate::portion::{Portion, as_portion, negated};
use point_core::Place;
use scalar_core::Scalar;
use tree_core::{Assignment, InfixWord, RelForm, RelTree, Sets};
use value_core::{Name, Positions};

/// The rows of a target at the points where a condition holds, with new values. The place is that where too many rows are or_fault_at.
#[derive(Clone, Copy)]
pub(crate) struct Changed<'a> {
    pub place: Place,
    pub commalist: &'a Positions,
    pub sets: &'a Sets,
    pub portion: Portion<'a>,
}

/// An assignment that leaves its target's rows at the points where a condition holds, which is the negation of another one, and adds
/// changed rows.
#[derive(Clone, Copy)]
pub(crate) struct Revision<'a, 'b> {
    pub assignment: &'a Assignment,
    pub commalist: &'b Positions,
    pub kept: Portion<'b>,
    pub gone: &'b Scalar,
    pub changed: Changed<'b>,
}

/// The assignment as a revision under USING, where it is one.
pub(crate) fn as_revision<'a>(assignment: &'a Assignment) -> Option<Revision<'a, 'a>>
    ensures same { IfSome result (λ r. r.assignment.now ≡ assignment.now) }
    ensures is { IfSome result IsRevision }
{
    match &assignment.tree.form {
        RelForm::Using(commalist, part) => joined_under(assignment, commalist, part),
        _ => None,
    }
}

// The assignment of an expression under USING as a revision, where it is one.
fn joined_under<'a>(
    assignment: &'a Assignment,
    commalist: &'a Positions,
    part: &'a RelTree,
) -> Option<Revision<'a, 'a>>
    requires { read_tree assignment.now.tree ≡ using assignment.now.tree.place assignment.now.tree.heading commalist.now (read_tree part.now) }
    ensures same { IfSome result (λ r. r.assignment.now ≡ assignment.now) }
    ensures is { IfSome result IsRevision }
{
    match &part.form {
        RelForm::Infix(word, left, right) => {
            with_word(assignment, commalist, part, *word, left, right)
        }
        _ => None,
    }
}

// The assignment of two expressions joined by a word under USING as a revision, where it is one.
fn with_word<'a>(
    assignment: &'a Assignment,
    commalist: &'a Positions,
    part: &RelTree,
    word: InfixWord,
    left: &'a RelTree,
    right: &'a RelTree,
) -> Option<Revision<'a, 'a>>
    requires { read_tree assignment.now.tree ≡ using assignment.now.tree.place assignment.now.tree.heading commalist.now
        (infix_of part.now.place part.now.heading word (read_tree left.now) (read_tree right.now)) }
    ensures same { IfSome result (λ r. r.assignment.now ≡ assignment.now) }
    ensures is { IfSome result IsRevision }
{
    match word {
        InfixWord::Union => with_parts(assignment, commalist, part, left, right),
        _ => None,
    }
}

// The assignment of the union of two expressions under USING as a revision, where it is one.
fn with_parts<'a>(
    assignment: &'a Assignment,
    commalist: &'a Positions,
    part: &RelTree,
    left: &'a RelTree,
    right: &'a RelTree,
) -> Option<Revision<'a, 'a>>
    requires { read_tree assignment.now.tree ≡ using assignment.now.tree.place assignment.now.tree.heading commalist.now
        (infix_of part.now.place part.now.heading UnionOf (read_tree left.now) (read_tree right.now)) }
    ensures same { IfSome result (λ r. r.assignment.now ≡ assignment.now) }
    ensures is { IfSome result IsRevision }
{
    let kept = as_portion(left, &assignment.target)?;
    let gone = negated(kept.condition)?;
    let changed = as_changed(right, &assignment.target)?;
    if are_same(kept.commalist, commalist) && are_same(changed.commalist, commalist) {
        Some(Revision {
            assignment,
            commalist,
            kept,
            gone,
            changed,
        })
    } else {
        None
    }
}

// The expression as changed rows of the target, where it is some.
fn as_changed<'a>(tree: &'a RelTree, target: &Name) -> Option<Changed<'a>>
    ensures { IfSome result (λ x. IsChanged x target.now (read_tree tree.now)) }
{
    match &tree.form {
        RelForm::Using(commalist, part) => extended_under(tree, commalist, part, target),
        _ => None,
    }
}

// The same of an expression under USING.
fn extended_under<'a>(
    tree: &RelTree,
    commalist: &'a Positions,
    part: &'a RelTree,
    target: &Name,
) -> Option<Changed<'a>>
    requires { read_tree tree.now ≡ using tree.now.place tree.now.heading commalist.now (read_tree part.now) }
    ensures { IfSome result (λ x. IsChanged x target.now (read_tree tree.now)) }
{
    match &part.form {
        RelForm::Extend(sets, of) => with_sets(tree, commalist, part, sets, of, target),
        _ => None,
    }
}

// The same of an extension under USING.
fn with_sets<'a>(
    tree: &RelTree,
    commalist: &'a Positions,
    part: &RelTree,
    sets: &'a Sets,
    of: &'a RelTree,
    target: &Name,
) -> Option<Changed<'a>>
    requires { read_tree tree.now ≡ using tree.now.place tree.now.heading commalist.now (extend part.now.place part.now.heading (read_sets sets.now) (read_tree of.now)) }
    ensures { IfSome result (λ x. IsChanged x target.now (read_tree tree.now)) }
{
    let portion = as_portion(of, target)?;
    if are_same(portion.commalist, commalist) {
        Some(Changed {
            place: tree.place,
            commalist,
            sets,
            portion,
        })
    } else {
        None
    }
}
