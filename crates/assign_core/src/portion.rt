// Assignments under USING that leave their target's rows at the points where a condition does not hold.
ghost use Rattle.std.specs.Prelude.{◌≡◌, true, IfSome};
ghost use Rattle.scalar_core.specs.Expressions.{read};
ghost use Rattle.tree_core.specs.Trees.{named, using, read_tree};
ghost use Rattle.assign_core.specs.Portions.{IsDeletion, IsNegation, IsPortion};

use point_core::Place;
use scalar_core::{Scalar, ScalarForm};
use tree_core::{Assignment, RelForm, RelTree};
use value_core::{Name, Positions};

/// The rows of a target at the points where a condition holds, or as they are where no attribute is listed. The place is that where too
/// many rows are or_fault_at.
#[derive(Clone, Copy)]
pub(crate) struct Portion<'a> {
    pub place: Place,
    pub commalist: &'a Positions,
    pub condition: &'a Scalar,
}

/// An assignment that leaves its target's rows at the points where a condition holds, which is the negation of another one.
#[derive(Clone, Copy)]
pub(crate) struct Deletion<'a, 'b> {
    pub assignment: &'a Assignment,
    pub kept: Portion<'b>,
    pub gone: &'b Scalar,
}

/// The assignment as a deletion under USING, where it is one.
pub(crate) fn as_deletion<'a>(assignment: &'a Assignment) -> Option<Deletion<'a, 'a>>
    ensures same { IfSome result (λ d. d.assignment.now ≡ assignment.now) }
    ensures is { IfSome result IsDeletion }
{
    let kept = as_portion(&assignment.tree, &assignment.target)?;
    let gone = negated(kept.condition)?;
    Some(Deletion {
        assignment,
        kept,
        gone,
    })
}

/// What the condition negates, where it is a negation.
pub(crate) fn negated(condition: &Scalar) -> Option<&Scalar>
    ensures { IfSome result (λ c. IsNegation (read condition.now) (read c.now)) }
{
    match &condition.form {
        ScalarForm::Not(part) => Some(part),
        _ => None,
    }
}

/// The expression as rows of the target, where it is some at the points where a condition holds.
pub(crate) fn as_portion<'a>(tree: &'a RelTree, target: &Name) -> Option<Portion<'a>>
    ensures { IfSome result (λ p. IsPortion p target.now (read_tree tree.now)) }
{
    match &tree.form {
        RelForm::Using(commalist, part) => restricted_under(tree, commalist, part, target),
        _ => None,
    }
}

// The same of an expression under USING.
fn restricted_under<'a>(
    tree: &RelTree,
    commalist: &'a Positions,
    part: &'a RelTree,
    target: &Name,
) -> Option<Portion<'a>>
    requires { read_tree tree.now ≡ using tree.now.place tree.now.heading commalist.now (read_tree part.now) }
    ensures { IfSome result (λ p. IsPortion p target.now (read_tree tree.now)) }
{
    match &part.form {
        RelForm::Restrict(condition, of) if is_target(of, target) => Some(Portion {
            place: tree.place,
            commalist,
            condition,
        }),
        _ => None,
    }
}

/// Whether the expression is the target's name.
pub(crate) fn is_target(tree: &RelTree, target: &Name) -> bool
    ensures { result ≡ true → read_tree tree.now ≡ named tree.now.place tree.now.heading target.now }
{
    match &tree.form {
        RelForm::Named(name) => *name == *target,
        _ => false,
    }
}
