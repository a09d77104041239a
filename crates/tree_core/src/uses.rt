// What expressions, tests and relvars name.
ghost use Rattle.std.specs.Prelude.{◌≡◌, map};
ghost use Rattle.std.specs.List.{list_any};
ghost use Rattle.tree_core.specs.Relvars.{read_relvar};
ghost use Rattle.tree_core.specs.Trees.{read_test, read_tree};
ghost use Rattle.tree_core.specs.Uses as uses;

use crate::relvar::Relvar;
use crate::test::{RelTest, TestForm};
use crate::tree::{RelForm, RelTree};
use value_core::{Constraint, Name};

/// Whether the name is one of these.
pub fn is_one_of(name: &Name, names: &[&Name]) -> bool
    ensures { result ≡ uses.is_one_of (map (λ n. n.now) names.now) name.now }
{
    for other in names {
        if *name == **other {
            return true;
        }
    }
    false
}

/// Whether the expression itself names one of these relvars and views.
pub fn names_any(tree: &RelTree, names: &[&Name]) -> bool
    ensures { result ≡ uses.names_any (uses.is_one_of (map (λ n. n.now) names.now)) (read_tree tree.now) }
{
    match &tree.form {
        RelForm::Named(name) => is_one_of(name, names),
        RelForm::Literal(_) => false,
        RelForm::Infix(_, left, right) => names_any(left, names) || names_any(right, names),
        RelForm::Project(_, part) => names_any(part, names),
        RelForm::Rename(_, part) => names_any(part, names),
        RelForm::Restrict(_, part) => names_any(part, names),
        RelForm::Extend(_, part) => names_any(part, names),
        RelForm::Summarize(_, _, part) => names_any(part, names),
        RelForm::Pack(_, part) => names_any(part, names),
        RelForm::Unpack(_, part) => names_any(part, names),
        RelForm::Using(_, part) => names_any(part, names),
    }
}

/// Whether one of the test's expressions itself names one of these relvars and views.
pub fn test_names_any(test: &RelTest, names: &[&Name]) -> bool
    ensures { result ≡ uses.test_names_any (uses.is_one_of (map (λ n. n.now) names.now)) (read_test test.now) }
{
    match &test.form {
        TestForm::Relate(_, _, left, right) => names_any(left, names) || names_any(right, names),
        TestForm::IsEmpty(tree) => names_any(tree, names),
        TestForm::IsNotEmpty(tree) => names_any(tree, names),
    }
}

/// Whether the constraint names one of these relvars.
pub fn references_any(constraint: &Constraint, names: &[&Name]) -> bool
    ensures { result ≡ uses.references_any (uses.is_one_of (map (λ n. n.now) names.now)) constraint.now }
{
    match constraint {
        Constraint::Foreign(_, _, other, _) => is_one_of(other, names),
        Constraint::History(rule) => is_one_of(&rule.since, names),
        _ => false,
    }
}

// Whether one of the constraints names one of these relvars.
fn any_references(constraints: &[Constraint], names: &[&Name]) -> bool
    ensures { result ≡ list_any (uses.references_any (uses.is_one_of (map (λ n. n.now) names.now))) constraints.now }
{
    for constraint in constraints {
        if references_any(constraint, names) {
            return true;
        }
    }
    false
}

/// Whether a relvar's constraint or a view's expression names one of these relvars and views, or a log is that of one of them.
pub fn relvar_names_any(relvar: &Relvar, names: &[&Name]) -> bool
    ensures { result ≡ uses.relvar_names_any (uses.is_one_of (map (λ n. n.now) names.now)) (read_relvar relvar.now) }
{
    match relvar {
        Relvar::Base {
            value: _,
            constraints,
        } => any_references(constraints.list.as_slice(), names),
        Relvar::View { tree, kind: _ } => names_any(tree, names),
        Relvar::Log { of, log: _ } => is_one_of(of, names),
    }
}
