// The rows of stored views.
ghost use Rattle.std.specs.Prelude.{◌≡◌, None, option_map, slice_index_or};
ghost use Rattle.tree_core.specs.Relvars.{read_kind};
ghost use Rattle.tree_core.specs.Trees.{read_tree};
ghost use Rattle.algebra_core.specs.Costs.{is_renewed};
ghost use Rattle.algebra_core.specs.Scopes.{stored_rows, unless_renewed};

use crate::scope::Scope;
use tree_core::{RelTree, ViewKind, names_any};
use value_core::{Name, Relation};

/// The rows that are stored of a view at a place, and stand for its name.
pub(crate) fn stored_rows<'a>(
    tree: &RelTree,
    kind: &ViewKind,
    at: usize,
    scope: &Scope<'a>,
) -> Option<&'a Relation>
    ensures { option_map (λ v. v.now) result ≡ stored_rows scope.now at (read_tree tree.now) (read_kind kind.now) }
{
    match kind {
        ViewKind::Derived => None,
        ViewKind::OfHistory(_) => None,
        ViewKind::Stored => unless_renewed(tree, at, scope),
    }
}

// The rows of a stored view at a place, unless it names the relvar that has another value.
fn unless_renewed<'a>(tree: &RelTree, at: usize, scope: &Scope<'a>) -> Option<&'a Relation>
    ensures { option_map (λ v. v.now) result ≡ unless_renewed scope.now at (read_tree tree.now) }
{
    if is_renewed(tree, scope.with) {
        None
    } else {
        rows_at(scope.stored, at)
    }
}

// Whether the expression names the relvar that has another value than when the rows of stored views were made.
fn is_renewed(tree: &RelTree, with: Option<&Name>) -> bool
    ensures { result ≡ is_renewed (option_map (λ n. n.now) with.entry) (read_tree tree.now) }
{
    match with {
        Some(name) => names_any(tree, &[name]),
        None => false,
    }
}

// The rows at a place, if there are some.
fn rows_at(stored: &[Option<Relation>], at: usize) -> Option<&Relation>
    ensures { option_map (λ v. v.now) result ≡ slice_index_or stored.now at None }
{
    match stored.get(at) {
        Some(rows) => rows.as_ref(),
        None => None,
    }
}
