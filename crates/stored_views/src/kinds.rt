// The stored views among relvars.
ghost use Rattle.std.specs.Prelude.{◌≡◌, option_map};
ghost use Rattle.tree_core.specs.Relvars.{read_kind, read_relvar, read_relvars};
ghost use Rattle.tree_core.specs.Trees.{read_tree};
ghost use Rattle.stored_views.specs.Stored.{has_stored, is_stored, stored_tree, tree_of_kind};

use tree_core::{RelTree, Relvar, Relvars, ViewKind};

/// Whether one of them is a stored view.
pub fn has_stored(relvars: &Relvars) -> bool
    ensures { result ≡ has_stored (read_relvars relvars.now).relvars }
{
    for (_, relvar) in &relvars.list {
        if is_stored(relvar) {
            return true;
        }
    }
    false
}

// Whether it is a stored view.
fn is_stored(relvar: &Relvar) -> bool
    ensures { result ≡ is_stored (read_relvar relvar.now) }
{
    stored_tree(relvar).is_some()
}

/// The expression of a stored view.
pub(crate) fn stored_tree(relvar: &Relvar) -> Option<&RelTree>
    ensures { option_map (λ t. read_tree t.now) result ≡ stored_tree (read_relvar relvar.now) }
{
    match relvar {
        Relvar::View { tree, kind } => tree_of_kind(tree, kind),
        Relvar::Base {
            value: _,
            constraints: _,
        } => None,
        Relvar::Log { of: _, log: _ } => None,
    }
}

// The expression, where the view's rows are stored.
fn tree_of_kind<'a>(tree: &'a RelTree, kind: &ViewKind) -> Option<&'a RelTree>
    ensures { option_map (λ t. read_tree t.now) result ≡ tree_of_kind (read_tree tree.now) (read_kind kind.now) }
{
    match kind {
        ViewKind::Stored => Some(tree),
        ViewKind::Derived => None,
        ViewKind::OfHistory(_) => None,
    }
}
