// Whether a stored view's operands have new values.
ghost use Rattle.std.specs.Prelude.{◌≡◌, is_some, length, IsTrue};
ghost use Rattle.tree_core.specs.Relvars.{read_relvars};
ghost use Rattle.tree_core.specs.Trees.{read_tree};
ghost use Rattle.meaning_core.specs.StoredViews.{is_name, is_stored_form, is_stored_part};
ghost use Rattle.relvar_logs.specs.Changes.{change_named};
ghost use Rattle.stored_views.specs.Moves.{is_touched};

use crate::places::there;
use tree_core::{RelForm, RelTree, Relvars};
use value_core::{Name, Relation};

/// Whether one of the relvars that the expression of a stored view names has a new value.
pub(crate) fn is_touched(relvars: &Relvars, changes: &[Option<Relation>], tree: &RelTree) -> bool
    requires form { IsTrue (is_stored_form (read_tree tree.now)) }
    requires length { length changes.now ≡ length relvars.now.list.entries }
    ensures { result ≡ is_touched changes.now (read_relvars relvars.now).relvars (read_tree tree.now) }
{
    match &tree.form {
        RelForm::Using(_, part) => is_part_touched(relvars, changes, part),
        RelForm::Pack(_, part) => is_operand_new(relvars, changes, part),
        _ => unreachable!(),
    }
}

// The same of the part of USING.
fn is_part_touched(relvars: &Relvars, changes: &[Option<Relation>], part: &RelTree) -> bool
    requires form { IsTrue (is_stored_part (read_tree part.now)) }
    requires length { length changes.now ≡ length relvars.now.list.entries }
    ensures { result ≡ is_touched changes.now (read_relvars relvars.now).relvars (read_tree part.now) }
{
    match &part.form {
        RelForm::Infix(_, l, r) => {
            is_operand_new(relvars, changes, l) || is_operand_new(relvars, changes, r)
        }
        RelForm::Project(_, t) => is_operand_new(relvars, changes, t),
        _ => unreachable!(),
    }
}

// Whether the relvar that the operand names has a new value.
fn is_operand_new(relvars: &Relvars, changes: &[Option<Relation>], operand: &RelTree) -> bool
    requires form { IsTrue (is_name (read_tree operand.now)) }
    requires length { length changes.now ≡ length relvars.now.list.entries }
    ensures { result ≡ is_touched changes.now (read_relvars relvars.now).relvars (read_tree operand.now) }
{
    match &operand.form {
        RelForm::Named(name) => is_new(relvars, changes, name),
        _ => unreachable!(),
    }
}

// Whether the relvar of this name has a new value.
fn is_new(relvars: &Relvars, changes: &[Option<Relation>], name: &Name) -> bool
    requires { length changes.now ≡ length relvars.now.list.entries }
    ensures { result ≡ is_some (change_named changes.now (read_relvars relvars.now).relvars name.now) }
{
    match relvars.list.get_full(name) {
        Some((at, _, _)) => there(changes, at).is_some(),
        None => false,
    }
}
