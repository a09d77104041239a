// What goes when a relvar or view is removed.
ghost use Rattle.std.specs.Prelude.{◌≡◌, [], ◌∷◌, map, option_map};
ghost use Rattle.std.specs.List.{IsDistinct};
ghost use Rattle.std.specs.Map.{lookup};
ghost use Rattle.std.specs.Str.{bytes_eq};
ghost use Rattle.indexmap.specs.IndexMap.{keys, shift_remove_entry};
ghost use Rattle.tree_core.specs.Relvars.{read_entry, read_kind, read_relvar, read_relvars, history_if, history_in};
ghost use Rattle.meaning_core.specs.Declarations.{group, without_group};
ghost use Rattle.stored_views.specs.Without.{rows_without};

use stored_views::forget_rows;
use tree_core::{Relvar, Relvars, ViewKind};
use value_core::{Name, Relation};

/// Takes out the relvar or view of this name, and its stored rows; with the view of a history, which is the first to go, its two relvars. It
/// takes no memory.
pub(crate) fn drop_group(relvars: &mut Relvars, stored: &mut Vec<Option<Relation>>, name: &Name)
    requires { IsDistinct bytes_eq (keys relvars.old.list) }
    ensures state { read_relvars relvars.new ≡ without_group name.now (read_relvars relvars.old) }
    ensures stored { stored.new.items ≡ rows_without (group (read_relvars relvars.old).relvars name.now) (read_relvars relvars.old).relvars stored.old.items }
{
    match history_of(drop_one(relvars, stored, name)) {
        Some((since, during)) => {
            drop(drop_one(relvars, stored, &during));
            drop(drop_one(relvars, stored, &since));
        }
        None => {}
    }
}

// Takes out the relvar or view of this name, and its stored rows.
fn drop_one(
    relvars: &mut Relvars,
    stored: &mut Vec<Option<Relation>>,
    name: &Name,
) -> Option<Relvar>
    requires { IsDistinct bytes_eq (keys relvars.old.list) }
    ensures value { result ≡ lookup (bytes_eq name.now) relvars.old.list.entries }
    ensures entries { relvars.new.list.entries ≡ shift_remove_entry (bytes_eq name.now) relvars.old.list.entries }
    ensures stored { stored.new.items ≡ rows_without (name.now ∷ []) (map read_entry relvars.old.list.entries) stored.old.items }
    ensures ordinals { relvars.new.ordinals ≡ relvars.old.ordinals }
    ensures rules { relvars.new.rules ≡ relvars.old.rules }
    ensures accepted { relvars.new.accepted ≡ relvars.old.accepted }
{
    forget(relvars, stored, name);
    relvars.list.shift_remove(name)
}

// Takes the stored rows of the view of this name out, and their place.
fn forget(relvars: &Relvars, stored: &mut Vec<Option<Relation>>, name: &Name)
    requires { IsDistinct bytes_eq (keys relvars.now.list) }
    ensures { stored.new.items ≡ rows_without (name.now ∷ []) (map read_entry relvars.now.list.entries) stored.old.items }
{
    match relvars.list.get_full(name) {
        Some((at, _, _)) => forget_rows(stored, at),
        None => (),
    }
}

// The since relvar and the during relvar of a view of this kind.
fn history_in(kind: ViewKind) -> Option<(Name, Name)>
    ensures { result ≡ history_in (read_kind kind) }
{
    match kind {
        ViewKind::OfHistory(names) => Some(names),
        ViewKind::Derived => None,
        ViewKind::Stored => None,
    }
}

// The since relvar and the during relvar of a history's view.
fn history_of(relvar: Option<Relvar>) -> Option<(Name, Name)>
    ensures { result ≡ history_if (option_map read_relvar relvar) }
{
    match relvar {
        Some(Relvar::View { tree, kind }) => {
            drop(tree);
            history_in(kind)
        }
        Some(Relvar::Base { value, constraints }) => {
            drop(value);
            drop(constraints);
            None
        }
        Some(Relvar::Log { of, log }) => {
            drop(of);
            drop(log);
            None
        }
        None => None,
    }
}
