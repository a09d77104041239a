// Stored views that are declared.
ghost use Rattle.std.specs.Prelude.{◌≡◌, ◌≤◌, ◌<ℤ◌, ◌+◌, ◌+ℤ◌, is_ok, length, pos, true, IfErr, IfOk, OnErr, OnOk};
ghost use Rattle.point_core.specs.Whole.{greatest_whole};
ghost use Rattle.tree_core.specs.Relvars.{read_relvars, State};
ghost use Rattle.tree_core.specs.Trees.{read_tree};
ghost use Rattle.meaning_core.specs.Logs.{AreInStep};
ghost use Rattle.meaning_core.specs.StoredRows.{AreStored, IsValueOf};
ghost use Rattle.meaning_core.specs.WellMade.{IsWellMade};
ghost use Rattle.value_core.specs.Values.{most_rows};
ghost use Rattle.stored_views.specs.Operands.{IsStoredFor};
ghost use Rattle.stored_views.specs.Stored.{made_cost};
ghost use Rattle.assign_core.specs.Assignments.{IsDone, IsRefusedFor};
ghost use Rattle.assign_core.specs.Databases.{IsKept};
ghost use Rattle.assign_core.specs.Logs.{counted_if};
ghost use Rattle.assign_core.specs.Keeping.{has_room_beside, placed_behind, AreStoredIn};
ghost use Rattle.assign_core.specs.Room.{have_room, stored_in, with_stored, HasStoredRoom};

use crate::appending::append_relvar;
use crate::assigning::count_idle;
use crate::rooms::rows_beside_logs;
use point_core::{Code, Fault, Memory, Steps};
use relvar_logs::room_beside;
use std::alloc::Global;
use std::sync::ledger::Ledger;
use stored_views::{put_rows, rows_now};
use tree_core::{RelTree, Relvar, Relvars, ViewKind};
use value_core::{MOST_ROWS_IN_ALL, Name, Refuse, Relation, RowsRefuse};

/// Declares a stored view, makes its rows, and counts the statement; or refuses and changes nothing.
pub(crate) fn keep_view<L: Ledger>(
    alloc: Global,
    relvars: &mut Relvars,
    stored: &mut Vec<Option<Relation>>,
    name: Name,
    tree: RelTree,
    steps: &mut Steps<L>,
) -> Result<(), Refuse>
    requires kept { IsKept (read_relvars relvars.old) }
    requires step { AreInStep (read_relvars relvars.old).accepted (read_relvars relvars.old).relvars }
    requires room { ((read_relvars relvars.old).accepted +ℤ pos 1) <ℤ greatest_whole }
    requires stored { AreStoredIn (read_relvars relvars.old) stored.old.items }
    requires typed { IsStoredFor (read_relvars relvars.old) (read_tree tree) }
    requires made { IsWellMade (with_stored (read_relvars relvars.old) name (read_tree tree)) }
    ensures done { (mid : State) × IsDone result (read_relvars relvars.old) mid (stored_in (read_relvars relvars.old) name (read_tree tree)) × (read_relvars relvars.new ≡ counted_if (is_ok result) mid) }
    ensures kept { IsKept (read_relvars relvars.new) }
    ensures step { AreInStep (read_relvars relvars.new).accepted (read_relvars relvars.new).relvars }
    ensures stored { AreStoredIn (read_relvars relvars.new) stored.new.items }
    ensures cost { steps.new ≤ steps.old + made_cost (read_relvars relvars.old).relvars (read_tree tree) }
{
    let rows = fitting_rows(alloc, relvars, stored.as_slice(), &name, &tree, steps)?;
    append_view(alloc, relvars, stored, name, tree, rows)?;
    count_idle(relvars);
    Ok(())
}

// The rows of a view with this expression, or why it is refused.
fn fitting_rows<L: Ledger>(
    alloc: Global,
    relvars: &Relvars,
    stored: &[Option<Relation>],
    name: &Name,
    tree: &RelTree,
    steps: &mut Steps<L>,
) -> Result<Relation, Refuse>
    requires made { IsWellMade (read_relvars relvars.now) }
    requires step { AreInStep (read_relvars relvars.now).accepted (read_relvars relvars.now).relvars }
    requires room { ((read_relvars relvars.now).accepted +ℤ pos 1) <ℤ greatest_whole }
    requires stored { AreStored (read_relvars relvars.now).relvars stored.now }
    requires beside { HasStoredRoom (read_relvars relvars.now) }
    requires typed { IsStoredFor (read_relvars relvars.now) (read_tree tree.now) }
    ensures rows { IfOk result (IsValueOf (read_relvars relvars.now).relvars (read_tree tree.now)) }
    ensures room { IfOk result (λ r. have_room (with_stored (read_relvars relvars.now) name.now (read_tree tree.now)).relvars ≡ true) }
    ensures refused { IfErr result (λ refuse. IsRefusedFor refuse (stored_in (read_relvars relvars.now) name.now (read_tree tree.now))) }
    ensures cost { steps.new ≤ steps.old + made_cost (read_relvars relvars.now).relvars (read_tree tree.now) }
{
    match rows_now(alloc, relvars, tree, steps) {
        Ok(rows) => {
            if has_room_for(relvars, stored, rows.rows().len()) {
                return Ok(rows);
            }
            drop(rows);
            Err(Refuse::Plain(Code::E46))
        }
        Err(RowsRefuse::TooMany) => Err(Refuse::At(Fault {
            place: tree.place,
            code: Code::E35,
        })),
        Err(RowsRefuse::Memory) => Err(Refuse::Memory),
    }
}

// Whether so many rows of one more stored view fit beside those of the base relvars, the logs and the other stored views.
fn has_room_for(relvars: &Relvars, stored: &[Option<Relation>], more: usize) -> bool
    requires room { ((read_relvars relvars.now).accepted +ℤ pos 1) <ℤ greatest_whole }
    requires step { AreInStep (read_relvars relvars.now).accepted (read_relvars relvars.now).relvars }
    requires stored { AreStored (read_relvars relvars.now).relvars stored.now }
    requires beside { HasStoredRoom (read_relvars relvars.now) }
    requires few { more ≤ most_rows }
    ensures { result ≡ has_room_beside more (read_relvars relvars.now).relvars }
{
    match room_beside(relvars, &[], MOST_ROWS_IN_ALL) {
        Some(room) => rows_beside_logs(relvars, stored) + more <= room,
        None => false,
    }
}

// Declares the view, whose rows these are. For want of memory nothing changes.
fn append_view(
    alloc: Global,
    relvars: &mut Relvars,
    stored: &mut Vec<Option<Relation>>,
    name: Name,
    tree: RelTree,
    rows: Relation,
) -> Result<(), Memory>
    requires length { length stored.old.items ≤ length relvars.old.list.entries }
    requires made { IsWellMade (with_stored (read_relvars relvars.old) name (read_tree tree)) }
    ensures ok { OnOk result (read_relvars relvars.new ≡ with_stored (read_relvars relvars.old) name (read_tree tree)) }
    ensures rows { OnOk result (stored.new.items ≡ placed_behind (length relvars.old.list.entries) rows stored.old.items) }
    ensures err { OnErr result ((read_relvars relvars.new ≡ read_relvars relvars.old) × (stored.new.items ≡ stored.old.items)) }
{
    let before = stored.len();
    put_rows(alloc, stored, relvars.list.len(), rows)?;
    let kind = ViewKind::Stored;
    match append_relvar(relvars, name, Relvar::View { tree, kind }) {
        Ok(()) => Ok(()),
        Err(memory) => {
            stored.truncate(before);
            Err(memory)
        }
    }
}
