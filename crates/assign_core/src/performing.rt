// Items of an assignment as the assignments that they stand for.
ghost use Rattle.std.specs.Prelude.{◌≡◌, IfOk, map};
ghost use Rattle.std.specs.List.{All};
ghost use Rattle.tree_core.specs.Items.{read_item, read_assignment};
ghost use Rattle.tree_core.specs.Relvars.{read_relvars};
ghost use Rattle.meaning_core.specs.Updates.{IsTypedItem, IsTypedAssignment};
ghost use Rattle.meaning_core.specs.WellMade.{IsWellMade};
ghost use Rattle.update_core.specs.Endings.{meant_by};
ghost use Rattle.assign_core.specs.Items.{assignments_of};

use point_core::Memory;
use since_during::terminate;
use std::alloc::Global;
use tree_core::{Assignment, Item, ItemForm, Relvars};
use update_core::expand;

// The assignments that an item stands for where these are the relvars and views.
fn meant(alloc: Global, item: &Item, relvars: &Relvars) -> Result<Vec<Assignment>, Memory>
    requires well_made { IsWellMade (read_relvars relvars.now) }
    ensures { IfOk result (λ v. map read_assignment v.items ≡ meant_by (read_relvars relvars.now).relvars (read_item item.now)) }
{
    match &item.form {
        ItemForm::Terminate { .. } => terminate(alloc, item, relvars),
        ItemForm::Set(_)
        | ItemForm::Insert(_, _)
        | ItemForm::Delete(_, _)
        | ItemForm::DeleteRows(_)
        | ItemForm::Update(_, _) => expand(alloc, item),
    }
}

// These are typed.
fn assignments_of_item(
    alloc: Global,
    item: &Item,
    relvars: &Relvars,
) -> Result<Vec<Assignment>, Memory>
    requires well_made { IsWellMade (read_relvars relvars.now) }
    requires typed { IsTypedItem (read_relvars relvars.now) (read_item item.now) }
    ensures meant { IfOk result (λ v. map read_assignment v.items ≡ meant_by (read_relvars relvars.now).relvars (read_item item.now)) }
    ensures typed { IfOk result (λ v. All (IsTypedAssignment (read_relvars relvars.now)) (map read_assignment v.items)) }
{
    meant(alloc, item, relvars)
}

/// The assignments that the items stand for, in their order.
pub(crate) fn assignments(
    alloc: Global,
    items: &[Item],
    relvars: &Relvars,
) -> Result<Vec<Assignment>, Memory>
    requires well_made { IsWellMade (read_relvars relvars.now) }
    requires typed { All (λ (i : Item). IsTypedItem (read_relvars relvars.now) (read_item i)) items.now }
    ensures meant { IfOk result (λ v. map read_assignment v.items ≡ assignments_of (read_relvars relvars.now).relvars (map read_item items.now)) }
    ensures typed { IfOk result (λ v. All (IsTypedAssignment (read_relvars relvars.now)) (map read_assignment v.items)) }
{
    let mut list = Vec::new(alloc);
    for item in items {
        let mut more = assignments_of_item(alloc, item, relvars)?;
        list.append(&mut more)?;
    }
    Ok(list)
}
