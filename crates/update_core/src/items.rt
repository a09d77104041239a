// Items as assignments.
ghost use Rattle.std.specs.Prelude.{◌≡◌, [], ◌∷◌, IfOk, map, Some};
ghost use Rattle.tree_core.specs.Trees.{read_tree, read_sets};
ghost use Rattle.tree_core.specs.Items.{read_item, read_change, read_portion, read_assignment, delete_rows, update};
ghost use Rattle.meaning_core.specs.Updates.{attributes_of_portion};
ghost use Rattle.update_core.specs.Updates.{IsExpandable, expanded, source_of, list_of_change};

use crate::conditions::change_condition;
use crate::rows::{other_rows, updated, with_operand};
use point_core::Memory;
use std::alloc::Global;
use tree_core::{Assignment, Change, InfixWord, Item, ItemForm, Portion, RelTree, Sets};
use value_core::{ListOf, Positions};

/// The assignments that an item other than TERMINATE stands for.
pub fn expand(alloc: Global, item: &Item) -> Result<Vec<Assignment>, Memory>
    requires { IsExpandable (read_item item.now).form }
    ensures { IfOk result (λ v. map read_assignment v.items ≡ expanded (read_item item.now)) }
{
    let one = assignment(alloc, item)?;
    let list = vec![in alloc; one]?;
    Ok(list)
}

/// The one assignment.
fn assignment(alloc: Global, item: &Item) -> Result<Assignment, Memory>
    requires { IsExpandable (read_item item.now).form }
    ensures { IfOk result (λ a. expanded (read_item item.now) ≡ read_assignment a ∷ []) }
{
    let target = item.target.copy(alloc)?;
    let tree = source(alloc, item)?;
    Ok(Assignment { target, tree })
}

/// The expression that the target gets.
fn source(alloc: Global, item: &Item) -> Result<RelTree, Memory>
    requires { IsExpandable (read_item item.now).form }
    ensures { IfOk result (λ t. source_of (read_item item.now) (read_item item.now).form ≡ Some (read_tree t)) }
{
    match &item.form {
        ItemForm::Set(t) => Ok(t.copy(alloc)?),
        ItemForm::Insert(commalist, t) => Ok(with_operand(
            alloc,
            item,
            commalist,
            InfixWord::Union,
            t,
        )?),
        ItemForm::Delete(commalist, t) => Ok(with_operand(
            alloc,
            item,
            commalist,
            InfixWord::Minus,
            t,
        )?),
        ItemForm::DeleteRows(change) => without_rows(alloc, item, change),
        ItemForm::Update(change, sets) => with_changes(alloc, item, change, sets),
        ItemForm::Terminate { .. } => unreachable!(),
    }
}

/// The target without the rows of the change.
fn without_rows(alloc: Global, item: &Item, change: &Change) -> Result<RelTree, Memory>
    ensures { IfOk result (λ t. source_of (read_item item.now) (delete_rows (read_change change.now)) ≡ Some (read_tree t)) }
{
    let commalist = change_list(alloc, change)?;
    let c = change_condition(alloc, item, change)?;
    Ok(other_rows(alloc, item, &commalist, &c)?)
}

/// The target with new values in the rows of the change.
fn with_changes(alloc: Global, item: &Item, change: &Change, sets: &Sets) -> Result<RelTree, Memory>
    ensures { IfOk result (λ t. source_of (read_item item.now) (update (read_change change.now) (read_sets sets.now)) ≡ Some (read_tree t)) }
{
    let commalist = change_list(alloc, change)?;
    let c = change_condition(alloc, item, change)?;
    Ok(updated(alloc, item, &commalist, c, sets)?)
}

/// The attributes on which the change works point by point.
fn change_list(alloc: Global, change: &Change) -> Result<Option<Positions>, Memory>
    ensures { IfOk result (λ commalist. commalist ≡ list_of_change (read_change change.now)) }
{
    match &change.portion {
        Some(portion) => Ok(Some(attributes(alloc, portion)?)),
        None => copy_if(alloc, &change.commalist),
    }
}

/// The list, where there is one.
fn copy_if(alloc: Global, commalist: &Option<Positions>) -> Result<Option<Positions>, Memory>
    ensures { IfOk result (λ copy. copy ≡ commalist.now) }
{
    match commalist {
        Some(commalist) => Ok(Some(commalist.copy(alloc)?)),
        None => Ok(None),
    }
}

/// The attributes of the portion.
fn attributes(alloc: Global, portion: &Portion) -> Result<Positions, Memory>
    ensures { IfOk result (λ positions. positions ≡ attributes_of_portion (read_portion portion.now)) }
{
    let mut list = Vec::with_capacity(alloc, portion.list.len())?;
    for part in &portion.list {
        list.push(part.0)?;
    }
    Ok(ListOf { list })
}
