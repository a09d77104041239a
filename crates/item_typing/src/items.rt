// The items of an assignment, all typed for the same relvars.
ghost use Rattle.std.specs.Prelude.{map};
ghost use Rattle.utd_syntax.specs.Plain.{NoPortion, OfPortion, UsedInsert, UsedDelete, UsedUpdate};
ghost use Rattle.utd_syntax.specs.Read.{read_assign, read_condition, read_deletion, read_item, read_item_list, read_list, read_name, read_rel, read_sets, read_some_elements, read_used_deletion, read_used_item};
ghost use Rattle.scalar_core.specs.Answers.{Gives};
ghost use Rattle.scalar_typing.specs.Names.{AreOrdinals};
ghost use Rattle.tree_core.specs.Items as typed;
ghost use Rattle.tree_core.specs.Relvars.{read_relvars};
ghost use Rattle.item_typing.specs.Items as rules;

use crate::changes::{condition_if, of_rows};
use crate::endings::{Ending, type_ending};
use crate::points::{portion_deleted, portion_updated, used_deletion, used_update};
use crate::sets::sets_made;
use crate::targets::{item_of, rows_typed, target_typed};
use node_typing::{condition_typed, listed};
use point_core::{Place, Stop};
use std::alloc::Global;
use tree_core::{Item, ItemForm, Items, Relvars};
use utd_syntax as syntax;
use utd_syntax::{
    Assignment, Condition, Deletion, MaybePortion, NameList, Rel, Sets, SomeElements, UsedDeletion,
    UsedItem, Word,
};
use value_core::Heading;

/// `name ":=" rel`.
fn type_setting(alloc: Global, word: &Word, rel: &Rel, relvars: &Relvars) -> Result<Item, Stop>
    requires { AreOrdinals (read_relvars relvars.now).ordinals }
    ensures { Gives typed.read_item result (rules.setting_typed (read_relvars relvars.now) (read_name word.now) (read_rel rel.now)) }
{
    let target = target_typed(alloc, word, relvars)?;
    let t = rows_typed(alloc, word, &target.heading, rel, relvars)?;
    Ok(item_of(word.place, target, ItemForm::Set(t)))
}

/// `"INSERT" name rel`.
fn type_insertion(
    alloc: Global,
    place: Place,
    word: &Word,
    rel: &Rel,
    relvars: &Relvars,
) -> Result<Item, Stop>
    requires { AreOrdinals (read_relvars relvars.now).ordinals }
    ensures { Gives typed.read_item result (rules.insertion_typed (read_relvars relvars.now) place (read_name word.now) (read_rel rel.now)) }
{
    let target = target_typed(alloc, word, relvars)?;
    let t = rows_typed(alloc, word, &target.heading, rel, relvars)?;
    Ok(item_of(place, target, ItemForm::Insert(None, t)))
}

/// What a DELETE takes away.
fn type_deleted(
    alloc: Global,
    word: &Word,
    heading: &Heading,
    deletion: &Deletion,
    relvars: &Relvars,
) -> Result<ItemForm, Stop>
    requires { AreOrdinals (read_relvars relvars.now).ordinals }
    ensures { Gives typed.read_item_form result (rules.deletion_typed (read_relvars relvars.now) (read_name word.now) heading.now (read_deletion deletion.now)) }
{
    match deletion {
        Deletion::Where(place, scalar) => {
            let c = condition_typed(alloc, &relvars.ordinals, *place, heading, scalar)?;
            Ok(ItemForm::DeleteRows(of_rows(Some(c))))
        }
        Deletion::Portion(portion, condition) => portion_deleted(
            alloc,
            heading,
            &portion.elements,
            condition,
            relvars,
        ),
        Deletion::Rows(rel) => {
            let t = rows_typed(alloc, word, heading, rel, relvars)?;
            Ok(ItemForm::Delete(None, t))
        }
    }
}

/// `"DELETE" name deletion`.
fn type_deletion(
    alloc: Global,
    place: Place,
    word: &Word,
    deletion: &Deletion,
    relvars: &Relvars,
) -> Result<Item, Stop>
    requires { AreOrdinals (read_relvars relvars.now).ordinals }
    ensures { Gives typed.read_item result (rules.deletion_item_typed (read_relvars relvars.now) place (read_name word.now) (read_deletion deletion.now)) }
{
    let target = target_typed(alloc, word, relvars)?;
    let form = type_deleted(alloc, word, &target.heading, deletion, relvars)?;
    Ok(item_of(place, target, form))
}

/// What an UPDATE says: the name of its target, the condition of the rows that change, and their new values.
#[derive(Clone, Copy)]
struct Update<'a> {
    word: &'a Word,
    condition: &'a Condition,
    sets: &'a Sets,
}

/// What an UPDATE changes.
fn type_updated(
    alloc: Global,
    heading: &Heading,
    condition: &Condition,
    sets: &Sets,
    relvars: &Relvars,
) -> Result<ItemForm, Stop>
    requires { AreOrdinals (read_relvars relvars.now).ordinals }
    ensures { Gives typed.read_item_form result (rules.update_typed (read_relvars relvars.now) heading.now NoPortion (read_condition condition.now) (read_sets sets.now)) }
{
    let c = condition_if(alloc, &relvars.ordinals, heading, condition)?;
    match sets_made(alloc, &relvars.ordinals, heading, sets) {
        Ok(made) => Ok(ItemForm::Update(of_rows(c), made)),
        Err(stop) => {
            drop(c);
            Err(stop)
        }
    }
}

/// `"UPDATE" name condition ":" sets`.
fn type_update(
    alloc: Global,
    place: Place,
    update: Update<'_>,
    relvars: &Relvars,
) -> Result<Item, Stop>
    requires { AreOrdinals (read_relvars relvars.now).ordinals }
    ensures { Gives typed.read_item result (rules.update_item_typed (read_relvars relvars.now) place (read_name update.entry.word.now) NoPortion (read_condition update.entry.condition.now) (read_sets update.entry.sets.now)) }
{
    let target = target_typed(alloc, update.word, relvars)?;
    let form = type_updated(
        alloc,
        &target.heading,
        update.condition,
        update.sets,
        relvars,
    )?;
    Ok(item_of(place, target, form))
}

/// `"UPDATE" name "PORTION" some_elements condition ":" sets`.
fn type_portion_update(
    alloc: Global,
    place: Place,
    elements: &SomeElements,
    update: Update<'_>,
    relvars: &Relvars,
) -> Result<Item, Stop>
    requires { AreOrdinals (read_relvars relvars.now).ordinals }
    ensures { (at : Place) → Gives typed.read_item result (rules.update_item_typed (read_relvars relvars.now) place (read_name update.entry.word.now) (OfPortion at (read_some_elements elements.now)) (read_condition update.entry.condition.now) (read_sets update.entry.sets.now)) }
{
    let target = target_typed(alloc, update.word, relvars)?;
    let form = portion_updated(
        alloc,
        &target.heading,
        elements,
        update.condition,
        update.sets,
        relvars,
    )?;
    Ok(item_of(place, target, form))
}

/// An INSERT under USING.
fn type_used_insertion(
    alloc: Global,
    place: Place,
    list: &NameList,
    word: &Word,
    rel: &Rel,
    relvars: &Relvars,
) -> Result<Item, Stop>
    requires { AreOrdinals (read_relvars relvars.now).ordinals }
    ensures { (at : Place) → Gives typed.read_item result (rules.used_item_typed (read_relvars relvars.now) place (read_list list.now) (UsedInsert at (read_name word.now) (read_rel rel.now))) }
{
    let target = target_typed(alloc, word, relvars)?;
    let t = rows_typed(alloc, word, &target.heading, rel, relvars)?;
    match listed(alloc, &target.heading, &t.heading, list) {
        Ok(commalist) => Ok(item_of(place, target, ItemForm::Insert(Some(commalist), t))),
        Err(stop) => {
            drop(t);
            Err(stop)
        }
    }
}

/// A DELETE under USING.
fn type_used_deletion(
    alloc: Global,
    place: Place,
    list: &NameList,
    word: &Word,
    deletion: &UsedDeletion,
    relvars: &Relvars,
) -> Result<Item, Stop>
    requires { AreOrdinals (read_relvars relvars.now).ordinals }
    ensures { (at : Place) → Gives typed.read_item result (rules.used_item_typed (read_relvars relvars.now) place (read_list list.now) (UsedDelete at (read_name word.now) (read_used_deletion deletion.now))) }
{
    let target = target_typed(alloc, word, relvars)?;
    let form = used_deletion(alloc, word, &target.heading, list, deletion, relvars)?;
    Ok(item_of(place, target, form))
}

/// An UPDATE under USING.
fn type_used_update(
    alloc: Global,
    place: Place,
    list: &NameList,
    update: Update<'_>,
    relvars: &Relvars,
) -> Result<Item, Stop>
    requires { AreOrdinals (read_relvars relvars.now).ordinals }
    ensures { (at : Place) → Gives typed.read_item result (rules.used_item_typed (read_relvars relvars.now) place (read_list list.now) (UsedUpdate at (read_name update.entry.word.now) (read_condition update.entry.condition.now) (read_sets update.entry.sets.now))) }
{
    let target = target_typed(alloc, update.word, relvars)?;
    let form = used_update(
        alloc,
        &target.heading,
        list,
        update.condition,
        update.sets,
        relvars,
    )?;
    Ok(item_of(place, target, form))
}

/// An item under USING, whose place is that of the whole.
fn type_used(
    alloc: Global,
    place: Place,
    list: &NameList,
    used: &UsedItem,
    relvars: &Relvars,
) -> Result<Item, Stop>
    requires { AreOrdinals (read_relvars relvars.now).ordinals }
    ensures { Gives typed.read_item result (rules.used_item_typed (read_relvars relvars.now) place (read_list list.now) (read_used_item used.now)) }
{
    match used {
        UsedItem::Insert(_, word, rel) => {
            type_used_insertion(alloc, place, list, word, rel, relvars)
        }
        UsedItem::Delete(_, word, deletion) => {
            type_used_deletion(alloc, place, list, word, deletion, relvars)
        }
        UsedItem::Update(_, word, condition, sets) => {
            let update = Update {
                word,
                condition,
                sets,
            };
            type_used_update(alloc, place, list, update, relvars)
        }
    }
}

/// The typed item where these are the relvars, views and ordinal types, or its first refusal with its place.
pub fn type_item(alloc: Global, item: &syntax::Item, relvars: &Relvars) -> Result<Item, Stop>
    requires { AreOrdinals (read_relvars relvars.now).ordinals }
    ensures typing { Gives typed.read_item result (rules.item_typed (read_relvars relvars.now) (read_item item.now)) }
{
    match item {
        syntax::Item::Set(word, rel) => type_setting(alloc, word, rel, relvars),
        syntax::Item::Insert(place, word, rel) => type_insertion(alloc, *place, word, rel, relvars),
        syntax::Item::Delete(place, word, deletion) => type_deletion(
            alloc, *place, word, deletion, relvars,
        ),
        syntax::Item::Update(place, word, MaybePortion::None, condition, sets) => {
            let update = Update {
                word,
                condition,
                sets,
            };
            type_update(alloc, *place, update, relvars)
        }
        syntax::Item::Update(place, word, MaybePortion::Of(_, elements), condition, sets) => {
            let update = Update {
                word,
                condition,
                sets,
            };
            type_portion_update(alloc, *place, elements, update, relvars)
        }
        syntax::Item::Terminate(place, word, at, scalar, condition) => {
            let ending = Ending {
                word,
                at: *at,
                scalar,
                condition,
            };
            type_ending(alloc, *place, ending, relvars)
        }
        syntax::Item::Using(place, list, used) => type_used(alloc, *place, list, used, relvars),
    }
}

/// The items behind those so far.
fn more_items(
    alloc: Global,
    before: Vec<Item>,
    list: &[syntax::Item],
    relvars: &Relvars,
) -> Result<Vec<Item>, Stop>
    requires { AreOrdinals (read_relvars relvars.now).ordinals }
    ensures { Gives (λ v. map typed.read_item v.items) result (rules.items_typed (read_relvars relvars.now) (map typed.read_item before.items) (read_item_list list.now)) }
{
    let mut items = before;
    for item in list {
        let next = type_item(alloc, item, relvars)?;
        items.push(next)?;
    }
    Ok(items)
}

/// The typed items of an assignment, all for the same relvars, views and ordinal types, or the first refusal with its place.
pub fn type_items(alloc: Global, assignment: &Assignment, relvars: &Relvars) -> Result<Items, Stop>
    requires { AreOrdinals (read_relvars relvars.now).ordinals }
    ensures typing { Gives (map typed.read_item) result (rules.assignment_typed (read_relvars relvars.now) (read_assign assignment.now)) }
{
    let first = type_item(alloc, &assignment.first, relvars)?;
    let list = more_items(
        alloc,
        vec![in alloc; first]?,
        assignment.more.list.as_slice(),
        relvars,
    )?;
    Ok(Items { list })
}
