// Items that work point by point: under USING, or with a portion.
ghost use Rattle.std.specs.Prelude.{◌≡◌, option_map, Some};
ghost use Rattle.point_core.specs.declared.fault.Place.{Place};
ghost use Rattle.utd_syntax.specs.Plain.{DeletePortion, OfPortion, Portion as PlainPortion};
ghost use Rattle.utd_syntax.specs.Read.{read_condition, read_list, read_name, read_rel, read_sets, read_some_elements, read_used_deletion};
ghost use Rattle.scalar_core.specs.Answers.{Gives};
ghost use Rattle.scalar_core.specs.Expressions.{read};
ghost use Rattle.scalar_typing.specs.Names.{AreOrdinals};
ghost use Rattle.tree_core.specs.Items as typed;
ghost use Rattle.tree_core.specs.Items.{insert};
ghost use Rattle.tree_core.specs.Relvars.{read_relvars};
ghost use Rattle.tree_core.specs.Trees as trees;
ghost use Rattle.node_typing.specs.Lists.{listed_names};
ghost use Rattle.node_typing.specs.Rows.{item_list};
ghost use Rattle.item_typing.specs.Changes as changes;
ghost use Rattle.item_typing.specs.Changes.{portion_names};
ghost use Rattle.item_typing.specs.Items as rules;

use crate::changes::{condition_if, condition_swept, of_points, of_portion};
use crate::portions::{none_portioned, portion_positions, portion_typed};
use crate::sets::sets_made;
use crate::targets::rows_typed;
use node_typing::{condition_typed, listed, none_assigned, sets_swept, swept};
use point_core::Stop;
use scalar_core::Scalar;
use std::alloc::Global;
use tree_core as tree;
use tree_core::{ItemForm, Relvars};
use utd_syntax::{Condition, NameList, Rel, Sets, SomeElements, UsedDeletion, Word};
use value_core::Heading;

// ---- with a portion

/// What a portion asks of an UPDATE: no item assigns an attribute of it, and the condition and the items are sweepable for them.
fn portion_swept(
    alloc: Global,
    heading: &Heading,
    elements: &SomeElements,
    condition: &Option<Scalar>,
    sets: &Sets,
    made: &tree::Sets,
) -> Result<(), Stop>
    ensures { Gives (λ _. tt) result (changes.works_at_points heading.now (Some (portion_names (read_some_elements elements.now))) (option_map read condition.now)
        (item_list (read_sets sets.now)) (trees.read_sets made.now)) }
{
    none_portioned(elements, &sets.first, sets.more.list.as_slice())?;
    let commalist = portion_positions(alloc, heading, elements)?;
    condition_swept(commalist.list.as_slice(), condition)?;
    sets_swept(commalist.list.as_slice(), made.list.as_slice())
}

/// The points that a DELETE with a portion takes away.
pub(crate) fn portion_deleted(
    alloc: Global,
    heading: &Heading,
    elements: &SomeElements,
    condition: &Condition,
    relvars: &Relvars,
) -> Result<ItemForm, Stop>
    requires { AreOrdinals (read_relvars relvars.now).ordinals }
    ensures { Gives typed.read_item_form result (rules.portion_deleted (read_relvars relvars.now) heading.now (read_some_elements elements.now) (read_condition condition.now)) }
{
    let portion = portion_typed(alloc, &relvars.ordinals, heading, elements)?;
    let c = condition_if(alloc, &relvars.ordinals, heading, condition)?;
    let commalist = portion_positions(alloc, heading, elements)?;
    match condition_swept(commalist.list.as_slice(), &c) {
        Ok(()) => Ok(ItemForm::DeleteRows(of_portion(portion, c))),
        Err(stop) => {
            drop(portion);
            drop(c);
            Err(stop)
        }
    }
}

/// The points that an UPDATE with a portion changes.
pub(crate) fn portion_updated(
    alloc: Global,
    heading: &Heading,
    elements: &SomeElements,
    condition: &Condition,
    sets: &Sets,
    relvars: &Relvars,
) -> Result<ItemForm, Stop>
    requires { AreOrdinals (read_relvars relvars.now).ordinals }
    ensures { (at : Place) → Gives typed.read_item_form result (rules.update_typed (read_relvars relvars.now) heading.now (OfPortion at (read_some_elements elements.now)) (read_condition condition.now) (read_sets sets.now)) }
{
    let portion = portion_typed(alloc, &relvars.ordinals, heading, elements)?;
    let c = condition_if(alloc, &relvars.ordinals, heading, condition)?;
    let made = sets_made(alloc, &relvars.ordinals, heading, sets)?;
    match portion_swept(alloc, heading, elements, &c, sets, &made) {
        Ok(()) => Ok(ItemForm::Update(of_portion(portion, c), made)),
        Err(stop) => {
            drop(portion);
            drop(c);
            drop(made);
            Err(stop)
        }
    }
}

// ---- under USING

/// What USING asks of an UPDATE: no item assigns a listed attribute, and the condition and the items are sweepable for them.
fn list_swept(
    list: &NameList,
    commalist: &[usize],
    condition: &Option<Scalar>,
    sets: &Sets,
    made: &tree::Sets,
) -> Result<(), Stop>
    ensures { Gives (λ _. tt) result (changes.points_swept (listed_names (read_list list.now)) commalist.now (option_map read condition.now)
        (item_list (read_sets sets.now)) (trees.read_sets made.now)) }
{
    none_assigned(
        list.names.list.as_slice(),
        &sets.first,
        sets.more.list.as_slice(),
    )?;
    condition_swept(commalist, condition)?;
    sets_swept(commalist, made.list.as_slice())
}

/// The rows of a DELETE under USING: the expression, and then the list.
fn used_rows(
    alloc: Global,
    word: &Word,
    heading: &Heading,
    list: &NameList,
    rel: &Rel,
    relvars: &Relvars,
) -> Result<ItemForm, Stop>
    requires { AreOrdinals (read_relvars relvars.now).ordinals }
    ensures { Gives typed.read_item_form result (rules.used_rows_typed (read_relvars relvars.now) (read_name word.now) heading.now (read_list list.now) (read_rel rel.now)) }
{
    let t = rows_typed(alloc, word, heading, rel, relvars)?;
    match listed(alloc, heading, &t.heading, list) {
        Ok(commalist) => Ok(ItemForm::Delete(Some(commalist), t)),
        Err(stop) => {
            drop(t);
            Err(stop)
        }
    }
}

/// What a DELETE under USING takes away: rows, or the points that meet a condition.
pub(crate) fn used_deletion(
    alloc: Global,
    word: &Word,
    heading: &Heading,
    list: &NameList,
    deletion: &UsedDeletion,
    relvars: &Relvars,
) -> Result<ItemForm, Stop>
    requires { AreOrdinals (read_relvars relvars.now).ordinals }
    ensures { Gives typed.read_item_form result (rules.used_deletion_typed (read_relvars relvars.now) (read_name word.now) heading.now (read_list list.now) (read_used_deletion deletion.now)) }
{
    match deletion {
        UsedDeletion::Where(place, scalar) => {
            let commalist = listed(alloc, heading, heading, list)?;
            let c = condition_typed(alloc, &relvars.ordinals, *place, heading, scalar)?;
            match swept(commalist.list.as_slice(), &c) {
                Ok(()) => Ok(ItemForm::DeleteRows(of_points(commalist, Some(c)))),
                Err(stop) => {
                    drop(c);
                    Err(stop)
                }
            }
        }
        UsedDeletion::Rows(rel) => used_rows(alloc, word, heading, list, rel, relvars),
    }
}

/// The points that an UPDATE under USING changes.
pub(crate) fn used_update(
    alloc: Global,
    heading: &Heading,
    list: &NameList,
    condition: &Condition,
    sets: &Sets,
    relvars: &Relvars,
) -> Result<ItemForm, Stop>
    requires { AreOrdinals (read_relvars relvars.now).ordinals }
    ensures { Gives typed.read_item_form result (rules.used_update_typed (read_relvars relvars.now) heading.now (read_list list.now) (read_condition condition.now) (read_sets sets.now)) }
{
    let commalist = listed(alloc, heading, heading, list)?;
    let c = condition_if(alloc, &relvars.ordinals, heading, condition)?;
    let made = sets_made(alloc, &relvars.ordinals, heading, sets)?;
    match list_swept(list, commalist.list.as_slice(), &c, sets, &made) {
        Ok(()) => Ok(ItemForm::Update(of_points(commalist, c), made)),
        Err(stop) => {
            drop(c);
            drop(made);
            Err(stop)
        }
    }
}
