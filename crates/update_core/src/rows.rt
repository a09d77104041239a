// The rows that a target has, loses and gets.
ghost use Rattle.std.specs.Prelude.{◌≡◌, IfOk};
ghost use Rattle.scalar_core.specs.Expressions.{read};
ghost use Rattle.tree_core.specs.Trees.{read_tree, read_sets};
ghost use Rattle.tree_core.specs.Items.{read_item};
ghost use Rattle.update_core.specs.Updates.{target_of, under_using, beside, with_operand, rows_where, other_rows, changed_rows, replaced, updated};

use crate::conditions::negated;
use point_core::Memory;
use scalar_core::Scalar;
use std::alloc::Global;
use tree_core::{InfixWord, Item, RelTree, Sets, copy_sets};
use value_core::Positions;

/// The target.
fn target(alloc: Global, item: &Item) -> Result<RelTree, Memory>
    ensures { IfOk result (λ t. read_tree t ≡ target_of (read_item item.now)) }
{
    RelTree::of_name(alloc, item.place, &item.heading, &item.target)
}

/// The expression, under USING where a list is given.
fn under_using(
    alloc: Global,
    item: &Item,
    commalist: &Option<Positions>,
    t: RelTree,
) -> Result<RelTree, Memory>
    ensures { IfOk result (λ r. read_tree r ≡ under_using (read_item item.now) commalist.now (read_tree t)) }
{
    match commalist {
        None => Ok(t),
        Some(commalist) => {
            let commalist = commalist.copy(alloc)?;
            t.under_using(alloc, item.place, &item.heading, commalist)
        }
    }
}

/// The target beside an operand.
fn beside(alloc: Global, item: &Item, word: InfixWord, right: RelTree) -> Result<RelTree, Memory>
    ensures { IfOk result (λ r. read_tree r ≡ beside (read_item item.now) word (read_tree right)) }
{
    let left = target(alloc, item)?;
    left.joined(alloc, item.place, &item.heading, word, right)
}

/// The target and an operand, joined by a word.
pub(crate) fn with_operand(
    alloc: Global,
    item: &Item,
    commalist: &Option<Positions>,
    word: InfixWord,
    t: &RelTree,
) -> Result<RelTree, Memory>
    ensures { IfOk result (λ r. read_tree r ≡ with_operand (read_item item.now) commalist.now word (read_tree t.now)) }
{
    let right = t.copy(alloc)?;
    let whole = beside(alloc, item, word, right)?;
    under_using(alloc, item, commalist, whole)
}

/// The target's rows that meet the condition.
fn rows_where(
    alloc: Global,
    item: &Item,
    commalist: &Option<Positions>,
    c: Scalar,
) -> Result<RelTree, Memory>
    ensures { IfOk result (λ r. read_tree r ≡ rows_where (read_item item.now) commalist.now (read c)) }
{
    let rows = target(alloc, item)?;
    let rows = rows.restricted(alloc, item.place, &item.heading, c)?;
    under_using(alloc, item, commalist, rows)
}

/// The other rows.
pub(crate) fn other_rows(
    alloc: Global,
    item: &Item,
    commalist: &Option<Positions>,
    c: &Scalar,
) -> Result<RelTree, Memory>
    ensures { IfOk result (λ r. read_tree r ≡ other_rows (read_item item.now) commalist.now (read c.now)) }
{
    let not = negated(alloc, item.place, c)?;
    rows_where(alloc, item, commalist, not)
}

/// The rows that meet the condition, with new values.
fn changed_rows(
    alloc: Global,
    item: &Item,
    commalist: &Option<Positions>,
    c: Scalar,
    sets: &Sets,
) -> Result<RelTree, Memory>
    ensures { IfOk result (λ r. read_tree r ≡ changed_rows (read_item item.now) commalist.now (read c) (read_sets sets.now)) }
{
    let sets = copy_sets(alloc, sets)?;
    let rows = rows_where(alloc, item, commalist, c)?;
    let rows = rows.extended(alloc, item.place, &item.heading, sets)?;
    under_using(alloc, item, commalist, rows)
}

/// The other rows, and the changed ones.
fn replaced(
    alloc: Global,
    item: &Item,
    commalist: &Option<Positions>,
    c: Scalar,
    sets: &Sets,
) -> Result<RelTree, Memory>
    ensures { IfOk result (λ r. read_tree r ≡ replaced (read_item item.now) commalist.now (read c) (read_sets sets.now)) }
{
    let others = other_rows(alloc, item, commalist, &c)?;
    let changed = changed_rows(alloc, item, commalist, c, sets)?;
    others.joined(alloc, item.place, &item.heading, InfixWord::Union, changed)
}

/// The other rows and the changed ones, under USING where a list is given.
pub(crate) fn updated(
    alloc: Global,
    item: &Item,
    commalist: &Option<Positions>,
    c: Scalar,
    sets: &Sets,
) -> Result<RelTree, Memory>
    ensures { IfOk result (λ r. read_tree r ≡ updated (read_item item.now) commalist.now (read c) (read_sets sets.now)) }
{
    let rows = replaced(alloc, item, commalist, c, sets)?;
    under_using(alloc, item, commalist, rows)
}
