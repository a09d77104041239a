// The conditions of changes: which points of which rows they are about.
ghost use Rattle.std.specs.Prelude.{◌≡◌, IfOk, map, option_map};
ghost use Rattle.scalar_core.specs.Expressions.{read};
ghost use Rattle.tree_core.specs.Items.{read_portion, read_item, read_change};
ghost use Rattle.update_core.specs.Updates.{condition_of, negated, lies_in, all_of, inside, inside_if, condition_of_change};

use crate::kinds::type_at;
use point_core::{Memory, Place};
use scalar_core::{AllenWord, Scalar};
use std::alloc::Global;
use tree_core::{
    Change, Item, Portion, always, attribute, conjunction, intervals_compared, negation,
};
use value_core::Heading;

/// The condition of a change of the item: inside its portion, and as its WHERE says.
pub(crate) fn change_condition(
    alloc: Global,
    item: &Item,
    change: &Change,
) -> Result<Scalar, Memory>
    ensures { IfOk result (λ e. read e ≡ condition_of_change (read_item item.now) (read_change change.now)) }
{
    let c = condition(alloc, item.place, &change.condition)?;
    inside_if(alloc, item.place, &item.heading, &change.portion, c)
}

/// The condition, or TRUE where it is missing.
pub fn condition(alloc: Global, place: Place, c: &Option<Scalar>) -> Result<Scalar, Memory>
    ensures { IfOk result (λ e. read e ≡ condition_of place (option_map read c.now)) }
{
    match c {
        Some(c) => c.copy(alloc),
        None => Ok(always(place)),
    }
}

/// The opposite condition.
pub fn negated(alloc: Global, place: Place, c: &Scalar) -> Result<Scalar, Memory>
    ensures { IfOk result (λ e. read e ≡ negated place (read c.now)) }
{
    let c = c.copy(alloc)?;
    negation(alloc, place, c)
}

/// That the interval of the attribute at the position lies in the one given.
fn lies_in(
    alloc: Global,
    place: Place,
    heading: &Heading,
    part: &(usize, Scalar),
) -> Result<Scalar, Memory>
    ensures { IfOk result (λ e. read e ≡ lies_in place heading.now (part.now.0, read part.now.1)) }
{
    let over = type_at(heading, part.0);
    let interval = part.1.copy(alloc)?;
    let own = attribute(place, part.0);
    intervals_compared(alloc, place, AllenWord::IncludedIn, over, own, interval)
}

/// The condition and those of the parts, from the left.
fn all_of(
    alloc: Global,
    place: Place,
    heading: &Heading,
    first: Scalar,
    rest: &[(usize, Scalar)],
) -> Result<Scalar, Memory>
    ensures { IfOk result (λ e. read e ≡ all_of place (read first) (map (lies_in place heading.now) (read_portion rest.now))) }
{
    let mut all = first;
    for part in rest {
        let next = lies_in(alloc, place, heading, part)?;
        all = conjunction(alloc, place, all, next)?;
    }
    Ok(all)
}

/// Inside the portion, and as the condition says.
fn inside(
    alloc: Global,
    place: Place,
    heading: &Heading,
    portion: &[(usize, Scalar)],
    c: Scalar,
) -> Result<Scalar, Memory>
    ensures { IfOk result (λ e. read e ≡ inside place heading.now (read_portion portion.now) (read c)) }
{
    match portion.split_first() {
        None => Ok(c),
        Some((first, rest)) => {
            let first = lies_in(alloc, place, heading, first)?;
            let all = all_of(alloc, place, heading, first, rest)?;
            conjunction(alloc, place, all, c)
        }
    }
}

/// Inside the portion, where there is one, and as the condition says.
fn inside_if(
    alloc: Global,
    place: Place,
    heading: &Heading,
    portion: &Option<Portion>,
    c: Scalar,
) -> Result<Scalar, Memory>
    ensures { IfOk result (λ e. read e ≡ inside_if place heading.now (option_map read_portion portion.now) (read c)) }
{
    match portion {
        None => Ok(c),
        Some(portion) => inside(alloc, place, heading, portion.list.as_slice(), c),
    }
}
