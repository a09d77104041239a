// Conditions and the items of an EXTEND.
ghost use Rattle.std.specs.Prelude.{◌≡◌, ◌∷◌};
ghost use Rattle.utd_syntax.specs.Read.{read_scalar, read_set_item, read_set_item_list, read_sets};
ghost use Rattle.scalar_core.specs.Answers.{Gives};
ghost use Rattle.scalar_core.specs.Expressions.{read};
ghost use Rattle.scalar_typing.specs.Names.{AreOrdinals};
ghost use Rattle.tree_core.specs.Trees as trees;
ghost use Rattle.relation_typing.specs.Items.{made, none_made};
ghost use Rattle.node_typing.specs.Rows as rules;

use crate::headings::made_beside;
use crate::positions::check;
use point_core::{Code, Place, Stop};
use relation_typing::{Made, item_typed, none_made};
use scalar_core::Scalar;
use scalar_typing::{same_kind, type_scalar};
use std::alloc::Global;
use tree_core::Sets;
use utd_syntax as syntax;
use utd_syntax::SetItem;
use value_core::{Heading, Kind, OrdinalTypes};

/// A condition over the heading: the refusals of its scalar, then E12 at the place.
pub fn condition_typed(
    alloc: Global,
    types: &OrdinalTypes,
    place: Place,
    from: &Heading,
    scalar: &syntax::Scalar,
) -> Result<Scalar, Stop>
    requires { AreOrdinals types.now }
    ensures { Gives read result (rules.condition_typed types.now place from.now (read_scalar scalar.now)) }
{
    let e = type_scalar(alloc, types, from, scalar)?;
    match check(place, Code::E12, same_kind(e.kind, Kind::Truth)) {
        Ok(()) => Ok(e.scalar),
        Err(stop) => {
            drop(e);
            Err(stop)
        }
    }
}

/// The items of an EXTEND and the attributes that they make.
fn items_typed(
    alloc: Global,
    types: &OrdinalTypes,
    from: &Heading,
    first: &SetItem,
    more: &[SetItem],
) -> Result<Made, Stop>
    requires { AreOrdinals types.now }
    ensures { Gives made result (rules.items_typed types.now from.now none_made (read_set_item first.now ∷ read_set_item_list more.now)) }
{
    let mut before = none_made(alloc);
    item_typed(alloc, types, from, &mut before, &first.name, &first.scalar)?;
    for item in more {
        item_typed(alloc, types, from, &mut before, &item.name, &item.scalar)?;
    }
    Ok(before)
}

/// The items of an EXTEND, and the heading of its node.
#[derive(Drop)]
pub(crate) struct Extension {
    pub(crate) sets: Sets,
    pub(crate) heading: Heading,
}

/// The items of an EXTEND over the heading, and the heading of its node.
pub(crate) fn extension_made(
    alloc: Global,
    types: &OrdinalTypes,
    place: Place,
    from: &Heading,
    sets: &syntax::Sets,
) -> Result<Extension, Stop>
    requires { AreOrdinals types.now }
    ensures { Gives (λ x. (trees.read_sets x.sets, x.heading)) result (rules.extension_made types.now place from.now (read_sets sets.now)) }
{
    let made = items_typed(alloc, types, from, &sets.first, sets.more.list.as_slice())?;
    let sets = Sets { list: made.sets };
    let heading = made_beside(alloc, place, made.attributes, from)?;
    Ok(Extension { sets, heading })
}
