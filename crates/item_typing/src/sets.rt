// The items of an UPDATE.
ghost use Rattle.std.specs.Prelude.{◌≡◌, ◌∷◌};
ghost use Rattle.point_core.specs.declared.fault.Code.TheVariants.{E14};
ghost use Rattle.utd_syntax.specs.Read.{read_name, read_scalar, read_set_item, read_set_item_list, read_sets};
ghost use Rattle.scalar_core.specs.Answers.{Gives, seen};
ghost use Rattle.scalar_typing.specs.Names.{AreOrdinals};
ghost use Rattle.scalar_typing.specs.Names as names;
ghost use Rattle.scalar_typing.specs.Typings.{value_or};
ghost use Rattle.tree_core.specs.Trees as trees;
ghost use Rattle.relation_typing.specs.Items.{made, none_made};
ghost use Rattle.item_typing.specs.Sets as rules;

use node_typing::check;
use point_core::{Code, Fault, Stop};
use relation_typing::{Made, new_name, none_made, put};
use scalar_typing::{attribute_of, same_kind, type_scalar};
use std::alloc::Global;
use tree_core::Sets;
use utd_syntax as syntax;
use utd_syntax::{SetItem, Word};
use value_core::{Heading, Kind, OrdinalTypes};

/// The position and the kind of a named attribute: E14 at the name where there is none.
pub(crate) fn attribute_named(heading: &Heading, word: &Word) -> Result<(usize, Kind), Fault>
    ensures { result ≡ value_or word.now.place E14 (names.attribute_of heading.now (read_name word.now).bytes) }
{
    match attribute_of(heading, word.bytes.list.as_slice()) {
        Some(found) => Ok(found),
        None => Err(Fault {
            place: word.place,
            code: Code::E14,
        }),
    }
}

/// One item more.
fn set_typed(
    alloc: Global,
    types: &OrdinalTypes,
    heading: &Heading,
    before: &mut Made,
    word: &Word,
    scalar: &syntax::Scalar,
) -> Result<(), Stop>
    requires { AreOrdinals types.now }
    ensures { Gives (λ _. made before.new) result (rules.set_typed types.now heading.now (made before.old) (read_name word.now) (read_scalar scalar.now)) }
{
    let found = attribute_named(heading, word)?;
    let name = new_name(alloc, &before.attributes, word)?;
    let copy = name.copy(alloc)?;
    let e = type_scalar(alloc, types, heading, scalar)?;
    match check(word.place, Code::E12, same_kind(e.kind, found.1)) {
        Ok(()) => {
            before.sets.push((name, e.scalar))?;
            put(&mut before.attributes, copy, e.kind)?;
            Ok(())
        }
        Err(stop) => {
            drop(e);
            Err(stop)
        }
    }
}

/// The items and the attributes that they make.
fn sets_typed(
    alloc: Global,
    types: &OrdinalTypes,
    heading: &Heading,
    first: &SetItem,
    more: &[SetItem],
) -> Result<Made, Stop>
    requires { AreOrdinals types.now }
    ensures { Gives made result (rules.sets_typed types.now heading.now none_made (read_set_item first.now ∷ read_set_item_list more.now)) }
{
    let mut before = none_made(alloc);
    set_typed(
        alloc,
        types,
        heading,
        &mut before,
        &first.name,
        &first.scalar,
    )?;
    for item in more {
        set_typed(alloc, types, heading, &mut before, &item.name, &item.scalar)?;
    }
    Ok(before)
}

/// The items of an UPDATE of a target with the heading.
pub(crate) fn sets_made(
    alloc: Global,
    types: &OrdinalTypes,
    heading: &Heading,
    sets: &syntax::Sets,
) -> Result<Sets, Stop>
    requires { AreOrdinals types.now }
    ensures { Gives (λ s. trees.read_sets s) result (rules.sets_made types.now heading.now (read_sets sets.now)) }
{
    let made = sets_typed(
        alloc,
        types,
        heading,
        &sets.first,
        sets.more.list.as_slice(),
    )?;
    Ok(Sets { list: made.sets })
}
