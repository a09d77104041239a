// Portions: for each attribute of one the interval of the points that change.
ghost use Rattle.std.specs.Prelude.{◌≡◌, ◌++◌, ◌∷◌, [], IfOk, map, not, option_map};
ghost use Rattle.point_core.specs.declared.fault.Code.TheVariants.{E19};
ghost use Rattle.utd_syntax.specs.Plain.{Element as PlainElement};
ghost use Rattle.utd_syntax.specs.Read.{read_element, read_element_list, read_name, read_scalar, read_set_item, read_set_item_list, read_some_elements};
ghost use Rattle.value_core.specs.Attributes.{among};
ghost use Rattle.scalar_core.specs.Answers.{Gives};
ghost use Rattle.scalar_typing.specs.Names.{AreOrdinals};
ghost use Rattle.tree_core.specs.Items.{read_portion};
ghost use Rattle.meaning_core.specs.Meanings.{positions_of};
ghost use Rattle.meaning_core.specs.Updates.{attributes_of_portion};
ghost use Rattle.node_typing.specs.Lists.{named_in};
ghost use Rattle.node_typing.specs.Positions.{check};
ghost use Rattle.node_typing.specs.Sweeps.{none_assigned};
ghost use Rattle.item_typing.specs.Changes as rules;

use crate::sets::attribute_named;
use node_typing::{check, is_span, position};
use point_core::{Code, Memory, Stop};
use relation_typing::empty_heading;
use scalar_core::Scalar;
use scalar_typing::{same_kind, type_scalar};
use std::alloc::Global;
use tree_core::Portion;
use utd_syntax as syntax;
use utd_syntax::{Element, SetItem, SomeElements, Word};
use value_core::{Heading, Kind, ListOf, MOST_LISTED, Name, OrdinalTypes, Positions};

/// Whether the portion has a part of the attribute at the position.
fn has_part(portion: &[(usize, Scalar)], at: usize) -> bool
    ensures { result ≡ among (attributes_of_portion (read_portion portion.now)) at }
{
    for part in portion {
        if part.0 == at {
            return true;
        }
    }
    false
}

/// One part more.
fn part_typed(
    alloc: Global,
    types: &OrdinalTypes,
    heading: &Heading,
    before: &mut Vec<(usize, Scalar)>,
    word: &Word,
    scalar: &syntax::Scalar,
) -> Result<(), Stop>
    requires { AreOrdinals types.now }
    ensures { Gives (λ _. read_portion before.new.items) result (rules.part_typed types.now heading.now (read_portion before.old.items) (PlainElement (read_name word.now) (read_scalar scalar.now))) }
{
    let (at, kind) = attribute_named(heading, word)?;
    check(word.place, Code::E15, !has_part(before.as_slice(), at))?;
    check(word.place, Code::E16, is_span(kind))?;
    let none = empty_heading(alloc)?;
    let e = type_scalar(alloc, types, &none, scalar)?;
    match check(word.place, Code::E12, same_kind(e.kind, kind)) {
        Ok(()) => {
            before.push((at, e.scalar))?;
            Ok(())
        }
        Err(stop) => {
            drop(e);
            Err(stop)
        }
    }
}

/// The parts.
fn parts_typed(
    alloc: Global,
    types: &OrdinalTypes,
    heading: &Heading,
    first: &Element,
    more: &[Element],
) -> Result<Vec<(usize, Scalar)>, Stop>
    requires { AreOrdinals types.now }
    ensures { Gives (λ v. read_portion v.items) result (rules.parts_typed types.now heading.now [] (read_element first.now ∷ read_element_list more.now)) }
{
    let mut parts = Vec::new(alloc);
    part_typed(
        alloc,
        types,
        heading,
        &mut parts,
        &first.name,
        &first.scalar,
    )?;
    for element in more {
        part_typed(
            alloc,
            types,
            heading,
            &mut parts,
            &element.name,
            &element.scalar,
        )?;
    }
    Ok(parts)
}

/// The portion that these elements tell of a target with the heading: E14, E15, E16 and E12 at a name, then E17 at `{` above the most.
pub(crate) fn portion_typed(
    alloc: Global,
    types: &OrdinalTypes,
    heading: &Heading,
    elements: &SomeElements,
) -> Result<Portion, Stop>
    requires { AreOrdinals types.now }
    ensures { Gives read_portion result (rules.portion_typed types.now heading.now (read_some_elements elements.now)) }
{
    let list = parts_typed(
        alloc,
        types,
        heading,
        &elements.first,
        elements.more.list.as_slice(),
    )?;
    match check(elements.place, Code::E17, list.len() <= MOST_LISTED) {
        Ok(()) => Ok(ListOf { list }),
        Err(stop) => {
            drop(list);
            Err(stop)
        }
    }
}

// ---- the names of a portion

/// Whether one of the elements has the name.
fn has_element(elements: &[Element], name: &[u8]) -> bool
    ensures { result ≡ named_in (map rules.element_name (read_element_list elements.now)) name.now }
{
    for element in elements {
        if name == element.name.bytes.list.as_slice() {
            return true;
        }
    }
    false
}

/// Whether the name is one of the portion's.
fn is_portioned(elements: &SomeElements, name: &[u8]) -> bool
    ensures { result ≡ named_in (rules.portion_names (read_some_elements elements.now)) name.now }
{
    name == elements.first.name.bytes.list.as_slice()
        || has_element(elements.more.list.as_slice(), name)
}

/// The refusal of an item that assigns an attribute of the portion.
fn not_assigned(elements: &SomeElements, item: &SetItem) -> Result<(), Stop>
    ensures { Gives (λ _. tt) result (check item.now.name.place E19 (not (named_in (rules.portion_names (read_some_elements elements.now)) item.now.name.bytes.list.items))) }
{
    let word = &item.name;
    check(
        word.place,
        Code::E19,
        !is_portioned(elements, word.bytes.list.as_slice()),
    )
}

/// The refusal of the first item that assigns an attribute of the portion.
pub(crate) fn none_portioned(
    elements: &SomeElements,
    first: &SetItem,
    more: &[SetItem],
) -> Result<(), Stop>
    ensures { Gives (λ _. tt) result (none_assigned (rules.portion_names (read_some_elements elements.now)) (read_set_item first.now ∷ read_set_item_list more.now)) }
{
    not_assigned(elements, first)?;
    for item in more {
        not_assigned(elements, item)?;
    }
    Ok(())
}

/// Where the attributes of the elements stand, behind the first one.
fn positions_of_elements(
    alloc: Global,
    attributes: &[(Name, Kind)],
    first: &Element,
    more: &[Element],
) -> Result<Vec<usize>, Memory>
    ensures { IfOk result (λ v. v.items ≡ positions_of attributes.now (map rules.element_name (read_element first.now ∷ read_element_list more.now))) }
{
    let mut positions = Vec::with_capacity(alloc, more.len() + 1)?;
    positions.push(position(attributes, first.name.bytes.list.as_slice()))?;
    for element in more {
        positions.push(position(attributes, element.name.bytes.list.as_slice()))?;
    }
    Ok(positions)
}

/// Where the attributes of the portion stand.
pub(crate) fn portion_positions(
    alloc: Global,
    heading: &Heading,
    elements: &SomeElements,
) -> Result<Positions, Memory>
    ensures { IfOk result (λ p. p ≡ positions_of heading.now (rules.portion_names (read_some_elements elements.now))) }
{
    let list = positions_of_elements(
        alloc,
        heading.attributes(),
        &elements.first,
        elements.more.list.as_slice(),
    )?;
    Ok(ListOf { list })
}
