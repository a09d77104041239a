// The shape of a literal's tuples: the names of their items in the order of the text, each with its kind.
ghost use Rattle.std.specs.Prelude.{◌≡◌, [], Ok, Some, IfOk, IfSome, IsTrue, option_map};
ghost use Rattle.std.specs.Str.{bytes_eq};
ghost use Rattle.utd_syntax.specs.Read.{read_scalar, read_element, read_element_list, read_tuple};
ghost use Rattle.value_core.specs.Values.{Heading as PlainHeading};
ghost use Rattle.scalar_core.specs.Expressions.{read};
ghost use Rattle.scalar_typing.specs.Names.{AreOrdinals};
ghost use Rattle.scalar_typing.specs.Scalars.{typed_scalar};
ghost use Rattle.tree_core.specs.Trees.{read_sets};
ghost use Rattle.relation_typing.specs.Items.{elements_typed};
ghost use Rattle.relation_typing.specs.Literals as rules;
ghost use Rattle.relation_typing.specs.Shapes.{shape_made, IsLike, IsShape};

use crate::attributes::{Attributes, has_name, listed, name_of, put};
use crate::headings::same_attributes;
use crate::literals::empty_heading;
use point_core::{Memory, Stop};
use scalar_core::Scalar;
use scalar_typing::{same_kind, type_scalar};
use std::alloc::Global;
use std::collections::BTreeMap;
use tree_core::Sets;
use utd_syntax as syntax;
use utd_syntax::{Element, Tuple, Word};
use value_core::{Heading, Kind, ListOf, Name, OrdinalTypes};

/// The shape of the elements under the heading; without attributes where they have none.
pub(crate) fn shape_of(
    alloc: Global,
    heading: &Heading,
    elements: &[Element],
) -> Result<Vec<(Name, Kind)>, Memory>
    ensures { IfOk result (λ shape. IsShape heading.now shape.items) }
{
    let shape = attributes_met(alloc, heading.attributes(), elements)?;
    if makes(alloc, shape.as_slice(), heading)? {
        Ok(shape)
    } else {
        Ok(Vec::new(alloc))
    }
}

/// The attributes that have the names of the elements, in their order.
fn attributes_met(
    alloc: Global,
    attributes: &[(Name, Kind)],
    elements: &[Element],
) -> Result<Vec<(Name, Kind)>, Memory> {
    let mut met = Vec::with_capacity(alloc, attributes.len())?;
    for element in elements {
        take_met(alloc, attributes, &element.name, &mut met)?;
    }
    Ok(met)
}

/// Adds the attribute that has the name.
fn take_met(
    alloc: Global,
    attributes: &[(Name, Kind)],
    word: &Word,
    met: &mut Vec<(Name, Kind)>,
) -> Result<(), Memory> {
    for attribute in attributes {
        if has_bytes(word, &attribute.0) {
            met.push((attribute.0.copy(alloc)?, attribute.1))?;
        }
    }
    Ok(())
}

/// Whether the word has the bytes of the name.
fn has_bytes(word: &Word, name: &Name) -> bool
    ensures { result ≡ bytes_eq word.now.bytes.list.items name.now }
{
    *word.bytes.list.as_slice() == *name.as_str().as_bytes()
}

/// Whether tuples of the shape have the heading, in whatever order its names stand.
pub fn makes(alloc: Global, shape: &[(Name, Kind)], heading: &Heading) -> Result<bool, Memory>
    ensures { IfOk result (λ b. IsTrue b → shape_made [] shape.now ≡ Some heading.now) }
{
    match attributes_of(alloc, shape)? {
        Some(attributes) => {
            let list = listed(alloc, attributes)?;
            Ok(same_attributes(list.as_slice(), heading.attributes()))
        }
        None => Ok(false),
    }
}

/// The attributes of the shape; none where a name is repeated.
fn attributes_of(alloc: Global, shape: &[(Name, Kind)]) -> Result<Option<Attributes>, Memory>
    ensures { IfOk result (λ o. option_map (λ a. a.entries) o ≡ shape_made [] shape.now) }
{
    let mut before: Attributes = BTreeMap::new(alloc);
    for attribute in shape {
        match name_of(alloc, attribute.0.as_str().as_bytes())? {
            Some(name) => {
                if has_name(&before, &name) {
                    return Ok(None);
                }
                put(&mut before, name, attribute.1)?;
            }
            None => return Ok(None),
        }
    }
    Ok(Some(before))
}

/// The scalar, where it is of the kind.
fn scalar_like(
    alloc: Global,
    types: &OrdinalTypes,
    from: &Heading,
    kind: Kind,
    scalar: &syntax::Scalar,
) -> Result<Option<Scalar>, Memory>
    requires { AreOrdinals types.now }
    ensures { IfOk result (λ o. IfSome o (λ e. typed_scalar types.now from.now (read_scalar scalar.now) ≡ Ok (read e, kind))) }
{
    match type_scalar(alloc, types, from, scalar) {
        Ok(e) => {
            if same_kind(e.kind, kind) {
                Ok(Some(e.scalar))
            } else {
                Ok(None)
            }
        }
        Err(Stop::Memory) => Err(Memory),
        Err(Stop::Fault(_)) => Ok(None),
    }
}

/// Whether the elements are of the shape; their items are added to those before.
fn elements_like(
    alloc: Global,
    types: &OrdinalTypes,
    from: &Heading,
    shape: &[(Name, Kind)],
    list: &[Element],
    sets: &mut Vec<(Name, Scalar)>,
) -> Result<bool, Memory>
    requires { AreOrdinals types.now }
    ensures { IfOk result (λ b. IsTrue b → (before heading : PlainHeading) → shape_made before shape.now ≡ Some heading
        → elements_typed types.now from.now (read_sets sets.old.items, before) (read_element_list list.now) ≡ Ok (read_sets sets.new.items, heading)) }
{
    match shape.split_first() {
        None => Ok(list.is_empty()),
        Some((attribute, others)) => match list.split_first() {
            None => Ok(false),
            Some((element, more)) => {
                if !element_like(alloc, types, from, attribute, element, sets)? {
                    return Ok(false);
                }
                elements_like(alloc, types, from, others, more, sets)
            }
        },
    }
}

/// Whether the element has the name and the kind; its item is added to those before.
fn element_like(
    alloc: Global,
    types: &OrdinalTypes,
    from: &Heading,
    attribute: &(Name, Kind),
    element: &Element,
    sets: &mut Vec<(Name, Scalar)>,
) -> Result<bool, Memory>
    requires { AreOrdinals types.now }
    ensures { IfOk result (λ b. IsTrue b → IsLike types.now from.now attribute.now (read_element element.now) (read_sets sets.old.items) (read_sets sets.new.items)) }
{
    if !has_bytes(&element.name, &attribute.0) {
        return Ok(false);
    }
    match scalar_like(alloc, types, from, attribute.1, &element.scalar)? {
        Some(e) => {
            sets.push((attribute.0.copy(alloc)?, e))?;
            Ok(true)
        }
        None => Ok(false),
    }
}

/// The items of a tuple that is of the shape.
pub(crate) fn tuple_like(
    alloc: Global,
    types: &OrdinalTypes,
    heading: &Heading,
    shape: &[(Name, Kind)],
    tuple: &Tuple,
) -> Result<Option<Sets>, Memory>
    requires ordinals { AreOrdinals types.now }
    requires shape { IsShape heading.now shape.now }
    ensures { IfOk result (λ o. IfSome o (λ sets. rules.next_tuple types.now heading.now (read_tuple tuple.now) ≡ Ok (read_sets sets))) }
{
    if shape.is_empty() {
        return Ok(None);
    }
    let from = empty_heading(alloc)?;
    let mut list = Vec::with_capacity(alloc, shape.len())?;
    let elements = tuple.elements.elements.list.as_slice();
    if elements_like(alloc, types, &from, shape, elements, &mut list)? {
        Ok(Some(ListOf { list }))
    } else {
        Ok(None)
    }
}
