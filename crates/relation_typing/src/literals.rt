// Literals: tuples, each with the heading that it makes.
ghost use Rattle.std.specs.Prelude.{◌≡◌, [], map, IfOk};
ghost use Rattle.utd_syntax.specs.Read.{read_elements, read_tuple, read_tuple_list, read_heading, read_literal};
ghost use Rattle.scalar_core.specs.Answers.{Gives};
ghost use Rattle.scalar_typing.specs.Names.{AreOrdinals};
ghost use Rattle.tree_core.specs.Trees as trees;
ghost use Rattle.tree_core.specs.Trees.{read_sets, read_tree};
ghost use Rattle.relation_typing.specs.Literals as rules;
ghost use Rattle.relation_typing.specs.Literals.{headed};
ghost use Rattle.relation_typing.specs.Shapes.{IsShape};

use crate::attributes::few_attributes;
use crate::headings::{heading_typed, same_heading};
use crate::items::elements_typed;
use crate::shapes::{shape_of, tuple_like};
use point_core::{Code, Fault, Memory, Place, Stop};
use std::alloc::Global;
use tree_core::{RelForm, RelTree, Sets};
use utd_syntax as syntax;
use utd_syntax::{Elements, Literal, Tuple};
use value_core::{Heading, HeadingRefuse, Kind, ListOf, Name, OrdinalTypes};

/// A tuple with the heading that it makes.
#[derive(Drop)]
struct HeadedTuple {
    sets: Sets,
    heading: Heading,
}

/// The heading without attributes.
pub fn empty_heading(alloc: Global) -> Result<Heading, Memory>
    ensures { IfOk result (λ h. h ≡ []) }
{
    match Heading::make(alloc, Vec::new(alloc)) {
        Ok(heading) => Ok(heading),
        Err(HeadingRefuse::Memory) => Err(Memory),
        Err(HeadingRefuse::Repeated(_)) => unreachable!(),
        Err(HeadingRefuse::TooMany) => unreachable!(),
    }
}

/// The elements of a tuple, over the empty heading.
fn elements_made(
    alloc: Global,
    types: &OrdinalTypes,
    elements: &Elements,
) -> Result<HeadedTuple, Stop>
    requires { AreOrdinals types.now }
    ensures { Gives headed result (rules.elements_made types.now (read_elements elements.now)) }
{
    let from = empty_heading(alloc)?;
    let made = elements_typed(alloc, types, &from, elements.elements.list.as_slice())?;
    let sets = ListOf { list: made.sets };
    let heading = few_attributes(alloc, elements.place, made.attributes)?;
    Ok(HeadedTuple { sets, heading })
}

/// The items of a tuple that has the heading.
fn under_heading(place: Place, heading: &Heading, made: HeadedTuple) -> Result<Sets, Stop>
    ensures { Gives read_sets result (rules.under_heading place heading.now (headed made)) }
{
    if same_heading(&made.heading, heading) {
        Ok(made.sets)
    } else {
        Err(Stop::Fault(Fault {
            place,
            code: Code::E13,
        }))
    }
}

/// A tuple that is to have the heading, whatever its names and their order.
fn any_tuple(
    alloc: Global,
    types: &OrdinalTypes,
    heading: &Heading,
    tuple: &Tuple,
) -> Result<Sets, Stop>
    requires { AreOrdinals types.now }
    ensures { Gives read_sets result (rules.next_tuple types.now heading.now (read_tuple tuple.now)) }
{
    let made = elements_made(alloc, types, &tuple.elements)?;
    under_heading(tuple.place, heading, made)
}

/// A tuple that is to have the heading. Most tuples of a literal are of one shape.
fn next_tuple(
    alloc: Global,
    types: &OrdinalTypes,
    heading: &Heading,
    shape: &[(Name, Kind)],
    tuple: &Tuple,
) -> Result<Sets, Stop>
    requires ordinals { AreOrdinals types.now }
    requires shape { IsShape heading.now shape.now }
    ensures { Gives read_sets result (rules.next_tuple types.now heading.now (read_tuple tuple.now)) }
{
    match tuple_like(alloc, types, heading, shape, tuple)? {
        Some(sets) => Ok(sets),
        None => any_tuple(alloc, types, heading, tuple),
    }
}

/// The tuples behind those so far.
fn tuples_typed(
    alloc: Global,
    types: &OrdinalTypes,
    heading: &Heading,
    shape: &[(Name, Kind)],
    before: Vec<Sets>,
    tuples: &[Tuple],
) -> Result<Vec<Sets>, Stop>
    requires ordinals { AreOrdinals types.now }
    requires shape { IsShape heading.now shape.now }
    ensures { Gives (λ v. map read_sets v.items) result (rules.tuples_typed types.now heading.now (map read_sets before.items) (read_tuple_list tuples.now)) }
{
    let mut list = before;
    for tuple in tuples {
        list.push(next_tuple(alloc, types, heading, shape, tuple)?)?;
    }
    Ok(list)
}

/// The shape of the first of the tuples.
fn first_shape(
    alloc: Global,
    heading: &Heading,
    tuples: &[Tuple],
) -> Result<Vec<(Name, Kind)>, Memory>
    ensures { IfOk result (λ shape. IsShape heading.now shape.items) }
{
    match tuples.first() {
        Some(tuple) => shape_of(alloc, heading, tuple.elements.elements.list.as_slice()),
        None => Ok(Vec::new(alloc)),
    }
}

/// A literal with a written heading.
fn headed_typed(
    alloc: Global,
    types: &OrdinalTypes,
    place: Place,
    heading: &syntax::Heading,
    tuples: &[Tuple],
) -> Result<RelTree, Stop>
    requires { AreOrdinals types.now }
    ensures { Gives read_tree result (rules.headed_typed types.now place (read_heading heading.now) (read_tuple_list tuples.now)) }
{
    let heading = heading_typed(alloc, types, heading)?;
    let shape = first_shape(alloc, &heading, tuples)?;
    let list = tuples_typed(
        alloc,
        types,
        &heading,
        shape.as_slice(),
        Vec::new(alloc),
        tuples,
    )?;
    Ok(literal(place, heading, list))
}

/// A literal that has the heading of its first tuple.
fn first_typed(
    alloc: Global,
    types: &OrdinalTypes,
    place: Place,
    first: &Tuple,
    more: &[Tuple],
) -> Result<RelTree, Stop>
    requires { AreOrdinals types.now }
    ensures { Gives read_tree result (rules.first_typed types.now place (read_tuple first.now) (read_tuple_list more.now)) }
{
    let made = elements_made(alloc, types, &first.elements)?;
    let heading = made.heading;
    let mut before = Vec::new(alloc);
    before.push(made.sets)?;
    let shape = shape_of(alloc, &heading, first.elements.elements.list.as_slice())?;
    let list = tuples_typed(alloc, types, &heading, shape.as_slice(), before, more)?;
    Ok(literal(place, heading, list))
}

fn literal(place: Place, heading: Heading, list: Vec<Sets>) -> RelTree
    ensures { read_tree result ≡ trees.literal place heading (map read_sets list.items) }
{
    RelTree {
        place,
        heading,
        form: RelForm::Literal(ListOf { list }),
    }
}

/// The typed tree of a literal, or its first refusal.
pub fn type_literal(alloc: Global, types: &OrdinalTypes, literal: &Literal) -> Result<RelTree, Stop>
    requires { AreOrdinals types.now }
    ensures { Gives read_tree result (rules.literal_typed types.now (read_literal literal.now)) }
{
    match literal {
        Literal::Headed(place, heading, tuples) => headed_typed(
            alloc,
            types,
            *place,
            heading,
            tuples.list.as_slice(),
        ),
        Literal::Tuples(place, first, more) => first_typed(
            alloc,
            types,
            *place,
            first,
            more.list.as_slice(),
        ),
    }
}
