// Headings with one attribute more, and what stands where in headings.
ghost use Rattle.std.specs.Prelude.{◌≡◌, ◌<◌, ◌≤◌, [], ◌∷◌, ◌++◌, IfOk, OnOk, length};
ghost use Rattle.base_core.specs.Sets.{put};
ghost use Rattle.value_core.specs.Limits.{most_attributes};
ghost use Rattle.value_core.specs.Values.{attribute_cmp};
ghost use Rattle.relation_core.specs.Agreement.{position_of};
ghost use Rattle.meaning_core.specs.Histories.{all_but, name_at, with_attribute};

use point_core::Memory;
use std::alloc::Global;
use std::cmp::Ordering;
use value_core::{Heading, HeadingRefuse, Kind, Name, Positions, position};

/// A list of one position.
pub(crate) fn one_position(alloc: Global, at: usize) -> Result<Positions, Memory>
    ensures { IfOk result (λ p. p ≡ at ∷ []) }
{
    let list = vec![in alloc; at]?;
    Ok(Positions { list })
}

/// The positions but one.
pub(crate) fn all_but(alloc: Global, at: usize, heading: &Heading) -> Result<Positions, Memory>
    ensures { IfOk result (λ p. p ≡ all_but at heading.now) }
{
    let list = positions_but(alloc, at, heading.attributes())?;
    Ok(Positions { list })
}

fn positions_but(
    alloc: Global,
    at: usize,
    attributes: &[(Name, Kind)],
) -> Result<Vec<usize>, Memory>
    ensures { IfOk result (λ v. v.items ≡ all_but at attributes.now) }
{
    let mut list = Vec::new(alloc);
    for attribute in attributes {
        let other = position(attributes, &attribute.0);
        if at != other {
            list.push(other)?;
        }
    }
    Ok(list)
}

/// The name of the attribute at the position.
pub(crate) fn name_at(heading: &Heading, at: usize) -> &Name
    requires { at < length heading.now }
    ensures { result.now ≡ name_at heading.now at }
{
    &heading.attributes()[at].0
}

/// Adds an attribute.
fn add(alloc: Global, list: &mut Vec<(Name, Kind)>, name: &Name, kind: Kind) -> Result<(), Memory>
    ensures { OnOk result (list.new.items ≡ list.old.items ++ (name.now, kind) ∷ []) }
{
    list.push((name.copy(alloc)?, kind))?;
    Ok(())
}

/// Adds the attributes.
fn add_all(
    alloc: Global,
    list: &mut Vec<(Name, Kind)>,
    attributes: &[(Name, Kind)],
) -> Result<(), Memory>
    ensures { OnOk result (list.new.items ≡ list.old.items ++ attributes.now) }
{
    for attribute in attributes {
        list.push((attribute.0.copy(alloc)?, attribute.1))?;
    }
    Ok(())
}

/// Adds the attributes, which are in order, with the one in its place; one of its name stays as it is.
fn add_in_order(
    alloc: Global,
    list: &mut Vec<(Name, Kind)>,
    name: &Name,
    kind: Kind,
    attributes: &[(Name, Kind)],
) -> Result<(), Memory>
    ensures { OnOk result (list.new.items ≡ list.old.items ++ put attribute_cmp (name.now, kind) attributes.now) }
{
    match attributes.split_first() {
        None => add(alloc, list, name, kind),
        Some((first, rest)) => match name.cmp(&first.0) {
            Ordering::Less => {
                add(alloc, list, name, kind)?;
                add_all(alloc, list, attributes)
            }
            Ordering::Equal => add_all(alloc, list, attributes),
            Ordering::Greater => {
                add(alloc, list, &first.0, first.1)?;
                add_in_order(alloc, list, name, kind, rest)
            }
        },
    }
}

/// The attributes, which are in order, with the one in its place.
fn in_order(
    alloc: Global,
    attributes: &[(Name, Kind)],
    name: &Name,
    kind: Kind,
) -> Result<Vec<(Name, Kind)>, Memory>
    ensures { IfOk result (λ v. v.items ≡ put attribute_cmp (name.now, kind) attributes.now) }
{
    let mut list = Vec::new(alloc);
    add_in_order(alloc, &mut list, name, kind, attributes)?;
    Ok(list)
}

/// The heading with one attribute more.
pub(crate) fn with_attribute(
    alloc: Global,
    heading: &Heading,
    name: &Name,
    kind: Kind,
) -> Result<Heading, Memory>
    requires { length (with_attribute heading.now name.now kind) ≤ most_attributes }
    ensures { IfOk result (λ h. h ≡ with_attribute heading.now name.now kind) }
{
    let list = in_order(alloc, heading.attributes(), name, kind)?;
    match Heading::make(alloc, list) {
        Ok(to) => Ok(to),
        Err(HeadingRefuse::Memory) => Err(Memory),
        Err(HeadingRefuse::Repeated(_)) => unreachable!(),
        Err(HeadingRefuse::TooMany) => unreachable!(),
    }
}
