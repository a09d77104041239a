// Headings that are made of attributes.
ghost use Rattle.std.specs.Prelude.{◌≡◌, ◌<◌, ◌≤◌, ◌++◌, [], ℕ, IfOk, OnOk, length, IsTrue};
ghost use Rattle.std.specs.List.{All};
ghost use Rattle.std.specs.Ordering.{nat_cmp};
ghost use Rattle.base_core.specs.Sets.{is_set};
ghost use Rattle.value_core.specs.Limits.{most_attributes};
ghost use Rattle.relation_core.specs.Joins.{joined_heading};
ghost use Rattle.relation_core.specs.Parts.{attributes_at};
ghost use Rattle.scalar_core.specs.Answers.{Gives};
ghost use Rattle.relation_typing.specs.Attributes.{few_attributes};
ghost use Rattle.node_typing.specs.Headings as rules;

use point_core::{Memory, Place, Stop};
use relation_core::attributes_at;
use relation_typing::{Attributes, few_attributes, heading_of, listed, put};
use std::alloc::Global;
use std::collections::BTreeMap;
use value_core::{Heading, HeadingRefuse, Kind, Name};

/// The heading of the attributes at ascending positions.
pub(crate) fn heading_at(
    alloc: Global,
    heading: &Heading,
    positions: &[usize],
) -> Result<Heading, Memory>
    requires ascending { IsTrue (is_set nat_cmp positions.now) }
    requires within { All (λ (i : ℕ). i < length heading.now) positions.now }
    ensures { IfOk result (λ h. h ≡ attributes_at positions.now heading.now) }
{
    let list = attributes_at(alloc, heading.attributes(), positions)?;
    match Heading::make(alloc, list) {
        Ok(to) => Ok(to),
        Err(HeadingRefuse::Memory) => Err(Memory),
        Err(HeadingRefuse::Repeated(_)) => unreachable!(),
        Err(HeadingRefuse::TooMany) => unreachable!(),
    }
}

/// The attributes with those of the list; of one name, those of the list count, and of these the last.
pub(crate) fn put_all(
    alloc: Global,
    attributes: &mut Attributes,
    list: &[(Name, Kind)],
) -> Result<(), Memory>
    ensures { OnOk result (attributes.new.entries ≡ rules.with_all attributes.old.entries list.now) }
{
    for attribute in list {
        put(attributes, attribute.0.copy(alloc)?, attribute.1)?;
    }
    Ok(())
}

/// The attributes of two lists in order; of one name, those of the second list count.
fn put_both(
    alloc: Global,
    first: &[(Name, Kind)],
    second: &[(Name, Kind)],
) -> Result<Attributes, Memory>
    ensures { IfOk result (λ a. a.entries ≡ rules.heading_of_list (first.now ++ second.now)) }
{
    let mut attributes: Attributes = BTreeMap::new(alloc);
    put_all(alloc, &mut attributes, first)?;
    put_all(alloc, &mut attributes, second)?;
    Ok(attributes)
}

/// The heading of the attributes of two headings.
pub(crate) fn joined_heading(
    alloc: Global,
    place: Place,
    left: &Heading,
    right: &Heading,
) -> Result<Heading, Stop>
    ensures { Gives (λ h. h) result (few_attributes place (joined_heading left.now right.now)) }
{
    let attributes = put_both(alloc, left.attributes(), right.attributes())?;
    few_attributes(alloc, place, attributes)
}

/// The heading of made attributes, which take the place of old ones of their names, beside the other old ones.
pub(crate) fn made_beside(
    alloc: Global,
    place: Place,
    made: Attributes,
    from: &Heading,
) -> Result<Heading, Stop>
    ensures { Gives (λ h. h) result (few_attributes place (rules.made_beside made.entries from.now)) }
{
    let new = listed(alloc, made)?;
    let attributes = put_both(alloc, from.attributes(), new.as_slice())?;
    few_attributes(alloc, place, attributes)
}

/// The heading of the attributes, which are few enough.
pub(crate) fn heading_of_list(alloc: Global, list: &[(Name, Kind)]) -> Result<Heading, Memory>
    requires { length list.now ≤ most_attributes }
    ensures { IfOk result (λ h. h ≡ rules.heading_of_list list.now) }
{
    let attributes = put_both(alloc, list, &[])?;
    heading_of(alloc, attributes)
}
