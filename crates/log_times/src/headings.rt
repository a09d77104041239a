// The heading of a log.
ghost use Rattle.std.specs.Prelude.{◌≡◌, ◌<◌, ◌∷◌, ◌++◌, [], false, IfOk, length};
ghost use Rattle.value_core.specs.Headings.{has_name, most_attributes, IsHeadingOf};
ghost use Rattle.log_times.specs.Turns.{kind_of_statements, log_heading};

use point_core::{AnyType, Memory};
use std::alloc::Global;
use value_core::{Heading, HeadingRefuse, Kind, Name};

/// Copies of the attributes.
fn copies(alloc: Global, attributes: &[(Name, Kind)]) -> Result<Vec<(Name, Kind)>, Memory>
    ensures { IfOk result (λ list. list.items ≡ attributes.now) }
{
    let mut list = Vec::new(alloc);
    for attribute in attributes {
        list.push((attribute.0.copy(alloc)?, attribute.1))?;
    }
    Ok(list)
}

/// The heading with the attribute of the statements, which has a new name.
pub(crate) fn log_heading(
    alloc: Global,
    heading: &Heading,
    attribute: &Name,
) -> Result<Heading, Memory>
    requires few { length heading.now < most_attributes }
    requires new { has_name heading.now attribute.now ≡ false }
    ensures attributes { IfOk result (IsHeadingOf (heading.now ++ (attribute.now, kind_of_statements) ∷ [])) }
    ensures heading { IfOk result (λ h. h ≡ log_heading heading.now attribute.now) }
{
    let mut list = copies(alloc, heading.attributes())?;
    let name = attribute.copy(alloc)?;
    list.push((name, Kind::Span(AnyType::Integer)))?;
    match Heading::make(alloc, list) {
        Ok(heading) => Ok(heading),
        Err(HeadingRefuse::Memory) => Err(Memory),
        Err(HeadingRefuse::Repeated(_)) => unreachable!(),
        Err(HeadingRefuse::TooMany) => unreachable!(),
    }
}
