// Headings that are made from attributes with different names.
ghost use Rattle.std.specs.Prelude.{◌≡◌, ◌<◌, ◌≤◌, ℕ, None, IfOk, length};
ghost use Rattle.std.specs.List.{All};
ghost use Rattle.value_core.specs.Headings.{first_repeat, IsHeadingOf, most_attributes};
ghost use Rattle.relation_core.specs.Parts.{attributes_at};

use point_core::Memory;
use std::alloc::Global;
use value_core::{Heading, HeadingRefuse, Kind, Name};

/// The heading of the attributes.
pub(crate) fn heading_of(alloc: Global, list: Vec<(Name, Kind)>) -> Result<Heading, Memory>
    requires different { first_repeat list.items ≡ None }
    requires few { length list.items ≤ most_attributes }
    ensures { IfOk result (IsHeadingOf list.items) }
{
    match Heading::make(alloc, list) {
        Ok(heading) => Ok(heading),
        Err(HeadingRefuse::Memory) => Err(Memory),
        Err(HeadingRefuse::Repeated(_)) => unreachable!(),
        Err(HeadingRefuse::TooMany) => unreachable!(),
    }
}

/// The attributes at the positions.
pub fn attributes_at(
    alloc: Global,
    list: &[(Name, Kind)],
    positions: &[usize],
) -> Result<Vec<(Name, Kind)>, Memory>
    requires { All (λ (i : ℕ). i < length list.now) positions.now }
    ensures { IfOk result (λ attributes. attributes.items ≡ attributes_at positions.now list.now) }
{
    let mut attributes = Vec::with_capacity(alloc, positions.len())?;
    for position in positions {
        let attribute = &list[*position];
        attributes.push((attribute.0.copy(alloc)?, attribute.1))?;
    }
    Ok(attributes)
}
