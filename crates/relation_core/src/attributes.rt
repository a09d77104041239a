// The attributes of two headings.
ghost use Rattle.std.specs.Prelude.{◌≡◌, ◌≤◌, ◌++◌, IfOk, OnOk, filter, length, not};
ghost use Rattle.value_core.specs.Headings.{has_name, most_attributes};
ghost use Rattle.value_core.specs.Values.{Name as PlainName};
ghost use Rattle.value_core.specs.declared.kind.Kind.{Kind as PlainKind};
ghost use Rattle.relation_core.specs.Joins.{joined_heading, HaveEqualKinds};
ghost use Rattle.relation_core.specs.Parts.{positions_in};

use crate::headings::heading_of;
use crate::renaming::positions_in;
use point_core::Memory;
use std::alloc::Global;
use value_core::{Heading, Kind, Name, has_name};

/// The heading of the attributes of both.
pub(crate) fn joined_heading(
    alloc: Global,
    left: &Heading,
    right: &Heading,
) -> Result<Heading, Memory>
    requires kinds { HaveEqualKinds left.now right.now }
    requires few { length (joined_heading left.now right.now) ≤ most_attributes }
    ensures { IfOk result (λ heading. heading ≡ joined_heading left.now right.now) }
{
    let ours = left.attributes();
    let theirs = right.attributes();
    let mut list = Vec::new(alloc);
    append_new(alloc, &mut list, ours, &[])?;
    append_new(alloc, &mut list, theirs, ours)?;
    let heading = heading_of(alloc, list)?;
    Ok(heading)
}

/// Adds the attributes whose names are not known.
fn append_new(
    alloc: Global,
    list: &mut Vec<(Name, Kind)>,
    more: &[(Name, Kind)],
    known: &[(Name, Kind)],
) -> Result<(), Memory>
    ensures { OnOk result
        (list.new.items ≡ list.old.items ++ filter (λ (a : PlainName × PlainKind). not (has_name known.now a.0)) more.now) }
{
    for attribute in more {
        if !has_name(known, &attribute.0) {
            list.push((attribute.0.copy(alloc)?, attribute.1))?;
        }
    }
    Ok(())
}

/// Where the attributes of the heading stand among those of the left heading, followed by those of the right one.
pub(crate) fn joined_places(
    alloc: Global,
    left: &[(Name, Kind)],
    right: &[(Name, Kind)],
    heading: &[(Name, Kind)],
) -> Result<Vec<usize>, Memory>
    ensures { IfOk result (λ places. places.items ≡ positions_in (left.now ++ right.now) heading.now) }
{
    let mut list = Vec::new(alloc);
    append_new(alloc, &mut list, left, &[])?;
    append_new(alloc, &mut list, right, &[])?;
    let places = positions_in(alloc, list.as_slice(), heading)?;
    Ok(places)
}
