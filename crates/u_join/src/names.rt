// Attributes by their names.
ghost use Rattle.std.specs.Prelude.{◌≡◌, ◌++◌, ◌+◌, ◌≤◌, length, IfOk};
ghost use Rattle.value_core.specs.Headings.{position_of};
ghost use Rattle.relation_core.specs.Parts.{positions_in};
ghost use Rattle.u_join.specs.Places.{most_of_both};

use point_core::Memory;
use std::alloc::Global;
use value_core::{Kind, Name, position};

// Where the name stands among the attributes of the one, followed by those of the other.
fn place(left: &[(Name, Kind)], right: &[(Name, Kind)], name: &Name) -> usize
    requires { length left.now + length right.now ≤ most_of_both }
    ensures { result ≡ position_of (left.now ++ right.now) name.now }
{
    let at = position(left, name);
    if at < left.len() {
        return at;
    }
    left.len() + position(right, name)
}

/// Where the attributes of the heading stand among those of the left heading, followed by those of the right one.
pub(crate) fn joined_places(
    alloc: Global,
    left: &[(Name, Kind)],
    right: &[(Name, Kind)],
    heading: &[(Name, Kind)],
) -> Result<Vec<usize>, Memory>
    requires { length left.now + length right.now ≤ most_of_both }
    ensures { IfOk result (λ places. places.items ≡ positions_in (left.now ++ right.now) heading.now) }
{
    let mut list = Vec::with_capacity(alloc, heading.len())?;
    for attribute in heading {
        list.push(place(left, right, &attribute.0))?;
    }
    Ok(list)
}
