// Attributes by their names.
ghost use Rattle.std.specs.Prelude.{◌≡◌, IfOk};
ghost use Rattle.relation_core.specs.Agreement.{common_positions};

use point_core::Memory;
use std::alloc::Global;
use value_core::{Kind, Name, has_name, position};

/// The positions in a heading of the names that stand in both, the left one giving their order.
pub fn common_positions(
    alloc: Global,
    heading: &[(Name, Kind)],
    left: &[(Name, Kind)],
    right: &[(Name, Kind)],
) -> Result<Vec<usize>, Memory>
    ensures { IfOk result (λ list. list.items ≡ common_positions heading.now left.now right.now) }
{
    let mut list = Vec::new(alloc);
    for attribute in left {
        if has_name(right, &attribute.0) {
            list.push(position(heading, &attribute.0))?;
        }
    }
    Ok(list)
}
