// New names of attributes.
ghost use Rattle.std.specs.Prelude.{◌≡◌, IfOk, length};
ghost use Rattle.std.specs.List.{IsDistinct};
ghost use Rattle.std.specs.Str.{bytes_eq};
ghost use Rattle.relation_core.specs.Parts.{renamed, positions_in, IsRenamed};

use crate::headings::heading_of;
use crate::parts::sorted_parts;
use point_core::Memory;
use std::alloc::Global;
use value_core::{Kind, Name, Relation, position};

/// The relation with new names: one for each attribute, in the order of the old ones, and all different.
pub fn rename(alloc: Global, r: &Relation, names: &[Name]) -> Result<Relation, Memory>
    requires one_each { length names.now ≡ length r.now.heading }
    requires different { IsDistinct bytes_eq names.now }
    ensures { IfOk result (IsRenamed names.now r.now) }
{
    let list = renamed(alloc, names, r.heading().attributes())?;
    let attributes = renamed(alloc, names, r.heading().attributes())?;
    let heading = heading_of(alloc, attributes)?;
    let positions = positions_in(alloc, list.as_slice(), heading.attributes())?;
    let rows = sorted_parts(alloc, r, positions.as_slice())?;
    let relation = Relation::of_few(heading, rows)?;
    Ok(relation)
}

/// The attributes with the new names.
pub fn renamed(
    alloc: Global,
    names: &[Name],
    attributes: &[(Name, Kind)],
) -> Result<Vec<(Name, Kind)>, Memory>
    requires { length names.now ≡ length attributes.now }
    ensures { IfOk result (λ list. list.items ≡ renamed names.now attributes.now) }
{
    let mut list = Vec::with_capacity(alloc, names.len())?;
    for (at, name) in names.iter().enumerate() {
        list.push((name.copy(alloc)?, attributes[at].1))?;
    }
    Ok(list)
}

/// Where the attributes of a heading stand in the list.
pub(crate) fn positions_in(
    alloc: Global,
    list: &[(Name, Kind)],
    heading: &[(Name, Kind)],
) -> Result<Vec<usize>, Memory>
    ensures { IfOk result (λ positions. positions.items ≡ positions_in list.now heading.now) }
{
    let mut positions = Vec::with_capacity(alloc, heading.len())?;
    for attribute in heading {
        positions.push(position(list, &attribute.0))?;
    }
    Ok(positions)
}
