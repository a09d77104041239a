// The heading that columns make, in whatever order they stand.
ghost use Rattle.std.specs.Prelude.{◌≡◌, ◌≤◌, length, IfSome, true};
ghost use Rattle.std.specs.declared.cmp.Ordering.TheVariants.{Less};
ghost use Rattle.value_core.specs.Values.{name_cmp};
ghost use Rattle.value_core.specs.Limits.{most_attributes};
ghost use Rattle.constant_laws.specs.Insertions.{MakesHeading};
ghost use Rattle.plain_rows.specs.Names.{AllBehind, Ascending};

use crate::columns::pushed;
use relation_typing::makes;
use std::alloc::Global;
use std::cmp::Ordering;
use value_core::{Heading, Kind, MOST_ATTRIBUTES, Name};

/// Whether the one name comes before the other.
fn is_before(a: &Name, b: &Name) -> bool
    ensures { result ≡ true → name_cmp a.now b.now ≡ Less }
{
    match a.cmp(b) {
        Ordering::Less => true,
        _ => false,
    }
}

/// Whether the name comes before those of the others.
fn is_before_all(column: &(Name, Kind), others: &[(Name, Kind)]) -> bool
    ensures { result ≡ true → AllBehind column.now others.now }
{
    match others.split_first() {
        None => true,
        Some((first, rest)) => is_before(&column.0, &first.0) && is_before_all(column, rest),
    }
}

/// Whether the names stand in the order of their bytes, each once.
pub(crate) fn ascend(columns: &[(Name, Kind)]) -> bool
    ensures { result ≡ true → Ascending columns.now }
{
    match columns.split_first() {
        None => true,
        Some((first, rest)) => is_before_all(first, rest) && ascend(rest),
    }
}

/// An equal name.
fn copied_name(alloc: Global, name: &Name) -> Option<Name> {
    match name.copy(alloc) {
        Ok(copy) => Some(copy),
        Err(_) => None,
    }
}

/// The columns in memory of their own.
fn copied(alloc: Global, columns: &[(Name, Kind)]) -> Option<Vec<(Name, Kind)>> {
    let mut list = Vec::new(alloc);
    for column in columns {
        let name = copied_name(alloc, &column.0)?;
        list = pushed(list, (name, column.1))?;
    }
    Some(list)
}

/// The heading of these attributes, if they have different names and are not too many.
fn made_heading(alloc: Global, list: Vec<(Name, Kind)>) -> Option<Heading> {
    match Heading::make(alloc, list) {
        Ok(heading) => Some(heading),
        Err(_) => None,
    }
}

/// Whether the heading has not too many attributes.
fn are_few(heading: &Heading) -> bool
    ensures { result ≡ true → length heading.now ≤ most_attributes }
{
    heading.attributes().len() <= MOST_ATTRIBUTES
}

/// Whether the columns make the heading.
fn is_made(alloc: Global, columns: &[(Name, Kind)], heading: &Heading) -> bool
    ensures { result ≡ true → MakesHeading heading.now columns.now }
{
    match makes(alloc, columns, heading) {
        Ok(made) => made && are_few(heading),
        Err(_) => false,
    }
}

/// The heading that the columns make; none where they make none.
pub(crate) fn heading_of(alloc: Global, columns: &[(Name, Kind)]) -> Option<Heading>
    ensures { IfSome result (λ heading. MakesHeading heading columns.now) }
{
    let list = copied(alloc, columns)?;
    let heading = made_heading(alloc, list)?;
    if is_made(alloc, columns, &heading) {
        Some(heading)
    } else {
        None
    }
}
