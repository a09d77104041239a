// Kinds and headings that are written.
ghost use Rattle.std.specs.Prelude.{◌≡◌, []};
ghost use Rattle.utd_syntax.specs.Read.{read_kind, read_heading, read_attribute_list};
ghost use Rattle.scalar_core.specs.Answers.{Gives};
ghost use Rattle.scalar_typing.specs.Names.{AreOrdinals};
ghost use Rattle.relation_typing.specs.Headings as rules;

use crate::attributes::{Attributes, few_attributes, new_name, put};
use point_core::{Fault, Stop};
use scalar_typing::{point_type, same_kind};
use std::alloc::Global;
use std::collections::BTreeMap;
use utd_syntax as syntax;
use value_core::{Heading, Kind, Name, OrdinalTypes};

/// The kind that is written.
pub fn kind_typed(types: &OrdinalTypes, kind: &syntax::Kind) -> Result<Kind, Fault>
    requires { AreOrdinals types.now }
    ensures { result ≡ rules.kind_typed types.now (read_kind kind.now) }
{
    match kind {
        syntax::Kind::Boolean(_) => Ok(Kind::Truth),
        syntax::Kind::Char(_) => Ok(Kind::Char),
        syntax::Kind::Point(name) => {
            let t = point_type(types, name)?;
            Ok(Kind::Point(t))
        }
        syntax::Kind::Interval(_, name) => {
            let t = point_type(types, name)?;
            Ok(Kind::Span(t))
        }
    }
}

/// The attributes that are written, by their names.
fn attributes_typed(
    alloc: Global,
    types: &OrdinalTypes,
    list: &[syntax::Attribute],
) -> Result<Attributes, Stop>
    requires { AreOrdinals types.now }
    ensures { Gives (λ a. a.entries) result (rules.attributes_typed types.now [] (read_attribute_list list.now)) }
{
    let mut before: Attributes = BTreeMap::new(alloc);
    for attribute in list {
        let kind = kind_typed(types, &attribute.kind)?;
        let name = new_name(alloc, &before, &attribute.name)?;
        put(&mut before, name, kind)?;
    }
    Ok(before)
}

/// The heading that is written.
pub fn heading_typed(
    alloc: Global,
    types: &OrdinalTypes,
    heading: &syntax::Heading,
) -> Result<Heading, Stop>
    requires { AreOrdinals types.now }
    ensures { Gives (λ h. h) result (rules.heading_typed types.now (read_heading heading.now)) }
{
    let all = attributes_typed(alloc, types, heading.attributes.list.as_slice())?;
    few_attributes(alloc, heading.place, all)
}

/// Whether two attributes are one.
fn same_attribute(a: &(Name, Kind), b: &(Name, Kind)) -> bool
    ensures { result ≡ rules.same_attribute a.now b.now }
{
    a.0 == b.0 && same_kind(a.1, b.1)
}

/// Whether two lists of attributes are one.
pub(crate) fn same_attributes(a: &[(Name, Kind)], b: &[(Name, Kind)]) -> bool
    ensures { result ≡ rules.same_heading a.now b.now }
{
    match a.split_first() {
        None => b.is_empty(),
        Some((x, rest)) => match b.split_first() {
            None => false,
            Some((y, more)) => same_attribute(x, y) && same_attributes(rest, more),
        },
    }
}

/// Whether two headings are one.
pub fn same_heading(a: &Heading, b: &Heading) -> bool
    ensures { result ≡ rules.same_heading a.now b.now }
{
    same_attributes(a.attributes(), b.attributes())
}
