// The types of points that a heading tells of.
ghost use Rattle.std.specs.Prelude.{◌≡◌};
ghost use Rattle.meaning_core.specs.Histories.{type_of_kind, type_at};

use point_core::AnyType;
use value_core::{Heading, Kind};

/// The type of a kind's points; the integers where there are none.
fn type_of_kind(kind: Kind) -> AnyType
    ensures { result ≡ type_of_kind kind }
{
    match kind {
        Kind::Point(over) | Kind::Span(over) => over,
        Kind::Truth | Kind::Char => AnyType::Integer,
    }
}

/// The type of the points of the attribute at the position; the integers where there are none.
pub fn type_at(heading: &Heading, at: usize) -> AnyType
    ensures { result ≡ type_at heading.now at }
{
    match heading.attributes().get(at) {
        Some(attribute) => type_of_kind(attribute.1),
        None => AnyType::Integer,
    }
}
