// Kinds of parts, and the types that they have in common.
ghost use Rattle.std.specs.Prelude.{◌≡◌};
ghost use Rattle.scalar_core.specs.KindOf as kind_of;
ghost use Rattle.scalar_typing.specs.Operators as operators;

use point_core::AnyType;
use scalar_core::CompareWord;
use value_core::Kind;

/// The kind of integers.
pub const INTEGER: Kind = Kind::Point(AnyType::Integer);

/// Whether two point types are one.
pub fn same_type(a: AnyType, b: AnyType) -> bool
    ensures { result ≡ kind_of.same_type a b }
{
    match (a, b) {
        (AnyType::Integer, AnyType::Integer) => true,
        (AnyType::Date, AnyType::Date) => true,
        (AnyType::Ordinal { of, last }, AnyType::Ordinal { of: at, last: end }) => of == at
            && last == end,
        (AnyType::Moment, AnyType::Moment) => true,
        _ => false,
    }
}

/// Whether two kinds are one.
pub fn same_kind(a: Kind, b: Kind) -> bool
    ensures { result ≡ kind_of.same_kind a b }
{
    match (a, b) {
        (Kind::Truth, Kind::Truth) => true,
        (Kind::Char, Kind::Char) => true,
        (Kind::Point(t), Kind::Point(u)) => same_type(t, u),
        (Kind::Span(t), Kind::Span(u)) => same_type(t, u),
        _ => false,
    }
}

/// Whether both kinds are this one.
pub fn both_are(kind: Kind, left: Kind, right: Kind) -> bool
    ensures { result ≡ operators.both_are kind left right }
{
    same_kind(left, kind) && same_kind(right, kind)
}

/// Whether values of the kind are less or greater.
pub fn is_ordered(kind: Kind) -> bool
    ensures { result ≡ kind_of.is_ordered kind }
{
    match kind {
        Kind::Truth => false,
        Kind::Char => true,
        Kind::Point(_) => true,
        Kind::Span(_) => false,
    }
}

/// Whether the word compares values of the kind.
pub fn compares(word: CompareWord, kind: Kind) -> bool
    ensures { result ≡ kind_of.compares word kind }
{
    match word {
        CompareWord::Equal => true,
        CompareWord::NotEqual => true,
        CompareWord::Less => is_ordered(kind),
        CompareWord::LessEqual => is_ordered(kind),
        CompareWord::Greater => is_ordered(kind),
        CompareWord::GreaterEqual => is_ordered(kind),
    }
}

/// The point type of an interval.
pub fn span_type(kind: Kind) -> Option<AnyType>
    ensures { result ≡ operators.span_type kind }
{
    match kind {
        Kind::Span(t) => Some(t),
        _ => None,
    }
}

/// The type of a point.
pub fn point_type(kind: Kind) -> Option<AnyType>
    ensures { result ≡ operators.point_type kind }
{
    match kind {
        Kind::Point(t) => Some(t),
        _ => None,
    }
}

/// The type that two have in common.
fn common(left: Option<AnyType>, right: Option<AnyType>) -> Option<AnyType>
    ensures { result ≡ operators.common left right }
{
    let t = left?;
    let u = right?;
    if same_type(t, u) { Some(t) } else { None }
}

/// The point type of two intervals of one type.
pub fn two_spans(left: Kind, right: Kind) -> Option<AnyType>
    ensures { result ≡ operators.two_spans left right }
{
    common(span_type(left), span_type(right))
}

/// The type of two points of one type.
pub fn two_points(left: Kind, right: Kind) -> Option<AnyType>
    ensures { result ≡ operators.two_points left right }
{
    common(point_type(left), point_type(right))
}

/// The type of a point and an interval over its type.
pub fn point_and_span(left: Kind, right: Kind) -> Option<AnyType>
    ensures { result ≡ operators.point_and_span left right }
{
    common(point_type(left), span_type(right))
}
