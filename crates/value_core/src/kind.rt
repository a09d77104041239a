// What values an attribute has.
use point_core::AnyType;

/// The values that an attribute may have: truth values, texts, the points of a type, or the intervals of its points.
#[derive(Clone, Copy, Debug, PartialEq, Eq)]
pub enum Kind {
    Truth,
    Char,
    Point(AnyType),
    Span(AnyType),
}
