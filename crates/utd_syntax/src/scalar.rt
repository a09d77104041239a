// Scalars: a chain of one operator groups to the left.
use crate::word::{Bytes, Word};
use crate::words::{
    BeginBracket, ComparisonWord, EndBracket, ExtremeWord, FunctionWord, PairWord, ProductWord,
    SumWord,
};
use point_core::Place;

/// `INTEGER`, `DATE`, `MOMENT`, or the name of an ordinal type.
#[derive(Drop)]
pub enum PointName {
    Integer(Place),
    Date(Place),
    Moment(Place),
    Named(Word),
}

/// `conj | scalar "OR" conj`; the place is that of OR.
#[cycle(scalar)]
#[derive(Drop)]
pub enum Scalar {
    One(Conjunction),
    Or(Box<Scalar>, Place, Conjunction),
}

/// `neg | conj "AND" neg`; the place is that of AND.
#[cycle(scalar)]
#[derive(Drop)]
pub enum Conjunction {
    One(Negation),
    And(Box<Conjunction>, Place, Negation),
}

/// `"NOT" neg | cmp`; the place is that of NOT.
#[cycle(scalar)]
#[derive(Drop)]
pub enum Negation {
    Not(Place, Box<Negation>),
    One(Comparison),
}

/// `sum | sum comparison sum`; the place is that of the comparison.
#[cycle(scalar)]
#[derive(Drop)]
pub enum Comparison {
    One(Sum),
    Compare(Sum, Place, ComparisonWord, Sum),
}

/// `prod | sum ( "+" | "-" | "||" ) prod`; the place is that of the operator.
#[cycle(scalar)]
#[derive(Drop)]
pub enum Sum {
    One(Product),
    Add(Box<Sum>, Place, SumWord, Product),
}

/// `sign | prod ( "*" | "/" ) sign`; the place is that of the operator.
#[cycle(scalar)]
#[derive(Drop)]
pub enum Product {
    One(Sign),
    Multiply(Box<Product>, Place, ProductWord, Sign),
}

/// `"-" integer | "-" sign | primary`, where a `-` before an integer is one literal with it. The places are those of
/// `-` and of the integer.
#[cycle(scalar)]
#[derive(Drop)]
pub enum Sign {
    NegativeInteger(Place, Place, Bytes),
    Negate(Place, Box<Sign>),
    One(Primary),
}

/// A literal, an attribute, a value of an ordinal type, a scalar in parentheses, an interval, or a function. The first
/// place is that of the first token; a date and a moment have that of their text too.
#[cycle(scalar)]
#[derive(Drop)]
pub enum Primary {
    Integer(Place, Bytes),
    Text(Place, Bytes),
    Date(Place, Place, Bytes),
    Moment(Place, Place, Bytes),
    True(Place),
    False(Place),
    Attribute(Word),
    Dotted(Word, Word),
    Paren(Place, Box<Scalar>),
    Selector(Place, BeginBracket, Box<Scalar>, Box<Scalar>, EndBracket),
    Extreme(Place, ExtremeWord, PointName),
    Function(Place, FunctionWord, Box<Scalar>),
    PairFunction(Place, PairWord, Box<Scalar>, Box<Scalar>),
}
