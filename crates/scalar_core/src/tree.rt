// The typed trees of row expressions.
ghost use Rattle.std.specs.Prelude.{◌≡◌};

use interval_core::Ends;
use point_core::{AnyType, Place};
use value_core::{Kind, Value};

/// How two values of one kind are compared.
#[derive(Clone, Copy, Debug, PartialEq, Eq)]
pub enum CompareWord {
    Equal,
    NotEqual,
    Less,
    LessEqual,
    Greater,
    GreaterEqual,
}

/// How two intervals of one type are compared.
#[derive(Clone, Copy, Debug, PartialEq, Eq)]
pub enum AllenWord {
    Includes,
    IncludedIn,
    Before,
    After,
    Meets,
    Overlaps,
    Merges,
    Begins,
    Ends,
}

/// A row expression. Its place is that of its operator, function word or opening bracket, else of its first token; a
/// fault of it is reported there.
#[cycle(scalar)]
#[derive(Drop)]
pub struct Scalar {
    pub place: Place,
    pub form: ScalarForm,
}

/// The two parts of an operator.
#[cycle(scalar)]
#[derive(Drop)]
pub struct Parts {
    pub left: Box<Scalar>,
    pub right: Box<Scalar>,
}

/// The forms of row expressions. A form on intervals or points carries their point type; an attribute is named by its
/// position in the heading.
#[cycle(scalar)]
#[derive(Drop)]
pub enum ScalarForm {
    Constant(Kind, Value),
    Attribute(usize),
    Not(Box<Scalar>),
    Negate(Box<Scalar>),
    BeginOf(Box<Scalar>),
    EndOf(Box<Scalar>),
    PreOf(AnyType, Box<Scalar>),
    PostOf(AnyType, Box<Scalar>),
    CountOf(AnyType, Box<Scalar>),
    NextOf(AnyType, Box<Scalar>),
    PriorOf(AnyType, Box<Scalar>),
    And(Parts),
    Or(Parts),
    Add(Parts),
    Subtract(Parts),
    Multiply(Parts),
    Divide(Parts),
    Concat(Parts),
    Compare(CompareWord, Parts),
    Allen(AllenWord, AnyType, Parts),
    Member(AnyType, Parts),
    Select(Ends, AnyType, Parts),
    UnionOf(AnyType, Parts),
    IntersectOf(AnyType, Parts),
    MinusOf(AnyType, Parts),
}
