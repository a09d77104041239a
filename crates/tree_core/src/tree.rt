// The typed trees of relational expressions.
use point_core::Place;
use scalar_core::Scalar;
use value_core::{Heading, ListOf, Name, Names, Positions};

/// The operators between two relations.
#[derive(Clone, Copy, Debug, PartialEq, Eq)]
pub enum InfixWord {
    Union,
    Intersect,
    Minus,
    Join,
    Matching,
    NotMatching,
}

/// Names and the expressions of their values, in the order of the text.
pub type Sets = ListOf<(Name, Scalar)>;

/// The tuples of a literal, in the order of the text.
pub type Tuples = ListOf<Sets>;

/// The aggregates of a SUMMARIZE, in the order of the text.
pub type Aggregates = ListOf<Aggregate>;

/// What a SUMMARIZE adds to each group under a name. Its place is that of its word.
#[derive(Drop)]
pub struct Aggregate {
    pub name: Name,
    pub place: Place,
    pub form: AggregateForm,
}

/// The forms of aggregates: the number of rows, or a value over those of an expression on each row.
#[derive(Drop)]
pub enum AggregateForm {
    Count,
    Sum(Scalar),
    Min(Scalar),
    Max(Scalar),
}

/// A relational expression, with the heading of its rows. Its place is that of its operator's first word, of the `{` of a
/// projection, or of its first token; a fault of it is reported there.
#[cycle(tree)]
#[derive(Drop)]
pub struct RelTree {
    pub place: Place,
    pub heading: Heading,
    pub form: RelForm,
}

/// The forms of relational expressions. Attributes that a node reads are named by their positions in the heading of its
/// part, and those that it makes by their names. The part of a Using is an Infix, Project, Restrict, Extend or Summarize.
#[cycle(tree)]
#[derive(Drop)]
pub enum RelForm {
    Named(Name),
    Literal(Tuples),
    Infix(InfixWord, Box<RelTree>, Box<RelTree>),
    Project(Positions, Box<RelTree>),
    Rename(Names, Box<RelTree>),
    Restrict(Scalar, Box<RelTree>),
    Extend(Sets, Box<RelTree>),
    Summarize(Positions, Aggregates, Box<RelTree>),
    Pack(Positions, Box<RelTree>),
    Unpack(Positions, Box<RelTree>),
    Using(Positions, Box<RelTree>),
}
