// Written by tools/grammar; change it there.
// The choices of one token inside the rules of the grammar.

/// The words and symbols that compare two scalars.
#[derive(Clone, Copy, Debug, PartialEq, Eq)]
pub enum ComparisonWord {
    Equal,
    NotEqual,
    Less,
    LessEqual,
    Greater,
    GreaterEqual,
    In,
    Includes,
    IncludedIn,
    Before,
    After,
    Meets,
    Overlaps,
    Merges,
    Begins,
    Ends,
}

/// `+`, `-` and `||`.
#[derive(Clone, Copy, Debug, PartialEq, Eq)]
pub enum SumWord {
    Plus,
    Minus,
    Concat,
}

/// `*` and `/`.
#[derive(Clone, Copy, Debug, PartialEq, Eq)]
pub enum ProductWord {
    Times,
    Divide,
}

/// The bracket that begins an interval: `[` takes the point in, `(` leaves it out.
#[derive(Clone, Copy, Debug, PartialEq, Eq)]
pub enum BeginBracket {
    Closed,
    Open,
}

/// The bracket that ends an interval: `]` takes the point in, `)` leaves it out.
#[derive(Clone, Copy, Debug, PartialEq, Eq)]
pub enum EndBracket {
    Closed,
    Open,
}

/// FIRST and LAST, the points at the ends of a point type.
#[derive(Clone, Copy, Debug, PartialEq, Eq)]
pub enum ExtremeWord {
    First,
    Last,
}

/// The words of functions of one scalar.
#[derive(Clone, Copy, Debug, PartialEq, Eq)]
pub enum FunctionWord {
    Begin,
    End,
    Pre,
    Post,
    Count,
    Next,
    Prior,
}

/// The words of functions of two intervals.
#[derive(Clone, Copy, Debug, PartialEq, Eq)]
pub enum PairWord {
    Union,
    Intersect,
    Minus,
}

/// The words of one token that stand between two relations.
#[derive(Clone, Copy, Debug, PartialEq, Eq)]
pub enum InfixWord {
    Union,
    Intersect,
    Minus,
    Join,
    Matching,
}

/// PACK and UNPACK.
#[derive(Clone, Copy, Debug, PartialEq, Eq)]
pub enum PackWord {
    Pack,
    Unpack,
}

/// The words of aggregates of a scalar.
#[derive(Clone, Copy, Debug, PartialEq, Eq)]
pub enum AggregateWord {
    Sum,
    Min,
    Max,
}

/// The symbols that compare two relations.
#[derive(Clone, Copy, Debug, PartialEq, Eq)]
pub enum RelationComparison {
    Equal,
    NotEqual,
    Less,
    LessEqual,
    Greater,
    GreaterEqual,
}

/// The words that ask whether a relation has rows.
#[derive(Clone, Copy, Debug, PartialEq, Eq)]
pub enum EmptinessWord {
    IsEmpty,
    IsNotEmpty,
}
