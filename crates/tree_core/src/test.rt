// The typed trees of tests.
use crate::tree::RelTree;
use point_core::Place;
use value_core::Positions;

/// How two relations are compared.
#[derive(Clone, Copy, Debug, PartialEq, Eq)]
pub enum RelateWord {
    Equal,
    NotEqual,
    Less,
    LessEqual,
    Greater,
    GreaterEqual,
}

/// A test on relations. Its place is that of its comparison or of its first word.
#[derive(Drop)]
pub struct RelTest {
    pub place: Place,
    pub form: TestForm,
}

/// The forms of tests: two relations compared, by their unpacked rows where attributes are given, or whether one is empty.
#[derive(Drop)]
pub enum TestForm {
    Relate(RelateWord, Option<Positions>, RelTree, RelTree),
    IsEmpty(RelTree),
    IsNotEmpty(RelTree),
}
