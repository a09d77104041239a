// What a stored view is made of.
use value_core::{Positions, Relation};

/// The operator of a stored view, of two operands, or of the left one alone.
#[derive(Drop)]
pub enum KeptOp {
    Union,
    Intersect,
    Minus,
    Join,
    Matching,
    NotMatching,
    /// The parts at the positions.
    Project(Positions),
    Pack,
}

/// The operator, and the positions of the listed attributes in the left operand and in the right one.
#[derive(Drop)]
pub struct KeptRule {
    pub op: KeptOp,
    pub left: Positions,
    pub right: Positions,
}

/// The operands of a stored view: both, or the left one alone.
#[derive(Clone, Copy)]
pub struct Operands<'a> {
    pub left: &'a Relation,
    pub right: Option<&'a Relation>,
}
