// The operands of operators.
ghost use Rattle.std.specs.Prelude.{◌≡◌};
ghost use Rattle.algebra_core.specs.Operands.{held};

use value_core::Relation;

/// The relation of an operand: made for it, or the value of a base relvar or what is stored of a view, where it is kept.
#[derive(Drop)]
pub(crate) enum Operand<'a> {
    Made(Relation),
    Kept(&'a Relation),
}

impl Operand<'_> {
    /// The relation.
    pub(crate) fn relation(&self) -> &Relation
        ensures { result.now ≡ held self.now }
    {
        match self {
            Operand::Made(relation) => relation,
            Operand::Kept(relation) => relation,
        }
    }
}
