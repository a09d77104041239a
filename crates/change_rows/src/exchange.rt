// What a relation loses and gains.
ghost use Rattle.std.specs.Prelude.{◌≡◌};

use value_core::Relation;

/// Rows that a relation gains, and rows that it then loses.
#[derive(Drop)]
pub struct Exchange {
    pub come: Relation,
    pub gone: Relation,
}
