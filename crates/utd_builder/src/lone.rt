// Scalars of one token, which need not be looked at form by form.
ghost use Rattle.std.specs.Prelude.{◌≡◌, true};
ghost use Rattle.utd_syntax.specs.declared.terminal.Terminal.TheVariants.{Digits};
ghost use Rattle.utd_syntax.specs.Pieces.{first};
ghost use Rattle.utd_syntax.specs.Read.{read_scalar};
ghost use Rattle.utd_syntax.specs.Table.{TheScalar};
ghost use Rattle.utd_builder.specs.Building.{Builds, behind, left};
ghost use Rattle.utd_builder.specs.Closing.{closes};

use crate::cursor::Cursor;
use std::alloc::{AllocError, Global};
use utd_syntax::{Comparison, Conjunction, Negation, Primary, Product, Scalar, Sign, Sum};

/// An integer behind which no scalar goes on.
pub fn lone_integer<'a>(
    alloc: Global,
    cursor: Cursor<'a>,
) -> Result<(Box<Scalar>, Cursor<'a>), AllocError>
    requires integer { first (left cursor) ≡ Digits }
    requires alone { closes (first (behind (left cursor))) ≡ true }
    ensures { Builds TheScalar (λ tree. read_scalar tree.value) (left cursor.entry) result }
{
    let digits = cursor.bytes(alloc)?;
    let only = Primary::Integer(cursor.place(), digits);
    let sum = Sum::One(Product::One(Sign::One(only)));
    let conjunction = Conjunction::One(Negation::One(Comparison::One(sum)));
    let tree = Box::new(alloc, Scalar::One(conjunction))?;
    Ok((tree, cursor.skip()))
}
