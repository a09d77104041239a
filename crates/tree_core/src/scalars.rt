// The nodes of row expressions that updates and histories are made of.
ghost use Rattle.std.specs.Prelude.{◌≡◌, true, IfOk};
ghost use Rattle.interval_core.specs.declared.selector.Ends.TheVariants.{Closed as ClosedEnds};
ghost use Rattle.value_core.specs.declared.kind.Kind.TheVariants.{Truth as TruthKind};
ghost use Rattle.value_core.specs.Values.{truth};
ghost use Rattle.scalar_core.specs.declared.operators.OneOp.TheVariants.{Not as NotOp};
ghost use Rattle.scalar_core.specs.declared.operators.PairOp.TheVariants.{Allen as AllenOp, Select as SelectOp};
ghost use Rattle.scalar_core.specs.Expressions as expressions;
ghost use Rattle.scalar_core.specs.Expressions.{read, read_left, read_right};

use interval_core::Ends;
use point_core::{AnyType, Memory, Place};
use scalar_core::{AllenWord, Parts, Scalar, ScalarForm};
use std::alloc::Global;
use value_core::{Kind, Value};

/// TRUE.
pub fn always(place: Place) -> Scalar
    ensures { read result ≡ expressions.constant place TruthKind (truth true) }
{
    Scalar {
        place,
        form: ScalarForm::Constant(Kind::Truth, Value::Truth(true)),
    }
}

/// The attribute at the position.
pub fn attribute(place: Place, at: usize) -> Scalar
    ensures { read result ≡ expressions.attribute place at }
{
    Scalar {
        place,
        form: ScalarForm::Attribute(at),
    }
}

/// The opposite of a condition.
pub fn negation(alloc: Global, place: Place, c: Scalar) -> Result<Scalar, Memory>
    ensures { IfOk result (λ e. read e ≡ expressions.one NotOp place (read c)) }
{
    let part = Box::new(alloc, c)?;
    Ok(Scalar {
        place,
        form: ScalarForm::Not(part),
    })
}

/// The two parts of an operator.
pub fn parts(alloc: Global, left: Scalar, right: Scalar) -> Result<Parts, Memory>
    ensures left { IfOk result (λ p. read_left p ≡ read left) }
    ensures right { IfOk result (λ p. read_right p ≡ read right) }
{
    let left = Box::new(alloc, left)?;
    let right = Box::new(alloc, right)?;
    Ok(Parts { left, right })
}

/// Both conditions.
pub fn conjunction(
    alloc: Global,
    place: Place,
    left: Scalar,
    right: Scalar,
) -> Result<Scalar, Memory>
    ensures { IfOk result (λ e. read e ≡ expressions.and_expr place (read left) (read right)) }
{
    let parts = parts(alloc, left, right)?;
    Ok(Scalar {
        place,
        form: ScalarForm::And(parts),
    })
}

/// How two intervals over the type stand to each other.
pub fn intervals_compared(
    alloc: Global,
    place: Place,
    word: AllenWord,
    over: AnyType,
    left: Scalar,
    right: Scalar,
) -> Result<Scalar, Memory>
    ensures { IfOk result (λ e. read e ≡ expressions.pair (AllenOp word over) place (read left) (read right)) }
{
    let parts = parts(alloc, left, right)?;
    Ok(Scalar {
        place,
        form: ScalarForm::Allen(word, over, parts),
    })
}

/// The interval over the type from a point to another, both in it.
pub fn closed_interval(
    alloc: Global,
    place: Place,
    over: AnyType,
    begin: Scalar,
    end: Scalar,
) -> Result<Scalar, Memory>
    ensures { IfOk result (λ e. read e ≡ expressions.pair (SelectOp ClosedEnds over) place (read begin) (read end)) }
{
    let parts = parts(alloc, begin, end)?;
    Ok(Scalar {
        place,
        form: ScalarForm::Select(Ends::Closed, over, parts),
    })
}
