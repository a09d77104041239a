// Typed row expressions.
ghost use Rattle.std.specs.Prelude.{◌≡◌, Err, Some, None, IfOk, if◌then◌else◌, option_map};
ghost use Rattle.point_core.specs.declared.fault.Code.TheVariants.{E12};
ghost use Rattle.scalar_core.specs.Answers.{Gives};
ghost use Rattle.scalar_core.specs.Expressions.{read, read_form, read_left, read_right};
ghost use Rattle.scalar_typing.specs.Typings.{typed, value_or};

use point_core::{Code, Fault, Memory, Place, Stop};
use scalar_core::{Parts, Scalar, ScalarForm};
use std::alloc::Global;
use value_core::Kind;

/// A row expression, and the kind of its values.
#[derive(Drop)]
pub struct Typed {
    pub scalar: Scalar,
    pub kind: Kind,
}

/// The form at its place.
pub fn at_place(place: Place, form: ScalarForm, kind: Kind) -> Typed
    ensures { typed result ≡ (read_form place form, kind) }
{
    Typed {
        scalar: Scalar { place, form },
        kind,
    }
}

/// The form at its place, where its parts are of its kinds.
pub fn when(place: Place, holds: bool, form: ScalarForm, kind: Kind) -> Option<Typed>
    ensures { option_map typed result ≡ (if holds then Some (read_form place form, kind) else None) }
{
    if holds {
        Some(at_place(place, form, kind))
    } else {
        drop(form);
        None
    }
}

/// The expression, or the refusal of an operator at that place whose parts are of other kinds.
pub fn or_wrong(place: Place, found: Option<Typed>) -> Result<Typed, Stop>
    ensures { Gives typed result (value_or place E12 (option_map typed found)) }
{
    match found {
        Some(e) => Ok(e),
        None => Err(Stop::Fault(Fault {
            place,
            code: Code::E12,
        })),
    }
}

/// The expression in a block of its own.
pub fn boxed(alloc: Global, e: Scalar) -> Result<Box<Scalar>, Memory>
    ensures { IfOk result (λ b. b.value ≡ e) }
{
    let part = Box::new(alloc, e)?;
    Ok(part)
}

/// The two parts of an operator.
pub fn parts(alloc: Global, left: Scalar, right: Scalar) -> Result<Parts, Memory>
    ensures left { IfOk result (λ p. read_left p ≡ read left) }
    ensures right { IfOk result (λ p. read_right p ≡ read right) }
{
    let first = boxed(alloc, left);
    let second = boxed(alloc, right);
    Ok(Parts {
        left: first?,
        right: second?,
    })
}

/// The refusal of the right part of an operator, whose left part is dropped.
pub fn refused(left: Typed, stop: Stop) -> Result<Typed, Stop>
    ensures { result ≡ Err stop }
{
    drop(left);
    Err(stop)
}
