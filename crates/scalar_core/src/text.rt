// Texts put together.
ghost use Rattle.std.specs.Prelude.{◌≡◌, false, IsTrue};
ghost use Rattle.value_core.specs.declared.kind.Kind.TheVariants.{Char};
ghost use Rattle.value_core.specs.Lengths.{has_control};
ghost use Rattle.value_core.specs.Values.{fits};
ghost use Rattle.value_core.specs.Plain.{plain};
ghost use Rattle.scalar_core.specs.Answers.{Gives};
ghost use Rattle.scalar_core.specs.Operations.{joined_text, pair_of};
ghost use Rattle.scalar_core.specs.declared.operators.PairOp.TheVariants.{Concat};

use crate::operand::text_of;
use point_core::{Code, Fault, Place, Stop};
use std::alloc::Global;
use value_core::{Text, Value};

/// The first text followed by the second, where it is not too long.
pub fn concat(alloc: Global, place: Place, a: &Value, b: &Value) -> Result<Value, Stop>
    requires a { IsTrue (fits Char (plain a.now)) }
    requires b { IsTrue (fits Char (plain b.now)) }
    ensures { Gives plain result (pair_of Concat place (plain a.now) (plain b.now)) }
{
    let mut joined = String::from_str(alloc, text_of(a))?;
    joined.push_str(text_of(b))?;
    text_or_fault(alloc, place, joined.as_str())
}

// The text, or the fault that it is too long.
fn text_or_fault(alloc: Global, place: Place, text: &str) -> Result<Value, Stop>
    requires { has_control text.now ≡ false }
    ensures { Gives plain result (joined_text place text.now) }
{
    match Text::make(alloc, text)? {
        Some(bytes) => Ok(Value::Char(bytes)),
        None => Err(Stop::Fault(Fault {
            place,
            code: Code::E36,
        })),
    }
}
