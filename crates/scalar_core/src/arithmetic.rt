// Integer arithmetic, exact or a fault.
ghost use Rattle.std.specs.Prelude.{◌≡◌, ◌≢◌, pos, ◌-ℤ◌, ◌*ℤ◌, int_div, IsTrue};
ghost use Rattle.point_core.specs.declared.any_type.AnyType.TheVariants.{Integer};
ghost use Rattle.value_core.specs.declared.kind.Kind.TheVariants.{Point};
ghost use Rattle.value_core.specs.Values.{fits};
ghost use Rattle.value_core.specs.Plain.{plain};
ghost use Rattle.scalar_core.specs.Answers.{seen};
ghost use Rattle.scalar_core.specs.Operations.{integer, one_of, pair_of};
ghost use Rattle.scalar_core.specs.declared.operators.OneOp.TheVariants as one_op;
ghost use Rattle.scalar_core.specs.declared.operators.PairOp.TheVariants as pair_op;

use crate::operand::integer_of;
use point_core::{AnyPoint, Code, Fault, Place};
use value_core::Value;

/// The negative of an integer.
pub fn negate(place: Place, v: &Value) -> Result<Value, Fault>
    requires { IsTrue (fits (Point Integer) (plain v.now)) }
    ensures { seen plain result ≡ one_of one_op.Negate place (plain v.now) }
{
    whole(place, -i128::from(integer_of(v)))
}

/// The sum of two integers.
pub fn add(place: Place, a: &Value, b: &Value) -> Result<Value, Fault>
    requires a { IsTrue (fits (Point Integer) (plain a.now)) }
    requires b { IsTrue (fits (Point Integer) (plain b.now)) }
    ensures { seen plain result ≡ pair_of pair_op.Add place (plain a.now) (plain b.now) }
{
    whole(place, i128::from(integer_of(a)) + i128::from(integer_of(b)))
}

/// The difference of two integers.
pub fn subtract(place: Place, a: &Value, b: &Value) -> Result<Value, Fault>
    requires a { IsTrue (fits (Point Integer) (plain a.now)) }
    requires b { IsTrue (fits (Point Integer) (plain b.now)) }
    ensures { seen plain result ≡ pair_of pair_op.Subtract place (plain a.now) (plain b.now) }
{
    whole(place, difference(integer_of(a), integer_of(b)))
}

/// The product of two integers.
pub fn multiply(place: Place, a: &Value, b: &Value) -> Result<Value, Fault>
    requires a { IsTrue (fits (Point Integer) (plain a.now)) }
    requires b { IsTrue (fits (Point Integer) (plain b.now)) }
    ensures { seen plain result ≡ pair_of pair_op.Multiply place (plain a.now) (plain b.now) }
{
    whole(place, product(integer_of(a), integer_of(b)))
}

/// The quotient of two integers, cut off towards zero.
pub fn divide(place: Place, a: &Value, b: &Value) -> Result<Value, Fault>
    requires a { IsTrue (fits (Point Integer) (plain a.now)) }
    requires b { IsTrue (fits (Point Integer) (plain b.now)) }
    ensures { seen plain result ≡ pair_of pair_op.Divide place (plain a.now) (plain b.now) }
{
    let divisor = integer_of(b);
    if divisor == 0 {
        return Err(Fault {
            place,
            code: Code::E31,
        });
    }
    whole(place, quotient(integer_of(a), divisor))
}

fn difference(a: i64, b: i64) -> i128
    ensures { result ≡ a -ℤ b }
{
    i128::from(a) - i128::from(b)
}

fn product(a: i64, b: i64) -> i128
    ensures { result ≡ a *ℤ b }
{
    i128::from(a) * i128::from(b)
}

fn quotient(a: i64, b: i64) -> i128
    requires { b ≢ pos 0 }
    ensures { result ≡ int_div a b }
{
    i128::from(a) / i128::from(b)
}

/// The integer, where 64 bits hold it.
pub fn whole(place: Place, z: i128) -> Result<Value, Fault>
    ensures { seen plain result ≡ integer place z }
{
    if z < i128::from(i64::MIN) || z > i128::from(i64::MAX) {
        return Err(Fault {
            place,
            code: Code::E30,
        });
    }
    Ok(Value::Point(AnyPoint::Integer(z as i64)))
}
