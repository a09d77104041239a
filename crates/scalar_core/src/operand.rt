// The parts of operators, taken out of values of their kind.
ghost use Rattle.std.specs.Prelude.{◌≡◌, IsTrue};
ghost use Rattle.point_core.specs.Points.{integers, line, number, IsPointOf};
ghost use Rattle.point_core.specs.declared.any_type.AnyType.{AnyType};
ghost use Rattle.point_core.specs.declared.any_type.AnyType.TheVariants.{Integer};
ghost use Rattle.value_core.specs.declared.kind.Kind.TheVariants as kind;
ghost use Rattle.value_core.specs.declared.value.Value.TheVariants.{Point, Span};
ghost use Rattle.value_core.specs.Attributes.{span_of};
ghost use Rattle.value_core.specs.Values.{truth, text, point, fits};
ghost use Rattle.value_core.specs.Plain.{plain};
ghost use Rattle.interval_core.specs.Members.{span, HasEndsIn};

use interval_core::Interval;
use point_core::{AnyPoint, AnyType};
use value_core::Value;

/// The truth value.
pub fn truth_of(v: &Value) -> bool
    requires { IsTrue (fits kind.Truth (plain v.now)) }
    ensures { plain v.now ≡ truth result }
{
    match v {
        Value::Truth(b) => *b,
        _ => unreachable!(),
    }
}

/// The integer.
pub fn integer_of(v: &Value) -> i64
    requires { IsTrue (fits (kind.Point Integer) (plain v.now)) }
    ensures { plain v.now ≡ point integers result }
{
    match v {
        Value::Point(AnyPoint::Integer(n)) => *n,
        _ => unreachable!(),
    }
}

/// The text.
pub fn text_of(v: &Value) -> &str
    requires { IsTrue (fits kind.Char (plain v.now)) }
    ensures { plain v.now ≡ text result.now }
{
    match v {
        Value::Char(bytes) => bytes.as_str(),
        _ => unreachable!(),
    }
}

/// The point.
pub fn point_of(v: &Value) -> AnyPoint
    requires { (t : AnyType) × IsTrue (fits (kind.Point t) (plain v.now)) }
    ensures value { v.now ≡ Point result }
    ensures in_type { (t : AnyType) → IsTrue (fits (kind.Point t) (plain v.now)) → IsPointOf t result }
{
    match v {
        Value::Point(p) => *p,
        _ => unreachable!(),
    }
}

/// The interval.
pub fn interval_of(v: &Value) -> &Interval<AnyType>
    requires { (t : AnyType) × IsTrue (fits (kind.Span t) (plain v.now)) }
    ensures value { v.now ≡ Span result.now }
    ensures in_type { (t : AnyType) → IsTrue (fits (kind.Span t) (plain v.now)) → HasEndsIn IsPointOf t result.now }
    ensures span { span_of (plain v.now) ≡ span number result.now }
{
    match v {
        Value::Span(i) => i,
        _ => unreachable!(),
    }
}
