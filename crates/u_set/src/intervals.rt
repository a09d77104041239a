// Intervals and the values that they are.
ghost use Rattle.std.specs.Prelude.{◌≡◌, IsTrue};
ghost use Rattle.point_core.specs.Points.{number, line_of, IsPointOf};
ghost use Rattle.point_core.specs.declared.any_type.AnyType.{AnyType};
ghost use Rattle.interval_core.specs.Members.{span, HasEndsIn};
ghost use Rattle.value_core.specs.declared.kind.Kind.TheVariants as kind;
ghost use Rattle.value_core.specs.Attributes.{span_of};
ghost use Rattle.value_core.specs.Plain.{plain};
ghost use Rattle.value_core.specs.Values.{interval, fits};

use interval_core::Interval;
use point_core::AnyType;
use value_core::Value;

/// The interval that a value of an interval type is.
pub fn interval_of(v: &Value) -> Interval<AnyType>
    requires { (t : AnyType) × IsTrue (fits (kind.Span t) (plain v.now)) }
    ensures points { (t : AnyType) → IsTrue (fits (kind.Span t) (plain v.now)) → HasEndsIn IsPointOf t result }
    ensures numbers { span number result ≡ span_of (plain v.now) }
{
    match v {
        Value::Span(i) => i.copy(),
        _ => unreachable!(),
    }
}

/// The value of an interval of the type.
pub(crate) fn value_of(t: AnyType, i: &Interval<AnyType>) -> Value
    requires { HasEndsIn IsPointOf t i.now }
    ensures value { plain result ≡ interval (line_of t) (span number i.now) }
    ensures fits { IsTrue (fits (kind.Span t) (plain result)) }
{
    Value::Span(Interval::of(i.begin(), i.end()))
}
