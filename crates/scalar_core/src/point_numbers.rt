// The number of a point.
ghost use Rattle.std.specs.Prelude.{◌≡◌};
ghost use Rattle.value_core.specs.Plain.{plain};
ghost use Rattle.scalar_core.specs.Operations.{number_of};

use value_core::Value;

/// The number of a point; of other values, 0.
pub fn point_number(value: &Value) -> i64
    ensures { result ≡ number_of (plain value.now) }
{
    match value {
        Value::Point(p) => p.number(),
        _ => 0,
    }
}
