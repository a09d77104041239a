// Comparisons of values and of intervals.
ghost use Rattle.std.specs.Prelude.{◌≡◌, IsTrue};
ghost use Rattle.value_core.specs.declared.kind.Kind.TheVariants as kind;
ghost use Rattle.value_core.specs.Attributes.{span_of};
ghost use Rattle.value_core.specs.Values.{truth, fits, value_cmp};
ghost use Rattle.value_core.specs.Plain.{plain};
ghost use Rattle.interval_core.specs.Members.{has_member};
ghost use Rattle.scalar_core.specs.Operations.{compared, related, number_of};

use crate::operand::{interval_of, point_of};
use crate::tree::{AllenWord, CompareWord};
use point_core::AnyType;
use value_core::Value;

/// Whether the comparison holds of two values, in the printing order.
pub fn compare(word: CompareWord, a: &Value, b: &Value) -> Value
    ensures { plain result ≡ truth (compared word (value_cmp (plain a.now) (plain b.now))) }
{
    let order = a.cmp(b);
    Value::Truth(match word {
        CompareWord::Equal => order.is_eq(),
        CompareWord::NotEqual => order.is_ne(),
        CompareWord::Less => order.is_lt(),
        CompareWord::LessEqual => order.is_le(),
        CompareWord::Greater => order.is_gt(),
        CompareWord::GreaterEqual => order.is_ge(),
    })
}

/// Whether the comparison holds of two intervals of the type.
pub fn relate(word: AllenWord, t: AnyType, a: &Value, b: &Value) -> Value
    requires a { IsTrue (fits (kind.Span t) (plain a.now)) }
    requires b { IsTrue (fits (kind.Span t) (plain b.now)) }
    ensures { plain result ≡ truth (related word (span_of (plain a.now)) (span_of (plain b.now))) }
{
    let i = interval_of(a);
    let j = interval_of(b);
    Value::Truth(match word {
        AllenWord::Includes => i.includes(&t, j),
        AllenWord::IncludedIn => i.included_in(&t, j),
        AllenWord::Before => i.before(&t, j),
        AllenWord::After => i.after(&t, j),
        AllenWord::Meets => i.meets(&t, j),
        AllenWord::Overlaps => i.overlaps(&t, j),
        AllenWord::Merges => i.merges(&t, j),
        AllenWord::Begins => i.begins(&t, j),
        AllenWord::Ends => i.ends(&t, j),
    })
}

/// Whether the point of the type is one of the interval's.
pub fn member(t: AnyType, a: &Value, b: &Value) -> Value
    requires a { IsTrue (fits (kind.Point t) (plain a.now)) }
    requires b { IsTrue (fits (kind.Span t) (plain b.now)) }
    ensures { plain result ≡ truth (has_member (span_of (plain b.now)) (number_of (plain a.now))) }
{
    Value::Truth(interval_of(b).has_point(&t, point_of(a)))
}
