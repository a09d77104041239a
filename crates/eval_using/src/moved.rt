// The interval of a row at one position, and the row with another one there.
ghost use Rattle.std.specs.Prelude.{◌≡◌, ℕ, ◌<◌, ℤ, ◌≤ℤ◌, ◌∷◌, [], length, IsTrue};
ghost use Rattle.point_core.specs.Points.{number, line, IsPointOf};
ghost use Rattle.point_core.specs.declared.any_type.AnyType.{AnyType};
ghost use Rattle.interval_core.specs.Members.{HasEndsIn, at_point};
ghost use Rattle.value_core.specs.Attributes.{value_at, span_of, put_span};
ghost use Rattle.value_core.specs.Values.{Row as PlainRow, Heading as PlainHeading, interval, fits, fits_heading};
ghost use Rattle.value_core.specs.declared.kind.Kind.TheVariants as kind;
ghost use Rattle.relation_core.specs.Parts.{kind_at};
ghost use Rattle.cell_core.specs.Numbering.{numbers_of};
ghost use Rattle.scalar_core.specs.AtPlaces.{HasSpanAt};
ghost use Rattle.u_set.specs.Boxes.{AreIntervals, type_of};
ghost use Rattle.eval_using.specs.Moved.{IsMoved};

use interval_core::Interval;
use point_core::AnyType;
use u_set::interval_of;
use value_core::{Kind, Name, Row, Value};

/// The point type of the interval attribute at the position.
pub(crate) fn type_at(heading: &[(Name, Kind)], at: usize) -> AnyType
    requires { AreIntervals heading.now (at ∷ []) }
    ensures { result ≡ type_of (kind_at heading.now at) }
{
    match heading[at].1 {
        Kind::Span(t) => t,
        _ => unreachable!(),
    }
}

/// The interval at the position.
pub(crate) fn interval_at(row: &Row, at: usize) -> Interval<AnyType>
    requires { HasSpanAt row.now at }
    ensures numbers { numbers_of number result ≡ span_of (value_at row.now at) }
    ensures points { (t : AnyType) → IsTrue (fits (kind.Span t) (value_at row.now at)) → HasEndsIn IsPointOf t result }
{
    match row.values().get(at) {
        Some(v) => interval_of(v),
        None => unreachable!(),
    }
}

/// The row with another interval at the position.
pub(crate) fn with_interval(row: Row, at: usize, i: &Interval<AnyType>) -> Row
    requires within { at < length row }
    requires first { value_at row at ≡ interval (line i.now.0) (span_of (value_at row at)) }
    requires last { line i.now.1 ≡ line i.now.0 }
    ensures row { result ≡ put_span row at (numbers_of number i.now) }
    ensures ordered { number i.now.0 ≤ℤ number i.now.1 }
{
    let value = Value::Span(Interval::of(i.begin(), i.end()));
    let mut values = row.into_values();
    values[at] = value;
    Row::make(values)
}

/// The row with the first point of a part alone in place of its interval; another interval may stand there already.
pub(crate) fn at_first(row: Row, at: usize, part: &Interval<AnyType>) -> Row
    requires { (heading : PlainHeading) × (own : PlainRow) × IsMoved at own row × AreIntervals heading (at ∷ []) × IsTrue (fits_heading heading own) ×
        HasEndsIn IsPointOf (type_of (kind_at heading at)) part.now }
    ensures { (own : PlainRow) → IsMoved at own row → result ≡ put_span own at (at_point (number part.now.0)) }
{
    let p = part.begin();
    with_interval(row, at, &Interval::of(p, p))
}
