// Values, in the printing order.
ghost use Rattle.std.specs.Prelude.{◌≡◌, IfOk, Some, refl};
ghost use Rattle.std.specs.Ordering.{eq_by_cmp, on};
ghost use Rattle.std.specs.Cmp.{on_total, partial_order_from_total, eq_by_cmp_equiv, partial_equiv_from_equiv};
ghost use Rattle.point_core.specs.Points.{line};
ghost use Rattle.value_core.specs.Values.{value_cmp, line_cmp, fits};
ghost use Rattle.value_core.specs.Order.{value_total};
ghost use Rattle.value_core.specs.Plain.{plain, ends};

use crate::kind::Kind;
use crate::text::Text;
use interval_core::Interval;
use point_core::{AnyPoint, AnyType, Memory, PointType};
use std::alloc::Global;
use std::cmp::Ordering;

/// A value of an attribute: a truth value, a text, a point or an interval of points.
///
/// Values have the printing order: by their kinds, as they stand here; FALSE before TRUE; texts by bytes; points by their types
/// and then their numbers; intervals by the type of their points, their begin and then their end.
#[derive(Drop)]
pub enum Value {
    Truth(bool),
    Char(Text),
    Point(AnyPoint),
    Span(Interval<AnyType>),
}

impl Value {
    /// An equal value.
    pub fn copy(&self, alloc: Global) -> Result<Value, Memory>
        ensures { IfOk result (λ v. v ≡ self.now) }
    {
        match self {
            Value::Truth(b) => Ok(Value::Truth(*b)),
            Value::Char(text) => Ok(Value::Char(text.copy(alloc)?)),
            Value::Point(p) => Ok(Value::Point(*p)),
            Value::Span(i) => Ok(Value::Span(i.copy())),
        }
    }

    /// Whether the value is of the kind, with its points in their type.
    pub(crate) fn fits(&self, kind: Kind) -> bool
        ensures { result ≡ fits kind (plain self.now) }
    {
        match (self, kind) {
            (Value::Truth(_), Kind::Truth) => true,
            (Value::Char(text), Kind::Char) => text.is_one(),
            (Value::Point(p), Kind::Point(t)) => fits_point(t, *p),
            (Value::Span(i), Kind::Span(t)) => fits_span(t, i),
            _ => false,
        }
    }
}

/// Whether the point is one of the type.
fn fits_point(t: AnyType, p: AnyPoint) -> bool
    ensures { result ≡ fits (Kind.Point t) (plain (Value.Point p)) }
{
    t.is_point(p)
}

/// Whether the interval's ends are points of the type.
fn fits_span(t: AnyType, i: &Interval<AnyType>) -> bool
    ensures { result ≡ fits (Kind.Span t) (plain (Value.Span i.now)) }
{
    t.is_point(i.begin()) && t.is_point(i.end())
}

/// The order of the types of two points: integers, dates, the ordinal types as they were declared, and then moments.
fn compare_types(a: AnyPoint, b: AnyPoint) -> Ordering
    ensures { result ≡ line_cmp (line a) (line b) }
{
    match (a, b) {
        (AnyPoint::Integer(_), AnyPoint::Integer(_)) => Ordering::Equal,
        (AnyPoint::Integer(_), _) => Ordering::Less,
        (_, AnyPoint::Integer(_)) => Ordering::Greater,
        (AnyPoint::Date(_), AnyPoint::Date(_)) => Ordering::Equal,
        (AnyPoint::Date(_), _) => Ordering::Less,
        (_, AnyPoint::Date(_)) => Ordering::Greater,
        (AnyPoint::Ordinal { of: m, at: _ }, AnyPoint::Ordinal { of: n, at: _ }) => m.cmp(&n),
        (AnyPoint::Ordinal { of: _, at: _ }, AnyPoint::Moment(_)) => Ordering::Less,
        (AnyPoint::Moment(_), AnyPoint::Ordinal { of: _, at: _ }) => Ordering::Greater,
        (AnyPoint::Moment(_), AnyPoint::Moment(_)) => Ordering::Equal,
    }
}

/// The numbers of the ends. Points of two types are the ends of no interval: they give the numbers of an empty one.
fn end_numbers(i: &Interval<AnyType>) -> (i64, i64)
    ensures { result ≡ ends i.now }
{
    let (begin, end) = (i.begin(), i.end());
    if compare_types(begin, end).is_eq() {
        (begin.number(), end.number())
    } else {
        (1, 0)
    }
}

/// The order of two points.
fn compare_points(a: AnyPoint, b: AnyPoint) -> Ordering
    ensures { result ≡ value_cmp (plain (Value.Point a)) (plain (Value.Point b)) }
{
    compare_types(a, b).then(a.number().cmp(&b.number()))
}

/// The order of two intervals.
fn compare_spans(a: &Interval<AnyType>, b: &Interval<AnyType>) -> Ordering
    ensures { result ≡ value_cmp (plain (Value.Span a.now)) (plain (Value.Span b.now)) }
{
    compare_types(a.begin(), b.begin()).then(end_numbers(a).cmp(&end_numbers(b)))
}

impl PartialEq for Value {
    ghost eq = { eq_by_cmp (on plain value_cmp) };

    ghost laws = { partial_equiv_from_equiv (eq_by_cmp_equiv (on_total plain value_total)) };

    fn eq(&self, other: &Value) -> bool {
        self.cmp(other).is_eq()
    }
}

impl Eq for Value {
    ghost laws = { eq_by_cmp_equiv (on_total plain value_total) };
}

impl PartialOrd for Value {
    ghost partial_cmp = { λ a b. Some (value_cmp (plain a) (plain b)) };

    ghost laws = { partial_order_from_total (on_total plain value_total) };

    fn partial_cmp(&self, other: &Value) -> Option<Ordering> {
        Some(self.cmp(other))
    }
}

impl Ord for Value {
    ghost cmp = { on plain value_cmp };

    ghost total = { on_total plain value_total };

    ghost matches_partial_cmp = { λ _ _. refl };

    ghost matches_eq = { λ _ _. refl };

    fn cmp(&self, other: &Value) -> Ordering {
        match (self, other) {
            (Value::Point(AnyPoint::Integer(a)), Value::Point(AnyPoint::Integer(b))) => a.cmp(b),
            (Value::Truth(a), Value::Truth(b)) => a.cmp(b),
            (Value::Truth(_), _) => Ordering::Less,
            (_, Value::Truth(_)) => Ordering::Greater,
            (Value::Char(a), Value::Char(b)) => a.cmp(b),
            (Value::Char(_), _) => Ordering::Less,
            (_, Value::Char(_)) => Ordering::Greater,
            (Value::Point(a), Value::Point(b)) => compare_points(*a, *b),
            (Value::Point(_), _) => Ordering::Less,
            (_, Value::Point(_)) => Ordering::Greater,
            (Value::Span(a), Value::Span(b)) => compare_spans(a, b),
        }
    }
}
