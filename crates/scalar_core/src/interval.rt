// Points and intervals made of others, or a fault.
ghost use Rattle.std.specs.Prelude.{◌≡◌, IsTrue, IfSome, option_map};
ghost use Rattle.point_core.specs.declared.any_type.AnyType.{AnyType};
ghost use Rattle.point_core.specs.Points.{number, next_of, prior_of, IsPointOf};
ghost use Rattle.interval_core.specs.Members.{span, HasEndsIn};
ghost use Rattle.value_core.specs.declared.kind.Kind.TheVariants as kind;
ghost use Rattle.value_core.specs.Values.{fits};
ghost use Rattle.value_core.specs.Plain.{plain};
ghost use Rattle.scalar_core.specs.Answers.{seen};
ghost use Rattle.scalar_core.specs.Operations.{begin_of, end_of, point_or, interval_or, one_of, pair_of};
ghost use Rattle.scalar_core.specs.declared.operators.OneOp.TheVariants as one_op;
ghost use Rattle.scalar_core.specs.declared.operators.PairOp.TheVariants as pair_op;

use crate::operand::{interval_of, point_of};
use interval_core::{Ends, Interval, SelectFault};
use point_core::{AnyPoint, AnyType, Code, Fault, Place, PointNumber, PointType};
use value_core::Value;

/// The first point of an interval.
pub fn begin_of(v: &Value) -> Value
    requires { (t : AnyType) × IsTrue (fits (kind.Span t) (plain v.now)) }
    ensures { plain result ≡ begin_of (plain v.now) }
{
    Value::Point(interval_of(v).begin())
}

/// The last point of an interval.
pub fn end_of(v: &Value) -> Value
    requires { (t : AnyType) × IsTrue (fits (kind.Span t) (plain v.now)) }
    ensures { plain result ≡ end_of (plain v.now) }
{
    Value::Point(interval_of(v).end())
}

/// The point before an interval.
pub fn pre(place: Place, t: AnyType, v: &Value) -> Result<Value, Fault>
    requires { IsTrue (fits (kind.Span t) (plain v.now)) }
    ensures { seen plain result ≡ one_of (one_op.PreOf t) place (plain v.now) }
{
    point_or(place, interval_of(v).pre(&t))
}

/// The point after an interval.
pub fn post(place: Place, t: AnyType, v: &Value) -> Result<Value, Fault>
    requires { IsTrue (fits (kind.Span t) (plain v.now)) }
    ensures { seen plain result ≡ one_of (one_op.PostOf t) place (plain v.now) }
{
    point_or(place, interval_of(v).post(&t))
}

/// How many points an interval has.
pub fn count(place: Place, t: AnyType, v: &Value) -> Result<Value, Fault>
    requires { IsTrue (fits (kind.Span t) (plain v.now)) }
    ensures { seen plain result ≡ one_of (one_op.CountOf t) place (plain v.now) }
{
    match interval_of(v).count(&t) {
        Some(n) => Ok(Value::Point(AnyPoint::Integer(n))),
        None => Err(Fault {
            place,
            code: Code::E30,
        }),
    }
}

/// The point after a point.
pub fn next(place: Place, t: AnyType, v: &Value) -> Result<Value, Fault>
    requires { IsTrue (fits (kind.Point t) (plain v.now)) }
    ensures { seen plain result ≡ one_of (one_op.NextOf t) place (plain v.now) }
{
    point_or(place, next_point(t, point_of(v)))
}

/// The point before a point.
pub fn prior(place: Place, t: AnyType, v: &Value) -> Result<Value, Fault>
    requires { IsTrue (fits (kind.Point t) (plain v.now)) }
    ensures { seen plain result ≡ one_of (one_op.PriorOf t) place (plain v.now) }
{
    point_or(place, prior_point(t, point_of(v)))
}

fn next_point(t: AnyType, p: AnyPoint) -> Option<AnyPoint>
    requires { IsPointOf t p }
    ensures number { option_map number result ≡ next_of t (number p) }
    ensures point { IfSome result (IsPointOf t) }
{
    let n = t.number(p);
    if n < t.number(t.last()) {
        t.point(n + 1)
    } else {
        None
    }
}

fn prior_point(t: AnyType, p: AnyPoint) -> Option<AnyPoint>
    requires { IsPointOf t p }
    ensures number { option_map number result ≡ prior_of t (number p) }
    ensures point { IfSome result (IsPointOf t) }
{
    let n = t.number(p);
    if t.number(t.first()) < n {
        t.point(n - 1)
    } else {
        None
    }
}

/// The interval between two points.
pub fn select(place: Place, ends: Ends, t: AnyType, a: &Value, b: &Value) -> Result<Value, Fault>
    requires a { IsTrue (fits (kind.Point t) (plain a.now)) }
    requires b { IsTrue (fits (kind.Point t) (plain b.now)) }
    ensures { seen plain result ≡ pair_of (pair_op.Select ends t) place (plain a.now) (plain b.now) }
{
    match Interval::select(&t, ends, point_of(a), point_of(b)) {
        Ok(i) => Ok(Value::Span(i)),
        Err(SelectFault::NoPoint) => Err(Fault {
            place,
            code: Code::E32,
        }),
        Err(SelectFault::Empty) => Err(Fault {
            place,
            code: Code::E33,
        }),
    }
}

/// The interval of the points of either of two intervals.
pub fn union(place: Place, t: AnyType, a: &Value, b: &Value) -> Result<Value, Fault>
    requires a { IsTrue (fits (kind.Span t) (plain a.now)) }
    requires b { IsTrue (fits (kind.Span t) (plain b.now)) }
    ensures { seen plain result ≡ pair_of (pair_op.UnionOf t) place (plain a.now) (plain b.now) }
{
    interval_or(place, interval_of(a).union(&t, interval_of(b)))
}

/// The interval of the points of both of two intervals.
pub fn intersect(place: Place, t: AnyType, a: &Value, b: &Value) -> Result<Value, Fault>
    requires a { IsTrue (fits (kind.Span t) (plain a.now)) }
    requires b { IsTrue (fits (kind.Span t) (plain b.now)) }
    ensures { seen plain result ≡ pair_of (pair_op.IntersectOf t) place (plain a.now) (plain b.now) }
{
    interval_or(place, interval_of(a).intersect(&t, interval_of(b)))
}

/// The interval of the points of the first of two intervals that the second does not have.
pub fn minus(place: Place, t: AnyType, a: &Value, b: &Value) -> Result<Value, Fault>
    requires a { IsTrue (fits (kind.Span t) (plain a.now)) }
    requires b { IsTrue (fits (kind.Span t) (plain b.now)) }
    ensures { seen plain result ≡ pair_of (pair_op.MinusOf t) place (plain a.now) (plain b.now) }
{
    interval_or(place, interval_of(a).minus(&t, interval_of(b)))
}

// The point, where there is one.
fn point_or(place: Place, p: Option<AnyPoint>) -> Result<Value, Fault>
    ensures { (t : AnyType) → IfSome p (IsPointOf t) → seen plain result ≡ point_or place t (option_map number p) }
{
    match p {
        Some(p) => Ok(Value::Point(p)),
        None => Err(Fault {
            place,
            code: Code::E32,
        }),
    }
}

// The interval, where there is one.
fn interval_or(place: Place, i: Option<Interval<AnyType>>) -> Result<Value, Fault>
    ensures { (t : AnyType) → IfSome i (HasEndsIn IsPointOf t) → seen plain result ≡ interval_or place t (option_map (span number) i) }
{
    match i {
        Some(i) => Ok(Value::Span(i)),
        None => Err(Fault {
            place,
            code: Code::E34,
        }),
    }
}
