// The cuts of a listed attribute: between them the value of a sweepable expression stays the same.
ghost use Rattle.std.specs.Prelude.{◌≡◌, ◌<◌, ◌+ℤ◌, ◌-ℤ◌, ◌≤ℤ◌, ◌++◌, ◌∷◌, [], pos, length, map, filter, slice_index, IsTrue, IfOk, OnOk};
ghost use Rattle.std.specs.List.{All};
ghost use Rattle.std.specs.List.Sorted.{IsStrictlySortedBy};
ghost use Rattle.std.specs.Ordering.{int_cmp};
ghost use Rattle.base_core.specs.Sets.{in_order};
ghost use Rattle.point_core.specs.declared.any_type.AnyType.{AnyType};
ghost use Rattle.point_core.specs.Points.{line, number, IsPointOf};
ghost use Rattle.interval_core.specs.Members.{span};
ghost use Rattle.value_core.specs.declared.kind.Kind.{Kind};
ghost use Rattle.value_core.specs.declared.kind.Kind.TheVariants as kind;
ghost use Rattle.value_core.specs.Attributes.{span_of, value_at};
ghost use Rattle.value_core.specs.Values.{fits};
ghost use Rattle.value_core.specs.Plain.{plain};
ghost use Rattle.scalar_core.specs.Expressions.{read, read_left, read_right};
ghost use Rattle.scalar_core.specs.Kinds.{IsTypedOver};
ghost use Rattle.scalar_core.specs.ScalarValues.{value};
ghost use Rattle.scalar_core.specs.Sweeping.{swept_attribute, IsSweepable};
ghost use Rattle.scalar_core.specs.Cuts as rules;
ghost use Rattle.scalar_core.specs.Cuts.{is_inside};
ghost use Rattle.scalar_core.specs.AtPlaces.{HasSpanAt, IsSteady};

use crate::evaluation::eval;
use crate::operand::interval_of;
use crate::sweeping::{names_any, swept_attribute};
use crate::tree::{Parts, Scalar, ScalarForm};
use interval_core::Interval;
use point_core::{AnyPoint, AnyType, Memory, Stop};
use std::alloc::{AllocError, Global};
use value_core::{Row, Value};

/// The cuts by the expression of the listed attribute at `side`, as far as they part its interval in the row: ascending points
/// behind the interval's first one. Whatever the other listed attributes are, the value of the expression changes at none of the
/// interval's points but these. A part that has a fault makes no cuts.
pub fn cuts(
    alloc: Global,
    e: &Scalar,
    row: &Row,
    commalist: &[usize],
    side: usize,
) -> Result<Vec<AnyPoint>, Memory>
    requires typed { IsTypedOver row.now (read e.now) }
    requires sweepable { IsSweepable commalist.now (read e.now) }
    requires side { side < length commalist.now }
    requires interval { HasSpanAt row.now (slice_index commalist.now side) }
    ensures cuts { IfOk result (λ v. map number v.items ≡ rules.inner_cuts commalist.now (slice_index commalist.now side) (read e.now) row.now) }
    ensures points { (t : AnyType) → IsTrue (fits (kind.Span t) (value_at row.now (slice_index commalist.now side))) → IfOk result (λ v. All (IsPointOf t) v.items) }
    ensures ascending { IfOk result (λ v. IsStrictlySortedBy int_cmp (map number v.items)) }
    ensures inside { IfOk result (λ v. All (λ c. IsTrue (is_inside (span_of (value_at row.now (slice_index commalist.now side))) c)) (map number v.items)) }
    ensures steady { IfOk result (λ v. IsSteady (read e.now) row.now commalist.now side (map number v.items)) }
{
    let at = commalist[side];
    let mut numbers: Vec<i128> = Vec::new(alloc);
    push_cuts(alloc, &mut numbers, e, row, &Sought { commalist, at })?;
    let numbers = distinct(numbers)?;
    let points = points_inside(alloc, interval_at(row, at), numbers.as_slice())?;
    Ok(points)
}

/// The interval at the position.
fn interval_at(row: &Row, at: usize) -> &Interval<AnyType>
    requires { HasSpanAt row.now at }
    ensures line { line result.now.0 ≡ line result.now.1 }
    ensures span { span number result.now ≡ span_of (value_at row.now at) }
    ensures points { (t : AnyType) → IsTrue (fits (kind.Span t) (value_at row.now at)) → IsPointOf t result.now.0 × IsPointOf t result.now.1 }
{
    match row.values().get(at) {
        Some(v) => interval_of(v),
        None => unreachable!(),
    }
}

/// The attribute whose cuts are sought: where it stands, and the positions of all listed attributes.
#[derive(Clone, Copy)]
struct Sought<'a> {
    commalist: &'a [usize],
    at: usize,
}

/// Adds the cuts of the attribute by the expression.
#[cycle(pushed)]
fn push_cuts(
    alloc: Global,
    numbers: &mut Vec<i128>,
    e: &Scalar,
    row: &Row,
    of: &Sought<'_>,
) -> Result<(), Memory>
    requires { IsTypedOver row.now (read e.now) }
    ensures { OnOk result (numbers.new.items ≡ numbers.old.items ++ rules.cuts of.now.commalist.now of.now.at (read e.now) row.now) }
{
    match &e.form {
        ScalarForm::Constant(_, _) => Ok(()),
        ScalarForm::Attribute(_) => Ok(()),
        ScalarForm::Not(p) => push_cuts(alloc, numbers, p, row, of),
        ScalarForm::Negate(p) => push_cuts(alloc, numbers, p, row, of),
        ScalarForm::BeginOf(p) => push_cuts(alloc, numbers, p, row, of),
        ScalarForm::EndOf(p) => push_cuts(alloc, numbers, p, row, of),
        ScalarForm::PreOf(_, p) => push_cuts(alloc, numbers, p, row, of),
        ScalarForm::PostOf(_, p) => push_cuts(alloc, numbers, p, row, of),
        ScalarForm::CountOf(_, p) => push_cuts(alloc, numbers, p, row, of),
        ScalarForm::NextOf(_, p) => push_cuts(alloc, numbers, p, row, of),
        ScalarForm::PriorOf(_, p) => push_cuts(alloc, numbers, p, row, of),
        ScalarForm::And(p) => push_in_parts(alloc, numbers, p, row, of),
        ScalarForm::Or(p) => push_in_parts(alloc, numbers, p, row, of),
        ScalarForm::Add(p) => push_in_parts(alloc, numbers, p, row, of),
        ScalarForm::Subtract(p) => push_in_parts(alloc, numbers, p, row, of),
        ScalarForm::Multiply(p) => push_in_parts(alloc, numbers, p, row, of),
        ScalarForm::Divide(p) => push_in_parts(alloc, numbers, p, row, of),
        ScalarForm::Concat(p) => push_in_parts(alloc, numbers, p, row, of),
        ScalarForm::Compare(_, p) => push_in_comparison(alloc, numbers, p, row, of),
        ScalarForm::Allen(_, _, p) => push_in_comparison(alloc, numbers, p, row, of),
        ScalarForm::Member(_, p) => push_in_comparison(alloc, numbers, p, row, of),
        ScalarForm::Select(_, _, p) => push_in_parts(alloc, numbers, p, row, of),
        ScalarForm::UnionOf(_, p) => push_in_parts(alloc, numbers, p, row, of),
        ScalarForm::IntersectOf(_, p) => push_in_parts(alloc, numbers, p, row, of),
        ScalarForm::MinusOf(_, p) => push_in_parts(alloc, numbers, p, row, of),
    }
}

#[cycle(pushed)]
fn push_in_parts(
    alloc: Global,
    numbers: &mut Vec<i128>,
    p: &Parts,
    row: &Row,
    of: &Sought<'_>,
) -> Result<(), Memory>
    requires left { IsTypedOver row.now (read_left p.now) }
    requires right { IsTypedOver row.now (read_right p.now) }
    ensures { OnOk result (numbers.new.items ≡ numbers.old.items ++ (rules.cuts of.now.commalist.now of.now.at (read_left p.now) row.now ++ rules.cuts of.now.commalist.now of.now.at (read_right p.now) row.now)) }
{
    push_cuts(alloc, numbers, &p.left, row, of)?;
    push_cuts(alloc, numbers, &p.right, row, of)?;
    Ok(())
}

#[cycle(pushed)]
fn push_in_comparison(
    alloc: Global,
    numbers: &mut Vec<i128>,
    p: &Parts,
    row: &Row,
    of: &Sought<'_>,
) -> Result<(), Memory>
    requires left { IsTypedOver row.now (read_left p.now) }
    requires right { IsTypedOver row.now (read_right p.now) }
    ensures { OnOk result (numbers.new.items ≡ numbers.old.items ++ (rules.atom_cuts of.now.commalist.now of.now.at (read_left p.now) (read_right p.now) row.now ++
        (rules.cuts of.now.commalist.now of.now.at (read_left p.now) row.now ++ rules.cuts of.now.commalist.now of.now.at (read_right p.now) row.now))) }
{
    push_by_side(alloc, numbers, &p.left, &p.right, row, of)?;
    push_by_side(alloc, numbers, &p.right, &p.left, row, of)?;
    push_in_parts(alloc, numbers, p, row, of)?;
    Ok(())
}

/// Adds the cuts by the other side of a comparison, where the one side is the attribute or its end.
fn push_by_side(
    alloc: Global,
    numbers: &mut Vec<i128>,
    side: &Scalar,
    other: &Scalar,
    row: &Row,
    of: &Sought<'_>,
) -> Result<(), Memory>
    requires { IsTypedOver row.now (read other.now) }
    ensures { OnOk result (numbers.new.items ≡ numbers.old.items ++ rules.side_cuts of.now.commalist.now of.now.at (read side.now) (read other.now) row.now) }
{
    if sweeps(side, other, of) {
        push_by(alloc, numbers, other, row)
    } else {
        Ok(())
    }
}

/// Whether the one side is the attribute or its end, and the other names no listed attribute.
fn sweeps(side: &Scalar, other: &Scalar, of: &Sought<'_>) -> bool
    ensures { result ≡ rules.sweeps of.now.commalist.now of.now.at (swept_attribute of.now.commalist.now (read side.now)) (read other.now) }
{
    match swept_attribute(side, of.commalist) {
        Some(i) => i == of.at && !names_any(other, of.commalist),
        None => false,
    }
}

/// Adds the cuts by what the expression gives.
fn push_by(alloc: Global, numbers: &mut Vec<i128>, e: &Scalar, row: &Row) -> Result<(), Memory>
    requires { IsTypedOver row.now (read e.now) }
    ensures { OnOk result (numbers.new.items ≡ numbers.old.items ++ rules.cuts_of (value (read e.now) row.now)) }
{
    match eval(alloc, e, row) {
        Ok(v) => push_around(numbers, &v),
        Err(Stop::Fault(_)) => Ok(()),
        Err(Stop::Memory) => Err(Memory),
    }
}

/// Adds the cuts by a value.
fn push_around(numbers: &mut Vec<i128>, v: &Value) -> Result<(), Memory>
    requires { (kind : Kind) × IsTrue (fits kind (plain v.now)) }
    ensures { OnOk result (numbers.new.items ≡ numbers.old.items ++ rules.cuts_at (plain v.now)) }
{
    match v {
        Value::Point(p) => push_around_point(numbers, p.number()),
        Value::Span(_) => {
            let i = interval_of(v);
            push_around_span(numbers, i.begin().number(), i.end().number())
        }
        _ => Ok(()),
    }
}

fn push_around_point(numbers: &mut Vec<i128>, p: i64) -> Result<(), Memory>
    ensures { OnOk result (numbers.new.items ≡ numbers.old.items ++ p ∷ (p +ℤ pos 1) ∷ []) }
{
    let n = i128::from(p);
    numbers.extend_from_slice(&[n, n + 1])?;
    Ok(())
}

fn push_around_span(numbers: &mut Vec<i128>, begin: i64, end: i64) -> Result<(), Memory>
    ensures { OnOk result (numbers.new.items ≡ numbers.old.items ++ (begin -ℤ pos 1) ∷ begin ∷ (begin +ℤ pos 1) ∷ end ∷ (end +ℤ pos 1) ∷ (end +ℤ pos 2) ∷ []) }
{
    push_around_begin(numbers, begin)?;
    push_around_end(numbers, end)?;
    Ok(())
}

fn push_around_begin(numbers: &mut Vec<i128>, begin: i64) -> Result<(), Memory>
    ensures { OnOk result (numbers.new.items ≡ numbers.old.items ++ (begin -ℤ pos 1) ∷ begin ∷ (begin +ℤ pos 1) ∷ []) }
{
    let n = i128::from(begin);
    numbers.extend_from_slice(&[n - 1, n, n + 1])?;
    Ok(())
}

fn push_around_end(numbers: &mut Vec<i128>, end: i64) -> Result<(), Memory>
    ensures { OnOk result (numbers.new.items ≡ numbers.old.items ++ end ∷ (end +ℤ pos 1) ∷ (end +ℤ pos 2) ∷ []) }
{
    let n = i128::from(end);
    numbers.extend_from_slice(&[n, n + 1, n + 2])?;
    Ok(())
}

/// The numbers in order, each once.
fn distinct(mut numbers: Vec<i128>) -> Result<Vec<i128>, AllocError>
    ensures numbers { IfOk result (λ v. v.items ≡ in_order int_cmp numbers.items) }
    ensures ascending { IfOk result (λ v. IsStrictlySortedBy int_cmp v.items) }
{
    numbers.sort()?;
    numbers.dedup();
    Ok(numbers)
}

/// The points of the numbers that part the interval.
fn points_inside(
    alloc: Global,
    i: &Interval<AnyType>,
    numbers: &[i128],
) -> Result<Vec<AnyPoint>, Memory>
    requires { line i.now.0 ≡ line i.now.1 }
    ensures numbers { IfOk result (λ v. map number v.items ≡ filter (is_inside (span number i.now)) numbers.now) }
    ensures points { IfOk result (λ v. All (λ p. line p ≡ line i.now.0) v.items) }
{
    let mut points = Vec::new(alloc);
    for n in numbers {
        push_inside(&mut points, i.begin(), i.end(), *n)?;
    }
    Ok(points)
}

/// Adds the point of the number, where it is behind the begin and not behind the end.
fn push_inside(
    points: &mut Vec<AnyPoint>,
    begin: AnyPoint,
    end: AnyPoint,
    n: i128,
) -> Result<(), Memory>
    requires { line begin ≡ line end }
    ensures numbers { OnOk result (map number points.new.items ≡ map number points.old.items ++ filter (is_inside (number begin, number end)) (n ∷ [])) }
    ensures points { All (λ p. line p ≡ line begin) points.old.items → OnOk result (All (λ p. line p ≡ line begin) points.new.items) }
{
    if i128::from(begin.number()) < n && n <= i128::from(end.number()) {
        points.push(point_between(begin, end, n as i64))?;
        Ok(())
    } else {
        Ok(())
    }
}

/// The point of the number, which is between those of two points of one line.
fn point_between(begin: AnyPoint, end: AnyPoint, n: i64) -> AnyPoint
    requires line { line begin ≡ line end }
    requires begin { number begin ≤ℤ n }
    requires end { n ≤ℤ number end }
    ensures number { number result ≡ n }
    ensures line { line result ≡ line begin }
{
    match (begin, end) {
        (AnyPoint::Integer(_), _) => AnyPoint::Integer(n),
        (AnyPoint::Date(_), AnyPoint::Date(_)) => AnyPoint::Date(n as i32),
        (AnyPoint::Ordinal { of, at: _ }, AnyPoint::Ordinal { of: _, at: _ }) => AnyPoint::Ordinal {
            of,
            at: n as u16,
        },
        (AnyPoint::Moment(_), _) => AnyPoint::Moment(n),
        _ => unreachable!(),
    }
}
