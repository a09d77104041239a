// Integers that expressions mean on a row, without a value for each part.
ghost use Rattle.std.specs.Prelude.{◌≡◌, ℕ, ◌<◌, ◌≤ℤ◌, ◌+ℤ◌, ◌-ℤ◌, ◌*ℤ◌, pos, neg_ℤ, length, map, Ok, IfSome, IsSomeAnd};
ghost use Rattle.std.specs.List.{All};
ghost use Rattle.std.specs.Ordering.{int_cmp};
ghost use Rattle.base_core.specs.Outcomes.{then_give};
ghost use Rattle.point_core.specs.Points.{integers};
ghost use Rattle.point_core.specs.declared.fault.Place.{Place};
ghost use Rattle.value_core.specs.Attributes.{value_at};
ghost use Rattle.value_core.specs.Plain.{plain};
ghost use Rattle.value_core.specs.Values.{truth, point, interval};
ghost use Rattle.scalar_core.specs.Answers.{Gives};
ghost use Rattle.scalar_core.specs.Expressions.{read, read_left, read_right};
ghost use Rattle.scalar_core.specs.Kinds.{IsTypedOver};
ghost use Rattle.scalar_core.specs.Operations.{compared, integer, number_of};
ghost use Rattle.scalar_core.specs.ScalarValues.{value};
ghost use Rattle.relation_core.specs.Groups.{rows_at};
ghost use Rattle.meaning_core.specs.Rows.{values_over};
ghost use Rattle.u_summary.specs.Summaries.{total};

use point_core::{AnyPoint, Stop};
use scalar_core::{CompareWord, Parts, Scalar, ScalarForm, eval};
use std::alloc::Global;
use value_core::{Row, Value};

/// The integer that the expression means on the row, made of integers and of the ends of intervals by the operators of integers.
///
/// `None` says nothing: of other forms, and where an operator leaves 64 bits, `eval` gives the value or the fault.
#[cycle(integer)]
pub(crate) fn integer(e: &Scalar, row: &[Value]) -> Option<i64>
    ensures { IfSome result (λ n. value (read e.now) (map plain row.now) ≡ Ok (point integers n)) }
{
    match &e.form {
        ScalarForm::Constant(_, v) => integer_of(v),
        ScalarForm::Attribute(i) => attribute(*i, row),
        ScalarForm::Negate(a) => negative(integer(a, row)),
        ScalarForm::BeginOf(a) => first(ends(a, row)),
        ScalarForm::EndOf(a) => last(ends(a, row)),
        ScalarForm::CountOf(_, a) => count(ends(a, row)),
        ScalarForm::Add(p) => sum(both(p, row)),
        ScalarForm::Subtract(p) => difference(both(p, row)),
        ScalarForm::Multiply(p) => product(both(p, row)),
        _ => None,
    }
}

/// The integers of both parts of an operator.
#[cycle(integer)]
fn both(p: &Parts, row: &[Value]) -> Option<(i64, i64)>
    ensures { IfSome result (λ n. (value (read_left p.now) (map plain row.now) ≡ Ok (point integers n.0))
        × (value (read_right p.now) (map plain row.now) ≡ Ok (point integers n.1))) }
{
    let left = integer(&p.left, row)?;
    let right = integer(&p.right, row)?;
    Some((left, right))
}

/// The sum of the integers that the expression means on the rows with the numbers.
///
/// `None` says nothing: of rows where `integer` is silent, and where a sum on the way leaves 64 bits.
pub(crate) fn sum_over(e: &Scalar, rows: &[Row], numbers: &[usize]) -> Option<i64>
    requires within { All (λ (i : ℕ). i < length rows.now) numbers.now }
    ensures { (place : Place) → IfSome result (λ n. then_give (values_over (read e.now) (rows_at rows.now numbers.now))
        (λ vs. integer place (total (map number_of vs))) ≡ Ok (point integers n)) }
{
    let mut sum = 0i64;
    for number in numbers {
        sum = sum.checked_add(integer(e, rows[*number].values())?)?;
    }
    Some(sum)
}

/// The value of the expression on the row, or its fault.
pub(crate) fn value_on(alloc: Global, e: &Scalar, row: &Row) -> Result<Value, Stop>
    requires { IsTypedOver row.now (read e.now) }
    ensures { Gives plain result (value (read e.now) row.now) }
{
    match integer(e, row.values()) {
        Some(n) => Ok(Value::Point(AnyPoint::Integer(n))),
        None => eval(alloc, e, row),
    }
}

/// Whether the comparison holds of the row, where it is one of two integers that `integer` tells; `None` says nothing.
pub(crate) fn comparison(c: &Scalar, row: &[Value]) -> Option<bool>
    ensures { IfSome result (λ b. value (read c.now) (map plain row.now) ≡ Ok (truth b)) }
{
    match &c.form {
        ScalarForm::Compare(word, p) => compared(*word, both(p, row)),
        _ => None,
    }
}

/// Whether the comparison holds of both integers.
fn compared(word: CompareWord, parts: Option<(i64, i64)>) -> Option<bool>
    ensures { IfSome result (λ b. IsSomeAnd parts (λ p. compared word (int_cmp p.0 p.1) ≡ b)) }
{
    let (left, right) = parts?;
    let order = left.cmp(&right);
    Some(match word {
        CompareWord::Equal => order.is_eq(),
        CompareWord::NotEqual => order.is_ne(),
        CompareWord::Less => order.is_lt(),
        CompareWord::LessEqual => order.is_le(),
        CompareWord::Greater => order.is_gt(),
        CompareWord::GreaterEqual => order.is_ge(),
    })
}

/// The integer that a value is.
fn integer_of(v: &Value) -> Option<i64>
    ensures { IfSome result (λ n. plain v.now ≡ point integers n) }
{
    match v {
        Value::Point(AnyPoint::Integer(n)) => Some(*n),
        _ => None,
    }
}

/// The integer that a row has at a position.
fn attribute(i: usize, row: &[Value]) -> Option<i64>
    ensures { IfSome result (λ n. value_at (map plain row.now) i ≡ point integers n) }
{
    match row.get(i) {
        Some(v) => integer_of(v),
        None => None,
    }
}

/// The ends of the interval of integers that a value is.
fn ends_of(v: &Value) -> Option<(i64, i64)>
    ensures { IfSome result (λ n. (plain v.now ≡ interval integers n) × (n.0 ≤ℤ n.1)) }
{
    match v {
        Value::Span(i) => match (i.begin(), i.end()) {
            (AnyPoint::Integer(begin), AnyPoint::Integer(end)) => Some((begin, end)),
            _ => None,
        },
        _ => None,
    }
}

/// The ends of the interval of integers that a row has at a position.
fn ends_at(i: usize, row: &[Value]) -> Option<(i64, i64)>
    ensures { IfSome result (λ n. (value_at (map plain row.now) i ≡ interval integers n) × (n.0 ≤ℤ n.1)) }
{
    match row.get(i) {
        Some(v) => ends_of(v),
        None => None,
    }
}

/// The ends of the interval of integers that an attribute is.
fn ends(e: &Scalar, row: &[Value]) -> Option<(i64, i64)>
    ensures { IfSome result (λ n. (value (read e.now) (map plain row.now) ≡ Ok (interval integers n)) × (n.0 ≤ℤ n.1)) }
{
    match &e.form {
        ScalarForm::Attribute(i) => ends_at(*i, row),
        _ => None,
    }
}

/// The first of the ends.
fn first(ends: Option<(i64, i64)>) -> Option<i64>
    ensures { IfSome result (λ n. IsSomeAnd ends (λ i. n ≡ i.0)) }
{
    Some(ends?.0)
}

/// The last of the ends.
fn last(ends: Option<(i64, i64)>) -> Option<i64>
    ensures { IfSome result (λ n. IsSomeAnd ends (λ i. n ≡ i.1)) }
{
    Some(ends?.1)
}

/// How many points lie between the ends, these among them.
fn count(ends: Option<(i64, i64)>) -> Option<i64>
    ensures { (place : Place) → IfSome result (λ n. IsSomeAnd ends (λ i. integer place ((i.1 -ℤ i.0) +ℤ pos 1) ≡ Ok (point integers n))) }
{
    let (begin, end) = ends?;
    end.checked_sub(begin)?.checked_add(1)
}

/// The negative of the integer.
fn negative(part: Option<i64>) -> Option<i64>
    ensures { (place : Place) → IfSome result (λ n. IsSomeAnd part (λ a. integer place (neg_ℤ a) ≡ Ok (point integers n))) }
{
    part?.checked_neg()
}

/// The sum of both integers.
fn sum(parts: Option<(i64, i64)>) -> Option<i64>
    ensures { (place : Place) → IfSome result (λ n. IsSomeAnd parts (λ p. integer place (p.0 +ℤ p.1) ≡ Ok (point integers n))) }
{
    let (left, right) = parts?;
    left.checked_add(right)
}

/// The difference of both integers.
fn difference(parts: Option<(i64, i64)>) -> Option<i64>
    ensures { (place : Place) → IfSome result (λ n. IsSomeAnd parts (λ p. integer place (p.0 -ℤ p.1) ≡ Ok (point integers n))) }
{
    let (left, right) = parts?;
    left.checked_sub(right)
}

/// The product of both integers.
fn product(parts: Option<(i64, i64)>) -> Option<i64>
    ensures { (place : Place) → IfSome result (λ n. IsSomeAnd parts (λ p. integer place (p.0 *ℤ p.1) ≡ Ok (point integers n))) }
{
    let (left, right) = parts?;
    left.checked_mul(right)
}
