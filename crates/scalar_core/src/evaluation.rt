// The value of a row expression over a row.
ghost use Rattle.std.specs.Prelude.{◌≡◌, ℕ, Ok, Some, IsTrue, IfOk, slice_get};
ghost use Rattle.base_core.specs.Outcomes.{then_give, both};
ghost use Rattle.value_core.specs.declared.kind.Kind.{Kind};
ghost use Rattle.value_core.specs.Attributes.{value_at};
ghost use Rattle.value_core.specs.Plain.{plain};
ghost use Rattle.value_core.specs.Values.{Heading, fits, fits_heading};
ghost use Rattle.scalar_core.specs.Answers.{Gives};
ghost use Rattle.scalar_core.specs.Expressions.{one, pair, and_expr, or_expr, attribute as attribute_expr, read, read_left, read_right};
ghost use Rattle.scalar_core.specs.Kinds.{IsTyped, IsTypedOver};
ghost use Rattle.scalar_core.specs.ScalarValues.{value};

use crate::operand::truth_of;
use crate::operators::{OneOp, PairOp, apply_one, apply_pair};
use crate::tree::{Parts, Scalar, ScalarForm};
use point_core::{Place, Stop};
use std::alloc::Global;
use value_core::{Row, Value};

/// The value of an expression over a row of the heading for which it is typed, or its first fault.
pub fn eval(alloc: Global, e: &Scalar, row: &Row) -> Result<Value, Stop>
    requires { IsTypedOver row.now (read e.now) }
    ensures value { Gives plain result (value (read e.now) row.now) }
    ensures kind { (heading : Heading) (kind : Kind) → IsTrue (fits_heading heading row.now) → IsTyped heading (read e.now) kind
        → IfOk result (λ v. IsTrue (fits kind (plain v))) }
{
    answer(alloc, e, row)
}

#[cycle(answer)]
fn answer(alloc: Global, e: &Scalar, row: &Row) -> Result<Value, Stop>
    requires { IsTypedOver row.now (read e.now) }
    ensures { Gives plain result (value (read e.now) row.now) }
{
    match &e.form {
        ScalarForm::Constant(_, v) => constant(alloc, v),
        ScalarForm::Attribute(i) => attribute(alloc, e.place, *i, row),
        ScalarForm::And(p) => and(alloc, e.place, p, row),
        ScalarForm::Or(p) => or(alloc, e.place, p, row),
        ScalarForm::Not(a) => single(alloc, OneOp::Not, e.place, a, row),
        ScalarForm::Negate(a) => single(alloc, OneOp::Negate, e.place, a, row),
        ScalarForm::BeginOf(a) => single(alloc, OneOp::BeginOf, e.place, a, row),
        ScalarForm::EndOf(a) => single(alloc, OneOp::EndOf, e.place, a, row),
        ScalarForm::PreOf(t, a) => single(alloc, OneOp::PreOf(*t), e.place, a, row),
        ScalarForm::PostOf(t, a) => single(alloc, OneOp::PostOf(*t), e.place, a, row),
        ScalarForm::CountOf(t, a) => single(alloc, OneOp::CountOf(*t), e.place, a, row),
        ScalarForm::NextOf(t, a) => single(alloc, OneOp::NextOf(*t), e.place, a, row),
        ScalarForm::PriorOf(t, a) => single(alloc, OneOp::PriorOf(*t), e.place, a, row),
        ScalarForm::Add(p) => two(alloc, PairOp::Add, e.place, p, row),
        ScalarForm::Subtract(p) => two(alloc, PairOp::Subtract, e.place, p, row),
        ScalarForm::Multiply(p) => two(alloc, PairOp::Multiply, e.place, p, row),
        ScalarForm::Divide(p) => two(alloc, PairOp::Divide, e.place, p, row),
        ScalarForm::Concat(p) => two(alloc, PairOp::Concat, e.place, p, row),
        ScalarForm::Compare(w, p) => two(alloc, PairOp::Compare(*w), e.place, p, row),
        ScalarForm::Allen(w, t, p) => two(alloc, PairOp::Allen(*w, *t), e.place, p, row),
        ScalarForm::Member(t, p) => two(alloc, PairOp::Member(*t), e.place, p, row),
        ScalarForm::Select(b, t, p) => two(alloc, PairOp::Select(*b, *t), e.place, p, row),
        ScalarForm::UnionOf(t, p) => two(alloc, PairOp::UnionOf(*t), e.place, p, row),
        ScalarForm::IntersectOf(t, p) => two(alloc, PairOp::IntersectOf(*t), e.place, p, row),
        ScalarForm::MinusOf(t, p) => two(alloc, PairOp::MinusOf(*t), e.place, p, row),
    }
}

// A constant has its value.
fn constant(alloc: Global, v: &Value) -> Result<Value, Stop>
    ensures { Gives plain result (Ok (plain v.now)) }
{
    Ok(v.copy(alloc)?)
}

// An attribute has the row's value at its position.
fn attribute(alloc: Global, place: Place, i: usize, row: &Row) -> Result<Value, Stop>
    requires { IsTypedOver row.now (attribute_expr place i) }
    ensures { Gives plain result (value (attribute_expr place i) row.now) }
{
    match row.values().get(i) {
        Some(v) => constant(alloc, v),
        None => unreachable!(),
    }
}

// The operator on the value of its part.
#[cycle(answer)]
fn single(alloc: Global, op: OneOp, place: Place, a: &Scalar, row: &Row) -> Result<Value, Stop>
    requires { IsTypedOver row.now (one op place (read a.now)) }
    ensures { Gives plain result (value (one op place (read a.now)) row.now) }
{
    let v = answer(alloc, a, row)?;
    Ok(apply_one(op, place, &v)?)
}

// The operator on the values of both its parts.
#[cycle(answer)]
fn two(alloc: Global, op: PairOp, place: Place, p: &Parts, row: &Row) -> Result<Value, Stop>
    requires { IsTypedOver row.now (pair op place (read_left p.now) (read_right p.now)) }
    ensures { Gives plain result (value (pair op place (read_left p.now) (read_right p.now)) row.now) }
{
    let a = answer(alloc, &p.left, row)?;
    let b = answer(alloc, &p.right, row)?;
    apply_pair(alloc, op, place, &a, &b)
}

// FALSE on the left decides.
#[cycle(answer)]
fn and(alloc: Global, place: Place, p: &Parts, row: &Row) -> Result<Value, Stop>
    requires { IsTypedOver row.now (and_expr place (read_left p.now) (read_right p.now)) }
    ensures { Gives plain result (value (and_expr place (read_left p.now) (read_right p.now)) row.now) }
{
    let first = answer(alloc, &p.left, row)?;
    if truth_of(&first) {
        answer(alloc, &p.right, row)
    } else {
        Ok(first)
    }
}

// TRUE on the left decides.
#[cycle(answer)]
fn or(alloc: Global, place: Place, p: &Parts, row: &Row) -> Result<Value, Stop>
    requires { IsTypedOver row.now (or_expr place (read_left p.now) (read_right p.now)) }
    ensures { Gives plain result (value (or_expr place (read_left p.now) (read_right p.now)) row.now) }
{
    let left = answer(alloc, &p.left, row)?;
    if truth_of(&left) {
        Ok(left)
    } else {
        answer(alloc, &p.right, row)
    }
}
