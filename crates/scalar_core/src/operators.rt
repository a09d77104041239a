// The operators of row expressions.
ghost use Rattle.std.specs.Prelude.{◌≡◌, Ok, Err, MatchResult};
ghost use Rattle.point_core.specs.declared.fault.Stop.TheVariants.{Fault as Faulted};
ghost use Rattle.value_core.specs.Plain.{plain};
ghost use Rattle.scalar_core.specs.Answers.{seen, Gives};
ghost use Rattle.scalar_core.specs.Kinds.{OneTakes, PairTakes};
ghost use Rattle.scalar_core.specs.Operations.{one_of, pair_of};

use crate::operand::truth_of;
use crate::tree::{AllenWord, CompareWord};
use crate::{arithmetic, comparison, interval, text};
use interval_core::Ends;
use point_core::{AnyType, Fault, Place, Stop};
use std::alloc::Global;
use value_core::Value;

/// An operator on one part.
#[derive(Clone, Copy)]
pub enum OneOp {
    Not,
    Negate,
    BeginOf,
    EndOf,
    PreOf(AnyType),
    PostOf(AnyType),
    CountOf(AnyType),
    NextOf(AnyType),
    PriorOf(AnyType),
}

/// An operator on two parts, both of which are evaluated.
#[derive(Clone, Copy)]
pub enum PairOp {
    Add,
    Subtract,
    Multiply,
    Divide,
    Concat,
    Compare(CompareWord),
    Allen(AllenWord, AnyType),
    Member(AnyType),
    Select(Ends, AnyType),
    UnionOf(AnyType),
    IntersectOf(AnyType),
    MinusOf(AnyType),
}

/// The value of an operator on one value, or its fault.
pub fn apply_one(op: OneOp, place: Place, v: &Value) -> Result<Value, Fault>
    requires { OneTakes op (plain v.now) }
    ensures { seen plain result ≡ one_of op place (plain v.now) }
{
    match op {
        OneOp::Not => Ok(Value::Truth(!truth_of(v))),
        OneOp::Negate => arithmetic::negate(place, v),
        OneOp::BeginOf => Ok(interval::begin_of(v)),
        OneOp::EndOf => Ok(interval::end_of(v)),
        OneOp::PreOf(t) => interval::pre(place, t, v),
        OneOp::PostOf(t) => interval::post(place, t, v),
        OneOp::CountOf(t) => interval::count(place, t, v),
        OneOp::NextOf(t) => interval::next(place, t, v),
        OneOp::PriorOf(t) => interval::prior(place, t, v),
    }
}

/// The value of an operator on two values, or its fault.
pub fn apply_pair(
    alloc: Global,
    op: PairOp,
    place: Place,
    a: &Value,
    b: &Value,
) -> Result<Value, Stop>
    requires { PairTakes op (plain a.now) (plain b.now) }
    ensures { Gives plain result (pair_of op place (plain a.now) (plain b.now)) }
{
    match op {
        PairOp::Add => stopped(arithmetic::add(place, a, b)),
        PairOp::Subtract => stopped(arithmetic::subtract(place, a, b)),
        PairOp::Multiply => stopped(arithmetic::multiply(place, a, b)),
        PairOp::Divide => stopped(arithmetic::divide(place, a, b)),
        PairOp::Concat => text::concat(alloc, place, a, b),
        PairOp::Compare(word) => Ok(comparison::compare(word, a, b)),
        PairOp::Allen(word, t) => Ok(comparison::relate(word, t, a, b)),
        PairOp::Member(t) => Ok(comparison::member(t, a, b)),
        PairOp::Select(ends, t) => stopped(interval::select(place, ends, t, a, b)),
        PairOp::UnionOf(t) => stopped(interval::union(place, t, a, b)),
        PairOp::IntersectOf(t) => stopped(interval::intersect(place, t, a, b)),
        PairOp::MinusOf(t) => stopped(interval::minus(place, t, a, b)),
    }
}

// The same answer, where memory might be wanting too.
fn stopped(answer: Result<Value, Fault>) -> Result<Value, Stop>
    ensures { MatchResult answer (λ v. result ≡ Ok v) (λ f. result ≡ Err (Faulted f)) }
{
    match answer {
        Ok(v) => Ok(v),
        Err(fault) => Err(Stop::Fault(fault)),
    }
}
