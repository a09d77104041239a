// Which expressions are seen to have a value on each row.
ghost use Rattle.std.specs.Prelude.{◌≡◌, ◌&&◌, [], true, IfOk};
ghost use Rattle.scalar_core.specs.Expressions.{read, read_left, read_right};
ghost use Rattle.scalar_core.specs.ScalarValues.{value};
ghost use Rattle.change_rows.specs.RowFilters as rules;
ghost use Rattle.change_rows.specs.RowFilters.{IsTypedSomewhere};

use point_core::{Memory, Stop};
use scalar_core::{Parts, Scalar, ScalarForm, eval};
use std::alloc::Global;
use value_core::Row;

/// Whether the expression names no attribute.
#[cycle(closed)]
fn is_closed(e: &Scalar) -> bool
    ensures { result ≡ rules.is_closed (read e.now) }
{
    match &e.form {
        ScalarForm::Constant(_, _) => true,
        ScalarForm::Attribute(_) => false,
        ScalarForm::Not(p) => is_closed(p),
        ScalarForm::Negate(p) => is_closed(p),
        ScalarForm::BeginOf(p) => is_closed(p),
        ScalarForm::EndOf(p) => is_closed(p),
        ScalarForm::PreOf(_, p) => is_closed(p),
        ScalarForm::PostOf(_, p) => is_closed(p),
        ScalarForm::CountOf(_, p) => is_closed(p),
        ScalarForm::NextOf(_, p) => is_closed(p),
        ScalarForm::PriorOf(_, p) => is_closed(p),
        ScalarForm::And(p) => are_closed(p),
        ScalarForm::Or(p) => are_closed(p),
        ScalarForm::Add(p) => are_closed(p),
        ScalarForm::Subtract(p) => are_closed(p),
        ScalarForm::Multiply(p) => are_closed(p),
        ScalarForm::Divide(p) => are_closed(p),
        ScalarForm::Concat(p) => are_closed(p),
        ScalarForm::Compare(_, p) => are_closed(p),
        ScalarForm::Allen(_, _, p) => are_closed(p),
        ScalarForm::Member(_, p) => are_closed(p),
        ScalarForm::Select(_, _, p) => are_closed(p),
        ScalarForm::UnionOf(_, p) => are_closed(p),
        ScalarForm::IntersectOf(_, p) => are_closed(p),
        ScalarForm::MinusOf(_, p) => are_closed(p),
    }
}

#[cycle(closed)]
fn are_closed(p: &Parts) -> bool
    ensures { result ≡ (rules.is_closed (read_left p.now) && rules.is_closed (read_right p.now)) }
{
    is_closed(&p.left) && is_closed(&p.right)
}

/// Whether the expression, which names no attribute, has a value: it has the same one on each row.
fn has_value(alloc: Global, e: &Scalar) -> Result<bool, Memory>
    requires typed { IsTypedSomewhere (read e.now) }
    requires closed { rules.is_closed (read e.now) ≡ true }
    ensures { IfOk result (λ b. b ≡ rules.has_value (value (read e.now) [])) }
{
    let row = Row::make(Vec::new(alloc));
    match eval(alloc, e, &row) {
        Ok(_) => Ok(true),
        Err(Stop::Fault(_)) => Ok(false),
        Err(Stop::Memory) => Err(Memory),
    }
}

/// Whether the expression names no attribute and has a value.
fn is_valued(alloc: Global, e: &Scalar) -> Result<bool, Memory>
    requires { IsTypedSomewhere (read e.now) }
    ensures { IfOk result (λ b. b ≡ rules.is_valued (read e.now)) }
{
    if is_closed(e) {
        has_value(alloc, e)
    } else {
        Ok(false)
    }
}

/// Whether the expression is seen to have a value on each row.
#[cycle(safe)]
pub(crate) fn is_safe(alloc: Global, e: &Scalar) -> Result<bool, Memory>
    requires { IsTypedSomewhere (read e.now) }
    ensures { IfOk result (λ b. b ≡ rules.is_safe (read e.now)) }
{
    match &e.form {
        ScalarForm::Constant(_, _) => Ok(true),
        ScalarForm::Attribute(_) => Ok(true),
        ScalarForm::Not(p) => is_safe(alloc, p),
        ScalarForm::BeginOf(p) => is_safe(alloc, p),
        ScalarForm::EndOf(p) => is_safe(alloc, p),
        ScalarForm::And(p) => are_safe(alloc, p),
        ScalarForm::Or(p) => are_safe(alloc, p),
        ScalarForm::Compare(_, p) => are_safe(alloc, p),
        ScalarForm::Allen(_, _, p) => are_safe(alloc, p),
        ScalarForm::Member(_, p) => are_safe(alloc, p),
        _ => is_valued(alloc, e),
    }
}

#[cycle(safe)]
fn are_safe(alloc: Global, p: &Parts) -> Result<bool, Memory>
    requires left { IsTypedSomewhere (read_left p.now) }
    requires right { IsTypedSomewhere (read_right p.now) }
    ensures { IfOk result (λ b. b ≡ (rules.is_safe (read_left p.now) && rules.is_safe (read_right p.now))) }
{
    let left = is_safe(alloc, &p.left)?;
    let right = is_safe(alloc, &p.right)?;
    Ok(left && right)
}
