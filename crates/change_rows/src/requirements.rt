// The values that rows have of which a row filter is other than FALSE.
ghost use Rattle.std.specs.Prelude.{◌≡◌, IfOk, IfSome, option_map};
ghost use Rattle.value_core.specs.Plain.{plain};
ghost use Rattle.scalar_core.specs.Expressions.{read, read_left, read_right};
ghost use Rattle.change_rows.specs.Requirements as rules;
ghost use Rattle.change_rows.specs.RowFilters.{IsTypedSomewhere, is_safe};

use crate::safety::is_safe;
use point_core::Memory;
use scalar_core::{CompareWord, Parts, Scalar, ScalarForm};
use std::alloc::Global;
use value_core::{Row, Value};

/// The value of a constant.
fn required_by_constant(alloc: Global, e: &Scalar) -> Result<Option<Value>, Memory>
    ensures { IfOk result (λ o. option_map plain o ≡ rules.required_by_constant (read e.now)) }
{
    match &e.form {
        ScalarForm::Constant(_, v) => Ok(Some(v.copy(alloc)?)),
        _ => Ok(None),
    }
}

/// The constant that the attribute at the position is compared with.
fn required_by_equal(
    alloc: Global,
    position: usize,
    left: &Scalar,
    right: &Scalar,
) -> Result<Option<Value>, Memory>
    ensures { IfOk result (λ o. option_map plain o ≡ rules.required_by_equal position (read left.now) (read right.now)) }
{
    match &left.form {
        ScalarForm::Attribute(i) => {
            if *i == position {
                required_by_constant(alloc, right)
            } else {
                Ok(None)
            }
        }
        _ => Ok(None),
    }
}

/// The constant that the attribute at the position is compared with, where the parts are these.
fn required_by_parts(alloc: Global, position: usize, p: &Parts) -> Result<Option<Value>, Memory>
    ensures { IfOk result (λ o. option_map plain o ≡ rules.required_by_equal position (read_left p.now) (read_right p.now)) }
{
    required_by_equal(alloc, position, &p.left, &p.right)
}

/// The one of the two, where they are the same.
fn if_same(left: Option<Value>, right: Option<Value>) -> Option<Value>
    ensures { option_map plain result ≡ rules.required_by_or (option_map plain left) (option_map plain right) }
{
    match (left, right) {
        (Some(left), Some(right)) => { if left == right { Some(left) } else { None } }
        (Some(_), None) => None,
        (None, _) => None,
    }
}

/// The value that each row has at the position of which the row filter is other than FALSE, where the row filter tells.
#[cycle(required)]
pub(crate) fn required(alloc: Global, position: usize, g: &Scalar) -> Result<Option<Value>, Memory>
    requires { IsTypedSomewhere (read g.now) }
    ensures { IfOk result (λ o. option_map plain o ≡ rules.required position (read g.now)) }
{
    match &g.form {
        ScalarForm::Compare(CompareWord::Equal, p) => required_by_parts(alloc, position, p),
        ScalarForm::And(p) => required_by_and(alloc, position, p),
        ScalarForm::Or(p) => required_by_or(alloc, position, p),
        _ => Ok(None),
    }
}

#[cycle(required)]
fn required_by_and(alloc: Global, position: usize, p: &Parts) -> Result<Option<Value>, Memory>
    requires left { IsTypedSomewhere (read_left p.now) }
    requires right { IsTypedSomewhere (read_right p.now) }
    ensures { IfOk result (λ o. option_map plain o
        ≡ rules.required_by_and (rules.required position (read_left p.now)) (is_safe (read_left p.now)) (rules.required position (read_right p.now))) }
{
    match required(alloc, position, &p.left)? {
        Some(value) => Ok(Some(value)),
        None => {
            if is_safe(alloc, &p.left)? {
                required(alloc, position, &p.right)
            } else {
                Ok(None)
            }
        }
    }
}

#[cycle(required)]
fn required_by_or(alloc: Global, position: usize, p: &Parts) -> Result<Option<Value>, Memory>
    requires left { IsTypedSomewhere (read_left p.now) }
    requires right { IsTypedSomewhere (read_right p.now) }
    ensures { IfOk result (λ o. option_map plain o ≡ rules.required_by_or (rules.required position (read_left p.now)) (rules.required position (read_right p.now))) }
{
    let left = required(alloc, position, &p.left)?;
    let right = required(alloc, position, &p.right)?;
    Ok(if_same(left, right))
}

/// The values that each row has at the positions of which the row filter is other than FALSE, where the row filter tells them all.
pub(crate) fn required_row(
    alloc: Global,
    positions: &[usize],
    g: &Scalar,
) -> Result<Option<Row>, Memory>
    requires { IsTypedSomewhere (read g.now) }
    ensures { IfOk result (λ o. IfSome o (rules.AreRequired (read g.now) positions.now)) }
{
    let mut values = Vec::with_capacity(alloc, positions.len())?;
    for position in positions {
        match required(alloc, *position, g)? {
            Some(value) => values.push(value)?,
            None => return Ok(None),
        }
    }
    Ok(Some(Row::make(values)))
}
