// Labels: values of rows and their parts, in memory of their own.
ghost use Rattle.std.specs.Prelude.{◌≡◌, false, map, slice_index_or, IfOk};
ghost use Rattle.value_core.specs.Plain.{plain};
ghost use Rattle.value_core.specs.Values.{truth};
ghost use Rattle.relation_core.specs.Agreement.{part_of};
ghost use Rattle.u_set.specs.Boxes.{others};

use crate::positions::is_listed;
use point_core::Memory;
use std::alloc::Global;
use value_core::{Row, Value};

/// The values at none of the positions, in their order.
pub fn label_of(alloc: Global, values: &[Value], commalist: &[usize]) -> Result<Row, Memory>
    ensures { IfOk result (λ r. r ≡ others commalist.now (map plain values.now)) }
{
    let mut label = Vec::with_capacity(alloc, values.len().saturating_sub(commalist.len()))?;
    for (i, value) in values.iter().enumerate() {
        if !is_listed(commalist, i) {
            label.push(value.copy(alloc)?)?;
        }
    }
    Ok(Row::make(label))
}

/// The value at the position, and FALSE past the end.
pub fn value_or_false(alloc: Global, values: &[Value], position: usize) -> Result<Value, Memory>
    ensures { IfOk result (λ v. plain v ≡ slice_index_or (map plain values.now) position (truth false)) }
{
    if position < values.len() {
        let value = values[position].copy(alloc)?;
        return Ok(value);
    }
    Ok(Value::Truth(false))
}

/// The label's values at the positions, in their order; FALSE past its end.
pub fn part_of_label(alloc: Global, label: &Row, positions: &[usize]) -> Result<Row, Memory>
    ensures { IfOk result (λ r. r ≡ part_of positions.now label.now) }
{
    let all = label.values();
    let mut values = Vec::with_capacity(alloc, positions.len())?;
    for position in positions {
        let value = value_or_false(alloc, all, *position)?;
        values.push(value)?;
    }
    Ok(Row::make(values))
}
