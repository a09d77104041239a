// Values of labels, and of two labels together.
ghost use Rattle.std.specs.Prelude.{◌≡◌, ◌++◌, false, map, slice_index_or, IfOk, OnOk};
ghost use Rattle.value_core.specs.Plain.{plain};
ghost use Rattle.value_core.specs.Values.{truth};
ghost use Rattle.relation_core.specs.Agreement.{part_of};
ghost use Rattle.u_set.specs.Boxes.{others};

use cell_boxes::PairRule;
use point_core::Memory;
use std::alloc::Global;
use std::marker::Model;
use u_set::{is_listed, value_or_false};
use value_core::{Row, Value};

// The value at the position of the one list, followed by the other.
fn value_of_both(
    alloc: Global,
    ours: &[Value],
    theirs: &[Value],
    position: usize,
) -> Result<Value, Memory>
    ensures { IfOk result (λ v. plain v ≡ slice_index_or (map plain ours.now ++ map plain theirs.now) position (truth false)) }
{
    if position < ours.len() {
        return value_or_false(alloc, ours, position);
    }
    value_or_false(alloc, theirs, position - ours.len())
}

/// The rule of labels by places: the values at places among those of a left and a right label.
#[derive(Drop)]
pub(crate) struct Places {
    pub list: Vec<usize>,
}

impl Model for Places {
    ghost use Rattle.std.specs.Prelude.{ℕ, List};

    ghost Value = { List ℕ };

    ghost view = { λ p. p.list.items };
}

/// The values at the places among those of both labels.
pub(crate) fn joined_values(
    alloc: Global,
    ours: &[Value],
    theirs: &[Value],
    places: &[usize],
) -> Result<Vec<Value>, Memory>
    ensures { IfOk result (λ v. map plain v.items ≡ part_of places.now (map plain ours.now ++ map plain theirs.now)) }
{
    let mut values = Vec::with_capacity(alloc, places.len())?;
    for place in places {
        let value = value_of_both(alloc, ours, theirs, *place)?;
        values.push(value)?;
    }
    Ok(values)
}

impl PairRule for Places {
    ghost use Rattle.u_join.specs.Pairs.{joined_label};

    type Left = Row;

    type Right = Row;

    type Out = Row;

    ghost means = { joined_label };

    fn apply(&self, alloc: Global, left: &Row, right: &Row) -> Result<Row, Memory> {
        let values = joined_values(alloc, left.values(), right.values(), self.list.as_slice())?;
        Ok(Row::make(values))
    }
}

/// The rule of labels side by side: a left label, followed by the values of a right one that stand at none of the positions.
#[derive(Drop)]
pub(crate) struct Beside {
    pub positions: Vec<usize>,
}

impl Model for Beside {
    ghost use Rattle.std.specs.Prelude.{ℕ, List};

    ghost Value = { List ℕ };

    ghost view = { λ b. b.positions.items };
}

// The same values.
fn copied(alloc: Global, values: &[Value]) -> Result<Vec<Value>, Memory>
    ensures { IfOk result (λ v. map plain v.items ≡ map plain values.now) }
{
    let mut list = Vec::with_capacity(alloc, values.len())?;
    for value in values {
        list.push(value.copy(alloc)?)?;
    }
    Ok(list)
}

// The values at none of the positions, in their order.
fn push_others(
    alloc: Global,
    list: &mut Vec<Value>,
    values: &[Value],
    positions: &[usize],
) -> Result<(), Memory>
    ensures { OnOk result (map plain list.new.items ≡ map plain list.old.items ++ others positions.now (map plain values.now)) }
{
    for (i, value) in values.iter().enumerate() {
        if !is_listed(positions, i) {
            list.push(value.copy(alloc)?)?;
        }
    }
    Ok(())
}

// The values of the one label, followed by those of the other that stand at none of the positions.
fn values_beside(
    alloc: Global,
    ours: &[Value],
    theirs: &[Value],
    positions: &[usize],
) -> Result<Vec<Value>, Memory>
    ensures { IfOk result (λ v. map plain v.items ≡ map plain ours.now ++ others positions.now (map plain theirs.now)) }
{
    let mut values = copied(alloc, ours)?;
    push_others(alloc, &mut values, theirs, positions)?;
    Ok(values)
}

impl PairRule for Beside {
    ghost use Rattle.u_join.specs.Shared.{beside};

    type Left = Row;

    type Right = Row;

    type Out = Row;

    ghost means = { beside };

    fn apply(&self, alloc: Global, left: &Row, right: &Row) -> Result<Row, Memory> {
        let positions = self.positions.as_slice();
        let values = values_beside(alloc, left.values(), right.values(), positions)?;
        Ok(Row::make(values))
    }
}
