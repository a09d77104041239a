// Parts of labels in memory that the labels had.
ghost use Rattle.std.specs.Prelude.{◌≡◌, ◌<◌, length, map, IfOk};
ghost use Rattle.std.specs.Bool.{IsTrue};
ghost use Rattle.std.specs.List.{All, AllPairs};
ghost use Rattle.value_core.specs.Plain.{plain};
ghost use Rattle.relation_core.specs.Agreement.{part_of};

use point_core::Memory;
use std::alloc::Global;
use u_set::part_of_label;
use value_core::{Row, Value};

// Whether each position is less than the next one, and each is below the count.
fn are_picks(positions: &[usize], count: usize) -> bool
    ensures rise { IsTrue result → AllPairs (λ a b. a < b) positions.now }
    ensures below { IsTrue result → All (λ i. i < count) positions.now }
{
    let mut least = 0;
    for at in 0..positions.len() {
        let position = positions[at];
        if position < least || position >= count {
            return false;
        }
        least = position + 1;
    }
    true
}

// Leaves the values at the positions: each is brought to its place by a swap, which moves none that is still to come.
fn picked(values: &mut Vec<Value>, positions: &[usize])
    requires rise { AllPairs (λ a b. a < b) positions.now }
    requires below { All (λ i. i < length values.old.items) positions.now }
    ensures { map plain values.new.items ≡ part_of positions.now (map plain values.old.items) }
{
    for at in 0..positions.len() {
        values.swap(at, positions[at]);
    }
    values.truncate(positions.len());
}

/// The label's values at the positions, in their order; FALSE past its end. Where the positions rise, the label's own memory
/// holds them.
pub fn part_in_place(alloc: Global, label: Row, positions: &[usize]) -> Result<Row, Memory>
    ensures { IfOk result (λ r. r ≡ part_of positions.now label) }
{
    let mut values = label.into_values();
    if are_picks(positions, values.len()) {
        picked(&mut values, positions);
        return Ok(Row::make(values));
    }
    let whole = Row::make(values);
    part_of_label(alloc, &whole, positions)
}
