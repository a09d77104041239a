// The values of items on a row.
ghost use Rattle.std.specs.Prelude.{◌≡◌, ◌++◌, map, IfOk};
ghost use Rattle.value_core.specs.Plain.{plain};
ghost use Rattle.scalar_core.specs.Answers.{Gives};
ghost use Rattle.scalar_core.specs.Expressions.{read};
ghost use Rattle.relation_core.specs.Agreement.{names_of};
ghost use Rattle.relation_core.specs.Answers.{Answers};
ghost use Rattle.tree_core.specs.Trees.{read_sets};
ghost use Rattle.meaning_core.specs.Meanings.{condition};
ghost use Rattle.meaning_core.specs.Places.{place_among, places};
ghost use Rattle.meaning_core.specs.Rows.{extended_at, set_names, values_on};
ghost use Rattle.meaning_core.specs.Scalars.{AreTypedOver, IsConditionOver};

use crate::integers::{comparison, value_on};
use crate::places::{pick, place_behind};
use point_core::{Memory, Stop};
use scalar_core::{Scalar, eval};
use std::alloc::Global;
use value_core::{Kind, Name, Row, Value};

/// Whether the condition holds of the row.
pub fn holds(alloc: Global, c: &Scalar, row: &Row) -> Result<bool, Stop>
    requires { IsConditionOver row.now (read c.now) }
    ensures { Answers result (condition (read c.now) row.now) }
{
    match comparison(c, row.values()) {
        Some(b) => Ok(b),
        None => truth_on(alloc, c, row),
    }
}

/// The truth value that the condition has on the row, or its fault.
fn truth_on(alloc: Global, c: &Scalar, row: &Row) -> Result<bool, Stop>
    requires { IsConditionOver row.now (read c.now) }
    ensures { Answers result (condition (read c.now) row.now) }
{
    let value = eval(alloc, c, row)?;
    match value {
        Value::Truth(b) => Ok(b),
        _ => unreachable!(),
    }
}

/// For each attribute of a heading, where its name stands among those of the items and then of another heading.
pub fn set_places(
    alloc: Global,
    sets: &[(Name, Scalar)],
    from: &[(Name, Kind)],
    to: &[(Name, Kind)],
) -> Result<Vec<usize>, Memory>
    ensures { IfOk result (λ list. list.items ≡ places (set_names (read_sets sets.now) ++ names_of from.now) to.now) }
{
    let mut list = Vec::with_capacity(alloc, to.len())?;
    for attribute in to {
        list.push(set_place(sets, from, &attribute.0)?)?;
    }
    Ok(list)
}

/// Where the name stands among those of the items and then of a heading.
fn set_place(sets: &[(Name, Scalar)], from: &[(Name, Kind)], name: &Name) -> Result<usize, Memory>
    ensures { IfOk result (λ place. place ≡ place_among (set_names (read_sets sets.now) ++ names_of from.now) name.now) }
{
    place_behind(place_made(sets, name), sets.len(), from, name)
}

/// Where the name stands among those of the items; past their end where it does not.
fn place_made(sets: &[(Name, Scalar)], name: &Name) -> usize
    ensures { result ≡ place_among (set_names (read_sets sets.now)) name.now }
{
    for (at, set) in sets.iter().enumerate() {
        if set.0 == *name {
            return at;
        }
    }
    sets.len()
}

/// The values of the items on the row, or their first fault.
fn values_on(alloc: Global, row: &Row, sets: &[(Name, Scalar)]) -> Result<Vec<Value>, Stop>
    requires { AreTypedOver row.now (read_sets sets.now) }
    ensures { Gives (λ values. map plain values.items) result (values_on row.now (read_sets sets.now)) }
{
    let mut values = Vec::with_capacity(alloc, sets.len())?;
    for set in sets {
        values.push(value_on(alloc, &set.1, row)?)?;
    }
    Ok(values)
}

/// The row with the values of the items at their places, and its own values at the others.
pub fn extended_row(
    alloc: Global,
    places: &[usize],
    sets: &[(Name, Scalar)],
    row: &Row,
) -> Result<Row, Stop>
    requires { AreTypedOver row.now (read_sets sets.now) }
    ensures { Answers result (extended_at places.now (read_sets sets.now) row.now) }
{
    let made = values_on(alloc, row, sets)?;
    let row = pick(alloc, places, made.as_slice(), row.values())?;
    Ok(row)
}
