// Rows of made values and of the values of another row, by the names of a heading.
ghost use Rattle.std.specs.Prelude.{◌≡◌, ◌+◌, ◌++◌, map, nat_lt, if◌then◌else◌, IfOk, slice_index_or, false};
ghost use Rattle.value_core.specs.Plain.{plain};
ghost use Rattle.value_core.specs.Values.{truth};
ghost use Rattle.relation_core.specs.Agreement.{names_of, part_of};
ghost use Rattle.meaning_core.specs.Places.{place_among};

use point_core::Memory;
use std::alloc::Global;
use value_core::{Kind, Name, Row, Value, position};

/// Where a name stands among made ones and then those of a heading, by its place among the made ones and their number.
pub(crate) fn place_behind(
    at: usize,
    made: usize,
    from: &[(Name, Kind)],
    name: &Name,
) -> Result<usize, Memory>
    ensures { IfOk result (λ place. place ≡ (if nat_lt at made then at else made + place_among (names_of from.now) name.now)) }
{
    if at < made {
        return Ok(at);
    }
    made.checked_add(place_in(from, name)).ok_or(Memory)
}

/// Where the name stands among those of a heading; past their end where it does not.
fn place_in(from: &[(Name, Kind)], name: &Name) -> usize
    ensures { result ≡ place_among (names_of from.now) name.now }
{
    position(from, name)
}

/// The row of the values at the places: first the made ones, then those of another row.
pub fn pick(alloc: Global, places: &[usize], made: &[Value], row: &[Value]) -> Result<Row, Memory>
    ensures { IfOk result (λ r. r ≡ part_of places.now (map plain made.now ++ map plain row.now)) }
{
    let mut values = Vec::with_capacity(alloc, places.len())?;
    for place in places {
        values.push(value_at(alloc, made, row, *place)?)?;
    }
    Ok(Row::make(values))
}

/// The value at the place; FALSE past the end.
fn value_at(alloc: Global, made: &[Value], row: &[Value], place: usize) -> Result<Value, Memory>
    ensures { IfOk result (λ v. plain v ≡ slice_index_or (map plain made.now ++ map plain row.now) place (truth false)) }
{
    if place < made.len() {
        return made[place].copy(alloc);
    }
    match row.get(place - made.len()) {
        Some(value) => value.copy(alloc),
        None => Ok(Value::Truth(false)),
    }
}
