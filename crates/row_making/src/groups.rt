// The rows of groups.
ghost use Rattle.std.specs.Prelude.{◌≡◌, ◌<◌, ◌++◌, ℕ, map, length, IfOk};
ghost use Rattle.std.specs.List.{All};
ghost use Rattle.value_core.specs.Plain.{plain};
ghost use Rattle.relation_core.specs.Agreement.{names_of, part_of};
ghost use Rattle.relation_core.specs.Answers.{Answers};
ghost use Rattle.relation_core.specs.Groups.{rows_at};
ghost use Rattle.tree_core.specs.Trees.{read_aggregate};
ghost use Rattle.meaning_core.specs.Places.{place_among, places};
ghost use Rattle.meaning_core.specs.Rows.{aggregate_names, first_row, group_at};
ghost use Rattle.meaning_core.specs.Scalars.{AreSummedOver};

use crate::aggregates::aggregates_on;
use crate::places::{pick, place_behind};
use point_core::{Memory, Stop};
use std::alloc::Global;
use tree_core::Aggregate;
use value_core::{Kind, Name, Row, Value};

/// What the rows of groups are made of: the places of their values, among those of the aggregates and then of a group's first
/// row; the aggregates; and the rows that are grouped.
#[derive(Clone, Copy)]
pub struct Making<'a> {
    pub at: &'a [usize],
    pub aggregates: &'a [Aggregate],
    pub rows: &'a [Row],
}

/// The row of a group, or its first fault.
pub fn group_row(alloc: Global, making: &Making<'_>, numbers: &[usize]) -> Result<Row, Stop>
    requires within { All (λ (i : ℕ). i < length making.now.rows.now) numbers.now }
    requires typed { AreSummedOver making.now.rows.now (map read_aggregate making.now.aggregates.now) }
    ensures { Answers result (group_at making.now.at.now (map read_aggregate making.now.aggregates.now) (rows_at making.now.rows.now numbers.now)) }
{
    let made = aggregates_on(alloc, making.aggregates, making.rows, numbers)?;
    let row = with_first(alloc, making.at, made.as_slice(), making.rows, numbers)?;
    Ok(row)
}

/// The values at the places, among the made ones and then those of the first row with one of the numbers.
fn with_first(
    alloc: Global,
    at: &[usize],
    made: &[Value],
    rows: &[Row],
    numbers: &[usize],
) -> Result<Row, Memory>
    requires { All (λ (i : ℕ). i < length rows.now) numbers.now }
    ensures { IfOk result (λ row. row ≡ part_of at.now (map plain made.now ++ first_row (rows_at rows.now numbers.now))) }
{
    if numbers.is_empty() {
        return pick(alloc, at, made, &[]);
    }
    let first = &rows[numbers[0]];
    pick(alloc, at, made, first.values())
}

/// For each attribute of a heading, where its name stands among those of the aggregates and then of another heading.
pub fn aggregate_places(
    alloc: Global,
    aggregates: &[Aggregate],
    from: &[(Name, Kind)],
    to: &[(Name, Kind)],
) -> Result<Vec<usize>, Memory>
    ensures { IfOk result (λ list. list.items ≡ places (aggregate_names (map read_aggregate aggregates.now) ++ names_of from.now) to.now) }
{
    let mut list = Vec::with_capacity(alloc, to.len())?;
    for attribute in to {
        list.push(aggregate_place(aggregates, from, &attribute.0)?)?;
    }
    Ok(list)
}

/// Where the name stands among those of the aggregates and then of a heading.
fn aggregate_place(
    aggregates: &[Aggregate],
    from: &[(Name, Kind)],
    name: &Name,
) -> Result<usize, Memory>
    ensures { IfOk result (λ place. place ≡ place_among (aggregate_names (map read_aggregate aggregates.now) ++ names_of from.now) name.now) }
{
    place_behind(place_made(aggregates, name), aggregates.len(), from, name)
}

/// Where the name stands among those of the aggregates; past their end where it does not.
fn place_made(aggregates: &[Aggregate], name: &Name) -> usize
    ensures { result ≡ place_among (aggregate_names (map read_aggregate aggregates.now)) name.now }
{
    for (at, aggregate) in aggregates.iter().enumerate() {
        if aggregate.name == *name {
            return at;
        }
    }
    aggregates.len()
}
