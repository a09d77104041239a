// Rows in the order of their heading, and the relation that they are.
ghost use Rattle.std.specs.Prelude.{◌≡◌, List, length, map, IfSome};
ghost use Rattle.value_core.specs.Headings.{position_of};
ghost use Rattle.value_core.specs.Values.{rows_of};
ghost use Rattle.relation_core.specs.Agreement.{part_of};
ghost use Rattle.constant_laws.specs.Insertions.{MakesHeading, in_heading};
ghost use Rattle.plain_rows.specs.Lexemes.{Lexeme};
ghost use Rattle.plain_rows.specs.Names.{IsPlainShape};
ghost use Rattle.plain_rows.specs.Swaps.{numbers, swapped};
ghost use Rattle.plain_rows.specs.Tuples.{AreTuples};
ghost use Rattle.plain_rows.specs.Brought.{HasRowsOf};

use crate::headings::{ascend, heading_of};
use crate::rows::pushed;
use crate::swaps::{number_pushed, swap_all, swaps_to};
use std::alloc::Global;
use value_core::{Heading, Kind, Name, Relation, Row, position};

/// For each attribute where its name stands among the columns.
fn places_of(
    alloc: Global,
    columns: &[(Name, Kind)],
    attributes: &[(Name, Kind)],
) -> Option<Vec<usize>>
    ensures { IfSome result (λ v. v.items ≡ map (λ a. position_of columns.now a.0) attributes.now) }
{
    let mut places = Vec::new(alloc);
    for attribute in attributes {
        places = number_pushed(places, position(columns, &attribute.0))?;
    }
    Some(places)
}

/// The row with its values exchanged, none of which is copied; none where there are not as many as places.
fn arranged_row(row: Row, swaps: &[(usize, usize)], places: &[usize]) -> Option<Row>
    requires { swapped swaps.now (numbers (length places.now)) ≡ places.now }
    ensures { IfSome result (λ r. r ≡ part_of places.now row) }
{
    let mut values = row.into_values();
    if values.len() != places.len() {
        return None;
    }
    swap_all(&mut values, swaps);
    Some(Row::make(values))
}

/// The values at the places of each row.
fn arranged_rows(alloc: Global, rows: Vec<Row>, places: &[usize]) -> Option<Vec<Row>>
    ensures { IfSome result (λ v. v.items ≡ map (part_of places.now) rows.items) }
{
    let swaps = swaps_to(alloc, places)?;
    let mut list = Vec::new(alloc);
    for row in rows {
        let made = arranged_row(row, swaps.as_slice(), places)?;
        list = pushed(list, made)?;
    }
    Some(list)
}

/// The rows with their values in the order of the attributes. The rows of columns that are in order stay as they are.
fn arranged(
    alloc: Global,
    rows: Vec<Row>,
    columns: &[(Name, Kind)],
    heading: &Heading,
) -> Option<Vec<Row>>
    requires plain { IsPlainShape columns.now }
    requires makes { MakesHeading heading.now columns.now }
    ensures { IfSome result (λ v. (types : _) (parts : List (List Lexeme)) → AreTuples types columns.now rows.items parts → v.items ≡ map (in_heading columns.now heading.now) rows.items) }
{
    if ascend(columns) {
        return Some(rows);
    }
    let places = places_of(alloc, columns, heading.attributes())?;
    let made = arranged_rows(alloc, rows, places.as_slice())?;
    Some(made)
}

/// The relation of the heading with the rows, if they fit it and are not too many.
fn made_relation(alloc: Global, heading: Heading, rows: Vec<Row>) -> Option<Relation>
    ensures heading { IfSome result (λ r. r.heading ≡ heading) }
    ensures rows { IfSome result (λ r. r.rows ≡ rows_of rows.items) }
{
    match Relation::from_rows(alloc, heading, rows) {
        Ok(relation) => Some(relation),
        Err(_) => None,
    }
}

/// The relation of rows whose values stand under the columns.
pub(crate) fn relation_of(
    alloc: Global,
    columns: &[(Name, Kind)],
    given: Vec<Row>,
) -> Option<Relation>
    requires { IsPlainShape columns.now }
    ensures { IfSome result (λ r. (types : _) (parts : List (List Lexeme)) → AreTuples types columns.now given.items parts → HasRowsOf columns.now given.items r) }
{
    let heading = heading_of(alloc, columns)?;
    let rows = arranged(alloc, given, columns, &heading)?;
    let relation = made_relation(alloc, heading, rows)?;
    Some(relation)
}
