// The rows of boxes, as a relation.
ghost use Rattle.std.specs.Prelude.{◌≡◌, ℕ, List, ◌∷◌, drop, get_or, slice_index_or, map, IfOk, IsTrue, MatchResult};
ghost use Rattle.std.specs.Vec.Iter.{into_iter_items};
ghost use Rattle.std.specs.List.{All};
ghost use Rattle.point_core.specs.Points.{line_of, number, IsPointOf};
ghost use Rattle.value_core.specs.Attributes.{among};
ghost use Rattle.cell_packing.specs.Packed.{nowhere};
ghost use Rattle.value_core.specs.Plain.{plain};
ghost use Rattle.value_core.specs.declared.value.Value.{Value as Held};
ghost use Rattle.value_core.specs.Relations.{all_fit};
ghost use Rattle.value_core.specs.Values.{interval, fits, fits_heading, rows_of};
ghost use Rattle.relation_core.specs.Answers.{IsAnswer, IsRefusal};
ghost use Rattle.relation_core.specs.Parts.{kind_at};
ghost use Rattle.cell_core.specs.Boxes.{IsBox};
ghost use Rattle.cell_core.specs.Cells.{box_numbers, row_numbers};
ghost use Rattle.u_set.specs.Boxes.{AreIntervals, place_of, type_of, types_at, others, unboxed};

use crate::intervals::value_of;
use crate::positions::{is_listed, place_of, type_of};
use cell_core::{BoxRow, Sides};
use point_core::{AnyType, Memory};
use std::alloc::Global;
use std::vec::IntoIter;
use value_core::{Heading, Kind, Name, Relation, Row, RowsRefuse, Value};

// The value of a listed attribute.
fn side_value(
    heading: &[(Name, Kind)],
    commalist: &[usize],
    i: usize,
    sides: &Sides<AnyType>,
) -> Value
    requires intervals { AreIntervals heading.now commalist.now }
    requires listed { IsTrue (among commalist.now i) }
    requires sides { IsBox IsPointOf (types_at heading.now commalist.now) sides.now }
    ensures value { plain result ≡ interval (line_of (type_of (kind_at heading.now i))) (get_or (box_numbers number sides.now) (place_of commalist.now i) nowhere) }
    ensures fits { IsTrue (fits (kind_at heading.now i) (plain result)) }
{
    value_of(type_of(heading[i].1), &sides.list[place_of(commalist, i)])
}

// The next of the values; FALSE where there is none.
fn next_value(values: &mut IntoIter<Value, Global>) -> Value
    ensures { (x : Held) (xs : List Held) → into_iter_items values.old ≡ x ∷ xs → (result ≡ x) × (into_iter_items values.new ≡ xs) }
{
    match values.next() {
        Some(value) => value,
        None => Value::Truth(false),
    }
}

// The row of the intervals and of the other values, which are moved.
fn to_row(
    alloc: Global,
    heading: &[(Name, Kind)],
    commalist: &[usize],
    label: Vec<Value>,
    sides: &Sides<AnyType>,
) -> Result<Row, Memory>
    requires intervals { AreIntervals heading.now commalist.now }
    requires sides { IsBox IsPointOf (types_at heading.now commalist.now) sides.now }
    requires label { IsTrue (fits_heading (others commalist.now heading.now) (map plain label.items)) }
    ensures row { IfOk result (λ r. r ≡ unboxed heading.now commalist.now (map plain label.items, box_numbers number sides.now)) }
    ensures fits { IfOk result (λ r. IsTrue (fits_heading heading.now r)) }
{
    let mut rest = label.into_iter();
    let mut values = Vec::with_capacity(alloc, heading.len())?;
    for i in 0..heading.len() {
        if is_listed(commalist, i) {
            values.push(side_value(heading, commalist, i, sides))?;
        } else {
            values.push(next_value(&mut rest))?;
        }
    }
    Ok(Row::make(values))
}

/// The row of each box.
pub(crate) fn to_rows(
    alloc: Global,
    heading: &[(Name, Kind)],
    commalist: &[usize],
    boxes: Vec<BoxRow<AnyType, Row>>,
) -> Result<Vec<Row>, Memory>
    requires intervals { AreIntervals heading.now commalist.now }
    requires sides { All (λ b. IsBox IsPointOf (types_at heading.now commalist.now) b.1) boxes.items }
    requires labels { All (λ b. IsTrue (fits_heading (others commalist.now heading.now) b.0)) boxes.items }
    ensures rows { IfOk result (λ v. v.items ≡ map (unboxed heading.now commalist.now) (map (row_numbers number) boxes.items)) }
    ensures fits { IfOk result (λ v. IsTrue (all_fit heading.now v.items)) }
{
    let mut rows = Vec::with_capacity(alloc, boxes.len())?;
    for b in boxes {
        let label = b.label.into_values();
        let row = to_row(alloc, heading, commalist, label, &b.sides)?;
        rows.push(row)?;
    }
    Ok(rows)
}

/// The relation of the heading with the rows of the boxes: the sides of a box are the intervals at the positions, its label the other
/// values. Boxes that are given twice fall together.
pub fn from_boxes(
    alloc: Global,
    heading: Heading,
    commalist: &[usize],
    boxes: Vec<BoxRow<AnyType, Row>>,
) -> Result<Relation, RowsRefuse>
    requires intervals { AreIntervals heading commalist.now }
    requires sides { All (λ b. IsBox IsPointOf (types_at heading commalist.now) b.1) boxes.items }
    requires labels { All (λ b. IsTrue (fits_heading (others commalist.now heading) b.0)) boxes.items }
    ensures { let rows = rows_of (map (unboxed heading commalist.now) (map (row_numbers number) boxes.items)) in
        MatchResult result (IsAnswer heading rows) (IsRefusal rows) }
{
    let rows = to_rows(alloc, heading.attributes(), commalist, boxes)?;
    Relation::of_fitting(heading, rows)
}
