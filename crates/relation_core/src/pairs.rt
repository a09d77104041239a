// Rows of two relations that agree on all common attributes, put together.
ghost use Rattle.std.specs.Prelude.{◌≡◌, ◌≤◌, ◌<◌, ◌+◌, ◌++◌, ℕ, IfOk, OnOk, MatchResult, length, map, slice_index_or, []};
ghost use Rattle.std.specs.List.{All};
ghost use Rattle.value_core.specs.Values.{Row as PlainRow, most_rows, IsRelation};
ghost use Rattle.relation_core.specs.Agreement.{part_of};
ghost use Rattle.relation_core.specs.Answers.{IsRefusal};
ghost use Rattle.relation_core.specs.Joins.{joined_heading, joined_pairs, paired};

use crate::attributes::joined_places;
use crate::keys::{index, numbers_with};
use crate::names::common_positions;
use crate::parts::part;
use point_core::Memory;
use std::alloc::Global;
use value_core::{Kind, MOST_ROWS, Name, Relation, Row, RowsRefuse, Value};

/// Each row of the left relation with each row of the right one that agrees with it, under the heading of both.
pub(crate) fn joined_pairs(
    alloc: Global,
    left: &Relation,
    right: &Relation,
    heading: &[(Name, Kind)],
) -> Result<Vec<Row>, RowsRefuse>
    requires { heading.now ≡ joined_heading left.now.heading right.now.heading }
    ensures pairs { MatchResult result
        (λ rows. rows.items ≡ joined_pairs left.now.heading right.now.heading left.now.rows right.now.rows)
        (IsRefusal (joined_pairs left.now.heading right.now.heading left.now.rows right.now.rows)) }
    ensures few { IfOk result (λ rows. length rows.items ≤ most_rows) }
    ensures left { IsRelation left.now }
    ensures right { IsRelation right.now }
{
    let ours = left.heading().attributes();
    let theirs = right.heading().attributes();
    let here = common_positions(alloc, ours, ours, theirs)?;
    let there = common_positions(alloc, theirs, ours, theirs)?;
    let places = joined_places(alloc, ours, theirs, heading)?;
    pairs(
        alloc,
        left,
        right,
        here.as_slice(),
        there.as_slice(),
        places.as_slice(),
    )
}

/// Each row of the left relation with each row of the right one that has the same part, by the values at the places among those
/// of both. It stops as soon as they are too many.
fn pairs(
    alloc: Global,
    left: &Relation,
    right: &Relation,
    here: &[usize],
    there: &[usize],
    places: &[usize],
) -> Result<Vec<Row>, RowsRefuse>
    requires here { All (λ (i : ℕ). i < length left.now.heading) here.now }
    requires there { All (λ (i : ℕ). i < length right.now.heading) there.now }
    requires places { All (λ (i : ℕ). i < length left.now.heading + length right.now.heading) places.now }
    ensures pairs { MatchResult result
        (λ rows. rows.items ≡ paired here.now there.now places.now left.now.rows right.now.rows)
        (IsRefusal (paired here.now there.now places.now left.now.rows right.now.rows)) }
    ensures few { IfOk result (λ rows. length rows.items ≤ most_rows) }
{
    let given = left.rows();
    let others = right.rows();
    let index = index(alloc, right, there)?;
    let mut rows = Vec::new(alloc);
    for x in given {
        let key = part(alloc, x, here)?;
        let numbers = numbers_with(alloc, index.as_slice(), &key)?;
        if numbers.len() > MOST_ROWS - rows.len() {
            return Err(RowsRefuse::TooMany);
        }
        add_pairs(alloc, &mut rows, x, others, numbers.as_slice(), places)?;
    }
    Ok(rows)
}

/// Adds the row with each of the others that has one of the numbers.
fn add_pairs(
    alloc: Global,
    rows: &mut Vec<Row>,
    x: &Row,
    others: &[Row],
    numbers: &[usize],
    places: &[usize],
) -> Result<(), Memory>
    requires numbers { All (λ (i : ℕ). i < length others.now) numbers.now }
    requires places { All (λ (y : PlainRow). All (λ (i : ℕ). i < length x.now + length y) places.now) others.now }
    ensures { OnOk result (rows.new.items ≡ rows.old.items
        ++ map (λ i. part_of places.now (x.now ++ slice_index_or others.now i [])) numbers.now) }
{
    for number in numbers {
        rows.push(pair(alloc, x, &others[*number], places)?)?;
    }
    Ok(())
}

/// The values at the places among those of the one row, followed by those of the other.
fn pair(alloc: Global, x: &Row, y: &Row, places: &[usize]) -> Result<Row, Memory>
    requires { All (λ (i : ℕ). i < length x.now + length y.now) places.now }
    ensures { IfOk result (λ r. r ≡ part_of places.now (x.now ++ y.now)) }
{
    let ours = x.values();
    let theirs = y.values();
    let mut values = Vec::with_capacity(alloc, places.len())?;
    for place in places {
        values.push(value_at(ours, theirs, *place).copy(alloc)?)?;
    }
    Ok(Row::make(values))
}

/// The value at the place among the values of the one, followed by those of the other.
fn value_at<'a>(ours: &'a [Value], theirs: &'a [Value], place: usize) -> &'a Value
    requires { place < length ours.now + length theirs.now }
    ensures { (d : _) → result.now ≡ slice_index_or (ours.now ++ theirs.now) place d }
{
    if place < ours.len() {
        &ours[place]
    } else {
        &theirs[place - ours.len()]
    }
}
