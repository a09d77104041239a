// The rows of a relation of which a row filter is not FALSE, with all rows that have their labels.
ghost use Rattle.std.specs.Prelude.{◌≡◌, ◌++◌, ◌∷◌, [], Some, filter, IfOk, IfSome, OnOk, option_map, if◌then◌else◌};
ghost use Rattle.std.specs.List.{All};
ghost use Rattle.value_core.specs.declared.kind.Kind.TheVariants.{Truth};
ghost use Rattle.value_core.specs.Plain.{plain};
ghost use Rattle.scalar_core.specs.Expressions.{read};
ghost use Rattle.scalar_core.specs.Kinds.{IsTyped};
ghost use Rattle.relation_core.specs.Operators.{subtracted};
ghost use Rattle.relation_core.specs.Hashes.{AreHashesOf};
ghost use Rattle.meaning_core.specs.Meanings.{condition};
ghost use Rattle.meaning_core.specs.Scalars.{IsConditionOver};
ghost use Rattle.u_set.specs.Boxes.{AreIntervals};
ghost use Rattle.change_rows.specs.Affected.{IsClosedPart};
ghost use Rattle.change_rows.specs.Requirements.{required, AreRequired};
ghost use Rattle.change_rows.specs.RowFilters.{stays, AreTold, IsTypedSomewhere};

use crate::requirements::{required, required_row};
use point_core::{Label, Memory, Stop};
use relation_core::{Hashes, keep, row_hash, selection};
use row_making::holds;
use scalar_core::Scalar;
use std::alloc::Global;
use u_constraints::{touched_with, with_prefix};
use u_set::outside;
use value_core::{Relation, Row, Value};

/// So many rows at most are tried to see whether a change affects few.
const MOST_TRIED_ROWS: usize = 64;

/// The rows that a change affects seem to be many where they are more than one of so many that are tried.
const TRIED_ROWS_FOR_ONE: usize = 4;

/// Whether the condition is other than FALSE of the row.
fn stays(alloc: Global, g: &Scalar, row: &Row) -> Result<bool, Memory>
    requires { IsConditionOver row.now (read g.now) }
    ensures { IfOk result (λ b. b ≡ stays (condition (read g.now) row.now)) }
{
    match holds(alloc, g, row) {
        Ok(b) => Ok(b),
        Err(Stop::Fault(_)) => Ok(true),
        Err(Stop::Memory) => Err(Memory),
    }
}

/// Adds a copy of the row, if the condition is other than FALSE of it.
fn keep_staying(alloc: Global, kept: &mut Vec<Row>, g: &Scalar, row: &Row) -> Result<(), Memory>
    requires { IsConditionOver row.now (read g.now) }
    ensures { OnOk result (kept.new.items ≡ kept.old.items ++ (if stays (condition (read g.now) row.now) then row.now ∷ [] else [])) }
{
    let row_stays = stays(alloc, g, row)?;
    keep(alloc, kept, row, row_stays)
}

/// The rows of which the condition is other than FALSE.
fn rows_that_stay(alloc: Global, g: &Scalar, rows: &[Row]) -> Result<Vec<Row>, Memory>
    requires { All (λ row. IsConditionOver row (read g.now)) rows.now }
    ensures { IfOk result (λ v. v.items ≡ filter (λ row. stays (condition (read g.now) row)) rows.now) }
{
    let mut kept = Vec::new(alloc);
    for row in rows {
        keep_staying(alloc, &mut kept, g, row)?;
    }
    Ok(kept)
}

/// The row of one value.
fn row_of(alloc: Global, v: Value) -> Result<Row, Memory>
    ensures { IfOk result (λ r. r ≡ plain v ∷ []) }
{
    let mut values = Vec::with_capacity(alloc, 1)?;
    values.push(v)?;
    Ok(Row::make(values))
}

/// The rows of the relation of which the condition is other than FALSE, sought among those that begin with this value: of the others
/// it is FALSE.
fn rows_found(alloc: Global, g: &Scalar, value: &Relation, first: Value) -> Result<Vec<Row>, Memory>
    requires typed { IsTyped value.now.heading (read g.now) Truth }
    requires required { required 0 (read g.now) ≡ Some (plain first) }
    ensures { IfOk result (λ v. v.items ≡ filter (λ row. stays (condition (read g.now) row)) value.now.rows) }
{
    let values = row_of(alloc, first)?;
    let given = value.rows();
    let found = with_prefix(given, &values);
    let kept = rows_that_stay(alloc, g, found)?;
    Ok(kept)
}

/// The rows of the relation of which the condition is other than FALSE, sought among those that have the hash of these values: of the
/// others it is FALSE. The hashes are passed over; a row is looked at alone where its hash is this one.
fn rows_with_hash(
    alloc: Global,
    g: &Scalar,
    value: &Relation,
    hashes: &Hashes,
    values: &Row,
) -> Result<Vec<Row>, Memory>
    requires typed { IsTyped value.now.heading (read g.now) Truth }
    requires hashes { AreHashesOf value.now.rows hashes.now }
    requires required { AreRequired (read g.now) hashes.now.positions values.now }
    ensures { IfOk result (λ v. v.items ≡ filter (λ row. stays (condition (read g.now) row)) value.now.rows) }
{
    let given = value.rows();
    let sought = row_hash(values);
    let mut kept = Vec::new(alloc);
    for (at, hash) in hashes.list().iter().enumerate() {
        if *hash == sought {
            keep_staying(alloc, &mut kept, g, &given[at])?;
        }
    }
    Ok(kept)
}

/// The rows of the relation of which the condition is other than FALSE: by the first of the hashes at whose positions the condition tells
/// the values, and else by one pass over all rows.
fn rows_by_some(
    alloc: Global,
    g: &Scalar,
    value: &Relation,
    hashes: &[Hashes],
) -> Result<Vec<Row>, Memory>
    requires typed { IsTyped value.now.heading (read g.now) Truth }
    requires hashes { All (AreHashesOf value.now.rows) hashes.now }
    ensures { IfOk result (λ v. v.items ≡ filter (λ row. stays (condition (read g.now) row)) value.now.rows) }
{
    for own in hashes {
        if let Some(values) = required_row(alloc, own.positions(), g)? {
            return rows_with_hash(alloc, g, value, own, &values);
        }
    }
    rows_that_stay(alloc, g, value.rows())
}

/// The rows of the relation of which the condition is other than FALSE: by search, where the condition tells the first value, and else by
/// the hashes of the relation's rows, or by one pass over all rows.
fn rows_suspected(
    alloc: Global,
    g: &Scalar,
    value: &Relation,
    hashes: &[Hashes],
) -> Result<Vec<Row>, Memory>
    requires typed { IsTyped value.now.heading (read g.now) Truth }
    requires hashes { All (AreHashesOf value.now.rows) hashes.now }
    ensures { IfOk result (λ v. v.items ≡ filter (λ row. stays (condition (read g.now) row)) value.now.rows) }
{
    let first = required(alloc, 0, g)?;
    match first {
        Some(v) => rows_found(alloc, g, value, v),
        None => rows_by_some(alloc, g, value, hashes),
    }
}

/// The rows of the relation of which the condition is other than FALSE: by the hashes of the relation's rows, where these serve.
fn suspects(
    alloc: Global,
    value: &Relation,
    g: &Scalar,
    hashes: &[Hashes],
) -> Result<Relation, Memory>
    requires typed { IsTyped value.now.heading (read g.now) Truth }
    requires hashes { All (AreHashesOf value.now.rows) hashes.now }
    ensures { IfOk result (λ r. (r.heading ≡ value.now.heading) × (r.rows ≡ filter (λ row. stays (condition (read g.now) row)) value.now.rows)) }
{
    let rows = rows_suspected(alloc, g, value, hashes)?;
    let relation = selection(alloc, value, rows)?;
    Ok(relation)
}

/// The rows of the relation that have the label of a row of which the condition is other than FALSE: by the hashes of the relation's rows,
/// where some are for the positions of the label.
fn part_by(
    alloc: Global,
    value: &Relation,
    commalist: &[usize],
    g: &Scalar,
    hashes: &[Hashes],
) -> Result<Relation, Memory>
    requires intervals { AreIntervals value.now.heading commalist.now }
    requires typed { IsTyped value.now.heading (read g.now) Truth }
    requires hashes { All (AreHashesOf value.now.rows) hashes.now }
    ensures part { IfOk result (IsClosedPart commalist.now value.now) }
    ensures others { IfOk result (λ p. AreTold (Some (read g.now)) (subtracted value.now.rows p.rows)) }
{
    let label = outside(alloc, value.heading().attributes(), commalist)?;
    let few = suspects(alloc, value, g, hashes)?;
    let part = touched_with(alloc, value, &few, label.as_slice(), hashes)?;
    Ok(part)
}

/// Whether the condition is other than FALSE of the row at a place, if there is one.
fn stays_at(alloc: Global, g: &Scalar, rows: &[Row], at: usize) -> Result<bool, Memory>
    requires { All (λ row. IsConditionOver row (read g.now)) rows.now }
{
    if at < rows.len() {
        return stays(alloc, g, &rows[at]);
    }
    Ok(false)
}

/// Whether the condition is other than FALSE of more than a quarter of the rows, by a few that stand evenly among them: an estimate.
fn seem_many(alloc: Global, g: &Scalar, rows: &[Row]) -> Result<bool, Memory>
    requires { All (λ row. IsConditionOver row (read g.now)) rows.now }
{
    let step = (rows.len() / MOST_TRIED_ROWS).max(1);
    let mut many: usize = 0;
    for number in 0..MOST_TRIED_ROWS {
        if stays_at(alloc, g, rows, step.saturating_mul(number))? {
            many = many.saturating_add(1);
        }
    }
    Ok(many > rows.len().min(MOST_TRIED_ROWS) / TRIED_ROWS_FOR_ONE)
}

/// Whether the condition tells the values at the positions of some of the hashes.
fn are_sought(alloc: Global, g: &Scalar, hashes: &[Hashes]) -> Result<bool, Memory>
    requires { IsTypedSomewhere (read g.now) }
{
    for own in hashes {
        if required_row(alloc, own.positions(), g)?.is_some() {
            return Ok(true);
        }
    }
    Ok(false)
}

/// Whether the condition seems to be other than FALSE of many rows of the relation. Those that some of the hashes give are few, since
/// there are hashes for keys.
fn seems_wide(
    alloc: Global,
    g: &Scalar,
    value: &Relation,
    hashes: &[Hashes],
) -> Result<bool, Memory>
    requires { IsTyped value.now.heading (read g.now) Truth }
{
    if are_sought(alloc, g, hashes)? {
        return Ok(false);
    }
    seem_many(alloc, g, value.rows())
}

/// The rows of the relation that have the label of a row of which the condition is other than FALSE, unless these seem to be many.
fn part_where(
    alloc: Global,
    value: &Relation,
    commalist: &[usize],
    g: &Scalar,
    hashes: &[Hashes],
) -> Result<Option<Relation>, Memory>
    requires intervals { AreIntervals value.now.heading commalist.now }
    requires typed { IsTyped value.now.heading (read g.now) Truth }
    requires hashes { All (AreHashesOf value.now.rows) hashes.now }
    ensures part { IfOk result (λ o. IfSome o (IsClosedPart commalist.now value.now)) }
    ensures others { IfOk result (λ o. IfSome o (λ p. AreTold (Some (read g.now)) (subtracted value.now.rows p.rows))) }
{
    if seems_wide(alloc, g, value, hashes)? {
        return Ok(None);
    }
    let part = part_by(alloc, value, commalist, g, hashes)?;
    Ok(Some(part))
}

/// The rows of the relation that have the label of a row of which the row filter is other than FALSE, where there is a row filter, and these do not
/// seem to be many.
pub(crate) fn affected_part(
    alloc: Global,
    value: &Relation,
    commalist: &[usize],
    g: &Option<Scalar>,
    hashes: &[Hashes],
) -> Result<Option<Relation>, Memory>
    requires intervals { AreIntervals value.now.heading commalist.now }
    requires typed { IfSome g.now (λ e. IsTyped value.now.heading (read e) Truth) }
    requires hashes { All (AreHashesOf value.now.rows) hashes.now }
    ensures part { IfOk result (λ o. IfSome o (IsClosedPart commalist.now value.now)) }
    ensures others { IfOk result (λ o. IfSome o (λ p. AreTold (option_map read g.now) (subtracted value.now.rows p.rows))) }
{
    match g {
        Some(g) => part_where(alloc, value, commalist, g, hashes),
        None => Ok(None),
    }
}
