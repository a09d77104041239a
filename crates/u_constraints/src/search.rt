// Rows found by their first values, among rows in order, or by hashes.
ghost use Rattle.std.specs.Prelude.{◌≡◌, ◌⊎◌, ◌++◌, ◌<◌, ◌≤◌, [], ℕ, List, true, filter, length, IfOk, IfSome, IsTrue, OnOk};
ghost use Rattle.std.specs.List.{All, flat_map, list_all, list_any};
ghost use Rattle.std.specs.List.Sorted.{IsStrictlySortedBy};
ghost use Rattle.value_core.specs.Relations.{all_fit, relation_of};
ghost use Rattle.value_core.specs.Values.{Row as PlainRow, most_rows, row_cmp, rows_of, IsRelation};
ghost use Rattle.relation_core.specs.Growth.{touched};
ghost use Rattle.relation_core.specs.Hashes.{AreHashesOf};
ghost use Rattle.u_constraints.specs.Near.{begins_with_any};
ghost use Rattle.u_constraints.specs.Prefixes.{begins_with, counts_from};

use crate::beginning::with_prefix;
use crate::pass::passed_over;
use crate::prefixes::are_first;
use crate::tuning::ROWS_PASSED_FOR_ONE_SOUGHT;
use point_core::{Label, Memory};
use relation_core::{Hashes, hashes_of, selection, sorted_parts};
use std::alloc::Global;
use value_core::{Heading, Relation, Row, RowsRefuse};

/// Whether some row has these first values. The rows are in order.
fn is_prefix(rows: &[Row], values: &Row) -> bool
    requires { IsStrictlySortedBy row_cmp rows.now }
    ensures { result ≡ list_any (begins_with values.now) rows.now }
{
    !with_prefix(rows, values).is_empty()
}

/// Whether each of the lists of values is the first values of some row. The rows are in order.
pub(crate) fn are_prefixes(rows: &[Row], list: &[Row]) -> bool
    requires { IsStrictlySortedBy row_cmp rows.now }
    ensures { result ≡ list_all (λ values. list_any (begins_with values) rows.now) list.now }
{
    for values in list {
        if !is_prefix(rows, values) {
            return false;
        }
    }
    true
}

/// Adds copies of the rows.
fn add_copies(alloc: Global, rows: &mut Vec<Row>, more: &[Row]) -> Result<(), Memory>
    ensures { OnOk result (rows.new.items ≡ rows.old.items ++ more.now) }
{
    for row in more {
        rows.push(row.copy(alloc)?)?;
    }
    Ok(())
}

/// The rows with the first values of one of the lists, list by list.
fn rows_with_prefixes(alloc: Global, r: &Relation, list: &[Row]) -> Result<Vec<Row>, Memory>
    ensures rows { IfOk result (λ rows. rows.items ≡ flat_map (λ values. filter (begins_with values) r.now.rows) list.now) }
    ensures relation { IsRelation r.now }
{
    let given = r.rows();
    let mut rows = Vec::new(alloc);
    for values in list {
        add_copies(alloc, &mut rows, with_prefix(given, values))?;
    }
    Ok(rows)
}

/// The relation of the heading with these rows, which are known to fit it and to be few enough where each is counted once.
pub(crate) fn relation_of(heading: Heading, rows: Vec<Row>) -> Result<Relation, Memory>
    requires fitting { IsTrue (all_fit heading rows.items) }
    requires few { length (rows_of rows.items) ≤ most_rows }
    ensures { IfOk result (λ r. r ≡ relation_of heading rows.items) }
{
    match Relation::of_fitting(heading, rows) {
        Ok(relation) => Ok(relation),
        Err(RowsRefuse::Memory) => Err(Memory),
        Err(RowsRefuse::TooMany) => unreachable!(),
    }
}

/// The rows of many whose first values are one of the keys, found by search.
pub(crate) fn rows_in_front(
    alloc: Global,
    many: &Relation,
    keys: &[Row],
) -> Result<Relation, Memory>
    ensures { IfOk result (λ r. (r.heading ≡ many.now.heading) × (r.rows ≡ filter (begins_with_any keys.now) many.now.rows)) }
{
    let rows = rows_with_prefixes(alloc, many, keys)?;
    let heading = many.heading().copy(alloc)?;
    let relation = relation_of(heading, rows)?;
    Ok(relation)
}

/// The rows of many whose values at the positions are those of some row of few. The positions are the first ones, in order, so that these
/// rows are found by search.
fn touched_in_prefix(
    alloc: Global,
    many: &Relation,
    few: &Relation,
    positions: &[usize],
) -> Result<Relation, Memory>
    requires heading { few.now.heading ≡ many.now.heading }
    requires within { All (λ (i : ℕ). i < length many.now.heading) positions.now }
    requires first { counts_from 0 positions.now ≡ true }
    ensures { IfOk result (λ r. (r.heading ≡ many.now.heading) × (r.rows ≡ touched positions.now few.now.rows many.now.rows)) }
{
    // The rows of many are as long as its heading.
    let _rows = many.rows();
    let keys = sorted_parts(alloc, few, positions)?;
    rows_in_front(alloc, many, keys.as_slice())
}

/// Whether the rows of few are so few that searching many for each of them is cheaper than passing over many.
pub(crate) fn are_few(few: &Relation, many: &Relation) -> bool
    ensures { IsRelation few.now × IsRelation many.now }
{
    few.rows().len() < many.rows().len() / ROWS_PASSED_FOR_ONE_SOUGHT
}

/// Whether one of the relations has no rows, so that no row of the one has values of a row of the other.
pub(crate) fn is_either_empty(few: &Relation, many: &Relation) -> bool
    ensures empty { result ≡ true → (few.now.rows ≡ []) ⊎ (many.now.rows ≡ []) }
    ensures relations { IsRelation few.now × IsRelation many.now }
{
    let (few, many) = (few.rows(), many.rows());
    few.is_empty() || many.is_empty()
}

/// The relation with the heading of another one and no rows.
fn without_rows(alloc: Global, r: &Relation) -> Result<Relation, Memory>
    ensures { IfOk result (λ x. (x.heading ≡ r.now.heading) × (x.rows ≡ [])) }
{
    selection(alloc, r, Vec::new(alloc))
}

/// The rows of many whose values at the hashes' positions are those of some row of few, by one pass over the hashes. A single hash is
/// compared with each, and needs no marks.
fn touched_by_hashes(
    alloc: Global,
    many: &Relation,
    few: &Relation,
    hashes: &Hashes,
) -> Result<Relation, Memory>
    requires heading { few.now.heading ≡ many.now.heading }
    requires within { All (λ (i : ℕ). i < length many.now.heading) hashes.now.positions }
    requires hashes { AreHashesOf many.now.rows hashes.now }
    ensures { IfOk result (λ r. (r.heading ≡ many.now.heading) × (r.rows ≡ touched hashes.now.positions few.now.rows many.now.rows)) }
{
    let keys = sorted_parts(alloc, few, hashes.positions())?;
    if keys.len() == 1 {
        return relation_core::touched_by_hashes(alloc, many, few, hashes);
    }
    passed_over(alloc, many, hashes, keys.as_slice())
}

/// The rows of many whose values at the positions are those of some row of few, by one pass over hashes that are made for it.
fn touched_by_pass(
    alloc: Global,
    many: &Relation,
    few: &Relation,
    positions: &[usize],
) -> Result<Relation, Memory>
    requires heading { few.now.heading ≡ many.now.heading }
    requires within { All (λ (i : ℕ). i < length many.now.heading) positions.now }
    ensures { IfOk result (λ r. (r.heading ≡ many.now.heading) × (r.rows ≡ touched positions.now few.now.rows many.now.rows)) }
{
    let hashes = hashes_of(alloc, many, positions)?;
    touched_by_hashes(alloc, many, few, &hashes)
}

/// The rows of many whose values at the positions are those of some row of few: by search, where the positions are the first ones. Where
/// one of the relations has no rows, nothing is sorted or sought.
pub fn touched_by(
    alloc: Global,
    many: &Relation,
    few: &Relation,
    positions: &[usize],
) -> Result<Relation, Memory>
    requires heading { few.now.heading ≡ many.now.heading }
    requires within { All (λ (i : ℕ). i < length many.now.heading) positions.now }
    ensures rows { IfOk result (λ r. (r.heading ≡ many.now.heading) × (r.rows ≡ touched positions.now few.now.rows many.now.rows)) }
    ensures relations { IsRelation few.now × IsRelation many.now }
{
    if is_either_empty(few, many) {
        return without_rows(alloc, many);
    }
    if are_few(few, many) && are_first(positions) {
        return touched_in_prefix(alloc, many, few, positions);
    }
    touched_by_pass(alloc, many, few, positions)
}

/// Whether the hashes are for these positions.
fn are_for(hashes: &Hashes, positions: &[usize]) -> bool
    ensures { result ≡ true → hashes.now.positions ≡ positions.now }
{
    *hashes.positions() == *positions
}

/// The hashes that are for these positions, if some are.
pub(crate) fn hashes_for<'a>(hashes: &'a [Hashes], positions: &[usize]) -> Option<&'a Hashes>
    ensures { (rows : List PlainRow) → All (AreHashesOf rows) hashes.now → IfSome result (λ own. (own.now.positions ≡ positions.now) × AreHashesOf rows own.now) }
{
    for own in hashes {
        if are_for(own, positions) {
            return Some(own);
        }
    }
    None
}

/// The rows of many whose values at the positions are those of some row of few: by hashes, where some are for these positions.
fn touched_by_some(
    alloc: Global,
    many: &Relation,
    few: &Relation,
    positions: &[usize],
    hashes: &[Hashes],
) -> Result<Relation, Memory>
    requires heading { few.now.heading ≡ many.now.heading }
    requires within { All (λ (i : ℕ). i < length many.now.heading) positions.now }
    requires hashes { All (AreHashesOf many.now.rows) hashes.now }
    ensures { IfOk result (λ r. (r.heading ≡ many.now.heading) × (r.rows ≡ touched positions.now few.now.rows many.now.rows)) }
{
    match hashes_for(hashes, positions) {
        Some(own) => touched_by_hashes(alloc, many, few, own),
        None => touched_by(alloc, many, few, positions),
    }
}

/// The rows of many whose values at the positions are those of some row of few, as `touched_by` gives them. Where the rows of few are
/// few, the positions are not the first ones, and some of the hashes, which are those of the rows of many, are for these positions, the
/// rows are found by them.
pub fn touched_with(
    alloc: Global,
    many: &Relation,
    few: &Relation,
    positions: &[usize],
    hashes: &[Hashes],
) -> Result<Relation, Memory>
    requires heading { few.now.heading ≡ many.now.heading }
    requires within { All (λ (i : ℕ). i < length many.now.heading) positions.now }
    requires hashes { All (AreHashesOf many.now.rows) hashes.now }
    ensures rows { IfOk result (λ r. (r.heading ≡ many.now.heading) × (r.rows ≡ touched positions.now few.now.rows many.now.rows)) }
    ensures relations { IsRelation few.now × IsRelation many.now }
{
    if is_either_empty(few, many) {
        return without_rows(alloc, many);
    }
    if !are_few(few, many) || are_first(positions) {
        return touched_by(alloc, many, few, positions);
    }
    touched_by_some(alloc, many, few, positions, hashes)
}
