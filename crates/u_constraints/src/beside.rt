// Rows with intervals beside those of others: such as have a point in common with one of them, or follow one, or are followed by one.
ghost use Rattle.std.specs.Prelude.{◌≡◌, ◌<◌, ◌++◌, ◌&&◌, [], ◌∷◌, ℕ, true, pos, ◌+ℤ◌, int_le, filter, length, IfOk, OnOk, if◌then◌else◌};
ghost use Rattle.std.specs.List.{All, flat_map};
ghost use Rattle.std.specs.List.Sorted.{IsStrictlySortedBy};
ghost use Rattle.base_core.specs.Sets.{has};
ghost use Rattle.value_core.specs.Values.{row_cmp, IsRelation};
ghost use Rattle.relation_core.specs.Agreement.{part_of};
ghost use Rattle.relation_core.specs.Hashes.{AreHashesOf};
ghost use Rattle.u_set.specs.Apart.{span_in, HasInterval};
ghost use Rattle.u_set.specs.Boxes.{AreIntervals};
ghost use Rattle.u_constraints.specs.Beside.{are_beside, beside_with_keys, AreBeside, LiesWithin};
ghost use Rattle.u_constraints.specs.Prefixes.{begins_with, counts_from};

use crate::beginning::with_prefix;
use crate::marks::marks_for;
use crate::pass::{keep_with_key, key_hashes, may_be_sought};
use crate::prefixes::are_first;
use crate::runs::{KeySide, ends_at};
use crate::search::{are_few, hashes_for, is_either_empty, relation_of, touched_by, touched_with};
use crate::tuning::{FEW_ROWS_OF_ONE_KEY, ROWS_HASHED_FOR_ONE_BESIDE};
use point_core::Memory;
use relation_core::{Hashes, keep, selection, sorted_parts};
use std::alloc::Global;
use value_core::{Relation, Row};

/// The numbers from the first to the last point that the rows have.
fn hull_of(rows: &[Row], at: usize) -> (i64, i64)
    requires { All (HasInterval at) rows.now }
    ensures { All (LiesWithin at result) rows.now }
{
    let mut hull = (i64::MAX, i64::MIN);
    for row in rows {
        let (begin, end) = ends_at(row, at);
        hull = (hull.0.min(begin), hull.1.max(end));
    }
    hull
}

/// Whether what begins there begins no later than directly after the end.
fn is_not_past(begin: i64, end: i64) -> bool
    ensures { result ≡ int_le begin (end +ℤ pos 1) }
{
    begin <= end.saturating_add(1)
}

/// Whether the row's interval is beside the hull.
fn is_beside(row: &Row, at: usize, hull: (i64, i64)) -> bool
    requires { HasInterval at row.now }
    ensures { result ≡ are_beside (span_in at row.now) hull }
{
    let (begin, end) = ends_at(row, at);
    is_not_past(begin, hull.1) && is_not_past(hull.0, end)
}

/// Whether few of the rows are beside the hull.
fn are_few_beside(rows: &[Row], at: usize, hull: (i64, i64)) -> bool
    requires { All (HasInterval at) rows.now }
{
    let mut count = 0usize;
    for row in rows {
        if is_beside(row, at, hull) {
            count = count.saturating_add(1);
        }
    }
    count < rows.len() / ROWS_HASHED_FOR_ONE_BESIDE
}

/// Adds a copy of the row, if its interval is beside the hull and its values at the label are one of the keys, which are in order.
fn keep_beside(
    alloc: Global,
    rows: &mut Vec<Row>,
    row: &Row,
    side: KeySide<'_>,
    keys: &[Row],
    hull: (i64, i64),
) -> Result<(), Memory>
    requires interval { HasInterval side.at row.now }
    requires within { All (λ (i : ℕ). i < length row.now) side.label.now }
    requires sorted { IsStrictlySortedBy row_cmp keys.now }
    ensures { OnOk result (rows.new.items ≡ rows.old.items
        ++ (if are_beside (span_in side.entry.at row.now) hull && has row_cmp keys.now (part_of side.entry.label.now row.now) then row.now ∷ [] else [])) }
{
    if !is_beside(row, side.at, hull) {
        return Ok(());
    }
    keep_with_key(alloc, rows, row, side.label, keys)
}

/// The rows beside the hull with one of the keys, by one pass over the intervals.
fn beside_by_pass(
    alloc: Global,
    many: &Relation,
    side: KeySide<'_>,
    keys: &[Row],
    hull: (i64, i64),
) -> Result<Vec<Row>, Memory>
    requires interval { AreIntervals many.now.heading (side.at ∷ []) }
    requires within { All (λ (i : ℕ). i < length many.now.heading) side.label.now }
    requires sorted { IsStrictlySortedBy row_cmp keys.now }
    ensures rows { IfOk result (λ rows. rows.items ≡ beside_with_keys side.entry.label.now side.entry.at hull keys.now many.now.rows) }
    ensures relation { IsRelation many.now }
{
    let given = many.rows();
    let mut rows = Vec::new(alloc);
    for row in given {
        keep_beside(alloc, &mut rows, row, side, keys, hull)?;
    }
    Ok(rows)
}

/// The rows beside the hull with one of the keys as their values at the hashes' positions, by one pass over the hashes. Intervals are
/// looked at alone where a key may have the hash.
fn beside_by_hashes(
    alloc: Global,
    many: &Relation,
    hashes: &Hashes,
    at: usize,
    keys: &[Row],
    hull: (i64, i64),
) -> Result<Vec<Row>, Memory>
    requires hashes { AreHashesOf many.now.rows hashes.now }
    requires interval { AreIntervals many.now.heading (at ∷ []) }
    requires within { All (λ (i : ℕ). i < length many.now.heading) hashes.now.positions }
    requires sorted { IsStrictlySortedBy row_cmp keys.now }
    ensures rows { IfOk result (λ rows. rows.items ≡ beside_with_keys hashes.now.positions at hull keys.now many.now.rows) }
    ensures relation { IsRelation many.now }
{
    let given = many.rows();
    let label = hashes.positions();
    let sought = key_hashes(alloc, keys)?;
    let marks = marks_for(alloc, sought.as_slice())?;
    let mut rows = Vec::new(alloc);
    for (i, hash) in hashes.list().iter().enumerate() {
        if may_be_sought(marks.as_slice(), sought.as_slice(), *hash) {
            let side = KeySide { label, at };
            keep_beside(alloc, &mut rows, &given[i], side, keys, hull)?;
        }
    }
    Ok(rows)
}

/// The rows of many beside the hull of few that have the values of one of few at the label, by one pass over the intervals.
fn passed_beside(
    alloc: Global,
    many: &Relation,
    few: &Relation,
    side: KeySide<'_>,
) -> Result<Relation, Memory>
    requires heading { few.now.heading ≡ many.now.heading }
    requires interval { AreIntervals many.now.heading (side.at ∷ []) }
    requires within { All (λ (i : ℕ). i < length many.now.heading) side.label.now }
    ensures { IfOk result (λ r. (r.heading ≡ many.now.heading) × AreBeside side.entry.label.now side.entry.at few.now.rows many.now.rows r.rows) }
{
    let hull = hull_of(few.rows(), side.at);
    let keys = sorted_parts(alloc, few, side.label)?;
    let rows = beside_by_pass(alloc, many, side, keys.as_slice(), hull)?;
    let relation = selection(alloc, many, rows)?;
    Ok(relation)
}

/// The rows of many beside the hull of few that have the values of one of few at the hashes' positions, by one pass over the hashes.
fn hashed_beside(
    alloc: Global,
    many: &Relation,
    few: &Relation,
    hashes: &Hashes,
    at: usize,
) -> Result<Relation, Memory>
    requires heading { few.now.heading ≡ many.now.heading }
    requires hashes { AreHashesOf many.now.rows hashes.now }
    requires interval { AreIntervals many.now.heading (at ∷ []) }
    requires within { All (λ (i : ℕ). i < length many.now.heading) hashes.now.positions }
    ensures { IfOk result (λ r. (r.heading ≡ many.now.heading) × AreBeside hashes.now.positions at few.now.rows many.now.rows r.rows) }
{
    let hull = hull_of(few.rows(), at);
    let keys = sorted_parts(alloc, few, hashes.positions())?;
    let rows = beside_by_hashes(alloc, many, hashes, at, keys.as_slice(), hull)?;
    let relation = selection(alloc, many, rows)?;
    Ok(relation)
}

/// Adds copies of those of the rows that are beside the hull.
fn add_beside(
    alloc: Global,
    rows: &mut Vec<Row>,
    more: &[Row],
    at: usize,
    hull: (i64, i64),
) -> Result<(), Memory>
    requires { All (HasInterval at) more.now }
    ensures { OnOk result (rows.new.items ≡ rows.old.items ++ filter (λ x. are_beside (span_in at x) hull) more.now) }
{
    for row in more {
        keep(alloc, rows, row, is_beside(row, at, hull))?;
    }
    Ok(())
}

/// The rows beside the hull with the first values of one of the lists, list by list.
fn beside_in_front(
    alloc: Global,
    r: &Relation,
    list: &[Row],
    at: usize,
    hull: (i64, i64),
) -> Result<Vec<Row>, Memory>
    requires { AreIntervals r.now.heading (at ∷ []) }
    ensures rows { IfOk result (λ rows. rows.items ≡ filter (λ x. are_beside (span_in at x) hull) (flat_map (λ values. filter (begins_with values) r.now.rows) list.now)) }
    ensures relation { IsRelation r.now }
{
    let given = r.rows();
    let mut rows = Vec::new(alloc);
    for values in list {
        add_beside(alloc, &mut rows, with_prefix(given, values), at, hull)?;
    }
    Ok(rows)
}

/// The rows of many beside the hull of few that have the values of one of few at the label. It stands first, so that they are sought.
fn sought_beside(
    alloc: Global,
    many: &Relation,
    few: &Relation,
    side: KeySide<'_>,
) -> Result<Relation, Memory>
    requires heading { few.now.heading ≡ many.now.heading }
    requires interval { AreIntervals many.now.heading (side.at ∷ []) }
    requires within { All (λ (i : ℕ). i < length many.now.heading) side.label.now }
    requires first { counts_from 0 side.label.now ≡ true }
    ensures { IfOk result (λ r. (r.heading ≡ many.now.heading) × AreBeside side.entry.label.now side.entry.at few.now.rows many.now.rows r.rows) }
{
    let hull = hull_of(few.rows(), side.at);
    let keys = sorted_parts(alloc, few, side.label)?;
    let rows = beside_in_front(alloc, many, keys.as_slice(), side.at, hull)?;
    let heading = many.heading().copy(alloc)?;
    let relation = relation_of(heading, rows)?;
    Ok(relation)
}

/// Whether few of the rows of many are beside the hull of few.
fn are_few_near(many: &Relation, few: &Relation, at: usize) -> bool
    requires heading { few.now.heading ≡ many.now.heading }
    requires interval { AreIntervals many.now.heading (at ∷ []) }
{
    let hull = hull_of(few.rows(), at);
    are_few_beside(many.rows(), at, hull)
}

/// The rows of many that have the values of one of few at the label, whether they are beside one or not.
fn all_touched(
    alloc: Global,
    many: &Relation,
    few: &Relation,
    side: KeySide<'_>,
) -> Result<Relation, Memory>
    requires heading { few.now.heading ≡ many.now.heading }
    requires within { All (λ (i : ℕ). i < length many.now.heading) side.label.now }
    ensures { IfOk result (λ r. (r.heading ≡ many.now.heading) × AreBeside side.entry.label.now side.entry.at few.now.rows many.now.rows r.rows) }
{
    let touched = touched_by(alloc, many, few, side.label)?;
    Ok(touched)
}

/// The rows of many that have the values of one of few at the label, by the hashes, where some are for it.
fn touched_by_known(
    alloc: Global,
    many: &Relation,
    few: &Relation,
    side: KeySide<'_>,
    hashes: &[Hashes],
) -> Result<Relation, Memory>
    requires heading { few.now.heading ≡ many.now.heading }
    requires interval { AreIntervals many.now.heading (side.at ∷ []) }
    requires within { All (λ (i : ℕ). i < length many.now.heading) side.label.now }
    requires hashes { All (AreHashesOf many.now.rows) hashes.now }
    ensures { IfOk result (λ r. (r.heading ≡ many.now.heading) × AreBeside side.entry.label.now side.entry.at few.now.rows many.now.rows r.rows) }
{
    let touched = touched_with(alloc, many, few, side.label, hashes)?;
    Ok(touched)
}

/// Whether the rows, if there are few enough to look, have one key.
fn have_one_key(alloc: Global, few: &Relation, label: &[usize]) -> Result<bool, Memory>
    requires { All (λ (i : ℕ). i < length few.now.heading) label.now }
{
    if few.rows().len() > FEW_ROWS_OF_ONE_KEY {
        return Ok(false);
    }
    let keys = sorted_parts(alloc, few, label)?;
    Ok(keys.len() == 1)
}

/// The rows of many beside some row of few with its values at the label, and maybe others with the values of one. They are found by one
/// pass: over hashes, where some are for the label, or over intervals, where few rows are beside the hull of few. A single key's hash is
/// found quickest with no look at intervals.
fn passed_or_touched(
    alloc: Global,
    many: &Relation,
    few: &Relation,
    side: KeySide<'_>,
    hashes: &[Hashes],
) -> Result<Relation, Memory>
    requires heading { few.now.heading ≡ many.now.heading }
    requires interval { AreIntervals many.now.heading (side.at ∷ []) }
    requires within { All (λ (i : ℕ). i < length many.now.heading) side.label.now }
    requires hashes { All (AreHashesOf many.now.rows) hashes.now }
    ensures { IfOk result (λ r. (r.heading ≡ many.now.heading) × AreBeside side.entry.label.now side.entry.at few.now.rows many.now.rows r.rows) }
{
    if have_one_key(alloc, few, side.label)? {
        return touched_by_known(alloc, many, few, side, hashes);
    }
    if let Some(own) = hashes_for(hashes, side.label) {
        return hashed_beside(alloc, many, few, own, side.at);
    }
    if are_few_near(many, few, side.at) {
        return passed_beside(alloc, many, few, side);
    }
    all_touched(alloc, many, few, side)
}

/// The rows of many beside some row of few with its values at the label, and maybe others with the values of one. Few rows are sought
/// where the label stands first; else one pass is made. Where one of the relations has no rows, none is made.
pub(crate) fn touched_beside(
    alloc: Global,
    many: &Relation,
    few: &Relation,
    side: KeySide<'_>,
    hashes: &[Hashes],
) -> Result<Relation, Memory>
    requires heading { few.now.heading ≡ many.now.heading }
    requires interval { AreIntervals many.now.heading (side.at ∷ []) }
    requires within { All (λ (i : ℕ). i < length many.now.heading) side.label.now }
    requires hashes { All (AreHashesOf many.now.rows) hashes.now }
    ensures { IfOk result (λ r. (r.heading ≡ many.now.heading) × AreBeside side.entry.label.now side.entry.at few.now.rows many.now.rows r.rows) }
{
    if is_either_empty(few, many) {
        return all_touched(alloc, many, few, side);
    }
    if are_few(few, many) && are_first(side.label) {
        return sought_beside(alloc, many, few, side);
    }
    passed_or_touched(alloc, many, few, side, hashes)
}
