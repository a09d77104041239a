// Some rows behind their keys, in the order of these.
ghost use Rattle.std.specs.Prelude.{◌≡◌, ◌<◌, ◌++◌, [], ◌∷◌, ℕ, filter, length, map, IfOk, OnOk, if◌then◌else◌};
ghost use Rattle.std.specs.List.{All};
ghost use Rattle.std.specs.List.Sorted.{IsSortedByKey, IsStrictlySortedBy};
ghost use Rattle.base_core.specs.Sets.{has};
ghost use Rattle.value_core.specs.Values.{Row as PlainRow, row_cmp};
ghost use Rattle.relation_core.specs.Agreement.{part_of};
ghost use Rattle.relation_core.specs.Growth.{IsSelection};
ghost use Rattle.kept_views.specs.Sorted.{AreSorted, is_behind, keyed, rows_behind};

use point_core::{Label, Memory};
use relation_core::{contains, part, selection};
use std::alloc::Global;
use value_core::{Relation, Row};

// Adds a copy of the row behind its key, if that is one of the keys, which are in order.
fn keep_keyed(
    alloc: Global,
    list: &mut Vec<(Row, Row)>,
    row: &Row,
    positions: &[usize],
    keys: &[Row],
) -> Result<(), Memory>
    requires within { All (λ (i : ℕ). i < length row.now) positions.now }
    requires sorted { IsStrictlySortedBy row_cmp keys.now }
    ensures { OnOk result (list.new.items ≡ list.old.items ++ (if has row_cmp keys.now (part_of positions.now row.now) then (part_of positions.now row.now, row.now) ∷ [] else [])) }
{
    let own = part(alloc, row, positions)?;
    if contains(keys, &own) {
        list.push((own, row.copy(alloc)?))?;
    }
    Ok(())
}

// The rows with one of the keys, behind these.
fn keyed_rows(
    alloc: Global,
    r: &Relation,
    positions: &[usize],
    keys: &[Row],
) -> Result<Vec<(Row, Row)>, Memory>
    requires within { All (λ (i : ℕ). i < length r.now.heading) positions.now }
    requires sorted { IsStrictlySortedBy row_cmp keys.now }
    ensures { IfOk result (λ list. list.items ≡ keyed positions.now (filter (λ x. has row_cmp keys.now (part_of positions.now x)) r.now.rows)) }
{
    let rows = r.rows();
    let mut list = Vec::new(alloc);
    for row in rows {
        keep_keyed(alloc, &mut list, row, positions, keys)?;
    }
    Ok(list)
}

/// The rows with one of the keys, which are in order, behind these, by one pass over the rows.
pub(crate) fn sorted_rows(
    alloc: Global,
    r: &Relation,
    positions: &[usize],
    keys: &[Row],
) -> Result<Vec<(Row, Row)>, Memory>
    requires within { All (λ (i : ℕ). i < length r.now.heading) positions.now }
    requires sorted { IsStrictlySortedBy row_cmp keys.now }
    ensures { IfOk result (λ list. AreSorted positions.now keys.now r.now.rows list.items) }
{
    let mut list = keyed_rows(alloc, r, positions, keys)?;
    list.sort_by(|a: &(Row, Row), b: &(Row, Row)| a.0.cmp(&b.0))?;
    Ok(list)
}

// The entries with the key.
fn run<'a>(list: &'a [(Row, Row)], key: &Row) -> &'a [(Row, Row)]
    requires { IsSortedByKey (λ (entry : PlainRow × PlainRow). entry.0) row_cmp list.now }
    ensures { result.now ≡ filter (is_behind key.now) list.now }
{
    let begin = list.partition_point(|entry| entry.0 < *key);
    let rest = list.split_at(begin).1;
    let count = rest.partition_point(|entry| entry.0 == *key);
    rest.split_at(count).0
}

// The rows behind the key.
fn rows_behind(alloc: Global, list: &[(Row, Row)], key: &Row) -> Result<Vec<Row>, Memory>
    requires { IsSortedByKey (λ (entry : PlainRow × PlainRow). entry.0) row_cmp list.now }
    ensures { IfOk result (λ rows. rows.items ≡ rows_behind key.now list.now) }
{
    let entries = run(list, key);
    let mut rows = Vec::with_capacity(alloc, entries.len())?;
    for entry in entries {
        rows.push(entry.1.copy(alloc)?)?;
    }
    Ok(rows)
}

/// The relation with those of its rows that stand behind the key in the list.
pub(crate) fn group_rows(
    alloc: Global,
    r: &Relation,
    list: &[(Row, Row)],
    key: &Row,
) -> Result<Relation, Memory>
    requires ascending { IsSortedByKey (λ (entry : PlainRow × PlainRow). entry.0) row_cmp list.now }
    requires rows { IsSelection r.now.rows (rows_behind key.now list.now) }
    ensures heading { IfOk result (λ x. x.heading ≡ r.now.heading) }
    ensures rows { IfOk result (λ x. x.rows ≡ rows_behind key.now list.now) }
{
    let rows = rows_behind(alloc, list, key)?;
    selection(alloc, r, rows)
}
