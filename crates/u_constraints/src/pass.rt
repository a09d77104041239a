// The pass over hashes: rows that have one of some keys as their values at positions. Numbers are compared, and values alone where a
// key has the hash of a row.
ghost use Rattle.std.specs.Prelude.{◌≡◌, ◌<◌, ◌++◌, [], ◌∷◌, ℕ, true, length, map, IfOk, OnOk, if◌then◌else◌};
ghost use Rattle.std.specs.List.{All, list_all};
ghost use Rattle.std.specs.List.Sorted.{IsStrictlySortedBy};
ghost use Rattle.std.specs.Ordering.{nat_cmp};
ghost use Rattle.base_core.specs.Sets.{has, in_order};
ghost use Rattle.value_core.specs.Values.{row_cmp, IsRelation};
ghost use Rattle.relation_core.specs.Agreement.{part_of};
ghost use Rattle.relation_core.specs.Hashes.{row_hash, AreHashesOf};
ghost use Rattle.u_constraints.specs.Marks.{is_marked};
ghost use Rattle.u_constraints.specs.Near.{with_keys};

use crate::marks::{is_marked, marks_for};
use crate::tuning::FEW_SOUGHT;
use point_core::{Label, Memory};
use relation_core::{Hashes, contains, keep, part, row_hash, selection};
use std::alloc::Global;
use value_core::{Relation, Row};

/// The hashes of the keys.
pub(crate) fn key_hashes(alloc: Global, keys: &[Row]) -> Result<Vec<u64>, Memory>
    ensures { IfOk result (λ list. list.items ≡ map row_hash keys.now) }
{
    let mut list = Vec::with_capacity(alloc, keys.len())?;
    for key in keys {
        list.push(row_hash(key))?;
    }
    Ok(list)
}

/// The different hashes of the keys, in order.
fn sorted_hashes(alloc: Global, keys: &[Row]) -> Result<Vec<u64>, Memory>
    ensures hashes { IfOk result (λ list. list.items ≡ in_order nat_cmp (map row_hash keys.now)) }
    ensures sorted { IfOk result (λ list. IsStrictlySortedBy nat_cmp list.items) }
{
    let mut list = key_hashes(alloc, keys)?;
    list.sort()?;
    list.dedup();
    Ok(list)
}

/// Whether the hash may be one of those that are sought. A few of these are compared each; else most other hashes have no mark.
pub(crate) fn may_be_sought(marks: &[bool], sought: &[u64], hash: u64) -> bool
    requires { list_all (is_marked marks.now) sought.now ≡ true }
    ensures { has nat_cmp sought.now hash ≡ true → result ≡ true }
{
    if sought.len() <= FEW_SOUGHT {
        return sought.contains(&hash);
    }
    is_marked(marks, hash)
}

/// Whether the hash is one of those that are sought, which are in order and have their marks.
fn is_sought(marks: &[bool], sought: &[u64], hash: u64) -> bool
    requires marked { list_all (is_marked marks.now) sought.now ≡ true }
    requires order { IsStrictlySortedBy nat_cmp sought.now }
    ensures { result ≡ has nat_cmp sought.now hash }
{
    may_be_sought(marks, sought, hash) && sought.binary_search(&hash).is_ok()
}

/// Adds a copy of the row, if its values at the positions are one of the keys, which are in order.
pub(crate) fn keep_with_key(
    alloc: Global,
    rows: &mut Vec<Row>,
    row: &Row,
    positions: &[usize],
    keys: &[Row],
) -> Result<(), Memory>
    requires within { All (λ (i : ℕ). i < length row.now) positions.now }
    requires sorted { IsStrictlySortedBy row_cmp keys.now }
    ensures { OnOk result (rows.new.items ≡ rows.old.items ++ (if has row_cmp keys.now (part_of positions.now row.now) then row.now ∷ [] else [])) }
{
    let own = part(alloc, row, positions)?;
    keep(alloc, rows, row, contains(keys, &own))
}

/// The rows whose values at the hashes' positions are one of the keys. Only those whose hash is sought are looked at.
fn rows_by_hashes(
    alloc: Global,
    many: &Relation,
    hashes: &Hashes,
    keys: &[Row],
    sought: &[u64],
) -> Result<Vec<Row>, Memory>
    requires hashes { AreHashesOf many.now.rows hashes.now }
    requires within { All (λ (i : ℕ). i < length many.now.heading) hashes.now.positions }
    requires sorted { IsStrictlySortedBy row_cmp keys.now }
    requires order { IsStrictlySortedBy nat_cmp sought.now }
    requires sought { sought.now ≡ in_order nat_cmp (map row_hash keys.now) }
    ensures rows { IfOk result (λ rows. rows.items ≡ with_keys hashes.now.positions keys.now many.now.rows) }
    ensures relation { IsRelation many.now }
{
    let given = many.rows();
    let positions = hashes.positions();
    let marks = marks_for(alloc, sought)?;
    let mut rows = Vec::new(alloc);
    for (at, hash) in hashes.list().iter().enumerate() {
        if is_sought(marks.as_slice(), sought, *hash) {
            keep_with_key(alloc, &mut rows, &given[at], positions, keys)?;
        }
    }
    Ok(rows)
}

/// The rows of many whose values at the hashes' positions are one of the keys, which are in order.
pub(crate) fn passed_over(
    alloc: Global,
    many: &Relation,
    hashes: &Hashes,
    keys: &[Row],
) -> Result<Relation, Memory>
    requires hashes { AreHashesOf many.now.rows hashes.now }
    requires within { All (λ (i : ℕ). i < length many.now.heading) hashes.now.positions }
    requires sorted { IsStrictlySortedBy row_cmp keys.now }
    ensures { IfOk result (λ r. (r.heading ≡ many.now.heading) × (r.rows ≡ with_keys hashes.now.positions keys.now many.now.rows)) }
{
    let sought = sorted_hashes(alloc, keys)?;
    let rows = rows_by_hashes(alloc, many, hashes, keys, sought.as_slice())?;
    let relation = selection(alloc, many, rows)?;
    Ok(relation)
}
