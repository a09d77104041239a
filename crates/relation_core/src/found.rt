// Rows found by their hashes.
ghost use Rattle.std.specs.Prelude.{◌≡◌, ◌<◌, ◌++◌, [], ◌∷◌, ℕ, true, filter, length, map, IfOk, IsTrue, OnOk, if◌then◌else◌};
ghost use Rattle.std.specs.List.{All};
ghost use Rattle.std.specs.List.Sorted.{IsStrictlySortedBy};
ghost use Rattle.std.specs.Ordering.{nat_cmp};
ghost use Rattle.base_core.specs.Sets.{has, in_order};
ghost use Rattle.value_core.specs.Values.{Row as PlainRow, row_cmp, IsRelation};
ghost use Rattle.relation_core.specs.Agreement.{part_of};
ghost use Rattle.relation_core.specs.Growth.{touched, IsSelection};
ghost use Rattle.relation_core.specs.Hashes.{hash_of, AreHashesOf};

use crate::list::{Hashes, row_marks};
use crate::{contains, part, selection, sorted_parts};
use point_core::{Label, Memory};
use std::alloc::Global;
use value_core::{Relation, Row};

/// The different hashes of the rows, in order.
fn sorted_hashes(alloc: Global, r: &Relation, positions: &[usize]) -> Result<Vec<u64>, Memory>
    requires { All (λ (i : ℕ). i < length r.now.heading) positions.now }
    ensures hashes { IfOk result (λ list. list.items ≡ in_order nat_cmp (map (hash_of positions.now) r.now.rows)) }
    ensures sorted { IfOk result (λ list. IsStrictlySortedBy nat_cmp list.items) }
{
    let mut list = row_marks(alloc, r, positions)?;
    list.sort()?;
    list.dedup();
    Ok(list)
}

/// Whether the hash is one of those that are sought, which are in order. Mostly there is one.
fn is_sought(sought: &[u64], hash: u64) -> bool
    requires { IsStrictlySortedBy nat_cmp sought.now }
    ensures { result ≡ has nat_cmp sought.now hash }
{
    if sought.len() == 1 {
        return sought[0] == hash;
    }
    sought.binary_search(&hash).is_ok()
}

/// Adds a copy of the row, if its part is one of the keys, which are in order.
fn keep(
    alloc: Global,
    rows: &mut Vec<Row>,
    row: &Row,
    positions: &[usize],
    keys: &[Row],
) -> Result<(), Memory>
    requires within { All (λ (i : ℕ). i < length row.now) positions.now }
    requires sorted { IsStrictlySortedBy row_cmp keys.now }
    ensures { OnOk result (rows.new.items ≡ rows.old.items ++ (if has row_cmp keys.now (part_of positions.now row.now) then row.now ∷ [] else [])) }
{
    let own = part(alloc, row, positions)?;
    if contains(keys, &own) {
        rows.push(row.copy(alloc)?)?;
    }
    Ok(())
}

/// The rows whose part is one of the keys. Only those whose hash is sought are looked at.
fn hashed_rows(
    alloc: Global,
    many: &Relation,
    hashes: &Hashes,
    keys: &[Row],
    sought: &[u64],
) -> Result<Vec<Row>, Memory>
    requires hashes { AreHashesOf many.now.rows hashes.now }
    requires within { All (λ (i : ℕ). i < length many.now.heading) hashes.now.positions }
    requires sorted { IsStrictlySortedBy row_cmp keys.now }
    requires order { IsStrictlySortedBy nat_cmp sought.now }
    requires sought { (x : PlainRow) → IsTrue (has row_cmp keys.now (part_of hashes.now.positions x)) → IsTrue (has nat_cmp sought.now (hash_of hashes.now.positions x)) }
    ensures rows { IfOk result (λ rows. rows.items ≡ filter (λ x. has row_cmp keys.now (part_of hashes.now.positions x)) many.now.rows) }
    ensures relation { IsRelation many.now }
{
    let given = many.rows();
    let positions = hashes.positions();
    let mut rows = Vec::new(alloc);
    for (at, hash) in hashes.list().iter().enumerate() {
        if is_sought(sought, *hash) {
            keep(alloc, &mut rows, &given[at], positions, keys)?;
        }
    }
    Ok(rows)
}

/// The rows of many whose values at the hashes' positions are those of some row of few. The hashes are passed over; rows are looked at
/// alone where one of few has their hash.
pub fn touched_by_hashes(
    alloc: Global,
    many: &Relation,
    few: &Relation,
    hashes: &Hashes,
) -> Result<Relation, Memory>
    requires heading { few.now.heading ≡ many.now.heading }
    requires within { All (λ (i : ℕ). i < length many.now.heading) hashes.now.positions }
    requires hashes { AreHashesOf many.now.rows hashes.now }
    ensures { IfOk result (λ r. (r.heading ≡ many.now.heading) × (r.rows ≡ touched hashes.now.positions few.now.rows many.now.rows)) }
{
    let positions = hashes.positions();
    let keys = sorted_parts(alloc, few, positions)?;
    let sought = sorted_hashes(alloc, few, positions)?;
    let rows = hashed_rows(alloc, many, hashes, keys.as_slice(), sought.as_slice())?;
    let relation = selection(alloc, many, rows)?;
    Ok(relation)
}
