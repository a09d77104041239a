// Parts of rows.
ghost use Rattle.std.specs.Prelude.{◌≡◌, ◌<◌, ℕ, map, length, IfOk};
ghost use Rattle.std.specs.List.{All};
ghost use Rattle.std.specs.List.Sorted.{IsStrictlySortedBy};
ghost use Rattle.base_core.specs.Sets.{has};
ghost use Rattle.value_core.specs.Values.{row_cmp, IsRelation};
ghost use Rattle.relation_core.specs.Agreement.{part_of};
ghost use Rattle.relation_core.specs.Parts.{projected};

use point_core::Memory;
use std::alloc::Global;
use std::cmp::Ordering;
use value_core::{Relation, Row};

/// The row's values at the positions.
pub fn part(alloc: Global, row: &Row, positions: &[usize]) -> Result<Row, Memory>
    requires { All (λ (i : ℕ). i < length row.now) positions.now }
    ensures { IfOk result (λ r. r ≡ part_of positions.now row.now) }
{
    let all = row.values();
    let mut values = Vec::with_capacity(alloc, positions.len())?;
    for position in positions {
        values.push(all[*position].copy(alloc)?)?;
    }
    Ok(Row::make(values))
}

/// The parts of all rows.
fn parts(alloc: Global, r: &Relation, positions: &[usize]) -> Result<Vec<Row>, Memory>
    requires { All (λ (i : ℕ). i < length r.now.heading) positions.now }
    ensures parts { IfOk result (λ list. list.items ≡ map (part_of positions.now) r.now.rows) }
    ensures relation { IsRelation r.now }
{
    let rows = r.rows();
    let mut list = Vec::with_capacity(alloc, rows.len())?;
    for row in rows {
        list.push(part(alloc, row, positions)?)?;
    }
    Ok(list)
}

/// The different parts of all rows, in order.
pub fn sorted_parts(alloc: Global, r: &Relation, positions: &[usize]) -> Result<Vec<Row>, Memory>
    requires { All (λ (i : ℕ). i < length r.now.heading) positions.now }
    ensures parts { IfOk result (λ list. list.items ≡ projected positions.now r.now.rows) }
    ensures sorted { IfOk result (λ list. IsStrictlySortedBy row_cmp list.items) }
    ensures relation { IsRelation r.now }
{
    let mut list = parts(alloc, r, positions)?;
    list.sort()?;
    list.dedup();
    Ok(list)
}

/// Whether the row is among the rows, which are in order.
pub fn contains(rows: &[Row], row: &Row) -> bool
    requires { IsStrictlySortedBy row_cmp rows.now }
    ensures { result ≡ has row_cmp rows.now row.now }
{
    rows.binary_search(row).is_ok()
}

/// Whether the row's values at the positions are among the rows, which are in order.
pub(crate) fn contains_part(rows: &[Row], row: &Row, positions: &[usize]) -> bool
    requires sorted { IsStrictlySortedBy row_cmp rows.now }
    requires within { All (λ (i : ℕ). i < length row.now) positions.now }
    ensures { result ≡ has row_cmp rows.now (part_of positions.now row.now) }
{
    rows.binary_search_by(|key| compare_part(key, row, positions))
        .is_ok()
}

/// How the key stands to the row's values at the positions.
fn compare_part(key: &Row, row: &Row, positions: &[usize]) -> Ordering
    requires { All (λ (i : ℕ). i < length row.now) positions.now }
    ensures { result ≡ row_cmp key.now (part_of positions.now row.now) }
{
    let (left, right) = (key.values(), row.values());
    for (at, position) in positions.iter().enumerate() {
        if at == left.len() {
            return Ordering::Less;
        }
        let order = left[at].cmp(&right[*position]);
        if !order.is_eq() {
            return order;
        }
    }
    left.len().cmp(&positions.len())
}
