// Rows with given values at positions, among many: by search where the positions are the first ones, and else by one pass over hashes.
ghost use Rattle.std.specs.Prelude.{◌≡◌, ◌<◌, ℕ, length, IfOk};
ghost use Rattle.std.specs.List.{All};
ghost use Rattle.std.specs.List.Sorted.{IsStrictlySortedBy};
ghost use Rattle.value_core.specs.Values.{row_cmp, IsRelation};
ghost use Rattle.u_constraints.specs.Near.{with_keys};

use crate::pass::passed_over;
use crate::prefixes::are_first;
use crate::search::rows_in_front;
use crate::tuning::{ROWS_PASSED_FOR_ONE_SOUGHT, ROWS_REFERRED_TO_BY_ONE};
use point_core::Memory;
use relation_core::hashes_of;
use std::alloc::Global;
use value_core::{Relation, Row};

/// Whether the rows that refer are few beside those that are referred to.
pub(crate) fn are_fewer(of: &Relation, other: &Relation) -> bool
    ensures { IsRelation of.now × IsRelation other.now }
{
    of.rows().len() < other.rows().len() / ROWS_REFERRED_TO_BY_ONE
}

/// The rows whose values at the positions are one of the keys, by one pass over all.
fn rows_by_pass(
    alloc: Global,
    many: &Relation,
    positions: &[usize],
    keys: &[Row],
) -> Result<Relation, Memory>
    requires within { All (λ (i : ℕ). i < length many.now.heading) positions.now }
    requires sorted { IsStrictlySortedBy row_cmp keys.now }
    ensures { IfOk result (λ r. (r.heading ≡ many.now.heading) × (r.rows ≡ with_keys positions.now keys.now many.now.rows)) }
{
    let hashes = hashes_of(alloc, many, positions)?;
    passed_over(alloc, many, &hashes, keys)
}

/// The rows of many whose values at the positions are one of the keys, which are in order. Few keys at the first positions are sought;
/// else all rows are passed over, and a row is looked at alone where some key has its hash.
pub fn rows_with_keys(
    alloc: Global,
    many: &Relation,
    positions: &[usize],
    keys: &[Row],
) -> Result<Relation, Memory>
    requires within { All (λ (i : ℕ). i < length many.now.heading) positions.now }
    requires sorted { IsStrictlySortedBy row_cmp keys.now }
    requires long { All (λ k. length k ≡ length positions.now) keys.now }
    ensures rows { IfOk result (λ r. (r.heading ≡ many.now.heading) × (r.rows ≡ with_keys positions.now keys.now many.now.rows)) }
    ensures relation { IsRelation many.now }
{
    if keys.len() < many.rows().len() / ROWS_PASSED_FOR_ONE_SOUGHT && are_first(positions) {
        return rows_in_front(alloc, many, keys);
    }
    rows_by_pass(alloc, many, positions, keys)
}
