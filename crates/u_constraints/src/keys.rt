// Keys and foreign keys on relations as they are.
ghost use Rattle.std.specs.Prelude.{◌≡◌, ◌<◌, ℕ, true, length, IfOk};
ghost use Rattle.std.specs.List.{All};
ghost use Rattle.base_core.specs.Sets.{is_within};
ghost use Rattle.value_core.specs.Values.{row_cmp, IsRelation};
ghost use Rattle.relation_core.specs.Parts.{projected};
ghost use Rattle.u_constraints.specs.Constraints.{is_key};
ghost use Rattle.u_constraints.specs.Prefixes.{counts_from};

use crate::near::{are_fewer, rows_with_keys};
use crate::positions::are_all;
use crate::prefixes::{are_first, prefixes_ascend};
use crate::search::{are_few, are_prefixes};
use point_core::Memory;
use relation_core::{contains, part, sorted_parts};
use std::alloc::Global;
use value_core::Relation;

/// Whether no two different rows have the same values at the positions. A key of all attributes needs no look at the rows. The rows stand
/// in the order of their first values already; values at other positions are sorted.
pub(crate) fn is_key(alloc: Global, r: &Relation, positions: &[usize]) -> Result<bool, Memory>
    requires { All (λ (i : ℕ). i < length r.now.heading) positions.now }
    ensures { IfOk result (λ kept. kept ≡ is_key positions.now r.now.rows) }
{
    let rows = r.rows();
    if are_all(positions, r.heading().attributes().len()) {
        return Ok(true);
    }
    if are_first(positions) {
        return Ok(prefixes_ascend(rows, positions.len()));
    }
    let keys = sorted_parts(alloc, r, positions)?;
    Ok(keys.len() == rows.len())
}

/// Whether the values of each row here, at its positions, are those of some row there. Few rows are sought among the rows there, which
/// stand in the order of their first values, or by one pass over them; else the parts of all rows there are sorted.
pub(crate) fn is_referenced(
    alloc: Global,
    r: &Relation,
    here: &[usize],
    other: &Relation,
    there: &[usize],
) -> Result<bool, Memory>
    requires here { All (λ (i : ℕ). i < length r.now.heading) here.now }
    requires there { All (λ (i : ℕ). i < length other.now.heading) there.now }
    ensures { IfOk result (λ kept. kept ≡ is_within row_cmp (projected here.now r.now.rows) (projected there.now other.now.rows)) }
{
    if are_few(r, other) && here.len() == there.len() && are_first(there) {
        return are_in_prefix(alloc, r, here, other, there);
    }
    if are_fewer(r, other) && here.len() == there.len() {
        return are_near(alloc, r, here, other, there);
    }
    are_sought(alloc, r, here, other, there)
}

/// Whether the values of each row here are the first values of some row there.
fn are_in_prefix(
    alloc: Global,
    r: &Relation,
    here: &[usize],
    other: &Relation,
    there: &[usize],
) -> Result<bool, Memory>
    requires here { All (λ (i : ℕ). i < length r.now.heading) here.now }
    requires there { All (λ (i : ℕ). i < length other.now.heading) there.now }
    requires size { length here.now ≡ length there.now }
    requires first { counts_from 0 there.now ≡ true }
    ensures { IfOk result (λ kept. kept ≡ is_within row_cmp (projected here.now r.now.rows) (projected there.now other.now.rows)) }
{
    let rows = other.rows();
    let keys = sorted_parts(alloc, r, here)?;
    Ok(are_prefixes(rows, keys.as_slice()))
}

/// Whether the values of each row here are those of some row there, sought among the parts of those rows there that have the values of
/// some row here.
fn are_near(
    alloc: Global,
    r: &Relation,
    here: &[usize],
    other: &Relation,
    there: &[usize],
) -> Result<bool, Memory>
    requires here { All (λ (i : ℕ). i < length r.now.heading) here.now }
    requires there { All (λ (i : ℕ). i < length other.now.heading) there.now }
    requires size { length here.now ≡ length there.now }
    ensures { IfOk result (λ kept. kept ≡ is_within row_cmp (projected here.now r.now.rows) (projected there.now other.now.rows)) }
{
    let keys = sorted_parts(alloc, r, here)?;
    let near = rows_with_keys(alloc, other, there, keys.as_slice())?;
    are_sought(alloc, r, here, &near, there)
}

/// Whether the values of each row here are those of some row there, sought among the sorted parts of all rows there.
fn are_sought(
    alloc: Global,
    r: &Relation,
    here: &[usize],
    other: &Relation,
    there: &[usize],
) -> Result<bool, Memory>
    requires here { All (λ (i : ℕ). i < length r.now.heading) here.now }
    requires there { All (λ (i : ℕ). i < length other.now.heading) there.now }
    ensures { IfOk result (λ kept. kept ≡ is_within row_cmp (projected here.now r.now.rows) (projected there.now other.now.rows)) }
{
    let keys = sorted_parts(alloc, other, there)?;
    for row in r.rows() {
        let key = part(alloc, row, here)?;
        if !contains(keys.as_slice(), &key) {
            return Ok(false);
        }
    }
    Ok(true)
}
