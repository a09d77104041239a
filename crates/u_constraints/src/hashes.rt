// Hashes: parts of rows with numbers.
ghost use Rattle.std.specs.Prelude.{◌≡◌, ◌<◌, ℕ, length, map, IfOk, IsTrue, IsPermutation};
ghost use Rattle.std.specs.List.{All, list_any};
ghost use Rattle.std.specs.List.Sorted.{IsSorted};
ghost use Rattle.point_core.specs.declared.any_type.AnyType.{AnyType};
ghost use Rattle.value_core.specs.declared.kind.Kind.TheVariants as kind;
ghost use Rattle.value_core.specs.Attributes.{value_at, span_of};
ghost use Rattle.value_core.specs.Plain.{plain};
ghost use Rattle.value_core.specs.Values.{fits, IsRelation};
ghost use Rattle.scalar_core.specs.Operations.{number_of};
ghost use Rattle.relation_core.specs.Parts.{kind_at};
ghost use Rattle.u_constraints.specs.Hashes.{begin_hash, begun, end_hash, is_any_reached, hash_cmp, reaches};

use point_core::Memory;
use relation_core::part;
use scalar_core::point_number;
use std::alloc::Global;
use value_core::{Relation, Row, Value};

/// The number of the last point of the interval that a value is.
fn last_number(v: &Value) -> i64
    requires { (t : AnyType) × IsTrue (fits (kind.Span t) (plain v.now)) }
    ensures { result ≡ (span_of (plain v.now)).1 }
{
    match v {
        Value::Span(i) => i.end().number(),
        _ => unreachable!(),
    }
}

/// The number, or the one before it where there is one.
fn begun(touching: bool, n: i64) -> i64
    ensures { result ≡ begun touching n }
{
    if touching && i64::MIN < n { n - 1 } else { n }
}

/// The row's part, with the last number of its interval.
fn end_hash(alloc: Global, row: &Row, positions: &[usize], at: usize) -> Result<(Row, i64), Memory>
    requires within { All (λ (i : ℕ). i < length row.now) positions.now }
    requires at { at < length row.now }
    requires interval { (t : AnyType) × IsTrue (fits (kind.Span t) (value_at row.now at)) }
    ensures { IfOk result (λ hash. hash ≡ end_hash positions.now at row.now) }
{
    let own = part(alloc, row, positions)?;
    let last = last_number(&row.values()[at]);
    Ok((own, last))
}

/// The row's part, with the number of its point or the one before it.
fn begin_hash(
    alloc: Global,
    row: &Row,
    positions: &[usize],
    at: usize,
    touching: bool,
) -> Result<(Row, i64), Memory>
    requires within { All (λ (i : ℕ). i < length row.now) positions.now }
    requires at { at < length row.now }
    ensures { IfOk result (λ hash. hash ≡ begin_hash positions.now at touching row.now) }
{
    let own = part(alloc, row, positions)?;
    let first = begun(touching, point_number(&row.values()[at]));
    Ok((own, first))
}

/// The parts of all rows, each with the last number of the row's interval.
fn ends(
    alloc: Global,
    r: &Relation,
    positions: &[usize],
    at: usize,
) -> Result<Vec<(Row, i64)>, Memory>
    requires within { All (λ (i : ℕ). i < length r.now.heading) positions.now }
    requires at { at < length r.now.heading }
    requires interval { (t : AnyType) × (kind_at r.now.heading at ≡ kind.Span t) }
    ensures hashes { IfOk result (λ v. v.items ≡ map (end_hash positions.now at) r.now.rows) }
    ensures relation { IsRelation r.now }
{
    let rows = r.rows();
    let mut out = Vec::with_capacity(alloc, rows.len())?;
    for row in rows {
        let hash = end_hash(alloc, row, positions, at)?;
        out.push(hash)?;
    }
    Ok(out)
}

/// The parts of all rows, each with the last number of the row's interval, in order.
pub(crate) fn sorted_ends(
    alloc: Global,
    r: &Relation,
    positions: &[usize],
    at: usize,
) -> Result<Vec<(Row, i64)>, Memory>
    requires within { All (λ (i : ℕ). i < length r.now.heading) positions.now }
    requires at { at < length r.now.heading }
    requires interval { (t : AnyType) × (kind_at r.now.heading at ≡ kind.Span t) }
    ensures hashes { IfOk result (λ v. IsPermutation (map (end_hash positions.now at) r.now.rows) v.items) }
    ensures sorted { IfOk result (λ v. IsSorted hash_cmp v.items) }
    ensures relation { IsRelation r.now }
{
    let mut list = ends(alloc, r, positions, at)?;
    list.sort()?;
    Ok(list)
}

/// The parts of all rows, each with the number of the row's point or the one before it.
pub(crate) fn begins(
    alloc: Global,
    r: &Relation,
    positions: &[usize],
    at: usize,
    touching: bool,
) -> Result<Vec<(Row, i64)>, Memory>
    requires within { All (λ (i : ℕ). i < length r.now.heading) positions.now }
    requires at { at < length r.now.heading }
    ensures hashes { IfOk result (λ v. v.items ≡ map (begin_hash positions.now at touching) r.now.rows) }
    ensures relation { IsRelation r.now }
{
    let rows = r.rows();
    let mut out = Vec::with_capacity(alloc, rows.len())?;
    for row in rows {
        let hash = begin_hash(alloc, row, positions, at, touching)?;
        out.push(hash)?;
    }
    Ok(out)
}

/// Whether any of the ends, which are in order, reaches the begin: the first that is not less has its part then.
fn is_reached(ends: &[(Row, i64)], begin: &(Row, i64)) -> bool
    requires { IsSorted hash_cmp ends.now }
    ensures { result ≡ list_any (reaches begin.now) ends.now }
{
    match ends.binary_search(begin) {
        Ok(_) => true,
        Err(at) => at < ends.len() && ends[at].0 == begin.0,
    }
}

/// Whether any of the ends, which are in order, reaches any of the begins.
pub(crate) fn is_any_reached(begins: &[(Row, i64)], ends: &[(Row, i64)]) -> bool
    requires { IsSorted hash_cmp ends.now }
    ensures { result ≡ is_any_reached begins.now ends.now }
{
    for begin in begins {
        if is_reached(ends, begin) {
            return true;
        }
    }
    false
}
