// Pairs of rows of two relations: rows that agree beside the interval at a position, and whose intervals meet.
ghost use Rattle.std.specs.Prelude.{◌≡◌, ◌<◌, ◌∷◌, [], length, IfOk, IfSome};
ghost use Rattle.value_core.specs.Values.{IsRelation};
ghost use Rattle.relation_core.specs.Agreement.{common_positions};
ghost use Rattle.relation_core.specs.Parts.{attributes_at, kind_at};
ghost use Rattle.u_set.specs.Boxes.{AreIntervals, type_of};
ghost use Rattle.u_row.specs.Kept.{unlisted};
ghost use Rattle.u_join.specs.RowPairs.{AreMade, made_row};

use crate::row_pairs::{Sources, of_pairs};
use crate::standing::{Standing, compare_keys, rows_standing, stand_apart};
use crate::sweeping::meeting_pairs;
use crate::tuning::PAIRS_A_ROW;
use point_core::{AnyType, Memory};
use relation_core::common_positions;
use std::alloc::Global;
use u_row::unlisted;
use u_set::is_apart;
use value_core::{Kind, Name, Relation, Row};

/// The positions of the key in a heading's rows: the common ones, but for that of the interval.
pub(crate) fn key_positions(
    alloc: Global,
    heading: &[(Name, Kind)],
    left: &[(Name, Kind)],
    right: &[(Name, Kind)],
    at: usize,
) -> Result<Vec<usize>, Memory>
    ensures { IfOk result (λ v. v.items ≡ unlisted (at ∷ []) (common_positions heading.now left.now right.now)) }
{
    let common = common_positions(alloc, heading, left, right)?;
    unlisted(alloc, &[at], common.as_slice())
}

/// The point type of the interval attribute at the position.
pub(crate) fn type_at(heading: &[(Name, Kind)], at: usize) -> AnyType
    requires { at < length heading.now }
    ensures { result ≡ type_of (kind_at heading.now at) }
{
    match heading[at].1 {
        Kind::Span(point_type) => point_type,
        _ => AnyType::Integer,
    }
}

/// Whether rows that agree beside the interval have intervals that are apart, or at least those that have all values else alike. Only
/// speed hangs on it: of such operands there are not many more pairs than joined rows.
pub(crate) fn are_few(
    alloc: Global,
    r: &Relation,
    at: usize,
    rows: &[Standing],
) -> Result<bool, Memory>
    requires { AreIntervals r.now.heading (at ∷ []) }
{
    if stand_apart(rows) {
        return Ok(true);
    }
    is_apart(alloc, r, &[at])
}

// The number of the first row from there on whose key is greater than that of the other, or, unless `too`, the same.
fn past_key(rows: &[Standing], other: &Standing, from: usize, too: bool) -> usize {
    for i in from..rows.len() {
        let order = compare_keys(&rows[i], other);
        if order.is_gt() || (order.is_eq() && !too) {
            return i;
        }
    }
    rows.len()
}

// Whether the pairs of a left and a right row of one key are few, for as many rows. Only speed hangs on it.
fn are_few_by_keys(left: &[Standing], right: &[Standing]) -> bool {
    let most = left
        .len()
        .saturating_add(right.len())
        .saturating_mul(PAIRS_A_ROW);
    let mut count: usize = 0;
    let mut first = 0;
    for x in left {
        first = past_key(right, x, first, false);
        let end = past_key(right, x, first, true);
        count = count.saturating_add(end.saturating_sub(first));
        if count > most {
            return false;
        }
    }
    true
}

/// What is asked before rows are paired, so that their pairs are not too many. Only speed hangs on it.
#[derive(Clone, Copy)]
pub(crate) enum Look {
    /// Whether the rows of either operand are apart: then the pairs are not many more than the joined rows.
    Operands,
    /// Whether the pairs are few, for as many rows.
    Pairs,
    /// Nothing, where the rows are known to be apart.
    Nothing,
}

// Whether the pairs of the rows, which stand for those of the relations, are seen to be few.
fn are_seen_few(
    alloc: Global,
    left: &Relation,
    right: &Relation,
    places: (usize, usize),
    rows: (&[Standing], &[Standing]),
    look: Look,
) -> Result<bool, Memory>
    requires left { AreIntervals left.now.heading (places.0 ∷ []) }
    requires right { AreIntervals right.now.heading (places.1 ∷ []) }
{
    match look {
        Look::Operands => {
            let few = are_few(alloc, left, places.0, rows.0)?;
            if !few {
                return Ok(false);
            }
            are_few(alloc, right, places.1, rows.1)
        }
        Look::Pairs => Ok(
            stand_apart(rows.0) && stand_apart(rows.1) || are_few_by_keys(rows.0, rows.1),
        ),
        Look::Nothing => Ok(true),
    }
}

/// The rows that the pairs of a left and a right row give that agree beside the interval and whose intervals meet. There are none
/// where the pairs are not seen to be few.
pub(crate) fn rows_of_pairs(
    alloc: Global,
    left: &Relation,
    right: &Relation,
    sources: &Sources,
    look: Look,
) -> Result<Option<Vec<Row>>, Memory>
    requires same { attributes_at (sources.now.here ∷ []) left.now.heading ≡ attributes_at (sources.now.there ∷ []) right.now.heading }
    requires left { AreIntervals left.now.heading (sources.now.here ∷ []) }
    requires right { AreIntervals right.now.heading (sources.now.there ∷ []) }
    requires at { sources.now.at < length sources.now.places.now }
    requires point_type { sources.now.point_type ≡ type_of (kind_at left.now.heading sources.now.here) }
    ensures relation { IsRelation right.now }
    ensures rows { IfOk result (λ o. IfSome o (λ v. AreMade
        (unlisted (sources.now.here ∷ []) (common_positions left.now.heading left.now.heading right.now.heading))
        (unlisted (sources.now.there ∷ []) (common_positions right.now.heading left.now.heading right.now.heading))
        sources.now.here sources.now.there
        (made_row sources.now.places.now sources.now.point_type sources.now.at sources.now.here sources.now.there)
        left.now.rows right.now.rows v.items)) }
{
    let (here, there) = (sources.here, sources.there);
    let ours = left.heading().attributes();
    let theirs = right.heading().attributes();
    let key = key_positions(alloc, ours, ours, theirs, here)?;
    let other_key = key_positions(alloc, theirs, ours, theirs, there)?;
    let lefts = rows_standing(alloc, left, key.as_slice(), here)?;
    let rights = rows_standing(alloc, right, other_key.as_slice(), there)?;
    let (ls, rs) = (lefts.as_slice(), rights.as_slice());
    if !are_seen_few(alloc, left, right, (here, there), (ls, rs), look)? {
        return Ok(None);
    }
    let pairs = meeting_pairs(alloc, ls, rs)?;
    let rows = of_pairs(alloc, ls, rs, pairs.as_slice(), sources)?;
    Ok(Some(rows))
}
