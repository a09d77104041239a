// Rows that agree with rows of another relation on all common attributes.
ghost use Rattle.std.specs.Prelude.{◌≡◌, ◌<◌, ℕ, IfOk, MatchResult, filter, length};
ghost use Rattle.std.specs.List.{All};
ghost use Rattle.std.specs.List.Sorted.{IsStrictlySortedBy};
ghost use Rattle.base_core.specs.Sets.{has};
ghost use Rattle.value_core.specs.Values.{row_cmp, IsRelation};
ghost use Rattle.relation_core.specs.Agreement.{as_wanted, chosen, matched, unmatched, part_of};
ghost use Rattle.relation_core.specs.Answers.{IsAnswer, IsRefusal};

use crate::merging::keep;
use crate::names::common_positions;
use crate::parts::{contains_part, sorted_parts};
use point_core::Memory;
use std::alloc::Global;
use value_core::{Relation, Row, RowsRefuse};

/// The rows of the left relation that agree with some row of the right one on all common attributes.
pub fn matching(alloc: Global, left: &Relation, right: &Relation) -> Result<Relation, RowsRefuse>
    ensures { MatchResult result
        (IsAnswer left.now.heading (matched left.now.heading right.now.heading left.now.rows right.now.rows))
        (IsRefusal (matched left.now.heading right.now.heading left.now.rows right.now.rows)) }
{
    let relation = agreeing(alloc, left, right, true)?;
    Ok(relation)
}

/// The rows of the left relation that agree with no row of the right one on all common attributes.
pub fn not_matching(
    alloc: Global,
    left: &Relation,
    right: &Relation,
) -> Result<Relation, RowsRefuse>
    ensures { MatchResult result
        (IsAnswer left.now.heading (unmatched left.now.heading right.now.heading left.now.rows right.now.rows))
        (IsRefusal (unmatched left.now.heading right.now.heading left.now.rows right.now.rows)) }
{
    let relation = agreeing(alloc, left, right, false)?;
    Ok(relation)
}

/// The rows of the left relation for which it is as wanted whether they agree with some row of the right one.
fn agreeing(
    alloc: Global,
    left: &Relation,
    right: &Relation,
    wanted: bool,
) -> Result<Relation, Memory>
    ensures { IfOk result (IsAnswer left.now.heading (chosen wanted left.now.heading right.now.heading left.now.rows right.now.rows)) }
{
    let (ours, theirs) = (left.heading().attributes(), right.heading().attributes());
    let here = common_positions(alloc, ours, ours, theirs)?;
    let there = common_positions(alloc, theirs, ours, theirs)?;
    let keys = sorted_parts(alloc, right, there.as_slice())?;
    let rows = rows_by_keys(alloc, left, here.as_slice(), keys.as_slice(), wanted)?;
    let heading = left.heading().copy(alloc)?;
    let relation = Relation::of_few(heading, rows)?;
    Ok(relation)
}

/// The rows for which it is as wanted whether their part is among the keys.
pub(crate) fn rows_by_keys(
    alloc: Global,
    r: &Relation,
    positions: &[usize],
    keys: &[Row],
    wanted: bool,
) -> Result<Vec<Row>, Memory>
    requires within { All (λ (i : ℕ). i < length r.now.heading) positions.now }
    requires sorted { IsStrictlySortedBy row_cmp keys.now }
    ensures rows { IfOk result (λ rows. rows.items ≡ filter (λ x. as_wanted wanted (has row_cmp keys.now (part_of positions.now x))) r.now.rows) }
    ensures relation { IsRelation r.now }
{
    let given = r.rows();
    let mut rows = Vec::new(alloc);
    for row in given {
        let kept = as_wanted(wanted, contains_part(keys, row, positions));
        keep(alloc, &mut rows, row, kept)?;
    }
    Ok(rows)
}

/// The truth value, or its opposite.
pub fn as_wanted(wanted: bool, found: bool) -> bool
    ensures { result ≡ as_wanted wanted found }
{
    if wanted { found } else { !found }
}
