// Histories: the rows of a during relvar against those of its since relvar.
ghost use Rattle.std.specs.Prelude.{◌≡◌, ◌++◌, IfOk};
ghost use Rattle.meaning_core.specs.WellMade.{FitsHeadings};
ghost use Rattle.value_core.specs.Values.{IsRelation};
ghost use Rattle.value_core.specs.declared.constraint.Constraint.TheVariants as constraint;
ghost use Rattle.u_constraints.specs.Constraints.{keeps_history};
ghost use Rattle.u_constraints.specs.Hashes.{is_overrun, is_touched};

use crate::hashes::{begins, is_any_reached, sorted_ends};
use point_core::Memory;
use std::alloc::Global;
use value_core::{HistoryRule, Relation};

/// The positions of the one list and then those of the other.
fn joined(alloc: Global, first: &[usize], second: &[usize]) -> Result<Vec<usize>, Memory>
    ensures { IfOk result (λ v. v.items ≡ first.now ++ second.now) }
{
    let mut list = Vec::with_capacity(alloc, first.len())?;
    list.extend_from_slice(first)?;
    list.extend_from_slice(second)?;
    Ok(list)
}

/// Whether some row of the during relvar has not ended before a row of the since relvar of the same key began.
fn is_overrun(
    alloc: Global,
    rule: &HistoryRule,
    of: &Relation,
    other: &Relation,
) -> Result<bool, Memory>
    requires { FitsHeadings of.now.heading other.now.heading (constraint.History rule.now) }
    ensures answer { IfOk result (λ b. b ≡ is_overrun rule.now of.now.rows other.now.rows) }
    ensures relation { IsRelation of.now }
{
    let (here, there) = (
        rule.key_here.list.as_slice(),
        rule.key_there.list.as_slice(),
    );
    let ends = sorted_ends(alloc, of, here, rule.span_here)?;
    let begins = begins(alloc, other, there, rule.point_there, false)?;
    Ok(is_any_reached(begins.as_slice(), ends.as_slice()))
}

/// Whether some row of the during relvar has not ended before the point directly before a row of the since relvar of the same facts began.
fn is_touched(
    alloc: Global,
    rule: &HistoryRule,
    of: &Relation,
    other: &Relation,
) -> Result<bool, Memory>
    requires { FitsHeadings of.now.heading other.now.heading (constraint.History rule.now) }
    ensures { IfOk result (λ b. b ≡ is_touched rule.now of.now.rows other.now.rows) }
{
    let here = joined(
        alloc,
        rule.key_here.list.as_slice(),
        rule.all_here.list.as_slice(),
    )?;
    let there = joined(
        alloc,
        rule.key_there.list.as_slice(),
        rule.all_there.list.as_slice(),
    )?;
    let ends = sorted_ends(alloc, of, here.as_slice(), rule.span_here)?;
    let begins = begins(alloc, other, there.as_slice(), rule.point_there, true)?;
    Ok(is_any_reached(begins.as_slice(), ends.as_slice()))
}

/// Whether no row of the during relvar contradicts a row of the since relvar.
///
/// A row that has ended before the other began holds the point directly before it exactly where it has not ended before that point.
/// So each part of the rule is asked of ends alone, by a search among the ends in order.
pub(crate) fn keeps_history(
    alloc: Global,
    rule: &HistoryRule,
    of: &Relation,
    other: &Relation,
) -> Result<bool, Memory>
    requires { FitsHeadings of.now.heading other.now.heading (constraint.History rule.now) }
    ensures { IfOk result (λ kept. kept ≡ keeps_history rule.now of.now.rows other.now.rows) }
{
    if is_overrun(alloc, rule, of, other)? {
        return Ok(false);
    }
    let touched = is_touched(alloc, rule, of, other)?;
    Ok(!touched)
}
