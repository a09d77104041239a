// Constraints that hold, and whether they hold still where rows come and go.
ghost use Rattle.std.specs.Prelude.{◌≡◌, ◌≤◌, ◌+◌, [], true, None, Some, length, IfOk, option_map};
ghost use Rattle.std.specs.List.{All};
ghost use Rattle.std.specs.Result.{result_err};
ghost use Rattle.meaning_core.specs.WellMade.{FitsHeadings};
ghost use Rattle.value_core.specs.Values.{most_rows, Heading, IsRelation};
ghost use Rattle.relation_core.specs.Operators.{subtracted, united};
ghost use Rattle.relation_core.specs.Hashes.{AreHashesOf};
ghost use Rattle.u_constraints.specs.Constraints.{broken, heading_or_none, rows_or_none, IsNamed};
ghost use Rattle.u_constraints.specs.Costs.{constraint_cost};
ghost use Rattle.u_constraints.specs.Growth.{exchanged, is_history, only, only_unpacked, telling as telling_of, Tells};

use crate::beside::touched_beside;
use crate::constraints::holds;
use crate::positions::telling;
use crate::runs::KeySide;
use crate::search::touched_with;
use point_core::{Code, Memory, Steps};
use relation_core::{Hashes, minus, union};
use std::alloc::Global;
use std::sync::ledger::Ledger;
use value_core::{Constraint, Relation, RowsRefuse};

/// The rows of either relation, which have one heading and few enough rows.
pub(crate) fn joined(alloc: Global, left: &Relation, right: &Relation) -> Result<Relation, Memory>
    requires heading { left.now.heading ≡ right.now.heading }
    requires few { length (united left.now.rows right.now.rows) ≤ most_rows }
    ensures { IfOk result (λ r. (r.heading ≡ left.now.heading) × (r.rows ≡ united left.now.rows right.now.rows)) }
{
    match union(alloc, left, right) {
        Ok(rows) => Ok(rows),
        Err(RowsRefuse::Memory) => Err(Memory),
        Err(RowsRefuse::TooMany) => unreachable!(),
    }
}

/// The rows of the left relation, which are few enough, that are not of the right one.
pub(crate) fn rest(alloc: Global, left: &Relation, right: &Relation) -> Result<Relation, Memory>
    requires heading { right.now.heading ≡ left.now.heading }
    requires few { length left.now.rows ≤ most_rows }
    ensures { IfOk result (λ r. (r.heading ≡ left.now.heading) × (r.rows ≡ subtracted left.now.rows right.now.rows)) }
{
    match minus(alloc, left, right) {
        Ok(rows) => Ok(rows),
        Err(RowsRefuse::Memory) => Err(Memory),
        Err(RowsRefuse::TooMany) => unreachable!(),
    }
}

/// The rows of the relation, which are few enough, that are not of those that go. Where none goes, no row is copied.
pub(crate) fn left_of(alloc: Global, all: Relation, gone: &Relation) -> Result<Relation, Memory>
    requires heading { gone.now.heading ≡ all.heading }
    requires few { length all.rows ≤ most_rows }
    ensures { IfOk result (λ r. (r.heading ≡ all.heading) × (r.rows ≡ subtracted all.rows gone.now.rows)) }
{
    if gone.rows().is_empty() {
        return Ok(all);
    }
    rest(alloc, &all, gone)
}

/// A relation that changes: hashes of its rows, rows that it gains, and rows that it then loses.
#[derive(Clone, Copy)]
pub struct Change<'a> {
    pub of: &'a Relation,
    pub hashes: &'a [Hashes],
    pub come: &'a Relation,
    pub gone: &'a Relation,
}

/// Whether neither relation has rows.
fn are_both_empty(left: &Relation, right: &Relation) -> bool
    ensures { result ≡ true → (left.now.rows ≡ []) × (right.now.rows ≡ []) }
{
    left.rows().is_empty() && right.rows().is_empty()
}

/// The position that a list alone has.
fn only(positions: &[usize]) -> Option<usize>
    ensures { result ≡ only positions.now }
{
    if positions.len() == 1 {
        return Some(positions[0]);
    }
    None
}

/// The attribute that the constraint alone unpacks, where it holds rows of one relvar against one another.
fn only_unpacked(c: &Constraint) -> Option<usize>
    ensures { result ≡ only_unpacked c.now }
{
    match c {
        Constraint::Packed(commalist) => only(commalist.list.as_slice()),
        Constraint::WhenUnpacked(commalist, _) => only(commalist.list.as_slice()),
        Constraint::UKey(commalist, _) => only(commalist.list.as_slice()),
        Constraint::Key(_) => None,
        Constraint::Foreign(..) => None,
        Constraint::History(_) => None,
    }
}

/// Rows of the relation that, with those that come, tell whether the constraint holds still: those with the values at the positions of
/// some row that comes. Where one attribute alone is unpacked, rows that are not beside one that comes may be left out.
fn rows_that_tell(
    alloc: Global,
    c: &Constraint,
    change: Change<'_>,
    positions: &[usize],
) -> Result<Relation, Memory>
    requires relation { IsRelation change.of.now }
    requires relation_come { IsRelation change.come.now }
    requires heading { change.come.now.heading ≡ change.of.now.heading }
    requires hashes { All (AreHashesOf change.of.now.rows) change.hashes.now }
    requires fits { (g : Heading) × FitsHeadings change.of.now.heading g c.now }
    requires telling { Some positions.now ≡ telling_of c.now (length change.of.now.heading) }
    ensures { IfOk result (λ r. (r.heading ≡ change.entry.of.now.heading) × Tells c.now change.entry.of.now.rows change.entry.come.now.rows r.rows) }
{
    match only_unpacked(c) {
        Some(at) => {
            let side = KeySide {
                label: positions,
                at,
            };
            touched_beside(alloc, change.of, change.come, side, change.hashes)
        }
        None => touched_with(alloc, change.of, change.come, positions, change.hashes),
    }
}

/// Whether the constraint, which holds of the relation, holds still after the change. It is asked of the rows that tell and those that
/// come. Where there are none besides, and none goes, the rows that come are asked as they are.
fn holds_by<L: Ledger>(
    alloc: Global,
    c: &Constraint,
    change: Change<'_>,
    positions: &[usize],
    other: Option<&Relation>,
    steps: &mut Steps<L>,
) -> Result<Result<(), Code>, Memory>
    requires relation { IsRelation change.of.now }
    requires relation_come { IsRelation change.come.now }
    requires heading { change.come.now.heading ≡ change.of.now.heading }
    requires hashes { All (AreHashesOf change.of.now.rows) change.hashes.now }
    requires gone { change.gone.now.heading ≡ change.of.now.heading }
    requires few { length (united change.of.now.rows change.come.now.rows) ≤ most_rows }
    requires fits { FitsHeadings change.of.now.heading (heading_or_none (option_map (λ r. r.now) other)) c.now }
    requires named { IsNamed c.now (option_map (λ r. r.now) other) }
    requires held { broken c.now change.of.now.rows (rows_or_none (option_map (λ r. r.now) other)) ≡ None }
    requires telling { Some positions.now ≡ telling_of c.now (length change.of.now.heading) }
    ensures answer { IfOk result (λ answer. result_err answer ≡ broken c.now (exchanged change.entry.of.now.rows change.entry.gone.now.rows change.entry.come.now.rows) (rows_or_none (option_map (λ r. r.now) other.entry))) }
    ensures cost { steps.new ≤ steps.old + constraint_cost c.now (exchanged change.entry.of.now.rows change.entry.gone.now.rows change.entry.come.now.rows) (rows_or_none (option_map (λ r. r.now) other.entry)) }
{
    let part = rows_that_tell(alloc, c, change, positions)?;
    if are_both_empty(&part, change.gone) {
        return holds(alloc, c, change.come, other, steps);
    }
    let all = joined(alloc, &part, change.come)?;
    let small = left_of(alloc, all, change.gone)?;
    holds(alloc, c, &small, other, steps)
}

/// Whether the constraint, which holds of the relation, holds still after the change; if not, the code of the first of its lines that is
/// then broken. `other` is the relvar that the constraint names, if it names one, which is not the one that changes.
///
/// Only rows that a row that comes is held against are looked at: those with its values at the attributes of a key, say. They are found
/// by the hashes, where some are for these attributes. Where one attribute alone is unpacked, rows that are not beside one that comes
/// are left out.
pub fn holds_with<L: Ledger>(
    alloc: Global,
    c: &Constraint,
    change: Change<'_>,
    other: Option<&Relation>,
    steps: &mut Steps<L>,
) -> Result<Result<(), Code>, Memory>
    requires heading { change.come.now.heading ≡ change.of.now.heading }
    requires hashes { All (AreHashesOf change.of.now.rows) change.hashes.now }
    requires gone { change.gone.now.heading ≡ change.of.now.heading }
    requires few { length (united change.of.now.rows change.come.now.rows) ≤ most_rows }
    requires fits { FitsHeadings change.of.now.heading (heading_or_none (option_map (λ r. r.now) other)) c.now }
    requires named { IsNamed c.now (option_map (λ r. r.now) other) }
    requires held { broken c.now change.of.now.rows (rows_or_none (option_map (λ r. r.now) other)) ≡ None }
    ensures answer { IfOk result (λ answer. result_err answer ≡ broken c.now (exchanged change.entry.of.now.rows change.entry.gone.now.rows change.entry.come.now.rows) (rows_or_none (option_map (λ r. r.now) other.entry))) }
    ensures cost { steps.new ≤ steps.old + constraint_cost c.now (exchanged change.entry.of.now.rows change.entry.gone.now.rows change.entry.come.now.rows) (rows_or_none (option_map (λ r. r.now) other.entry)) }
{
    let many = change.of.heading().attributes().len();
    if change.come.rows().is_empty() {
        return Ok(Ok(()));
    }
    match telling(alloc, c, many)? {
        Some(positions) => {
            let positions = positions.list.as_slice();
            holds_by(alloc, c, change, positions, other, steps)
        }
        None => {
            let left = rest(alloc, change.come, change.gone)?;
            holds(alloc, c, &left, other, steps)
        }
    }
}

/// Whether the constraint of `of`, which holds, holds still where the rows of `come` are added to `other`, the relvar that it names. More
/// rows there break no constraint but that of a history.
pub fn holds_beside<L: Ledger>(
    alloc: Global,
    c: &Constraint,
    of: &Relation,
    other: &Relation,
    come: &Relation,
    steps: &mut Steps<L>,
) -> Result<Result<(), Code>, Memory>
    requires heading { come.now.heading ≡ other.now.heading }
    requires few { length (united other.now.rows come.now.rows) ≤ most_rows }
    requires fits { FitsHeadings of.now.heading other.now.heading c.now }
    requires named { IsNamed c.now (Some other.now) }
    requires held { broken c.now of.now.rows other.now.rows ≡ None }
    ensures answer { IfOk result (λ answer. result_err answer ≡ broken c.now of.now.rows (united other.now.rows come.now.rows)) }
    ensures cost { steps.new ≤ steps.old + constraint_cost c.now of.now.rows (united other.now.rows come.now.rows) }
{
    if !is_history(c) {
        return Ok(Ok(()));
    }
    holds(alloc, c, of, Some(come), steps)
}

/// Whether the constraint is that of a history.
fn is_history(c: &Constraint) -> bool
    ensures { result ≡ is_history c.now }
{
    matches!(c, Constraint::History(_))
}
