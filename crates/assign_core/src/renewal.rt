// Revisions by conditions that affect few rows of a target, which its own constraints keep packed on the very list.
ghost use Rattle.std.specs.Prelude.{◌≡◌, ◌+◌, ◌≤◌, [], length, IfSome, IfOk, IfErr, Err};
ghost use Rattle.std.specs.List.{All};
ghost use Rattle.base_core.specs.Outcomes.{then_give};
ghost use Rattle.value_core.specs.Values.{Relation as PlainRelation};
ghost use Rattle.scalar_core.specs.Expressions.{read};
ghost use Rattle.relation_core.specs.Answers.{Answers, under};
ghost use Rattle.relation_core.specs.Operators.{subtracted, united};
ghost use Rattle.relation_core.specs.Hashes.{AreHashesOf};
ghost use Rattle.cell_core.specs.Costs.{bound};
ghost use Rattle.tree_core.specs.Items.{read_assignment};
ghost use Rattle.tree_core.specs.Relvars.{read_relvars};
ghost use Rattle.tree_core.specs.Trees.{read_sets};
ghost use Rattle.meaning_core.specs.Meanings.{limited};
ghost use Rattle.meaning_core.specs.Updates.{IsTypedAssignment};
ghost use Rattle.u_constraints.specs.Growth.{exchanged};
ghost use Rattle.change_rows.specs.Exchanges.{IsExchange};
ghost use Rattle.eval_using.specs.Cells.{cells_of_all, scalars_of};
ghost use Rattle.algebra_core.specs.Costs.{paid};
ghost use Rattle.assign_core.specs.Costs.{source_cost};
ghost use Rattle.assign_core.specs.Databases.{IsKept};
ghost use Rattle.assign_core.specs.PlainChanges.{IsAnyRevision};
ghost use Rattle.assign_core.specs.Portions.{portion_cost, portion_rows, IsAffected};
ghost use Rattle.assign_core.specs.Renewals.{after_left, entries_renewed, value_renewed, AreAdded, IsLeft, IsRenewal};
ghost use Rattle.assign_core.specs.Revisions.{changed_cost, changed_rows, left_of, IsChangedFor, IsRevisionOf};

use crate::insertion::base_at;
use crate::plain_rows::lists_none;
use crate::reduction::{if_few, is_packed_at, portion_rows};
use crate::revision::{Changed, Revision};
use change_rows::{Exchange, Replacement, affected_by_both, replaced, replaced_and_inserted};
use eval_using::{Node, using_extension};
use point_core::{Code, Fault, Memory, Steps, Stop};
use relation_core::{Hashes, union};
use row_making::{extended, or_fault_at};
use std::alloc::Global;
use std::sync::ledger::Ledger;
use tree_core::Relvars;
use value_core::{MOST_ROWS, Relation, RowsRefuse};

/// A revision with the place, the value and the hashes of its target, and the rows that its conditions affect.
#[derive(Clone, Copy)]
pub(crate) struct Renewal<'a, 'b> {
    pub relvars: &'a Relvars,
    pub revision: Revision<'a, 'b>,
    pub at: usize,
    pub value: &'a Relation,
    pub hashes: &'a [Hashes],
    pub part: &'b Relation,
}

/// The place of the target, and its value.
pub(crate) fn revision_at<'a>(
    relvars: &'a Relvars,
    revision: Revision<'_, '_>,
) -> (usize, &'a Relation)
    requires revision { IsAnyRevision revision }
    requires typed { IsTypedAssignment (read_relvars relvars.now) (read_assignment revision.assignment.now) }
    ensures { IsRevisionOf (read_relvars relvars.now).relvars revision.entry result.0 result.1.now }
{
    let (at, value) = base_at(relvars, revision.assignment);
    // A relation has few rows, and its heading is one.
    let _rows = value.rows();
    (at, value)
}

/// The rows that the revision's conditions affect, where they are few beside all of a target that is kept packed on the list.
pub(crate) fn revised_part(
    alloc: Global,
    relvars: &Relvars,
    revision: Revision<'_, '_>,
    at: usize,
    value: &Relation,
    hashes: &[Hashes],
) -> Result<Option<Relation>, Memory>
    requires kept { IsKept (read_relvars relvars.now) }
    requires revision { IsRevisionOf (read_relvars relvars.now).relvars revision at value.now }
    requires hashed { All (AreHashesOf value.now.rows) hashes.now }
    ensures gone { IfOk result (λ o. IfSome o (IsAffected revision.entry.commalist.now (read revision.entry.gone.now) value.now)) }
    ensures changed { IfOk result (λ o. IfSome o (IsAffected revision.entry.commalist.now (read revision.entry.changed.portion.condition.now) value.now)) }
{
    let commalist = revision.commalist;
    if !is_packed_at(relvars, at, commalist) {
        return Ok(None);
    }
    let list = commalist.list.as_slice();
    let condition = revision.changed.portion.condition;
    match affected_by_both(alloc, value, list, revision.gone, condition, hashes)? {
        Some(part) => Ok(if_few(part, value)),
        None => Ok(None),
    }
}

// What is left of the rows that the conditions affect, or the fault of the condition, or that of too many rows with the others.
fn left_rows<L: Ledger>(
    alloc: Global,
    renewal: Renewal<'_, '_>,
    steps: &mut Steps<L>,
) -> Result<Relation, Stop>
    requires { IsRenewal renewal }
    ensures left { IfOk result (IsLeft renewal.entry) }
    ensures refused { IfErr result (λ stop. Answers {A = PlainRelation} (Err stop) (under renewal.entry.value.now.heading (left_of renewal.entry.revision renewal.entry.value.now.rows))) }
    ensures cost { steps.new ≤ steps.old + portion_cost renewal.entry.revision.commalist.now (read renewal.entry.revision.kept.condition.now) renewal.entry.value.now.rows }
{
    let (value, part) = (renewal.value, renewal.part);
    let left = portion_rows(alloc, renewal.revision.kept, part, steps)?;
    let rows = replaced(alloc, value, part, &left)?;
    let all = value.rows().len() + rows.come.rows().len() - rows.gone.rows().len();
    if all > MOST_ROWS {
        return Err(Stop::Fault(Fault {
            place: renewal.revision.kept.place,
            code: Code::E35,
        }));
    }
    Ok(left)
}

// The relation's rows with new values at each point, or the least fault of these at any point, or that of too many rows.
fn with_new_values<L: Ledger>(
    alloc: Global,
    changed: Changed<'_>,
    of: &Relation,
    steps: &mut Steps<L>,
) -> Result<Relation, Stop>
    requires { IsChangedFor of.now.heading changed }
    ensures value { Answers result (under of.now.heading (changed_rows of.now.heading changed.entry.place changed.entry.commalist.now (read_sets changed.entry.sets.now) of.now.rows)) }
    ensures cost { steps.new ≤ steps.old + changed_cost changed.entry.commalist.now (read_sets changed.entry.sets.now) of.now.rows }
{
    if lists_none(changed.commalist) {
        return extended(alloc, of, of.heading(), changed.sets);
    }
    new_values_at_points(alloc, changed, of, steps)
}

// The same under USING.
fn new_values_at_points<L: Ledger>(
    alloc: Global,
    changed: Changed<'_>,
    of: &Relation,
    steps: &mut Steps<L>,
) -> Result<Relation, Stop>
    requires { IsChangedFor of.now.heading changed }
    ensures value { Answers result (under of.now.heading (changed_rows of.now.heading changed.entry.place changed.entry.commalist.now (read_sets changed.entry.sets.now) of.now.rows)) }
    ensures cost { steps.new ≤ steps.old + bound (cells_of_all changed.entry.commalist.now (scalars_of (read_sets changed.entry.sets.now)) of.now.rows) (length changed.entry.commalist.now) }
{
    let heading = of.heading();
    let commalist = changed.commalist;
    let list = commalist.list.as_slice();
    let node = Node {
        place: changed.place,
        heading,
        commalist: list,
    };
    using_extension(alloc, node, changed.sets, of, steps)
}

// The rows of the relation at the points of a portion, with new values.
fn added_rows<L: Ledger>(
    alloc: Global,
    changed: Changed<'_>,
    of: &Relation,
    steps: &mut Steps<L>,
) -> Result<Relation, Stop>
    requires { IsChangedFor of.now.heading changed }
    ensures value { Answers result (under of.now.heading (then_give
        (portion_rows changed.entry.portion.place changed.entry.portion.commalist.now (read changed.entry.portion.condition.now) of.now.rows)
        (changed_rows of.now.heading changed.entry.place changed.entry.commalist.now (read_sets changed.entry.sets.now)))) }
    ensures cost { steps.new ≤ steps.old + (portion_cost changed.entry.portion.commalist.now (read changed.entry.portion.condition.now) of.now.rows
        + paid (portion_rows changed.entry.portion.place changed.entry.portion.commalist.now (read changed.entry.portion.condition.now) of.now.rows)
        (changed_cost changed.entry.commalist.now (read_sets changed.entry.sets.now))) }
{
    let some = portion_rows(alloc, changed.portion, of, steps)?;
    with_new_values(alloc, changed, &some, steps)
}

// The rows that the target gains and loses where these are left and added, or the fault of too many rows.
fn exchange_with<L: Ledger>(
    alloc: Global,
    renewal: Renewal<'_, '_>,
    left: &Relation,
    added: &Relation,
    steps: &mut Steps<L>,
) -> Result<Exchange, Stop>
    requires renewal { IsRenewal renewal }
    requires left { IsLeft renewal left.now }
    requires added { AreAdded renewal added.now }
    ensures exchange { IfOk result (IsExchange renewal.entry.value.now) }
    ensures meant { IfOk result (λ x. value_renewed renewal.entry
        ≡ under renewal.entry.value.now.heading (limited renewal.entry.revision.assignment.now.tree.place (exchanged renewal.entry.value.now.rows x.gone.rows x.come.rows))) }
    ensures refused { IfErr result (λ stop. Answers {A = PlainRelation} (Err stop) (value_renewed renewal.entry)) }
    ensures cost { steps.new ≤ steps.old + after_left renewal.entry left.now added.now }
{
    if lists_none(renewal.revision.commalist) {
        return exchange_plainly(alloc, renewal, left, added);
    }
    exchange_at_points(alloc, renewal, left, added, steps)
}

// The same without USING.
fn exchange_plainly(
    alloc: Global,
    renewal: Renewal<'_, '_>,
    left: &Relation,
    added: &Relation,
) -> Result<Exchange, Stop>
    requires renewal { IsRenewal renewal }
    requires none { renewal.revision.commalist.now ≡ [] }
    requires left { IsLeft renewal left.now }
    requires added { AreAdded renewal added.now }
    ensures exchange { IfOk result (IsExchange renewal.entry.value.now) }
    ensures meant { IfOk result (λ x. value_renewed renewal.entry
        ≡ under renewal.entry.value.now.heading (limited renewal.entry.revision.assignment.now.tree.place (exchanged renewal.entry.value.now.rows x.gone.rows x.come.rows))) }
    ensures refused { IfErr result (λ stop. Answers {A = PlainRelation} (Err stop) (value_renewed renewal.entry)) }
{
    let place = renewal.revision.assignment.tree.place;
    let new = or_fault_at(place, union(alloc, left, added))?;
    let rows = replaced(alloc, renewal.value, renewal.part, &new)?;
    Ok(rows)
}

// The same under USING.
fn exchange_at_points<L: Ledger>(
    alloc: Global,
    renewal: Renewal<'_, '_>,
    left: &Relation,
    added: &Relation,
    steps: &mut Steps<L>,
) -> Result<Exchange, Stop>
    requires renewal { IsRenewal renewal }
    requires left { IsLeft renewal left.now }
    requires added { AreAdded renewal added.now }
    ensures exchange { IfOk result (IsExchange renewal.entry.value.now) }
    ensures meant { IfOk result (λ x. value_renewed renewal.entry
        ≡ under renewal.entry.value.now.heading (limited renewal.entry.revision.assignment.now.tree.place (exchanged renewal.entry.value.now.rows x.gone.rows x.come.rows))) }
    ensures refused { IfErr result (λ stop. Answers {A = PlainRelation} (Err stop) (value_renewed renewal.entry)) }
    ensures cost { steps.new ≤ steps.old + bound (length (united (subtracted renewal.entry.value.now.rows renewal.entry.part.now.rows) left.now.rows) + length added.now.rows)
        (length renewal.entry.revision.commalist.now) }
{
    let commalist = renewal.revision.commalist;
    let list = commalist.list.as_slice();
    let (value, hashes, part) = (renewal.value, renewal.hashes, renewal.part);
    let replacement = Replacement { part, left };
    match replaced_and_inserted(alloc, value, hashes, replacement, added, list, steps) {
        Ok(rows) => Ok(rows),
        Err(RowsRefuse::TooMany) => Err(Stop::Fault(Fault {
            place: renewal.revision.assignment.tree.place,
            code: Code::E35,
        })),
        Err(RowsRefuse::Memory) => Err(Stop::Memory),
    }
}

/// The rows that the target gains and loses, or the fault that comes in the place of its value.
pub(crate) fn revised<L: Ledger>(
    alloc: Global,
    renewal: Renewal<'_, '_>,
    steps: &mut Steps<L>,
) -> Result<Exchange, Stop>
    requires { IsRenewal renewal }
    ensures exchange { IfOk result (IsExchange renewal.entry.value.now) }
    ensures meant { IfOk result (λ x. value_renewed renewal.entry
        ≡ under renewal.entry.value.now.heading (limited renewal.entry.revision.assignment.now.tree.place (exchanged renewal.entry.value.now.rows x.gone.rows x.come.rows))) }
    ensures refused { IfErr result (λ stop. Answers {A = PlainRelation} (Err stop) (value_renewed renewal.entry)) }
    ensures cost { steps.new ≤ steps.old + source_cost (entries_renewed renewal.entry) (entries_renewed renewal.entry) (read_assignment renewal.entry.revision.assignment.now) }
{
    let left = left_rows(alloc, renewal, steps)?;
    let added = added_rows(alloc, renewal.revision.changed, renewal.part, steps)?;
    exchange_with(alloc, renewal, &left, &added, steps)
}
