// SUMMARIZE under USING.
ghost use Rattle.std.specs.Prelude.{◌≡◌, ℕ, ◌≤◌, ◌+◌, ◌++◌, List, length, map};
ghost use Rattle.base_core.specs.Outcomes.{then_give};
ghost use Rattle.relation_core.specs.Agreement.{names_of};
ghost use Rattle.relation_core.specs.Answers.{Answers, under};
ghost use Rattle.relation_core.specs.Groups.{rows_at, summarized};
ghost use Rattle.tree_core.specs.Trees.{read_aggregate};
ghost use Rattle.cell_core.specs.Costs.{bound};
ghost use Rattle.meaning_core.specs.Meanings.{opened, closed};
ghost use Rattle.meaning_core.specs.Places.{places};
ghost use Rattle.meaning_core.specs.Rows.{aggregate_names, group_row};
ghost use Rattle.meaning_core.specs.Typing.{IsSummary, IsList};
ghost use Rattle.eval_using.specs.Answered.{AnswersIf};
ghost use Rattle.eval_using.specs.Using.{around, listed, HasList, IsSummedBy};

use crate::boxes::summary_form;
use crate::faults::or_fault_if;
use crate::group_cells::summary_cells;
use crate::listed;
use crate::node::Node;
use crate::parts::Grouping;
use cell_core::CellRefuse;
use point_core::{Memory, Steps, Stop};
use row_making::{aggregate_places, or_fault_at};
use std::alloc::Global;
use std::sync::ledger::Ledger;
use tree_core::Aggregates;
use u_set::{coalesced_boxes, from_boxes, is_listed};
use value_core::{Relation, RowsRefuse};

/// A row for each group of the relation's rows at each point, or the least fault of an aggregate.
pub fn using_summary<L: Ledger>(
    alloc: Global,
    node: Node<'_>,
    by: &[usize],
    aggregates: &Aggregates,
    r: &Relation,
    steps: &mut Steps<L>,
) -> Result<Relation, Stop>
    requires summary { (sizes : List ℕ) × IsSummary sizes r.now.heading node.heading.now by.now (map read_aggregate aggregates.now) }
    requires list { IsList node.heading.now node.commalist.now }
    requires listed { HasList node.heading.now node.commalist.now r.now.heading }
    requires summed { IsSummedBy node.heading.now node.commalist.now r.now.heading by.now (map read_aggregate aggregates.now) }
    ensures value { Answers result (under node.entry.heading.now
        (then_give (summarized by.now
        (λ numbers. group_row r.now.heading node.entry.heading.now (map read_aggregate aggregates.now)
        (rows_at (opened (around node.entry.place node.entry.heading.now node.entry.commalist.now) r.now.heading r.now.rows) numbers))
        (opened (around node.entry.place node.entry.heading.now node.entry.commalist.now) r.now.heading r.now.rows))
        (closed (around node.entry.place node.entry.heading.now node.entry.commalist.now) node.entry.place node.entry.heading.now))) }
    ensures cost { steps.new ≤ steps.old + bound (length r.now.rows) (length node.entry.commalist.now) }
{
    let attributes = node.heading.attributes();
    let from = r.heading().attributes();
    let list = aggregates.list.as_slice();
    let here = listed(alloc, attributes, node.commalist, from)?;
    let at = aggregate_places(alloc, list, from, attributes)?;
    let of = Grouping {
        commalist: here.as_slice(),
        by,
        aggregates: list,
        at: at.as_slice(),
    };
    summarized_by_boxes(alloc, node, of, r, steps)
}

// The same by the positions of the listed attributes among the relation's, and the places of the values of a group's row.
fn summarized_by_boxes<L: Ledger>(
    alloc: Global,
    node: Node<'_>,
    of: Grouping<'_>,
    r: &Relation,
    steps: &mut Steps<L>,
) -> Result<Relation, Stop>
    requires summary { (sizes : List ℕ) × IsSummary sizes r.now.heading node.heading.now of.by.now (map read_aggregate of.aggregates.now) }
    requires list { IsList node.heading.now node.commalist.now }
    requires listed { HasList node.heading.now node.commalist.now r.now.heading }
    requires summed { IsSummedBy node.heading.now node.commalist.now r.now.heading of.by.now (map read_aggregate of.aggregates.now) }
    requires here { of.commalist.now ≡ listed node.heading.now node.commalist.now r.now.heading }
    requires places { of.at.now ≡ places (aggregate_names (map read_aggregate of.aggregates.now) ++ names_of r.now.heading) node.heading.now }
    ensures value { Answers result (under node.entry.heading.now
        (then_give (summarized of.entry.by.now
        (λ numbers. group_row r.now.heading node.entry.heading.now (map read_aggregate of.entry.aggregates.now)
        (rows_at (opened (around node.entry.place node.entry.heading.now node.entry.commalist.now) r.now.heading r.now.rows) numbers))
        (opened (around node.entry.place node.entry.heading.now node.entry.commalist.now) r.now.heading r.now.rows))
        (closed (around node.entry.place node.entry.heading.now node.entry.commalist.now) node.entry.place node.entry.heading.now))) }
    ensures cost { steps.new ≤ steps.old + bound (length r.now.rows) (length node.entry.commalist.now) }
{
    match summarized_by_cells(alloc, node, of, r) {
        Ok(Some(relation)) => Ok(relation),
        Ok(None) => summarized_and_packed(alloc, node, of, r, steps),
        Err(stop) => Err(stop),
    }
}

// The same by boxes that `coalesced_boxes` packs, where figures of columns give them.
fn summarized_by_cells(
    alloc: Global,
    node: Node<'_>,
    of: Grouping<'_>,
    r: &Relation,
) -> Result<Option<Relation>, Stop>
    requires summary { (sizes : List ℕ) × IsSummary sizes r.now.heading node.heading.now of.by.now (map read_aggregate of.aggregates.now) }
    requires list { IsList node.heading.now node.commalist.now }
    requires listed { HasList node.heading.now node.commalist.now r.now.heading }
    requires summed { IsSummedBy node.heading.now node.commalist.now r.now.heading of.by.now (map read_aggregate of.aggregates.now) }
    requires here { of.commalist.now ≡ listed node.heading.now node.commalist.now r.now.heading }
    requires places { of.at.now ≡ places (aggregate_names (map read_aggregate of.aggregates.now) ++ names_of r.now.heading) node.heading.now }
    ensures value { AnswersIf result (under node.entry.heading.now
        (then_give (summarized of.entry.by.now
        (λ numbers. group_row r.now.heading node.entry.heading.now (map read_aggregate of.entry.aggregates.now)
        (rows_at (opened (around node.entry.place node.entry.heading.now node.entry.commalist.now) r.now.heading r.now.rows) numbers))
        (opened (around node.entry.place node.entry.heading.now node.entry.commalist.now) r.now.heading r.now.rows))
        (closed (around node.entry.place node.entry.heading.now node.entry.commalist.now) node.entry.place node.entry.heading.now))) }
{
    let _attributes = node.heading.attributes();
    let _rows = r.rows();
    let whole = node.heading.copy(alloc)?;
    let key = group_positions(alloc, of, node.commalist)?;
    match summary_cells(alloc, of, node.commalist, r)? {
        Some((_, Some(fault))) => Err(Stop::Fault(fault)),
        Some((cells, None)) => or_fault_if(
            node.place,
            coalesced_boxes(alloc, whole, node.commalist[0], key.as_slice(), cells),
        ),
        None => Ok(None),
    }
}

// The positions in a group's row of the values by which rows are grouped, without the listed ones. Only speed hangs on it.
fn group_positions(
    alloc: Global,
    of: Grouping<'_>,
    commalist: &[usize],
) -> Result<Vec<usize>, Memory> {
    let mut positions = Vec::new(alloc);
    for (i, place) in of.at.iter().enumerate() {
        if *place >= of.aggregates.len() && !is_listed(commalist, i) {
            positions.push(i)?;
        }
    }
    Ok(positions)
}

// The same by the packed boxes of all groups.
fn summarized_and_packed<L: Ledger>(
    alloc: Global,
    node: Node<'_>,
    of: Grouping<'_>,
    r: &Relation,
    steps: &mut Steps<L>,
) -> Result<Relation, Stop>
    requires summary { (sizes : List ℕ) × IsSummary sizes r.now.heading node.heading.now of.by.now (map read_aggregate of.aggregates.now) }
    requires list { IsList node.heading.now node.commalist.now }
    requires listed { HasList node.heading.now node.commalist.now r.now.heading }
    requires summed { IsSummedBy node.heading.now node.commalist.now r.now.heading of.by.now (map read_aggregate of.aggregates.now) }
    requires here { of.commalist.now ≡ listed node.heading.now node.commalist.now r.now.heading }
    requires places { of.at.now ≡ places (aggregate_names (map read_aggregate of.aggregates.now) ++ names_of r.now.heading) node.heading.now }
    ensures value { Answers result (under node.entry.heading.now
        (then_give (summarized of.entry.by.now
        (λ numbers. group_row r.now.heading node.entry.heading.now (map read_aggregate of.entry.aggregates.now)
        (rows_at (opened (around node.entry.place node.entry.heading.now node.entry.commalist.now) r.now.heading r.now.rows) numbers))
        (opened (around node.entry.place node.entry.heading.now node.entry.commalist.now) r.now.heading r.now.rows))
        (closed (around node.entry.place node.entry.heading.now node.entry.commalist.now) node.entry.place node.entry.heading.now))) }
    ensures cost { steps.new ≤ steps.old + bound (length r.now.rows) (length node.entry.commalist.now) }
{
    let _attributes = node.heading.attributes();
    let _rows = r.rows();
    let whole = node.heading.copy(alloc)?;
    match summary_form(alloc, of, node.commalist, r, steps) {
        Ok(form) => or_fault_at(node.place, from_boxes(alloc, whole, node.commalist, form)),
        Err(CellRefuse::Limit) => or_fault_at(node.place, Err(RowsRefuse::TooMany)),
        Err(CellRefuse::Op(fault)) => Err(Stop::Fault(fault)),
        Err(CellRefuse::Memory) => Err(Stop::Memory),
    }
}
