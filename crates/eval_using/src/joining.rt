// JOIN, MATCHING and NOT MATCHING under USING.
ghost use Rattle.std.specs.Prelude.{◌≡◌, ◌≤◌, ◌+◌, length};
ghost use Rattle.value_core.specs.Headings.{most_attributes};
ghost use Rattle.relation_core.specs.Agreement.{matched, unmatched};
ghost use Rattle.relation_core.specs.Answers.{Answers, under};
ghost use Rattle.relation_core.specs.Joins.{HaveEqualKinds, joined_heading, joined};
ghost use Rattle.cell_core.specs.Costs.{bound};
ghost use Rattle.meaning_core.specs.Meanings.{opened, closed};
ghost use Rattle.meaning_core.specs.Typing.{IsList};
ghost use Rattle.eval_using.specs.Using.{around, HasList};

use crate::listing::listed;
use crate::node::Node;
use point_core::{Steps, Stop};
use row_making::or_fault_at;
use std::alloc::Global;
use std::sync::ledger::Ledger;
use u_join::{joined, matched, unmatched};
use value_core::Relation;

/// The rows of either relation that agree, put together, under USING.
pub(crate) fn using_join<L: Ledger>(
    alloc: Global,
    node: Node<'_>,
    left: &Relation,
    right: &Relation,
    steps: &mut Steps<L>,
) -> Result<Relation, Stop>
    requires kinds { HaveEqualKinds left.now.heading right.now.heading }
    requires heading { node.heading.now ≡ joined_heading left.now.heading right.now.heading }
    requires few { length node.heading.now ≤ most_attributes }
    requires list { IsList node.heading.now node.commalist.now }
    requires left { HasList node.heading.now node.commalist.now left.now.heading }
    requires right { HasList node.heading.now node.commalist.now right.now.heading }
    ensures value { Answers result (under node.entry.heading.now (closed (around node.entry.place node.entry.heading.now node.entry.commalist.now) node.entry.place node.entry.heading.now
        (joined left.now.heading right.now.heading
        (opened (around node.entry.place node.entry.heading.now node.entry.commalist.now) left.now.heading left.now.rows)
        (opened (around node.entry.place node.entry.heading.now node.entry.commalist.now) right.now.heading right.now.rows)))) }
    ensures cost { steps.new ≤ steps.old + bound (length left.now.rows + length right.now.rows) (length node.entry.commalist.now) }
{
    let attributes = node.heading.attributes();
    let here = listed(
        alloc,
        attributes,
        node.commalist,
        left.heading().attributes(),
    )?;
    let there = listed(
        alloc,
        attributes,
        node.commalist,
        right.heading().attributes(),
    )?;
    or_fault_at(
        node.place,
        joined(
            alloc,
            node.heading,
            node.commalist,
            left,
            right,
            here.as_slice(),
            there.as_slice(),
            steps,
        ),
    )
}

/// The rows of the left relation that agree with some row of the right one, under USING.
pub(crate) fn using_matching<L: Ledger>(
    alloc: Global,
    node: Node<'_>,
    left: &Relation,
    right: &Relation,
    steps: &mut Steps<L>,
) -> Result<Relation, Stop>
    requires kinds { HaveEqualKinds left.now.heading right.now.heading }
    requires heading { node.heading.now ≡ left.now.heading }
    requires list { IsList node.heading.now node.commalist.now }
    requires right { HasList node.heading.now node.commalist.now right.now.heading }
    ensures value { Answers result (under node.entry.heading.now (closed (around node.entry.place node.entry.heading.now node.entry.commalist.now) node.entry.place node.entry.heading.now
        (matched left.now.heading right.now.heading
        (opened (around node.entry.place node.entry.heading.now node.entry.commalist.now) left.now.heading left.now.rows)
        (opened (around node.entry.place node.entry.heading.now node.entry.commalist.now) right.now.heading right.now.rows)))) }
    ensures cost { steps.new ≤ steps.old + bound (length left.now.rows + length right.now.rows) (length node.entry.commalist.now) }
{
    let attributes = node.heading.attributes();
    let there = listed(
        alloc,
        attributes,
        node.commalist,
        right.heading().attributes(),
    )?;
    or_fault_at(
        node.place,
        matched(alloc, left, right, node.commalist, there.as_slice(), steps),
    )
}

/// The rows of the left relation that agree with no row of the right one, under USING.
pub(crate) fn using_not_matching<L: Ledger>(
    alloc: Global,
    node: Node<'_>,
    left: &Relation,
    right: &Relation,
    steps: &mut Steps<L>,
) -> Result<Relation, Stop>
    requires kinds { HaveEqualKinds left.now.heading right.now.heading }
    requires heading { node.heading.now ≡ left.now.heading }
    requires list { IsList node.heading.now node.commalist.now }
    requires right { HasList node.heading.now node.commalist.now right.now.heading }
    ensures value { Answers result (under node.entry.heading.now (closed (around node.entry.place node.entry.heading.now node.entry.commalist.now) node.entry.place node.entry.heading.now
        (unmatched left.now.heading right.now.heading
        (opened (around node.entry.place node.entry.heading.now node.entry.commalist.now) left.now.heading left.now.rows)
        (opened (around node.entry.place node.entry.heading.now node.entry.commalist.now) right.now.heading right.now.rows)))) }
    ensures cost { steps.new ≤ steps.old + bound (length left.now.rows + length right.now.rows) (length node.entry.commalist.now) }
{
    let attributes = node.heading.attributes();
    let there = listed(
        alloc,
        attributes,
        node.commalist,
        right.heading().attributes(),
    )?;
    or_fault_at(
        node.place,
        unmatched(alloc, left, right, node.commalist, there.as_slice(), steps),
    )
}
