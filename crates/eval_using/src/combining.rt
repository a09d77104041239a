// Operators under USING that look at labels and places alone.
ghost use Rattle.std.specs.Prelude.{◌≡◌, ◌≤◌, ◌+◌, length, IsTrue};
ghost use Rattle.relation_core.specs.Answers.{Answers, under};
ghost use Rattle.relation_core.specs.Operators.{united, intersected, subtracted};
ghost use Rattle.relation_core.specs.Parts.{projected};
ghost use Rattle.cell_core.specs.Costs.{bound};
ghost use Rattle.meaning_core.specs.Meanings.{infix_rows, opened, closed};
ghost use Rattle.meaning_core.specs.Typing.{IsInfix, IsProjection, IsList};
ghost use Rattle.eval_using.specs.Using.{around, HasList};

use crate::joining::{using_join, using_matching, using_not_matching};
use crate::node::Node;
use point_core::{Steps, Stop};
use row_making::or_fault_at;
use std::alloc::Global;
use std::sync::ledger::Ledger;
use tree_core::InfixWord;
use u_join::{intersected, subtracted};
use u_row::projected;
use u_set::united;
use value_core::Relation;

/// What the operator gives of two relations under USING; or the fault of too many rows.
pub fn using_infix<L: Ledger>(
    alloc: Global,
    node: Node<'_>,
    word: InfixWord,
    left: &Relation,
    right: &Relation,
    steps: &mut Steps<L>,
) -> Result<Relation, Stop>
    requires infix { IsInfix word left.now.heading right.now.heading node.heading.now }
    requires list { IsList node.heading.now node.commalist.now }
    requires left { HasList node.heading.now node.commalist.now left.now.heading }
    requires right { HasList node.heading.now node.commalist.now right.now.heading }
    ensures value { Answers result (under node.entry.heading.now (closed (around node.entry.place node.entry.heading.now node.entry.commalist.now) node.entry.place node.entry.heading.now
        (infix_rows word left.now.heading right.now.heading
        (opened (around node.entry.place node.entry.heading.now node.entry.commalist.now) left.now.heading left.now.rows)
        (opened (around node.entry.place node.entry.heading.now node.entry.commalist.now) right.now.heading right.now.rows)))) }
    ensures cost { steps.new ≤ steps.old + bound (length left.now.rows + length right.now.rows) (length node.entry.commalist.now) }
{
    match word {
        InfixWord::Union => using_union(alloc, node, left, right, steps),
        InfixWord::Intersect => using_intersection(alloc, node, left, right, steps),
        InfixWord::Minus => using_difference(alloc, node, left, right, steps),
        InfixWord::Join => using_join(alloc, node, left, right, steps),
        InfixWord::Matching => using_matching(alloc, node, left, right, steps),
        InfixWord::NotMatching => using_not_matching(alloc, node, left, right, steps),
    }
}

// The rows of either relation under USING.
fn using_union<L: Ledger>(
    alloc: Global,
    node: Node<'_>,
    left: &Relation,
    right: &Relation,
    steps: &mut Steps<L>,
) -> Result<Relation, Stop>
    requires list { IsList node.heading.now node.commalist.now }
    requires left { node.heading.now ≡ left.now.heading }
    requires right { node.heading.now ≡ right.now.heading }
    ensures value { Answers result (under node.entry.heading.now (closed (around node.entry.place node.entry.heading.now node.entry.commalist.now) node.entry.place node.entry.heading.now (united
        (opened (around node.entry.place node.entry.heading.now node.entry.commalist.now) left.now.heading left.now.rows)
        (opened (around node.entry.place node.entry.heading.now node.entry.commalist.now) right.now.heading right.now.rows)))) }
    ensures cost { steps.new ≤ steps.old + bound (length left.now.rows + length right.now.rows) (length node.entry.commalist.now) }
{
    // The names of a heading are different, so the names at the positions lead back to these.
    let _attributes = node.heading.attributes();
    or_fault_at(
        node.place,
        united(alloc, left, right, node.commalist, steps),
    )
}

// The rows of both relations under USING.
fn using_intersection<L: Ledger>(
    alloc: Global,
    node: Node<'_>,
    left: &Relation,
    right: &Relation,
    steps: &mut Steps<L>,
) -> Result<Relation, Stop>
    requires list { IsList node.heading.now node.commalist.now }
    requires left { node.heading.now ≡ left.now.heading }
    requires right { node.heading.now ≡ right.now.heading }
    ensures value { Answers result (under node.entry.heading.now (closed (around node.entry.place node.entry.heading.now node.entry.commalist.now) node.entry.place node.entry.heading.now (intersected
        (opened (around node.entry.place node.entry.heading.now node.entry.commalist.now) left.now.heading left.now.rows)
        (opened (around node.entry.place node.entry.heading.now node.entry.commalist.now) right.now.heading right.now.rows)))) }
    ensures cost { steps.new ≤ steps.old + bound (length left.now.rows + length right.now.rows) (length node.entry.commalist.now) }
{
    // The names of a heading are different, so the names at the positions lead back to these.
    let _attributes = node.heading.attributes();
    or_fault_at(
        node.place,
        intersected(alloc, left, right, node.commalist, steps),
    )
}

// The rows of the left relation alone under USING.
fn using_difference<L: Ledger>(
    alloc: Global,
    node: Node<'_>,
    left: &Relation,
    right: &Relation,
    steps: &mut Steps<L>,
) -> Result<Relation, Stop>
    requires list { IsList node.heading.now node.commalist.now }
    requires left { node.heading.now ≡ left.now.heading }
    requires right { node.heading.now ≡ right.now.heading }
    ensures value { Answers result (under node.entry.heading.now (closed (around node.entry.place node.entry.heading.now node.entry.commalist.now) node.entry.place node.entry.heading.now (subtracted
        (opened (around node.entry.place node.entry.heading.now node.entry.commalist.now) left.now.heading left.now.rows)
        (opened (around node.entry.place node.entry.heading.now node.entry.commalist.now) right.now.heading right.now.rows)))) }
    ensures cost { steps.new ≤ steps.old + bound (length left.now.rows + length right.now.rows) (length node.entry.commalist.now) }
{
    // The names of a heading are different, so the names at the positions lead back to these.
    let _attributes = node.heading.attributes();
    or_fault_at(
        node.place,
        subtracted(alloc, left, right, node.commalist, steps),
    )
}

/// The parts of a relation's rows at the positions under USING.
pub fn using_projection<L: Ledger>(
    alloc: Global,
    node: Node<'_>,
    kept: &[usize],
    r: &Relation,
    steps: &mut Steps<L>,
) -> Result<Relation, Stop>
    requires projection { IsProjection r.now.heading node.heading.now kept.now }
    requires list { IsList node.heading.now node.commalist.now }
    requires listed { HasList node.heading.now node.commalist.now r.now.heading }
    ensures value { Answers result (under node.entry.heading.now (closed (around node.entry.place node.entry.heading.now node.entry.commalist.now) node.entry.place node.entry.heading.now
        (projected kept.now (opened (around node.entry.place node.entry.heading.now node.entry.commalist.now) r.now.heading r.now.rows)))) }
    ensures cost { steps.new ≤ steps.old + bound (length r.now.rows) (length node.entry.commalist.now) }
{
    // The names of a heading are different, so the names at the positions lead back to these.
    let _attributes = node.heading.attributes();
    let _own = r.heading();
    or_fault_at(
        node.place,
        projected(alloc, node.heading, node.commalist, kept, r, steps),
    )
}
