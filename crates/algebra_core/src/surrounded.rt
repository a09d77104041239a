// Operators on relations, plainly or under USING.
ghost use Rattle.std.specs.Prelude.{◌≤◌, ◌+◌, ◌∷◌, [], ℕ, List, length, map};
ghost use Rattle.base_core.specs.Outcomes.{then_give};
ghost use Rattle.scalar_core.specs.Expressions.{read};
ghost use Rattle.relation_core.specs.Answers.{Answers, under};
ghost use Rattle.relation_core.specs.Groups.{rows_at, summarized};
ghost use Rattle.relation_core.specs.Operators.{restricted, extended};
ghost use Rattle.relation_core.specs.Parts.{projected};
ghost use Rattle.tree_core.specs.Trees.{read_sets, read_aggregate};
ghost use Rattle.meaning_core.specs.Meanings.{condition, infix_rows, opened, closed};
ghost use Rattle.meaning_core.specs.Rows.{extended_row, group_row};
ghost use Rattle.meaning_core.specs.Typing.{IsInfix, IsProjection, IsRestriction, IsExtension, IsSummary};
ghost use Rattle.eval_using.specs.Cells.{scalars_of};
ghost use Rattle.algebra_core.specs.Costs.{operator_cost, rule_cost};
ghost use Rattle.algebra_core.specs.Surroundings.{around_of, IsListed, KeepsList, IsSwept, AreSwept, AreSummed};

use crate::surrounding::Surrounding;
use crate::{operators, summary};
use eval_using::{
    Node, using_extension, using_infix, using_projection, using_restriction, using_summary,
};
use point_core::{Steps, Stop};
use scalar_core::Scalar;
use std::alloc::Global;
use std::sync::ledger::Ledger;
use tree_core::{Aggregates, InfixWord, RelTree, Sets};
use value_core::{Heading, Positions, Relation};

/// What the operator gives of two relations.
pub(crate) fn infix<L: Ledger>(
    alloc: Global,
    around: Surrounding<'_>,
    tree: &RelTree,
    word: InfixWord,
    left: &Relation,
    right: &Relation,
    steps: &mut Steps<L>,
) -> Result<Relation, Stop>
    requires infix { IsInfix word left.now.heading right.now.heading tree.now.heading }
    requires list { IsListed around tree.now.heading }
    requires left { KeepsList around tree.now.heading left.now.heading }
    requires right { KeepsList around tree.now.heading right.now.heading }
    ensures value { Answers result (under tree.now.heading (closed (around_of around.entry tree.now.heading) tree.now.place tree.now.heading
        (infix_rows word left.now.heading right.now.heading
        (opened (around_of around.entry tree.now.heading) left.now.heading left.now.rows)
        (opened (around_of around.entry tree.now.heading) right.now.heading right.now.rows)))) }
    ensures cost { steps.new ≤ steps.old + operator_cost (around_of around.entry tree.now.heading) (length left.now.rows + length right.now.rows) }
{
    match around {
        Surrounding::Plainly => operators::infix(alloc, tree.place, word, left, right),
        Surrounding::Using(place, commalist) => {
            let heading = &tree.heading;
            let node = Node {
                place,
                heading,
                commalist,
            };
            using_infix(alloc, node, word, left, right, steps)
        }
    }
}

/// The parts of a relation's rows at the positions.
pub(crate) fn projection<L: Ledger>(
    alloc: Global,
    around: Surrounding<'_>,
    heading: &Heading,
    kept: &Positions,
    r: &Relation,
    steps: &mut Steps<L>,
) -> Result<Relation, Stop>
    requires projection { IsProjection r.now.heading heading.now kept.now }
    requires list { IsListed around heading.now }
    requires listed { KeepsList around heading.now r.now.heading }
    ensures value { (place : _) → Answers result (under heading.now (closed (around_of around.entry heading.now) place heading.now
        (projected kept.now (opened (around_of around.entry heading.now) r.now.heading r.now.rows)))) }
    ensures cost { steps.new ≤ steps.old + operator_cost (around_of around.entry heading.now) (length r.now.rows) }
{
    match around {
        Surrounding::Plainly => operators::projected(alloc, r, kept),
        Surrounding::Using(place, commalist) => {
            let node = Node {
                place,
                heading,
                commalist,
            };
            using_projection(alloc, node, kept.list.as_slice(), r, steps)
        }
    }
}

/// The rows for which the condition holds, or its least fault.
pub(crate) fn restriction<L: Ledger>(
    alloc: Global,
    around: Surrounding<'_>,
    heading: &Heading,
    c: &Scalar,
    r: &Relation,
    steps: &mut Steps<L>,
) -> Result<Relation, Stop>
    requires restriction { (sizes : List ℕ) × IsRestriction sizes r.now.heading heading.now (read c.now) }
    requires list { IsListed around heading.now }
    requires swept { IsSwept around heading.now r.now.heading (read c.now) }
    ensures value { (place : _) → Answers result (under heading.now
        (then_give (restricted (condition (read c.now)) (opened (around_of around.entry heading.now) r.now.heading r.now.rows))
        (closed (around_of around.entry heading.now) place heading.now))) }
    ensures cost { steps.new ≤ steps.old + rule_cost (around_of around.entry heading.now) r.now.heading (read c.now ∷ []) r.now.rows }
{
    match around {
        Surrounding::Plainly => row_making::restricted(alloc, r, c),
        Surrounding::Using(place, commalist) => {
            let node = Node {
                place,
                heading,
                commalist,
            };
            using_restriction(alloc, node, c, r, steps)
        }
    }
}

/// Each row with the values of the items put in or in place, or their least fault.
pub(crate) fn extension<L: Ledger>(
    alloc: Global,
    around: Surrounding<'_>,
    heading: &Heading,
    sets: &Sets,
    r: &Relation,
    steps: &mut Steps<L>,
) -> Result<Relation, Stop>
    requires extension { (sizes : List ℕ) × IsExtension sizes r.now.heading heading.now (read_sets sets.now) }
    requires list { IsListed around heading.now }
    requires listed { KeepsList around heading.now r.now.heading }
    requires swept { AreSwept around heading.now r.now.heading (read_sets sets.now) }
    ensures value { (place : _) → Answers result (under heading.now
        (then_give (extended (extended_row r.now.heading heading.now (read_sets sets.now)) (opened (around_of around.entry heading.now) r.now.heading r.now.rows))
        (closed (around_of around.entry heading.now) place heading.now))) }
    ensures cost { steps.new ≤ steps.old + rule_cost (around_of around.entry heading.now) r.now.heading (scalars_of (read_sets sets.now)) r.now.rows }
{
    match around {
        Surrounding::Plainly => row_making::extended(alloc, r, heading, sets),
        Surrounding::Using(place, commalist) => {
            let node = Node {
                place,
                heading,
                commalist,
            };
            using_extension(alloc, node, sets, r, steps)
        }
    }
}

/// A row for each group of the rows that agree at the positions, with the values of the aggregates, or their least fault.
pub(crate) fn grouping<L: Ledger>(
    alloc: Global,
    around: Surrounding<'_>,
    heading: &Heading,
    by: &Positions,
    aggregates: &Aggregates,
    r: &Relation,
    steps: &mut Steps<L>,
) -> Result<Relation, Stop>
    requires summary { (sizes : List ℕ) × IsSummary sizes r.now.heading heading.now by.now (map read_aggregate aggregates.now) }
    requires list { IsListed around heading.now }
    requires listed { KeepsList around heading.now r.now.heading }
    requires summed { AreSummed around heading.now r.now.heading by.now (map read_aggregate aggregates.now) }
    ensures value { (place : _) → Answers result (under heading.now
        (then_give (summarized by.now
        (λ numbers. group_row r.now.heading heading.now (map read_aggregate aggregates.now)
        (rows_at (opened (around_of around.entry heading.now) r.now.heading r.now.rows) numbers))
        (opened (around_of around.entry heading.now) r.now.heading r.now.rows))
        (closed (around_of around.entry heading.now) place heading.now))) }
    ensures cost { steps.new ≤ steps.old + operator_cost (around_of around.entry heading.now) (length r.now.rows) }
{
    match around {
        Surrounding::Plainly => summary::summarized(alloc, r, heading, by, aggregates),
        Surrounding::Using(place, commalist) => {
            let node = Node {
                place,
                heading,
                commalist,
            };
            using_summary(alloc, node, by.list.as_slice(), aggregates, r, steps)
        }
    }
}
