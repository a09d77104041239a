// Operators under USING that ask an expression at each point.
ghost use Rattle.std.specs.Prelude.{ℕ, ◌≤◌, ◌+◌, ◌∷◌, [], List, length};
ghost use Rattle.base_core.specs.Outcomes.{then_give};
ghost use Rattle.scalar_core.specs.Expressions.{read};
ghost use Rattle.relation_core.specs.Answers.{Answers, under};
ghost use Rattle.relation_core.specs.Operators.{restricted, extended};
ghost use Rattle.tree_core.specs.Trees.{read_sets};
ghost use Rattle.cell_core.specs.Costs.{bound};
ghost use Rattle.meaning_core.specs.Meanings.{condition, opened, closed};
ghost use Rattle.meaning_core.specs.Rows.{extended_row};
ghost use Rattle.meaning_core.specs.Typing.{IsRestriction, IsExtension, IsList};
ghost use Rattle.eval_using.specs.Cells.{cells_of_all, scalars_of};
ghost use Rattle.eval_using.specs.Using.{around, listed, HasList, IsSweptBy, AreSweptBy};

use crate::extension::extended_by_boxes;
use crate::items::Items;
use crate::listing::listed;
use crate::node::Node;
use crate::restriction::restricted_by_boxes;
use point_core::{Steps, Stop};
use row_making::set_places;
use scalar_core::Scalar;
use std::alloc::Global;
use std::sync::ledger::Ledger;
use tree_core::Sets;
use value_core::Relation;

/// The relation at the points of which the condition holds, or the least fault of the condition at any point.
pub fn using_restriction<L: Ledger>(
    alloc: Global,
    node: Node<'_>,
    c: &Scalar,
    r: &Relation,
    steps: &mut Steps<L>,
) -> Result<Relation, Stop>
    requires restriction { (sizes : List ℕ) × IsRestriction sizes r.now.heading node.heading.now (read c.now) }
    requires list { IsList node.heading.now node.commalist.now }
    requires swept { IsSweptBy node.heading.now node.commalist.now r.now.heading (read c.now) }
    ensures value { Answers result (under node.entry.heading.now
        (then_give (restricted (condition (read c.now)) (opened (around node.entry.place node.entry.heading.now node.entry.commalist.now) r.now.heading r.now.rows))
        (closed (around node.entry.place node.entry.heading.now node.entry.commalist.now) node.entry.place node.entry.heading.now))) }
    ensures cost { steps.new ≤ steps.old + bound (cells_of_all (listed node.entry.heading.now node.entry.commalist.now r.now.heading) (read c.now ∷ []) r.now.rows) (length node.entry.commalist.now) }
{
    // The names of a heading are different, so the names at the positions lead back to these.
    let _attributes = node.heading.attributes();
    restricted_by_boxes(alloc, node.place, node.commalist, c, r, steps)
}

/// The relation with the values of the items at each point, or their least fault at any point.
pub fn using_extension<L: Ledger>(
    alloc: Global,
    node: Node<'_>,
    sets: &Sets,
    r: &Relation,
    steps: &mut Steps<L>,
) -> Result<Relation, Stop>
    requires extension { (sizes : List ℕ) × IsExtension sizes r.now.heading node.heading.now (read_sets sets.now) }
    requires list { IsList node.heading.now node.commalist.now }
    requires listed { HasList node.heading.now node.commalist.now r.now.heading }
    requires swept { AreSweptBy node.heading.now node.commalist.now r.now.heading (read_sets sets.now) }
    ensures value { Answers result (under node.entry.heading.now
        (then_give (extended (extended_row r.now.heading node.entry.heading.now (read_sets sets.now)) (opened (around node.entry.place node.entry.heading.now node.entry.commalist.now) r.now.heading r.now.rows))
        (closed (around node.entry.place node.entry.heading.now node.entry.commalist.now) node.entry.place node.entry.heading.now))) }
    ensures cost { steps.new ≤ steps.old + bound (cells_of_all (listed node.entry.heading.now node.entry.commalist.now r.now.heading) (scalars_of (read_sets sets.now)) r.now.rows) (length node.entry.commalist.now) }
{
    // The names of a heading are different, so the names at the positions lead back to these.
    let attributes = node.heading.attributes();
    let from = r.heading().attributes();
    let commalist_there = listed(alloc, attributes, node.commalist, from)?;
    let list = sets.list.as_slice();
    let places = set_places(alloc, list, from, attributes)?;
    let items = Items {
        commalist: commalist_there.as_slice(),
        to: node.commalist,
        places: places.as_slice(),
        sets: list,
    };
    extended_by_boxes(alloc, node.place, node.heading, items, r, steps)
}
