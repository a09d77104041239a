// Extension under USING by boxes.
ghost use Rattle.std.specs.Prelude.{◌≡◌, ◌+◌, ◌<◌, ◌≤◌, List, length, map, Some, None, Err, IfOk};
ghost use Rattle.std.specs.List.{All};
ghost use Rattle.base_core.specs.Outcomes.{then_give};
ghost use Rattle.point_core.specs.Points.{number, IsPointOf};
ghost use Rattle.point_core.specs.declared.fault.Fault.{Fault as AnyFault};
ghost use Rattle.interval_core.specs.Members.{Span};
ghost use Rattle.value_core.specs.RowPacking.{packed, unpacked};
ghost use Rattle.value_core.specs.Values.{IsRelation, Heading as PlainHeading, row_cmp, most_rows};
ghost use Rattle.relation_core.specs.Answers.{Answers, under};
ghost use Rattle.relation_core.specs.Operators.{extended};
ghost use Rattle.tree_core.specs.Trees.{read_sets};
ghost use Rattle.point_core.specs.LeastFault.{IsLeast};
ghost use Rattle.cell_core.specs.Boxes.{IsBox};
ghost use Rattle.cell_core.specs.Cells.{row_numbers};
ghost use Rattle.cell_core.specs.Costs.{bound};
ghost use Rattle.cell_core.specs.declared.boxes.CellRefuse.TheVariants.{Op as OfOp, Limit as OfLimit};
ghost use Rattle.value_core.specs.Values.{Row as PlainRow};
ghost use Rattle.u_set.specs.Boxes.{types_at, spans_at};
ghost use Rattle.u_row.specs.Rules.{HasRuleFault, IsRuleForm};
ghost use Rattle.meaning_core.specs.Meanings.{limited};
ghost use Rattle.meaning_core.specs.Rows.{extended_at};
ghost use Rattle.eval_using.specs.Cells.{cells_of_all, scalars_of};
ghost use Rattle.eval_using.specs.Extended.{made_of, AreItems};
ghost use Rattle.eval_using.specs.Swept.{swept_rows};

use crate::items::{Extension, Items};
use crate::row_extension::extended_by_rows;
use cell_core::{BoxRow, CellRefuse};
use point_core::{AnyType, Place, Steps, Stop};
use row_making::or_fault_at;
use std::alloc::Global;
use std::sync::ledger::Ledger;
use u_row::u_rule;
use u_set::{from_boxes, to_boxes, types_at};
use value_core::{Heading, MOST_ROWS, Relation, Row, RowsRefuse};

/// The packed boxes of the rows that the items make at the places of a relation's rows.
pub(crate) fn extended_form<L: Ledger>(
    alloc: Global,
    items: Items<'_>,
    r: &Relation,
    steps: &mut Steps<L>,
) -> Result<Vec<BoxRow<AnyType, Row>>, CellRefuse>
    requires items { (heading : PlainHeading) × AreItems r.now.heading heading items.commalist.now items.to.now (read_sets items.sets.now) items.places.now }
    ensures relation { IsRelation r.now }
    ensures rows { IfOk result (λ v. IsRuleForm row_cmp (length items.entry.commalist.now) (swept_rows items.entry.commalist.now items.entry.to.now (made_of items.entry.places.now (read_sets items.entry.sets.now)) r.now.rows)
        (map (spans_at items.entry.commalist.now) r.now.rows) (map (row_numbers number) v.items)) }
    ensures boxes { IfOk result (λ v. All (λ b. IsBox IsPointOf (types_at r.now.heading items.entry.commalist.now) b.1) v.items) }
    ensures no_fault { IfOk result (λ v. IsLeast (HasRuleFault (swept_rows items.entry.commalist.now items.entry.to.now (made_of items.entry.places.now (read_sets items.entry.sets.now)) r.now.rows) (map (spans_at items.entry.commalist.now) r.now.rows)) None) }
    ensures fault { (e : AnyFault) → result ≡ Err (OfOp e) →
        IsLeast (HasRuleFault (swept_rows items.entry.commalist.now items.entry.to.now (made_of items.entry.places.now (read_sets items.entry.sets.now)) r.now.rows) (map (spans_at items.entry.commalist.now) r.now.rows)) (Some e) }
    ensures limit { result ≡ Err OfLimit →
        IsLeast (HasRuleFault (swept_rows items.entry.commalist.now items.entry.to.now (made_of items.entry.places.now (read_sets items.entry.sets.now)) r.now.rows) (map (spans_at items.entry.commalist.now) r.now.rows)) None ×
        ((form : List (PlainRow × List Span)) × IsRuleForm row_cmp (length items.entry.commalist.now) (swept_rows items.entry.commalist.now items.entry.to.now (made_of items.entry.places.now (read_sets items.entry.sets.now)) r.now.rows)
        (map (spans_at items.entry.commalist.now) r.now.rows) form × (most_rows < length form)) }
    ensures cost { steps.new ≤ steps.old + bound (cells_of_all items.entry.commalist.now (scalars_of (read_sets items.entry.sets.now)) r.now.rows) (length items.entry.commalist.now) }
{
    let types = types_at(alloc, r.heading().attributes(), items.commalist)?;
    let boxes = to_boxes(alloc, r, items.commalist)?;
    let rule = Extension {
        items,
        rows: r.rows(),
        boxes: boxes.as_slice(),
    };
    u_rule(
        alloc,
        types.as_slice(),
        boxes.as_slice(),
        &rule,
        MOST_ROWS,
        steps,
    )
}

// The relation of the rows that the items make at each point, or their least fault at any point, or that of too many rows at the
// place, by the boxes of all rows.
fn extended_and_packed<L: Ledger>(
    alloc: Global,
    place: Place,
    heading: &Heading,
    items: Items<'_>,
    r: &Relation,
    steps: &mut Steps<L>,
) -> Result<Relation, Stop>
    requires items { AreItems r.now.heading heading.now items.commalist.now items.to.now (read_sets items.sets.now) items.places.now }
    ensures value { Answers result (under heading.now
        (then_give (extended (extended_at items.entry.places.now (read_sets items.entry.sets.now)) (unpacked items.entry.commalist.now r.now.rows)) (λ rows. limited place (packed items.entry.to.now rows)))) }
    ensures cost { steps.new ≤ steps.old + bound (cells_of_all items.entry.commalist.now (scalars_of (read_sets items.entry.sets.now)) r.now.rows) (length items.entry.commalist.now) }
{
    let whole = heading.copy(alloc)?;
    match extended_form(alloc, items, r, steps) {
        Ok(form) => or_fault_at(place, from_boxes(alloc, whole, items.to, form)),
        Err(CellRefuse::Limit) => or_fault_at(place, Err(RowsRefuse::TooMany)),
        Err(CellRefuse::Op(fault)) => Err(Stop::Fault(fault)),
        Err(CellRefuse::Memory) => Err(Stop::Memory),
    }
}

/// The relation of the rows that the items make at each point, or their least fault at any point, or that of too many rows at the
/// place.
pub(crate) fn extended_by_boxes<L: Ledger>(
    alloc: Global,
    place: Place,
    heading: &Heading,
    items: Items<'_>,
    r: &Relation,
    steps: &mut Steps<L>,
) -> Result<Relation, Stop>
    requires items { AreItems r.now.heading heading.now items.commalist.now items.to.now (read_sets items.sets.now) items.places.now }
    ensures value { Answers result (under heading.now
        (then_give (extended (extended_at items.entry.places.now (read_sets items.entry.sets.now)) (unpacked items.entry.commalist.now r.now.rows)) (λ rows. limited place (packed items.entry.to.now rows)))) }
    ensures cost { steps.new ≤ steps.old + bound (cells_of_all items.entry.commalist.now (scalars_of (read_sets items.entry.sets.now)) r.now.rows) (length items.entry.commalist.now) }
{
    match extended_by_rows(alloc, place, heading, items, r) {
        Ok(Some(relation)) => Ok(relation),
        Ok(None) => extended_and_packed(alloc, place, heading, items, r, steps),
        Err(stop) => Err(stop),
    }
}
