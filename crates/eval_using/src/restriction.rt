// Restriction under USING by boxes.
ghost use Rattle.std.specs.Prelude.{◌≡◌, ◌+◌, ◌<◌, ◌≤◌, ◌∷◌, [], List, length, map, Some, None, Err, IfOk};
ghost use Rattle.std.specs.List.{All};
ghost use Rattle.base_core.specs.Outcomes.{then_give};
ghost use Rattle.point_core.specs.Points.{number, IsPointOf};
ghost use Rattle.point_core.specs.declared.fault.Fault.{Fault as AnyFault};
ghost use Rattle.interval_core.specs.Members.{Span};
ghost use Rattle.value_core.specs.RowPacking.{packed, unpacked};
ghost use Rattle.value_core.specs.Values.{IsRelation, Row as PlainRow, row_cmp, most_rows};
ghost use Rattle.value_core.specs.declared.kind.Kind.TheVariants.{Truth};
ghost use Rattle.scalar_core.specs.Expressions.{read};
ghost use Rattle.scalar_core.specs.Kinds.{IsTyped};
ghost use Rattle.scalar_core.specs.Sweeping.{IsSweepable};
ghost use Rattle.relation_core.specs.Answers.{Answers, under};
ghost use Rattle.relation_core.specs.Operators.{restricted};
ghost use Rattle.point_core.specs.LeastFault.{IsLeast};
ghost use Rattle.cell_core.specs.Boxes.{IsBox};
ghost use Rattle.cell_core.specs.Cells.{row_numbers};
ghost use Rattle.cell_core.specs.Costs.{bound};
ghost use Rattle.cell_core.specs.declared.boxes.CellRefuse.TheVariants.{Op as OfOp, Limit as OfLimit};
ghost use Rattle.u_set.specs.Boxes.{AreIntervals, types_at, spans_at};
ghost use Rattle.u_row.specs.Rules.{HasRuleFault, IsRuleForm};
ghost use Rattle.meaning_core.specs.Meanings.{condition, limited};
ghost use Rattle.eval_using.specs.Cells.{cells_of_all};
ghost use Rattle.eval_using.specs.Swept.{met, swept_rows};

use crate::conditions::Condition;
use crate::in_place::restricted_by_rows;
use cell_core::{BoxRow, CellRefuse};
use point_core::{AnyType, Place, Steps, Stop};
use row_making::or_fault_at;
use scalar_core::Scalar;
use std::alloc::Global;
use std::sync::ledger::Ledger;
use u_row::u_rule;
use u_set::{from_boxes, to_boxes, types_at};
use value_core::{MOST_ROWS, Relation, Row, RowsRefuse};

/// The packed boxes of the places of a relation's rows at which the condition holds.
pub(crate) fn restricted_form<L: Ledger>(
    alloc: Global,
    commalist: &[usize],
    c: &Scalar,
    r: &Relation,
    steps: &mut Steps<L>,
) -> Result<Vec<BoxRow<AnyType, Row>>, CellRefuse>
    requires intervals { AreIntervals r.now.heading commalist.now }
    requires typed { IsTyped r.now.heading (read c.now) Truth }
    requires sweepable { IsSweepable commalist.now (read c.now) }
    ensures relation { IsRelation r.now }
    ensures rows { IfOk result (λ v. IsRuleForm row_cmp (length commalist.now) (swept_rows commalist.now commalist.now (met (read c.now)) r.now.rows)
        (map (spans_at commalist.now) r.now.rows) (map (row_numbers number) v.items)) }
    ensures boxes { IfOk result (λ v. All (λ b. IsBox IsPointOf (types_at r.now.heading commalist.now) b.1) v.items) }
    ensures no_fault { IfOk result (λ v. IsLeast (HasRuleFault (swept_rows commalist.now commalist.now (met (read c.now)) r.now.rows) (map (spans_at commalist.now) r.now.rows)) None) }
    ensures fault { (e : AnyFault) → result ≡ Err (OfOp e) →
        IsLeast (HasRuleFault (swept_rows commalist.now commalist.now (met (read c.now)) r.now.rows) (map (spans_at commalist.now) r.now.rows)) (Some e) }
    ensures limit { result ≡ Err OfLimit →
        IsLeast (HasRuleFault (swept_rows commalist.now commalist.now (met (read c.now)) r.now.rows) (map (spans_at commalist.now) r.now.rows)) None ×
        ((form : List (PlainRow × List Span)) × IsRuleForm row_cmp (length commalist.now) (swept_rows commalist.now commalist.now (met (read c.now)) r.now.rows)
        (map (spans_at commalist.now) r.now.rows) form × (most_rows < length form)) }
    ensures cost { steps.new ≤ steps.old + bound (cells_of_all commalist.now (read c.now ∷ []) r.now.rows) (length commalist.now) }
{
    let types = types_at(alloc, r.heading().attributes(), commalist)?;
    let boxes = to_boxes(alloc, r, commalist)?;
    let rule = Condition {
        c,
        commalist,
        rows: r.rows(),
        boxes: boxes.as_slice(),
    };
    u_rule(
        alloc,
        types.as_slice(),
        boxes.as_slice(),
        &rule,
        MOST_ROWS,
        steps,
    )
}

// The relation at the points of which the condition holds, or the least fault of the condition at any point, or that of too many
// rows at the place, by the boxes of all rows.
fn restricted_and_packed<L: Ledger>(
    alloc: Global,
    place: Place,
    commalist: &[usize],
    c: &Scalar,
    r: &Relation,
    steps: &mut Steps<L>,
) -> Result<Relation, Stop>
    requires intervals { AreIntervals r.now.heading commalist.now }
    requires typed { IsTyped r.now.heading (read c.now) Truth }
    requires sweepable { IsSweepable commalist.now (read c.now) }
    ensures value { Answers result (under r.now.heading
        (then_give (restricted (condition (read c.now)) (unpacked commalist.now r.now.rows)) (λ rows. limited place (packed commalist.now rows)))) }
    ensures cost { steps.new ≤ steps.old + bound (cells_of_all commalist.now (read c.now ∷ []) r.now.rows) (length commalist.now) }
{
    let whole = r.heading().copy(alloc)?;
    match restricted_form(alloc, commalist, c, r, steps) {
        Ok(form) => or_fault_at(place, from_boxes(alloc, whole, commalist, form)),
        Err(CellRefuse::Limit) => or_fault_at(place, Err(RowsRefuse::TooMany)),
        Err(CellRefuse::Op(fault)) => Err(Stop::Fault(fault)),
        Err(CellRefuse::Memory) => Err(Stop::Memory),
    }
}

/// The relation at the points of which the condition holds, or the least fault of the condition at any point, or that of too many
/// rows at the place.
pub(crate) fn restricted_by_boxes<L: Ledger>(
    alloc: Global,
    place: Place,
    commalist: &[usize],
    c: &Scalar,
    r: &Relation,
    steps: &mut Steps<L>,
) -> Result<Relation, Stop>
    requires intervals { AreIntervals r.now.heading commalist.now }
    requires typed { IsTyped r.now.heading (read c.now) Truth }
    requires sweepable { IsSweepable commalist.now (read c.now) }
    ensures value { Answers result (under r.now.heading
        (then_give (restricted (condition (read c.now)) (unpacked commalist.now r.now.rows)) (λ rows. limited place (packed commalist.now rows)))) }
    ensures cost { steps.new ≤ steps.old + bound (cells_of_all commalist.now (read c.now ∷ []) r.now.rows) (length commalist.now) }
{
    match restricted_by_rows(alloc, place, commalist, c, r) {
        Ok(Some(relation)) => Ok(relation),
        Ok(None) => restricted_and_packed(alloc, place, commalist, c, r, steps),
        Err(stop) => Err(stop),
    }
}
