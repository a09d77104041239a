// Summaries by boxes.
ghost use Rattle.std.specs.Prelude.{◌≡◌, ◌+◌, ◌<◌, ◌≤◌, List, length, map, Some, None, Err, IfOk, IsTrue};
ghost use Rattle.std.specs.List.{All, list_all};
ghost use Rattle.point_core.specs.Points.{number, IsPointOf};
ghost use Rattle.point_core.specs.declared.fault.Fault.{Fault as AnyFault};
ghost use Rattle.cell_packing.specs.Boxed.{Boxed};
ghost use Rattle.value_core.specs.Values.{IsRelation, Row as PlainRow, row_cmp, most_rows};
ghost use Rattle.tree_core.specs.Trees.{read_aggregate};
ghost use Rattle.point_core.specs.LeastFault.{IsLeast};
ghost use Rattle.cell_core.specs.Boxes.{IsBox};
ghost use Rattle.cell_core.specs.Cells.{row_numbers};
ghost use Rattle.cell_core.specs.Costs.{bound};
ghost use Rattle.cell_core.specs.declared.boxes.CellRefuse.TheVariants.{Op as OfOp, Limit as OfLimit};
ghost use Rattle.meaning_core.specs.Scalars.{AreSummedOver};
ghost use Rattle.meaning_core.specs.Typing.{names_none};
ghost use Rattle.u_set.specs.Boxes.{AreIntervals, types_at, boxed, others};
ghost use Rattle.u_row.specs.Kept.{inner};
ghost use Rattle.u_summarize.specs.Groups.{HasGroupFault, IsGroupForm};
ghost use Rattle.eval_using.specs.Columns.{AreFigured};
ghost use Rattle.eval_using.specs.Labels.{group_label};

use crate::figures::FigureSummary;
use crate::parts::{FigureParts, Grouping, figure_parts};
use crate::rule::Summary;
use cell_core::{BoxRow, CellRefuse};
use point_core::{AnyType, Steps};
use row_making::Making;
use std::alloc::Global;
use std::sync::ledger::Ledger;
use u_row::inner;
use u_set::{to_boxes, types_at};
use u_summarize::{Columns, u_summarize, u_tally};
use value_core::{MOST_ROWS, Relation, Row};

/// The packed boxes of the labels that the groups of a relation's rows give at points of the attributes at the positions; a group's
/// row loses its values at others.
pub(crate) fn summary_form<L: Ledger>(
    alloc: Global,
    of: Grouping<'_>,
    to: &[usize],
    r: &Relation,
    steps: &mut Steps<L>,
) -> Result<Vec<BoxRow<AnyType, Row>>, CellRefuse>
    requires intervals { AreIntervals r.now.heading of.commalist.now }
    requires typed { AreSummedOver r.now.rows (map read_aggregate of.aggregates.now) }
    requires unnamed { IsTrue (list_all (λ a. names_none of.commalist.now a.form) (map read_aggregate of.aggregates.now)) }
    ensures rows { IfOk result (λ v. IsGroupForm row_cmp (length of.entry.commalist.now) (group_label to.now of.entry.at.now (map read_aggregate of.entry.aggregates.now) r.now.rows)
        (inner of.entry.commalist.now of.entry.by.now) (map (boxed of.entry.commalist.now) r.now.rows) (map (row_numbers number) v.items)) }
    ensures boxes { IfOk result (λ v. All (λ b. IsBox IsPointOf (types_at r.now.heading of.entry.commalist.now) b.1) v.items) }
    ensures no_fault { IfOk result (λ v.
        IsLeast (HasGroupFault (group_label to.now of.entry.at.now (map read_aggregate of.entry.aggregates.now) r.now.rows) (inner of.entry.commalist.now of.entry.by.now) (map (boxed of.entry.commalist.now) r.now.rows)) None) }
    ensures fault { (e : AnyFault) → result ≡ Err (OfOp e) →
        IsLeast (HasGroupFault (group_label to.now of.entry.at.now (map read_aggregate of.entry.aggregates.now) r.now.rows) (inner of.entry.commalist.now of.entry.by.now) (map (boxed of.entry.commalist.now) r.now.rows)) (Some e) }
    ensures limit { result ≡ Err OfLimit →
        IsLeast (HasGroupFault (group_label to.now of.entry.at.now (map read_aggregate of.entry.aggregates.now) r.now.rows) (inner of.entry.commalist.now of.entry.by.now) (map (boxed of.entry.commalist.now) r.now.rows)) None ×
        ((form : List (Boxed PlainRow)) × IsGroupForm row_cmp (length of.entry.commalist.now) (group_label to.now of.entry.at.now (map read_aggregate of.entry.aggregates.now) r.now.rows)
        (inner of.entry.commalist.now of.entry.by.now) (map (boxed of.entry.commalist.now) r.now.rows) form × (most_rows < length form)) }
    ensures cost { steps.new ≤ steps.old + bound (length r.now.rows) (length of.entry.commalist.now) }
{
    match figure_parts(alloc, of, to, r)? {
        Some(parts) => figured_form(alloc, of, to, parts, r, steps),
        None => grouped_form(alloc, of, to, r, steps),
    }
}

// The same by figures of columns that are kept from cell to cell.
fn figured_form<L: Ledger>(
    alloc: Global,
    of: Grouping<'_>,
    to: &[usize],
    parts: FigureParts,
    r: &Relation,
    steps: &mut Steps<L>,
) -> Result<Vec<BoxRow<AnyType, Row>>, CellRefuse>
    requires intervals { AreIntervals r.now.heading of.commalist.now }
    requires side { length of.commalist.now ≡ 1 }
    requires figured { AreFigured parts.places.items to.now of.at.now (inner of.commalist.now of.by.now) (map read_aggregate of.aggregates.now)
        r.now.rows (map (others of.commalist.now) r.now.rows) parts.columns.items }
    ensures rows { IfOk result (λ v. IsGroupForm row_cmp (length of.entry.commalist.now) (group_label to.now of.entry.at.now (map read_aggregate of.entry.aggregates.now) r.now.rows)
        (inner of.entry.commalist.now of.entry.by.now) (map (boxed of.entry.commalist.now) r.now.rows) (map (row_numbers number) v.items)) }
    ensures boxes { IfOk result (λ v. All (λ b. IsBox IsPointOf (types_at r.now.heading of.entry.commalist.now) b.1) v.items) }
    ensures no_fault { IfOk result (λ v.
        IsLeast (HasGroupFault (group_label to.now of.entry.at.now (map read_aggregate of.entry.aggregates.now) r.now.rows) (inner of.entry.commalist.now of.entry.by.now) (map (boxed of.entry.commalist.now) r.now.rows)) None) }
    ensures fault { (e : AnyFault) → result ≡ Err (OfOp e) →
        IsLeast (HasGroupFault (group_label to.now of.entry.at.now (map read_aggregate of.entry.aggregates.now) r.now.rows) (inner of.entry.commalist.now of.entry.by.now) (map (boxed of.entry.commalist.now) r.now.rows)) (Some e) }
    ensures limit { result ≡ Err OfLimit →
        IsLeast (HasGroupFault (group_label to.now of.entry.at.now (map read_aggregate of.entry.aggregates.now) r.now.rows) (inner of.entry.commalist.now of.entry.by.now) (map (boxed of.entry.commalist.now) r.now.rows)) None ×
        ((form : List (Boxed PlainRow)) × IsGroupForm row_cmp (length of.entry.commalist.now) (group_label to.now of.entry.at.now (map read_aggregate of.entry.aggregates.now) r.now.rows)
        (inner of.entry.commalist.now of.entry.by.now) (map (boxed of.entry.commalist.now) r.now.rows) form × (most_rows < length form)) }
    ensures cost { steps.new ≤ steps.old + bound (length r.now.rows) (length of.entry.commalist.now) }
{
    let types = types_at(alloc, r.heading().attributes(), of.commalist)?;
    let boxes = to_boxes(alloc, r, of.commalist)?;
    let keys = inner(alloc, of.commalist, of.by)?;
    let FigureParts { columns, places } = parts;
    let making = Making {
        at: of.at,
        aggregates: of.aggregates,
        rows: r.rows(),
    };
    let summary = Summary { making, to };
    let labels = FigureSummary { summary, places };
    let rule = Columns {
        columns,
        rule: labels,
    };
    u_tally(
        alloc,
        types.as_slice(),
        boxes,
        keys.as_slice(),
        &rule,
        MOST_ROWS,
        steps,
    )
}

// The same, where the rows of a group are gone over at each cell.
fn grouped_form<L: Ledger>(
    alloc: Global,
    of: Grouping<'_>,
    to: &[usize],
    r: &Relation,
    steps: &mut Steps<L>,
) -> Result<Vec<BoxRow<AnyType, Row>>, CellRefuse>
    requires intervals { AreIntervals r.now.heading of.commalist.now }
    requires typed { AreSummedOver r.now.rows (map read_aggregate of.aggregates.now) }
    ensures rows { IfOk result (λ v. IsGroupForm row_cmp (length of.entry.commalist.now) (group_label to.now of.entry.at.now (map read_aggregate of.entry.aggregates.now) r.now.rows)
        (inner of.entry.commalist.now of.entry.by.now) (map (boxed of.entry.commalist.now) r.now.rows) (map (row_numbers number) v.items)) }
    ensures boxes { IfOk result (λ v. All (λ b. IsBox IsPointOf (types_at r.now.heading of.entry.commalist.now) b.1) v.items) }
    ensures no_fault { IfOk result (λ v.
        IsLeast (HasGroupFault (group_label to.now of.entry.at.now (map read_aggregate of.entry.aggregates.now) r.now.rows) (inner of.entry.commalist.now of.entry.by.now) (map (boxed of.entry.commalist.now) r.now.rows)) None) }
    ensures fault { (e : AnyFault) → result ≡ Err (OfOp e) →
        IsLeast (HasGroupFault (group_label to.now of.entry.at.now (map read_aggregate of.entry.aggregates.now) r.now.rows) (inner of.entry.commalist.now of.entry.by.now) (map (boxed of.entry.commalist.now) r.now.rows)) (Some e) }
    ensures limit { result ≡ Err OfLimit →
        IsLeast (HasGroupFault (group_label to.now of.entry.at.now (map read_aggregate of.entry.aggregates.now) r.now.rows) (inner of.entry.commalist.now of.entry.by.now) (map (boxed of.entry.commalist.now) r.now.rows)) None ×
        ((form : List (Boxed PlainRow)) × IsGroupForm row_cmp (length of.entry.commalist.now) (group_label to.now of.entry.at.now (map read_aggregate of.entry.aggregates.now) r.now.rows)
        (inner of.entry.commalist.now of.entry.by.now) (map (boxed of.entry.commalist.now) r.now.rows) form × (most_rows < length form)) }
    ensures cost { steps.new ≤ steps.old + bound (length r.now.rows) (length of.entry.commalist.now) }
{
    let types = types_at(alloc, r.heading().attributes(), of.commalist)?;
    let boxes = to_boxes(alloc, r, of.commalist)?;
    let keys = inner(alloc, of.commalist, of.by)?;
    let making = Making {
        at: of.at,
        aggregates: of.aggregates,
        rows: r.rows(),
    };
    let rule = Summary { making, to };
    u_summarize(
        alloc,
        types.as_slice(),
        boxes.as_slice(),
        keys.as_slice(),
        &rule,
        MOST_ROWS,
        steps,
    )
}
