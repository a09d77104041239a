// Boxes of the labels of groups by figures of columns, not packed.
ghost use Rattle.std.specs.Prelude.{◌≡◌, ◌∷◌, [], length, map, IfOk, IfSome, IsTrue};
ghost use Rattle.std.specs.List.{All, list_all};
ghost use Rattle.point_core.specs.Points.{number, IsPointOf};
ghost use Rattle.point_core.specs.declared.any_type.AnyType.{AnyType as AnyTypeSpec};
ghost use Rattle.tree_core.specs.Trees.{read_aggregate};
ghost use Rattle.cell_packing.specs.Packed.{Has, firsts};
ghost use Rattle.cell_core.specs.Boxes.{IsBox};
ghost use Rattle.cell_core.specs.Cells.{box_numbers, row_numbers};
ghost use Rattle.meaning_core.specs.Scalars.{AreSummedOver};
ghost use Rattle.meaning_core.specs.Typing.{names_none};
ghost use Rattle.u_set.specs.Boxes.{AreIntervals, types_at, boxed, others};
ghost use Rattle.u_row.specs.Kept.{inner};
ghost use Rattle.eval_using.specs.Columns.{AreFigured};
ghost use Rattle.eval_using.specs.Labels.{group_label, AreGroupCells};

use crate::figures::FigureSummary;
use crate::moved::type_at;
use crate::parts::{FigureParts, Grouping, figure_parts};
use crate::rule::Summary;
use cell_core::BoxRow;
use point_core::{AnyType, Fault, Memory};
use row_making::Making;
use std::alloc::Global;
use u_row::inner;
use u_set::to_boxes;
use u_summarize::{Columns, u_tally_cells};
use value_core::{Relation, Row};

// Tells of boxes of one side that each has its first place, since an interval has a point.
fn have_firsts(boxes: &[BoxRow<AnyType, Row>])
    requires { (t : AnyTypeSpec) × All (λ b. IsBox IsPointOf (t ∷ []) b.1) boxes.now }
    ensures { All (λ b. Has (box_numbers number b.1) (firsts (box_numbers number b.1))) boxes.now }
{
    for own in boxes {
        let _begin = own.sides.list[0].begin();
    }
}

// The boxes by these columns. None where the type has too many points.
fn figured_cells(
    alloc: Global,
    of: Grouping<'_>,
    to: &[usize],
    parts: FigureParts,
    r: &Relation,
) -> Result<Option<(Vec<BoxRow<AnyType, Row>>, Option<Fault>)>, Memory>
    requires intervals { AreIntervals r.now.heading of.commalist.now }
    requires side { length of.commalist.now ≡ 1 }
    requires figured { AreFigured parts.places.items to.now of.at.now (inner of.commalist.now of.by.now) (map read_aggregate of.aggregates.now)
        r.now.rows (map (others of.commalist.now) r.now.rows) parts.columns.items }
    ensures cells { IfOk result (λ o. IfSome o (λ v. AreGroupCells (group_label to.now of.entry.at.now (map read_aggregate of.entry.aggregates.now) r.now.rows)
        (inner of.entry.commalist.now of.entry.by.now) (map (boxed of.entry.commalist.now) r.now.rows) (map (row_numbers number) v.0.items) v.1)) }
    ensures firsts { IfOk result (λ o. IfSome o (λ v. All (λ b. Has (box_numbers number b.1) (firsts (box_numbers number b.1))) v.0.items)) }
    ensures boxes { IfOk result (λ o. IfSome o (λ v. All (λ b. IsBox IsPointOf (types_at r.now.heading of.entry.commalist.now) b.1) v.0.items)) }
{
    let t = type_at(r.heading().attributes(), of.commalist[0]);
    let boxes = to_boxes(alloc, r, of.commalist)?;
    let keys = inner(alloc, of.commalist, of.by)?;
    let FigureParts { columns, places } = parts;
    let making = Making {
        at: of.at,
        aggregates: of.aggregates,
        rows: r.rows(),
    };
    let summary = Summary { making, to };
    let labels = FigureSummary { summary, places };
    let rule = Columns {
        columns,
        rule: labels,
    };
    match u_tally_cells(alloc, &t, boxes, keys.as_slice(), &rule)? {
        Some((cells, least)) => {
            have_firsts(cells.as_slice());
            Ok(Some((cells, least)))
        }
        None => Ok(None),
    }
}

/// The boxes of the labels that the groups of a relation's rows give at points of the one attribute at the position, and the least
/// fault of a group; a group's row loses its values at others. None where more than one attribute is listed, or figures of columns do
/// not give the labels.
pub(crate) fn summary_cells(
    alloc: Global,
    of: Grouping<'_>,
    to: &[usize],
    r: &Relation,
) -> Result<Option<(Vec<BoxRow<AnyType, Row>>, Option<Fault>)>, Memory>
    requires intervals { AreIntervals r.now.heading of.commalist.now }
    requires typed { AreSummedOver r.now.rows (map read_aggregate of.aggregates.now) }
    requires unnamed { IsTrue (list_all (λ a. names_none of.commalist.now a.form) (map read_aggregate of.aggregates.now)) }
    ensures side { IfOk result (λ o. IfSome o (λ v. length of.entry.commalist.now ≡ 1)) }
    ensures cells { IfOk result (λ o. IfSome o (λ v. AreGroupCells (group_label to.now of.entry.at.now (map read_aggregate of.entry.aggregates.now) r.now.rows)
        (inner of.entry.commalist.now of.entry.by.now) (map (boxed of.entry.commalist.now) r.now.rows) (map (row_numbers number) v.0.items) v.1)) }
    ensures firsts { IfOk result (λ o. IfSome o (λ v. All (λ b. Has (box_numbers number b.1) (firsts (box_numbers number b.1))) v.0.items)) }
    ensures boxes { IfOk result (λ o. IfSome o (λ v. All (λ b. IsBox IsPointOf (types_at r.now.heading of.entry.commalist.now) b.1) v.0.items)) }
{
    match figure_parts(alloc, of, to, r)? {
        Some(parts) => figured_cells(alloc, of, to, parts, r),
        None => Ok(None),
    }
}
