// What the labels of groups are made of where figures of columns give them.
ghost use Rattle.std.specs.Prelude.{◌≡◌, ◌<◌, map, length, IfOk, IfSome, IsTrue};
ghost use Rattle.std.specs.List.{list_all};
ghost use Rattle.u_set.specs.Boxes.{others};
ghost use Rattle.tree_core.specs.Trees.{read_aggregate};
ghost use Rattle.meaning_core.specs.Scalars.{AreSummedOver};
ghost use Rattle.meaning_core.specs.Typing.{names_none};
ghost use Rattle.u_row.specs.Kept.{inner};
ghost use Rattle.eval_using.specs.Columns.{AreColumns, AreFigured};

use crate::columns::columns;
use crate::spots::label_spots;
use point_core::Memory;
use std::alloc::Global;
use tree_core::Aggregate;
use u_summarize::Column;
use value_core::{Relation, Row};

/// What the groups of a relation's rows are made by: the positions of the listed attributes and of those by which rows are grouped, the
/// aggregates, and the places of the values of a group's row among those of the aggregates and then of the group's first row.
#[derive(Clone, Copy)]
pub(crate) struct Grouping<'a> {
    pub commalist: &'a [usize],
    pub by: &'a [usize],
    pub aggregates: &'a [Aggregate],
    pub at: &'a [usize],
}

/// What aggregates count, sum and compare, a row each, and where the values of a label stand among those of the aggregates and then
/// those of its part.
#[derive(Drop)]
pub(crate) struct FigureParts {
    pub columns: Vec<Column>,
    pub places: Vec<usize>,
}

// The places with the columns, where there are these.
fn with_columns(
    alloc: Global,
    aggregates: &[Aggregate],
    rows: &[Row],
    places: Vec<usize>,
) -> Result<Option<FigureParts>, Memory>
    requires { AreSummedOver rows.now (map read_aggregate aggregates.now) }
    ensures { IfOk result (λ o. IfSome o (λ p. AreColumns rows.now (map read_aggregate aggregates.now) p.columns.items × (p.places.items ≡ places.items))) }
{
    match columns(alloc, aggregates, rows)? {
        Some(columns) => Ok(Some(FigureParts { columns, places })),
        None => Ok(None),
    }
}

/// What the labels of groups are made of, where one attribute is listed and figures of columns give them.
pub(crate) fn figure_parts(
    alloc: Global,
    of: Grouping<'_>,
    to: &[usize],
    r: &Relation,
) -> Result<Option<FigureParts>, Memory>
    requires typed { AreSummedOver r.now.rows (map read_aggregate of.aggregates.now) }
    requires unnamed { IsTrue (list_all (λ a. names_none of.commalist.now a.form) (map read_aggregate of.aggregates.now)) }
    ensures { IfOk result (λ o. IfSome o (λ p. (length of.entry.commalist.now ≡ 1) × AreFigured p.places.items to.now of.entry.at.now (inner of.entry.commalist.now of.entry.by.now)
        (map read_aggregate of.entry.aggregates.now) r.now.rows (map (others of.entry.commalist.now) r.now.rows) p.columns.items)) }
{
    let rows = r.rows();
    let commalist = of.commalist;
    if commalist.len() != 1 {
        return Ok(None);
    }
    match label_spots(alloc, to, of.at, of.aggregates.len(), commalist, of.by)? {
        Some(places) => with_columns(alloc, of.aggregates, rows, places),
        None => Ok(None),
    }
}
