// Keys of labelled boxes, by the ends of intervals.
ghost use Rattle.std.specs.Prelude.{ℕ, ◌+◌, ◌<◌, ◌≤◌, ◌≡◌, ◌↔◌, length, map, IfOk, IsTrue};
ghost use Rattle.std.specs.List.{All};
ghost use Rattle.value_core.specs.Values.{row_cmp};
ghost use Rattle.cell_boxes.specs.Apartness.{AreApart};
ghost use Rattle.cell_boxes.specs.Common.{HaveCells};
ghost use Rattle.cell_core.specs.Boxes.{IsBox};
ghost use Rattle.cell_core.specs.Cells.{row_numbers};
ghost use Rattle.cell_core.specs.Costs.{bound};
ghost use Rattle.u_constraints.specs.Places.{IsKeyAt};

use crate::parts::cells_of_parts;
use cell_core::{BoxRow, CellRows, rows_over_cells};
use cell_sweep::{CellBox, pack_rows};
use point_core::{Memory, PointType, Steps};
use std::alloc::Global;
use std::sync::ledger::Ledger;
use value_core::Row;

/// Whether no two of the rows that are of one label have a place in common.
fn are_apart(alloc: Global, sides: usize, rows: Vec<CellBox<Row>>) -> Result<bool, Memory>
    requires some { 0 < sides }
    requires sides { All (λ x. length x.1 ≡ sides) rows.items }
    requires cells { All (λ x. HaveCells x.1) rows.items }
    ensures { IfOk result (λ b. IsTrue b ↔ AreApart row_cmp sides rows.items) }
{
    let mut sorted = rows;
    sorted.sort()?;
    cell_boxes::are_apart(alloc, sides, sorted.as_slice())
}

/// Whether the labels that the boxes have at a place are told apart by their values at the positions. There is a side at least.
///
/// Boxes of one label are packed, so that they do not overlap. Then boxes that agree at the positions may not overlap either.
pub(crate) fn is_key_at<T: PointType, L: Ledger>(
    alloc: Global,
    types: &[T],
    boxes: &[BoxRow<T, Row>],
    positions: &[usize],
    steps: &mut Steps<L>,
) -> Result<bool, Memory>
    requires some { 0 < length types.now }
    requires boxes { All (λ b. IsBox T.IsPoint types.now b.1) boxes.now }
    requires within { All (λ b. All (λ (i : ℕ). i < length b.0) positions.now) boxes.now }
    ensures answer { IfOk result (λ b. IsTrue b ↔ IsKeyAt positions.now (map (row_numbers T.number_of) boxes.now)) }
    ensures cost { steps.new ≤ steps.old + bound (length boxes.now) (length types.now) }
{
    let none: Vec<BoxRow<T, Row>> = Vec::new(alloc);
    let CellRows {
        sides: _,
        left,
        right: _,
    } = rows_over_cells(alloc, types, boxes, none.as_slice(), steps)?;
    let form = pack_rows(alloc, types.len(), left)?;
    let parts = cells_of_parts(alloc, form.as_slice(), positions)?;
    are_apart(alloc, types.len(), parts)
}
