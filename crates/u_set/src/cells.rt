// Left and right rows over cells.
ghost use Rattle.std.specs.Prelude.{◌≡◌, ◌+◌, ◌≤◌, length, IfOk};
ghost use Rattle.std.specs.List.{All};
ghost use Rattle.value_core.specs.Values.{row_cmp};
ghost use Rattle.cell_core.specs.Boxes.{IsBox};
ghost use Rattle.cell_core.specs.Costs.{bound};
ghost use Rattle.u_set.specs.FewerCells.{AreFewerCells};

use crate::prepacked;
use cell_core::{BoxRow, CellRows, moved_over_cells};
use point_core::{Memory, PointType, Steps};
use std::alloc::Global;
use std::sync::ledger::Ledger;
use value_core::Row;

// The left and the right rows over the cells of one numbering of their sides, packed where this cannot make them more. The numbering alone
// takes steps.
pub(crate) fn fewer_cells<T: PointType, L: Ledger>(
    alloc: Global,
    types: &[T],
    left: Vec<BoxRow<T, Row>>,
    right: Vec<BoxRow<T, Row>>,
    steps: &mut Steps<L>,
) -> Result<CellRows<T, Row>, Memory>
    requires left { All (λ b. IsBox T.IsPoint types.now b.1) left.items }
    requires right { All (λ b. IsBox T.IsPoint types.now b.1) right.items }
    ensures rows { IfOk result (λ v. AreFewerCells T.number_of T.IsPoint T.last_number row_cmp types.now left.items right.items v.sides.items v.left.items v.right.items) }
    ensures left_sides { IfOk result (λ v. All (λ x. length x.1 ≡ length types.now) v.left.items) }
    ensures right_sides { IfOk result (λ v. All (λ x. length x.1 ≡ length types.now) v.right.items) }
    ensures cost { steps.new ≤ steps.old + bound (length left.items + length right.items) (length types.now) }
{
    let CellRows {
        sides,
        left: l,
        right: r,
    } = moved_over_cells(alloc, types, left, right, steps)?;
    let lefts = prepacked(alloc, types.len(), l)?;
    let rights = prepacked(alloc, types.len(), r)?;
    Ok(CellRows {
        sides,
        left: lefts,
        right: rights,
    })
}

/// The same cells in memory of their own.
pub fn copied_cells(alloc: Global, cells: &[(usize, usize)]) -> Result<Vec<(usize, usize)>, Memory>
    ensures { IfOk result (λ v. v.items ≡ cells.now) }
{
    let mut copy = Vec::with_capacity(alloc, cells.len())?;
    copy.extend_from_slice(cells)?;
    Ok(copy)
}
