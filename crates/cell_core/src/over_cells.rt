// Left and right rows over the cells of one numbering.
ghost use Rattle.std.specs.Prelude.{◌≡◌, ◌≤◌, ◌+◌, ◌*◌, length, IfOk};
ghost use Rattle.std.specs.List.{All};
ghost use Rattle.cell_core.specs.Boxes.{IsBox};
ghost use Rattle.cell_core.specs.CellRows.{AreOverCells};
ghost use Rattle.cell_core.specs.Costs.{bound, side_cost};

use crate::boxes::BoxRow;
use crate::keys::{push_keys, push_moved_keys};
use crate::number::Side;
use crate::row_sides::numbered;
use cell_sweep::CellBox;
use point_core::{Label, Memory, PointType, Steps};
use std::alloc::Global;
use std::sync::ledger::Ledger;

/// The numbering of the sides of left and right rows together, and the rows over its cells: what an operator by keys
/// takes in place of intervals. `back` leads from cells to intervals again.
#[derive(Drop)]
pub struct CellRows<T: PointType, P> {
    pub sides: Vec<Side<T>>,
    pub left: Vec<CellBox<P>>,
    pub right: Vec<CellBox<P>>,
}

/// The left and the right rows over the cells of one numbering of their sides. The numbering alone takes steps.
pub fn rows_over_cells<T: PointType, P: Label, L: Ledger>(
    alloc: Global,
    types: &[T],
    left: &[BoxRow<T, P>],
    right: &[BoxRow<T, P>],
    steps: &mut Steps<L>,
) -> Result<CellRows<T, P>, Memory>
    requires left { All (λ r. IsBox T.IsPoint types.now r.1) left.now }
    requires right { All (λ r. IsBox T.IsPoint types.now r.1) right.now }
    ensures rows { IfOk result (λ v. AreOverCells T.number_of T.IsPoint T.last_number types.now left.now right.now
        v.sides.items v.left.items v.right.items) }
    ensures left_sides { IfOk result (λ v. All (λ x. length x.1 ≡ length types.now) v.left.items) }
    ensures right_sides { IfOk result (λ v. All (λ x. length x.1 ≡ length types.now) v.right.items) }
    ensures cost { steps.new ≤ steps.old + bound (length left.now + length right.now) (length types.now) }
    ensures numbering { steps.new ≤ steps.old + length types.now * side_cost (length left.now + length right.now) }
{
    let sides = numbered(alloc, types, left, right, steps)?;
    let mut l = Vec::new(alloc);
    push_keys(alloc, &mut l, left, 0, sides.as_slice())?;
    let mut r = Vec::new(alloc);
    push_keys(alloc, &mut r, right, left.len(), sides.as_slice())?;
    let rows = CellRows {
        sides,
        left: l,
        right: r,
    };
    Ok(rows)
}

/// The left and the right rows over the cells of one numbering of their sides, as `rows_over_cells` gives them, with
/// labels that are moved and not copied. The numbering alone takes steps.
pub fn moved_over_cells<T: PointType, P: Drop, L: Ledger>(
    alloc: Global,
    types: &[T],
    left: Vec<BoxRow<T, P>>,
    right: Vec<BoxRow<T, P>>,
    steps: &mut Steps<L>,
) -> Result<CellRows<T, P>, Memory>
    requires left { All (λ r. IsBox T.IsPoint types.now r.1) left.items }
    requires right { All (λ r. IsBox T.IsPoint types.now r.1) right.items }
    ensures rows { IfOk result (λ v. AreOverCells T.number_of T.IsPoint T.last_number types.now left.items right.items
        v.sides.items v.left.items v.right.items) }
    ensures left_sides { IfOk result (λ v. All (λ x. length x.1 ≡ length types.now) v.left.items) }
    ensures right_sides { IfOk result (λ v. All (λ x. length x.1 ≡ length types.now) v.right.items) }
    ensures cost { steps.new ≤ steps.old + bound (length left.items + length right.items) (length types.now) }
    ensures numbering { steps.new ≤ steps.old + length types.now * side_cost (length left.items + length right.items) }
{
    let sides = numbered(alloc, types, left.as_slice(), right.as_slice(), steps)?;
    let count = left.len();
    let mut l = Vec::new(alloc);
    push_moved_keys(alloc, &mut l, left, 0, sides.as_slice())?;
    let mut r = Vec::new(alloc);
    push_moved_keys(alloc, &mut r, right, count, sides.as_slice())?;
    let rows = CellRows {
        sides,
        left: l,
        right: r,
    };
    Ok(rows)
}
