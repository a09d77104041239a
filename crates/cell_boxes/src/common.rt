// The first cells of boxes, and the cells that two boxes have in common.
ghost use Rattle.std.specs.Prelude.{◌≡◌, ℕ, IfOk, length};
ghost use Rattle.std.specs.List.{list_all};
ghost use Rattle.cell_boxes.specs.Common.{both as both_of, common as common_of, first_of, has_cell};

use cell_sweep::CellBox;
use point_core::Memory;
use std::alloc::Global;

// The first cell of the first side and the cell after its last. A box without sides, which has one place, is held to have
// the cell 0: so two of one key meet.
pub fn first_cells(sides: &[(usize, usize)]) -> (usize, usize)
    ensures { result ≡ first_of sides.now }
{
    if sides.is_empty() {
        return (0, 1);
    }
    sides[0]
}

// The cells of both.
pub fn both(x: (usize, usize), y: (usize, usize)) -> (usize, usize)
    ensures { result ≡ both_of x y }
{
    (x.0.max(y.0), x.1.min(y.1))
}

// The cells of both boxes, side by side.
#[tactic(auto, using(crate::proofs::GridPointLemmas::take_common, crate::proofs::GridPointLemmas::all_common))]
pub fn common<P>(
    alloc: Global,
    x: &CellBox<P>,
    y: &CellBox<P>,
) -> Result<Vec<(usize, usize)>, Memory>
    requires { length x.now.1 ≡ length y.now.1 }
    ensures { IfOk result (λ v. v.items ≡ common_of x.now.1 y.now.1) }
{
    let mut out = Vec::with_capacity(alloc, x.sides.len())?;
    for s in 0..x.sides.len() {
        let cells = both(x.sides[s], y.sides[s]);
        out.push(cells)?;
    }
    Ok(out)
}

// Whether the boxes have a cell in common on each side that both have.
#[tactic(auto, using(crate::proofs::GridPointLemmas::none_meet, crate::proofs::GridPointLemmas::meet_more, crate::proofs::GridPointLemmas::whole_common))]
pub fn meet<P>(x: &CellBox<P>, y: &CellBox<P>) -> bool
    ensures { result ≡ list_all has_cell (common_of x.now.1 y.now.1) }
{
    let sides = x.sides.len().min(y.sides.len());
    for s in 0..sides {
        let cells = both(x.sides[s], y.sides[s]);
        if cells.1 <= cells.0 {
            return false;
        }
    }
    true
}
