// The cells of rows.
ghost use Rattle.std.specs.Prelude.{◌≡◌, ℕ, ◌+◌, ◌<◌, ◌≤◌, List, map, length, get_or, IfOk};
ghost use Rattle.std.specs.List.{All};
ghost use Rattle.interval_core.specs.Members.{HasEndsIn};
ghost use Rattle.cell_packing.specs.Covering.{Among};
ghost use Rattle.cell_core.specs.Boxes.{IsBox};
ghost use Rattle.cell_core.specs.Cells.{box_numbers, boxes_of};
ghost use Rattle.cell_core.specs.Numbering.{numbers_of};
ghost use Rattle.u_row.specs.Cutting.{pieces, cells_of, cuts_from};

use crate::cutting::{pieces_of, with_each};
use crate::rule::RowRule;
use cell_core::Sides;
use interval_core::Interval;
use point_core::{Memory, PointType, Steps};
use std::alloc::Global;
use std::sync::ledger::Ledger;

// The pieces of one side of a row.
fn side_pieces<T: PointType, R: RowRule<T>, L: Ledger>(
    alloc: Global,
    t: &T,
    side: &Interval<T>,
    rule: &R,
    row: usize,
    j: usize,
    steps: &mut Steps<L>,
) -> Result<Vec<Interval<T>>, Memory>
    requires can { R.CanApply rule.now row }
    requires below { j < length (R.sides rule.now row) }
    requires side { side.now ≡ get_or (R.sides rule.now row) j side.now }
    requires ends { HasEndsIn T.IsPoint t.now side.now }
    ensures pieces { IfOk result (λ v. map (numbers_of T.number_of) v.items ≡
        pieces (T.number_of side.now.0) (T.number_of side.now.1) (R.cuts_of rule.now row j)) }
    ensures points { IfOk result (λ v. All (HasEndsIn T.IsPoint t.now) v.items) }
    ensures cost { steps.new ≤ steps.old + length (R.cuts_of rule.now row j) }
{
    let cuts = rule.cuts(alloc, row, j)?;
    let list = pieces_of(alloc, t, side, cuts.as_slice(), steps)?;
    Ok(list)
}

/// The cells of a row's box. It costs a step for each cut of its sides.
pub(crate) fn row_cells<T: PointType, R: RowRule<T>, L: Ledger>(
    alloc: Global,
    types: &[T],
    sides: &Sides<T>,
    rule: &R,
    row: usize,
    steps: &mut Steps<L>,
) -> Result<Vec<Sides<T>>, Memory>
    requires can { R.CanApply rule.now row }
    requires sides { R.sides rule.now row ≡ sides.now }
    requires boxes { IsBox T.IsPoint types.now sides.now }
    ensures cells { IfOk result (λ v. boxes_of T.number_of v.items ≡ cells_of (R.cuts_of rule.now row) (box_numbers T.number_of sides.now)) }
    ensures points { IfOk result (λ v. (s : List (T.Point × T.Point)) → Among s v.items → IsBox T.IsPoint types.now s) }
    ensures cost { steps.new ≤ steps.old + cuts_from (R.cuts_of rule.now row) 0 (box_numbers T.number_of sides.now) }
{
    let mut out = Vec::new(alloc);
    out.push(Sides {
        list: Vec::new(alloc),
    })?;
    let mut j = types.len();
    while j > 0 {
        j -= 1;
        let pieces = side_pieces(alloc, &types[j], &sides.list[j], rule, row, j, steps)?;
        out = with_each(alloc, pieces.as_slice(), out.as_slice())?;
    }
    Ok(out)
}
