// What a rule gives on a row.
ghost use Rattle.std.specs.Prelude.{◌≡◌, ◌⊎◌, ◌↔◌, ◌+◌, ◌≤◌, ◌++◌, ℤ, List, map, length, Ok, Err, Some, OnOk};
ghost use Rattle.std.specs.List.{All};
ghost use Rattle.cell_packing.specs.Boxed.{InBoxes};
ghost use Rattle.cell_packing.specs.Packed.{Has};
ghost use Rattle.value_core.specs.Values.{Row as PlainRow};
ghost use Rattle.point_core.specs.LeastFault.{IsLeast};
ghost use Rattle.cell_core.specs.Boxes.{IsBox};
ghost use Rattle.cell_core.specs.Cells.{box_numbers, row_numbers};
ghost use Rattle.u_row.specs.Cutting.{cells_of, cuts_from};
ghost use Rattle.u_row.specs.Rules.{labelled};

use crate::cells::row_cells;
use crate::giving::give_cells;
use crate::rule::RowRule;
use cell_core::{BoxRow, Sides};
use point_core::{Fault, Memory, PointType, Steps};
use std::alloc::Global;
use std::sync::ledger::Ledger;
use value_core::Row;

/// Adds the cells of a row under the labels that the rule gives on them. The least fault at a place of the row's box counts where it
/// is the least. It costs a step for each cut of its sides.
pub fn give_row<T: PointType, R: RowRule<T>, L: Ledger>(
    alloc: Global,
    types: &[T],
    sides: &Sides<T>,
    rule: &R,
    row: usize,
    out: &mut Vec<BoxRow<T, Row>>,
    least: &mut Option<Fault>,
    steps: &mut Steps<L>,
) -> Result<(), Memory>
    requires can { R.CanApply rule.now row }
    requires sides { R.sides rule.now row ≡ sides.now }
    requires boxes { IsBox T.IsPoint types.now sides.now }
    ensures rows { OnOk result (map (row_numbers T.number_of) out.new.items ≡ map (row_numbers T.number_of) out.old.items
        ++ labelled (R.means rule.now row) (cells_of (R.cuts_of rule.now row) (box_numbers T.number_of sides.now))) }
    ensures places { OnOk result ((l : PlainRow) (place : List ℤ) → InBoxes (map (row_numbers T.number_of) out.new.items) l place ↔
        InBoxes (map (row_numbers T.number_of) out.old.items) l place ⊎
        (Has (box_numbers T.number_of sides.now) place × (R.means rule.now row place ≡ Ok (Some l)))) }
    ensures boxes { OnOk result (All (λ b. IsBox T.IsPoint types.now b.1) out.old.items → All (λ b. IsBox T.IsPoint types.now b.1) out.new.items) }
    ensures few { OnOk result (length out.new.items ≤ length out.old.items +
        length (cells_of (R.cuts_of rule.now row) (box_numbers T.number_of sides.now))) }
    ensures least { OnOk result (IsLeast (λ e. (least.old ≡ Some e) ⊎
        ((place : List ℤ) × Has (box_numbers T.number_of sides.now) place × (R.means rule.now row place ≡ Err e))) least.new) }
    ensures cost { steps.new ≤ steps.old + cuts_from (R.cuts_of rule.now row) 0 (box_numbers T.number_of sides.now) }
{
    let cells = row_cells(alloc, types, sides, rule, row, steps)?;
    give_cells(alloc, rule, row, cells, out, least)?;
    Ok(())
}
