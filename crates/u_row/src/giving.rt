// What a rule gives on cells.
ghost use Rattle.std.specs.Prelude.{◌≡◌, ◌⊎◌, ◌++◌, List, map, Err, Some, OnOk};
ghost use Rattle.std.specs.List.{All};
ghost use Rattle.interval_core.specs.Members.{Span};
ghost use Rattle.cell_packing.specs.Covering.{Among};
ghost use Rattle.cell_packing.specs.Packed.{firsts};
ghost use Rattle.point_core.specs.LeastFault.{IsLeast};
ghost use Rattle.cell_core.specs.Boxes.{IsBox};
ghost use Rattle.cell_core.specs.Cells.{box_numbers, boxes_of, row_numbers};
ghost use Rattle.u_row.specs.Cutting.{cells_of};
ghost use Rattle.u_row.specs.Rules.{given, labelled};

use crate::rule::RowRule;
use cell_core::{BoxRow, Sides};
use point_core::{Fault, Memory, PointType, Stop};
use std::alloc::Global;
use value_core::Row;

// The lesser of the fault so far and one more, in the one clause that its caller's proof finds.
fn least_so_far(least: Option<Fault>, e: Fault) -> Fault
    ensures { IsLeast (λ d. (least ≡ Some d) ⊎ (e ≡ d)) (Some result) }
{
    Fault::least_of(least, e)
}

/// Adds the cell under the label that the rule gives on it, if it gives one. A fault counts where it is the least.
fn give_cell<T: PointType, R: RowRule<T>>(
    alloc: Global,
    rule: &R,
    row: usize,
    cell: Sides<T>,
    out: &mut Vec<BoxRow<T, Row>>,
    least: &mut Option<Fault>,
) -> Result<(), Memory>
    requires can { R.CanApply rule.now row }
    requires cell { Among (box_numbers T.number_of cell) (cells_of (R.cuts_of rule.now row) (box_numbers T.number_of (R.sides rule.now row))) }
    requires points { (types : List T) × IsBox T.IsPoint types (R.sides rule.now row) × IsBox T.IsPoint types cell }
    ensures boxes { OnOk result (out.new.items ≡ out.old.items ++ given (R.means rule.now row (firsts (box_numbers T.number_of cell))) cell) }
    ensures least { OnOk result (IsLeast (λ e. (least.old ≡ Some e) ⊎ (R.means rule.now row (firsts (box_numbers T.number_of cell)) ≡ Err e)) least.new) }
{
    match rule.apply(alloc, row, cell.list.as_slice()) {
        Ok(Some(label)) => {
            out.push(BoxRow { label, sides: cell })?;
            Ok(())
        }
        Ok(None) => Ok(()),
        Err(Stop::Fault(e)) => {
            *least = Some(least_so_far(*least, e));
            Ok(())
        }
        Err(Stop::Memory) => Err(Memory),
    }
}

/// Adds the cells under the labels that the rule gives on them. The least fault of them counts where it is the least.
pub(crate) fn give_cells<T: PointType, R: RowRule<T>>(
    alloc: Global,
    rule: &R,
    row: usize,
    cells: Vec<Sides<T>>,
    out: &mut Vec<BoxRow<T, Row>>,
    least: &mut Option<Fault>,
) -> Result<(), Memory>
    requires can { R.CanApply rule.now row }
    requires cells { (s : List (T.Point × T.Point)) → Among s cells.items → Among (box_numbers T.number_of s) (cells_of (R.cuts_of rule.now row) (box_numbers T.number_of (R.sides rule.now row))) }
    requires points { (s : List (T.Point × T.Point)) → Among s cells.items → (types : List T) × IsBox T.IsPoint types (R.sides rule.now row) × IsBox T.IsPoint types s }
    ensures rows { OnOk result (map (row_numbers T.number_of) out.new.items ≡ map (row_numbers T.number_of) out.old.items ++ labelled (R.means rule.now row) (boxes_of T.number_of cells.items)) }
    ensures least { OnOk result (IsLeast (λ e. (least.old ≡ Some e) ⊎
        ((cell : List Span) × Among cell (boxes_of T.number_of cells.items) × (R.means rule.now row (firsts cell) ≡ Err e))) least.new) }
    ensures boxes { (types : List T) → ((s : List (T.Point × T.Point)) → Among s cells.items → IsBox T.IsPoint types s) →
        OnOk result (All (λ b. IsBox T.IsPoint types b.1) out.old.items → All (λ b. IsBox T.IsPoint types b.1) out.new.items) }
{
    for cell in cells {
        give_cell(alloc, rule, row, cell, out, least)?;
    }
    Ok(())
}
