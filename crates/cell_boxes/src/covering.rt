// What a rule gives of the live rows at each place, in boxes.
ghost use Rattle.std.specs.Prelude.{◌≡◌, ℕ, ◌≤◌, ◌↔◌, ◌⊎◌, ◌++◌, List, [], length, map, Some, OnOk, IfOk};
ghost use Rattle.std.specs.List.{All};
ghost use Rattle.cell_packing.specs.Covering.{Among};
ghost use Rattle.cell_packing.specs.Live.{box, InLive, IsSomewhere};
ghost use Rattle.point_core.specs.LeastFault.{IsLeast};
ghost use Rattle.cell_sweep.specs.PackedRows.{HasRow};
ghost use Rattle.cell_sweep.specs.Rows.{sides_of, AreRows, GivesLabel, GivesFault};
ghost use Rattle.cell_boxes.specs.Common.{EndsBy};
ghost use Rattle.cell_boxes.specs.Groups.{longer};
ghost use Rattle.cell_boxes.specs.Rows.{PlainCellBox};

use crate::cell_rule::{CellRule, labels_at};
use cell_sweep::{CellBox, IndexBox, advance, cuts_at, sweep_of};
use point_core::{Fault, Memory};
use std::alloc::Global;

// The row with the cells as one more side.
fn with_cells<P: Drop>(row: CellBox<P>, cells: (usize, usize)) -> Result<CellBox<P>, Memory>
    ensures { IfOk result (λ k. k ≡ longer cells row) }
{
    let mut longer = row;
    longer.sides.push(cells)?;
    Ok(longer)
}

// Adds the rows, each with the cells as one more side.
fn push_longer<P: Drop>(
    out: &mut Vec<CellBox<P>>,
    rows: Vec<CellBox<P>>,
    cells: (usize, usize),
) -> Result<(), Memory>
    ensures { OnOk result (out.new.items ≡ out.old.items ++ map (longer cells) rows.items) }
{
    for row in rows {
        let more = with_cells(row, cells)?;
        out.push(more)?;
    }
    Ok(())
}

// What the rule gives of the live rows on their first sides, in boxes; and the least fault over their places.
//
// Between two cuts of the last side the live rows are the same, so the rule is applied once for the cells between all
// cuts, and never at each cell.
pub fn covered<O: CellRule>(
    alloc: Global,
    sides: usize,
    boxes: &[IndexBox],
    live: &[usize],
    rule: &O,
    least: &mut Option<Fault>,
) -> Result<Vec<CellBox<O::Out>>, Memory>
    requires rows { AreRows 0 (length boxes.now) live.now }
    requires sides { All (λ x. sides ≤ length x.sides.items) boxes.now }
    requires can { (a : List ℕ) → AreRows 0 (length boxes.now) a → O.CanApply rule.now a }
    ensures grid_points { IfOk result (λ v. (l : O.Out) (grid_point : List ℕ) → length grid_point ≡ sides →
        HasRow v.items l grid_point ↔ InLive (GivesLabel (λ a b. O.means rule.now a) 0) (sides_of boxes.now) live.now [] l grid_point) }
    ensures lengths { IfOk result (λ v. All (λ x. length x.1 ≡ sides) v.items) }
    ensures ends { IfOk result (λ v. (z : PlainCellBox O.Out) → Among z v.items → (r : ℕ) × Among r live.now × EndsBy (box (sides_of boxes.now) r) z.1) }
    ensures least { OnOk result (IsLeast (λ e. (least.old ≡ Some e) ⊎ IsSomewhere sides (GivesFault (λ a b. O.means rule.now a) 0) (sides_of boxes.now) live.now [] e) least.new) }
{
    if live.is_empty() {
        return Ok(Vec::new(alloc));
    }
    if sides == 0 {
        let rows = labels_at(alloc, live, rule, least)?;
        return Ok(rows);
    }
    let side = sides - 1;
    let cuts = cuts_at(alloc, boxes, live, side)?;
    let mut out: Vec<CellBox<O::Out>> = Vec::new(alloc);
    let mut sweep = sweep_of(alloc, boxes, live, side)?;
    let mut begin = 0;
    for i in 0..cuts.len() {
        let end = cuts[i];
        if begin < end {
            sweep = advance(sweep, boxes, side, begin)?;
            let rows = covered(alloc, side, boxes, sweep.live.as_slice(), rule, least)?;
            push_longer(&mut out, rows, (begin, end))?;
        }
        begin = end;
    }
    Ok(out)
}
