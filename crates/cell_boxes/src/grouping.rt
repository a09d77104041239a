// What a rule gives of the rows of each key.
ghost use Rattle.std.specs.Prelude.{◌≡◌, ℕ, ◌<◌, ◌≤◌, ◌↔◌, ◌⊎◌, ◌++◌, List, [], length, Some, IsTrue, OnOk, IfOk};
ghost use Rattle.std.specs.List.{All};
ghost use Rattle.std.specs.declared.cmp.Ordering.TheVariants.{Equal};
ghost use Rattle.cell_packing.specs.Covering.{Among};
ghost use Rattle.point_core.specs.LeastFault.{IsLeast};
ghost use Rattle.cell_sweep.specs.PackedRows.{HasRow};
ghost use Rattle.cell_sweep.specs.Rows.{sides_of, AreRows};
ghost use Rattle.cell_boxes.specs.Common.{EndsBy};
ghost use Rattle.cell_boxes.specs.Groups.{IsGrouped, IsGroupFault};
ghost use Rattle.cell_boxes.specs.Meetings.{boxes_in};
ghost use Rattle.cell_boxes.specs.Rows.{Ascend, IsRow, PlainCellBox};

use crate::cell_rule::CellRule;
use crate::covering::covered;
use cell_sweep::{CellBox, IndexBox};
use point_core::{Fault, Label, Memory};
use std::alloc::Global;

// The box of the row.
fn box_of<P>(alloc: Global, row: &CellBox<P>) -> Result<IndexBox, Memory>
    ensures { IfOk result (λ b. b.sides.items ≡ row.now.1) }
{
    let mut sides = Vec::with_capacity(alloc, row.sides.len())?;
    sides.extend_from_slice(row.sides.as_slice())?;
    Ok(IndexBox { sides })
}

// The boxes of the rows.
fn boxes_of<P>(alloc: Global, rows: &[CellBox<P>]) -> Result<Vec<IndexBox>, Memory>
    ensures { IfOk result (λ v. sides_of v.items ≡ boxes_in rows.now) }
{
    let mut out = Vec::with_capacity(alloc, rows.len())?;
    for row in rows {
        let own = box_of(alloc, row)?;
        out.push(own)?;
    }
    Ok(out)
}

// The numbers from `first` up to before `end`.
fn numbers(alloc: Global, first: usize, end: usize) -> Result<Vec<usize>, Memory>
    requires { first ≤ end }
    ensures order { IfOk result (λ v. AreRows first end v.items) }
    ensures members { IfOk result (λ v. (r : ℕ) → Among r v.items ↔ (first ≤ r) × (r < end)) }
{
    let mut out = Vec::with_capacity(alloc, end - first)?;
    for r in first..end {
        out.push(r)?;
    }
    Ok(out)
}

fn of_one_key<P: Label>(x: &CellBox<P>, y: &CellBox<P>) -> bool
    ensures { IsTrue result ↔ (P.order x.now.0 y.now.0 ≡ Equal) }
{
    x.label.compare(&y.label).is_eq()
}

// The number of the first row after `first` that is not of its key.
pub fn group_end<P: Label>(rows: &[CellBox<P>], first: usize) -> usize
    requires { first < length rows.now }
    ensures from { first < result }
    ensures within { result ≤ length rows.now }
    ensures same { (q : ℕ) (x y : PlainCellBox P) → IsRow rows.now first x → IsRow rows.now q y → first < q → q < result → P.order x.0 y.0 ≡ Equal }
    ensures other { (x y : PlainCellBox P) → IsRow rows.now first x → IsRow rows.now result y → P.order x.0 y.0 ≡ Equal → ⊥ }
{
    let mut end = first + 1;
    while end < rows.len() && of_one_key(&rows[first], &rows[end]) {
        end += 1;
    }
    end
}

fn push_rows<P: Drop>(out: &mut Vec<CellBox<P>>, rows: Vec<CellBox<P>>) -> Result<(), Memory>
    ensures { OnOk result (out.new.items ≡ out.old.items ++ rows.items) }
{
    for row in rows {
        out.push(row)?;
    }
    Ok(())
}

/// For each key its cells with what the rule gives of its rows there, in boxes; and the least fault that it gives.
///
/// The rule is called with the numbers of the key's rows that have the place: on one side once
/// between each two cells where some row of the key begins or ends. On more sides it is called once between such cuts
/// of the last side, between those of the live rows on the side before it, and so on. So with more sides the boxes may
/// be more than the packed form has.
pub fn grouped<P: Label, O: CellRule>(
    alloc: Global,
    sides: usize,
    rows: &[CellBox<P>],
    rule: &O,
    least: &mut Option<Fault>,
) -> Result<Vec<CellBox<O::Out>>, Memory>
    requires sides { All (λ x. length x.1 ≡ sides) rows.now }
    requires order { Ascend P.order rows.now }
    requires can { (a : List ℕ) → AreRows 0 (length rows.now) a → O.CanApply rule.now a }
    ensures grid_points { IfOk result (λ v. (l : O.Out) (grid_point : List ℕ) → length grid_point ≡ sides →
        HasRow v.items l grid_point ↔ IsGrouped (λ a b. O.means rule.now a) rows.now l grid_point) }
    ensures lengths { IfOk result (λ v. All (λ x. length x.1 ≡ sides) v.items) }
    ensures ends { IfOk result (λ v. (z : PlainCellBox O.Out) → Among z v.items → (x : PlainCellBox P) × Among x rows.now × EndsBy x.1 z.1) }
    ensures least { OnOk result (IsLeast (λ e. (least.old ≡ Some e) ⊎ IsGroupFault sides (λ a b. O.means rule.now a) rows.now e) least.new) }
{
    let boxes = boxes_of(alloc, rows)?;
    let mut out: Vec<CellBox<O::Out>> = Vec::new(alloc);
    let mut first = 0;
    while first < rows.len() {
        let end = group_end(rows, first);
        let live = numbers(alloc, first, end)?;
        let parts = covered(alloc, sides, boxes.as_slice(), live.as_slice(), rule, least)?;
        push_rows(&mut out, parts)?;
        first = end;
    }
    Ok(out)
}
