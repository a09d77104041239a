// The combination of boxes, from points to points.
ghost use Rattle.std.specs.Prelude.{◌≡◌, ℕ, ℤ, pos, ◌+ℤ◌, ◌≤ℤ◌, ◌<◌, ◌≤◌, ◌⊎◌, ◌+◌, ◌*◌, ◌^◌, map, [], ◌∷◌, ◌++◌, List};
ghost use Rattle.std.specs.Prelude.{Some, None, Err, get_or, ◌-◌, length, slice_index_or, OnOk, IfOk, ◌↔◌, IsTrue};
ghost use Rattle.std.specs.List.{All};
ghost use Rattle.cell_packing.specs.Covering.{Among, InCells};
ghost use Rattle.cell_packing.specs.Boxed.{InBoxes, packed_boxes};
ghost use Rattle.interval_core.specs.Members.{Span, HasEndsIn};
ghost use Rattle.cell_packing.specs.Packed.{no_cells};
ghost use Rattle.cell_sweep.specs.Rows.{sides_of, AreRows, own_numbers};
ghost use Rattle.point_core.specs.LeastFault.{IsLeast};
ghost use Rattle.point_core.specs.declared.fault.Fault.{Fault as AnyFault};
ghost use Rattle.cell_core.specs.Numbering.{IsSide, IsGrid, numbers_of, span_at};
ghost use Rattle.cell_core.specs.Cells.{rows_from, cells_at, side_of, boxes_of, IsPackedForm, HasFault, grids_of};
ghost use Rattle.cell_core.specs.Cells.{grid_row, row_numbers};
ghost use Rattle.cell_core.specs.Boxes.{IsBox};
ghost use Rattle.cell_core.specs.Costs.{bound, side_cost};
ghost use Rattle.cell_core.specs.declared.boxes.CellRefuse.TheVariants.{Op as OfOp, Limit as OfLimit};

use crate::boxes::{BoxRow, CellRefuse, Sides};
use crate::grids::{all_sides, cell_boxes, cell_counts, row_range};
use crate::number::Side;
use cell_sweep::{CellBox, CellOp, slices};
use interval_core::Interval;
use point_core::{Fault, Memory, PointType, Steps};
use std::alloc::Global;
use std::sync::ledger::Ledger;

// What the cells give: each side's numbering, the packed rows over cells, and the least fault.
#[derive(Drop)]
pub struct Found<T: PointType, P> {
    pub sides: Vec<Side<T>>,
    pub rows: Vec<CellBox<P>>,
    pub least: Option<Fault>,
}

// The packed rows of all places, over numbered cells, and the least fault.
pub fn find_rows<T: PointType, O: CellOp, L: Ledger>(
    alloc: Global,
    types: &[T],
    left: &[Sides<T>],
    right: &[Sides<T>],
    op: &O,
    steps: &mut Steps<L>,
) -> Result<Found<T, O::Out>, Memory>
    requires left { All (λ s. length s ≡ length types.now) left.now }
    requires right { All (λ s. length s ≡ length types.now) right.now }
    requires left_points { All (λ s. (j : ℕ) (t : T) (d : T.Point × T.Point) → j < length types.now →
        T.IsPoint (slice_index_or types.now j t) (get_or s j d).0 ×
        T.IsPoint (slice_index_or types.now j t) (get_or s j d).1) left.now }
    requires right_points { All (λ s. (j : ℕ) (t : T) (d : T.Point × T.Point) → j < length types.now →
        T.IsPoint (slice_index_or types.now j t) (get_or s j d).0 ×
        T.IsPoint (slice_index_or types.now j t) (get_or s j d).1) right.now }
    requires can { (a b : List ℕ) → AreRows 0 (length left.now) a →
        AreRows (length left.now) (length left.now + length right.now) b →
        O.CanApply op.now a (own_numbers (length left.now) b) }
    ensures length { IfOk result (λ v. length v.sides.items ≡ length types.now) }
    ensures grids { IfOk result (λ v. (j : ℕ) (t : T) (e : List T.Point × List T.Point × List (ℕ × ℕ)) → j <
        length types.now → IsGrid T.number_of (T.IsPoint (slice_index_or types.now j t)) (T.last_number
        (slice_index_or types.now j t)) (get_or v.sides.items j e)) }
    ensures tables { IfOk result (λ v. (j : ℕ) (t : T) (d : T.Point × T.Point) (e : List T.Point × List T.Point ×
        List (ℕ × ℕ)) → j < length types.now → IsSide T.number_of (T.IsPoint (slice_index_or types.now j t))
        (T.last_number (slice_index_or types.now j t)) (map (side_of j d) (left.now ++ right.now)) (get_or
        v.sides.items j e)) }
    ensures lengths { IfOk result (λ v. (x : O.Out × List (ℕ × ℕ)) → Among x v.rows.items → length x.1 ≡
        length types.now) }
    ensures cells { IfOk result (λ v. (x : O.Out × List (ℕ × ℕ)) → Among x v.rows.items → (s : ℕ) (e : List T.Point ×
        List T.Point × List (ℕ × ℕ)) → s < length types.now → ((get_or x.1 s (0, 0)).0 < (get_or x.1 s (0, 0)).1) ×
        ((get_or x.1 s (0, 0)).1 ≤ length (get_or v.sides.items s e).0)) }
    ensures form { IfOk result (λ v. IsPackedForm O.Out.order (length types.now) (O.means op.now) (boxes_of
        T.number_of left.now) (boxes_of T.number_of right.now) (map (grid_row (grids_of T.number_of T.last_number
        types.now v.sides.items)) v.rows.items)) }
    ensures least { IfOk result (λ v. IsLeast (HasFault (length types.now) (O.means op.now) (boxes_of T.number_of
        left.now) (boxes_of T.number_of right.now)) v.least) }
    ensures cost { steps.new ≤ steps.old + (bound (length left.now + length right.now) (length types.now) - length
        types.now * (length left.now + length right.now)) }
{
    let sides = all_sides(alloc, types, left, right, steps)?;
    let counts = cell_counts(alloc, sides.as_slice())?;
    let boxes = cell_boxes(alloc, sides.as_slice(), left.len() + right.len())?;
    let l = row_range(alloc, 0, left.len())?;
    let r = row_range(alloc, left.len(), right.len())?;
    let mut least = None;
    let rows = slices(
        alloc,
        types.len(),
        counts.as_slice(),
        boxes.as_slice(),
        l.as_slice(),
        r.as_slice(),
        left.len(),
        op,
        &mut least,
        steps,
    )?;
    let all = Found { sides, rows, least };
    Ok(all)
}

// The interval of some cells of a side.
fn interval_of<T: PointType>(t: &T, side: &Side<T>, cells: (usize, usize)) -> Interval<T>
    requires side { IsGrid T.number_of (T.IsPoint t.now) (T.last_number t.now) side.now }
    requires some { cells.0 < cells.1 }
    requires within { cells.1 ≤ length side.now.0 }
    ensures numbers { numbers_of T.number_of result ≡ span_at (map T.number_of side.now.0) (T.last_number t.now +ℤ pos
        1) cells }
    ensures begin { T.IsPoint t.now result.0 }
    ensures end { T.IsPoint t.now result.1 }
{
    let begin = side.cuts[cells.0];
    let end = side.lasts[cells.1 - 1];
    Interval::of(begin, end)
}

// The intervals of a row's cells.
fn sides_of_cells<T: PointType>(
    alloc: Global,
    types: &[T],
    sides: &[Side<T>],
    cells: &[(usize, usize)],
) -> Result<Sides<T>, Memory>
    requires sides { length sides.now ≡ length types.now }
    requires cells { length cells.now ≡ length types.now }
    requires grids { (j : ℕ) (t : T) (e : List T.Point × List T.Point × List (ℕ × ℕ)) → j < length types.now →
        IsGrid T.number_of (T.IsPoint (slice_index_or types.now j t)) (T.last_number (slice_index_or types.now j t))
        (get_or sides.now j e) }
    requires some { (j : ℕ) → j < length types.now → (get_or cells.now j (0, 0)).0 < (get_or cells.now j (0, 0)).1 }
    requires within { (j : ℕ) (e : List T.Point × List T.Point × List (ℕ × ℕ)) → j < length types.now →
        (get_or cells.now j (0, 0)).1 ≤ length (get_or sides.now j e).0 }
    ensures length { IfOk result (λ v. length v ≡ length types.now) }
    ensures points { IfOk result (λ v. (j : ℕ) (t : T) (d : T.Point × T.Point) → j < length types.now →
        HasEndsIn T.IsPoint (slice_index_or types.now j t) (get_or v j d)) }
    ensures numbers { IfOk result (λ v. (j : ℕ) (t : T) (d : T.Point × T.Point) (e : List T.Point × List T.Point ×
        List (ℕ × ℕ)) → j < length types.now → numbers_of T.number_of (get_or v j d) ≡
        span_at (map T.number_of (get_or sides.now j e).0) (T.last_number (slice_index_or types.now j t) +ℤ pos 1)
        (get_or cells.now j (0, 0))) }
{
    let mut list = Vec::with_capacity(alloc, types.len())?;
    for j in 0..types.len() {
        let i = interval_of(&types[j], &sides[j], cells[j]);
        list.push(i)?;
    }
    Ok(Sides { list })
}

// The row of intervals of a row over cells.
fn row_of_cells<T: PointType, P: Drop>(
    alloc: Global,
    types: &[T],
    sides: &[Side<T>],
    row: CellBox<P>,
) -> Result<BoxRow<T, P>, Memory>
    requires sides { length sides.now ≡ length types.now }
    requires cells { length row.1 ≡ length types.now }
    requires grids { (j : ℕ) (t : T) (e : List T.Point × List T.Point × List (ℕ × ℕ)) → j < length types.now →
        IsGrid T.number_of (T.IsPoint (slice_index_or types.now j t)) (T.last_number (slice_index_or types.now j t))
        (get_or sides.now j e) }
    requires within { (s : ℕ) (e : List T.Point × List T.Point × List (ℕ × ℕ)) → s < length types.now →
        ((get_or row.1 s (0, 0)).0 < (get_or row.1 s (0, 0)).1) × ((get_or row.1 s (0, 0)).1 ≤
        length (get_or sides.now s e).0) }
    ensures row { IfOk result (λ v. row_numbers T.number_of v ≡
        grid_row (grids_of T.number_of T.last_number types.now sides.now) row) }
    ensures sides { IfOk result (λ v. IsBox T.IsPoint types.now v.1) }
{
    let list = sides_of_cells(alloc, types, sides, row.sides.as_slice())?;
    Ok(BoxRow {
        label: row.label,
        sides: list,
    })
}

// The rows of intervals of rows over cells.
pub fn back<T: PointType, P: Drop>(
    alloc: Global,
    types: &[T],
    sides: &[Side<T>],
    rows: Vec<CellBox<P>>,
) -> Result<Vec<BoxRow<T, P>>, Memory>
    requires sides { length sides.now ≡ length types.now }
    requires cells { (x : P × List (ℕ × ℕ)) → Among x rows.items → length x.1 ≡ length types.now }
    requires grids { (j : ℕ) (t : T) (e : List T.Point × List T.Point × List (ℕ × ℕ)) → j < length types.now →
        IsGrid T.number_of (T.IsPoint (slice_index_or types.now j t)) (T.last_number (slice_index_or types.now j t))
        (get_or sides.now j e) }
    requires within { (x : P × List (ℕ × ℕ)) → Among x rows.items → (s : ℕ) (e : List T.Point × List T.Point ×
        List (ℕ × ℕ)) → s < length types.now → ((get_or x.1 s (0, 0)).0 < (get_or x.1 s (0, 0)).1) ×
        ((get_or x.1 s (0, 0)).1 ≤ length (get_or sides.now s e).0) }
    ensures rows { IfOk result (λ v. map (row_numbers T.number_of) v.items ≡
        map (grid_row (grids_of T.number_of T.last_number types.now sides.now)) rows.items) }
    ensures boxes { IfOk result (λ v. All (λ x. IsBox T.IsPoint types.now x.1) v.items) }
{
    let mut out = Vec::with_capacity(alloc, rows.len())?;
    for row in rows {
        let x = row_of_cells(alloc, types, sides, row)?;
        out.push(x)?;
    }
    Ok(out)
}

/// At each point, what the operator gives for the left and right rows that cover it, packed on the first side, then on
/// the second, and so on; the rows stand in the order of their labels and then of their sides.
///
/// So they are the packed form, as `pack` has it, of any boxes that have at each place the labels that the operator gives there.
///
/// `Op` is the least fault of the operator over all covered points, and comes exactly where there is one. `Limit` comes
/// exactly where there is none and the packed rows are more than `limit`.
pub fn combine<T: PointType, O: CellOp, L: Ledger>(
    alloc: Global,
    types: &[T],
    left: &[Sides<T>],
    right: &[Sides<T>],
    op: &O,
    limit: usize,
    steps: &mut Steps<L>,
) -> Result<Vec<BoxRow<T, O::Out>>, CellRefuse>
    requires left { All (IsBox T.IsPoint types.now) left.now }
    requires right { All (IsBox T.IsPoint types.now) right.now }
    requires can { (a b : List ℕ) → AreRows 0 (length left.now) a → AreRows 0 (length right.now) b →
        O.CanApply op.now a b }
    ensures rows { IfOk result (λ v. IsPackedForm O.Out.order (length types.now) (O.means op.now) (boxes_of
        T.number_of left.now) (boxes_of T.number_of right.now) (map (row_numbers T.number_of) v.items)) }
    ensures packed { IfOk result (λ v. (r : List (O.Out × List Span)) → ((x : O.Out × List Span) → Among x r →
        length x.1 ≡ length types.now) → ((l : O.Out) (grid_point : List ℤ) → InBoxes r l grid_point ↔ InCells (O.means op.now)
        (boxes_of T.number_of left.now) (boxes_of T.number_of right.now) l grid_point) →
        map (row_numbers T.number_of) v.items ≡ packed_boxes O.Out.order (length types.now) r) }
    ensures boxes { IfOk result (λ v. All (λ x. IsBox T.IsPoint types.now x.1) v.items) }
    ensures few { IfOk result (λ v. length v.items ≤ limit) }
    ensures no_fault { IfOk result (λ v. IsLeast (HasFault (length types.now) (O.means op.now) (boxes_of T.number_of
        left.now) (boxes_of T.number_of right.now)) None) }
    ensures fault { (e : AnyFault) → result ≡ Err (OfOp e) →
        IsLeast (HasFault (length types.now) (O.means op.now) (boxes_of T.number_of left.now) (boxes_of T.number_of
        right.now)) (Some e) }
    ensures limit { result ≡ Err OfLimit → IsLeast (HasFault (length types.now) (O.means op.now) (boxes_of T.number_of
        left.now) (boxes_of T.number_of right.now)) None × ((rows : List (O.Out × List Span)) ×
        IsPackedForm O.Out.order (length types.now) (O.means op.now) (boxes_of T.number_of left.now) (boxes_of
        T.number_of right.now) rows × (limit < length rows)) }
    ensures cost { steps.new ≤ steps.old + (bound (length left.now + length right.now) (length types.now) - length
        types.now * (length left.now + length right.now)) }
{
    let Found { sides, rows, least } = find_rows(alloc, types, left, right, op, steps)?;
    if let Some(fault) = least {
        return Err(CellRefuse::Op(fault));
    }
    if rows.len() > limit {
        return Err(CellRefuse::Limit);
    }
    let answer = back(alloc, types, sides.as_slice(), rows)?;
    Ok(answer)
}
