// Projection point by point.
ghost use Rattle.std.specs.Prelude.{◌≡◌, ℕ, ◌+◌, ◌<◌, ◌≤◌, map, length, Err, IfOk};
ghost use Rattle.std.specs.List.{All};
ghost use Rattle.point_core.specs.declared.fault.Fault.{Fault as AnyFault};
ghost use Rattle.cell_packing.specs.Boxed.{packed_boxes, unpacked_boxes};
ghost use Rattle.value_core.specs.Values.{row_cmp};
ghost use Rattle.relation_core.specs.Agreement.{part_of};
ghost use Rattle.cell_core.specs.Boxes.{IsBox};
ghost use Rattle.cell_core.specs.Cells.{row_numbers};
ghost use Rattle.cell_core.specs.Costs.{bound};
ghost use Rattle.cell_core.specs.declared.boxes.CellRefuse.TheVariants.{Op as OfOp, Limit as OfLimit};
ghost use Rattle.u_row.specs.Labels.{relabelled};

use crate::picked::part_in_place;
use cell_core::{BoxRow, CellRefuse, pack};
use point_core::{Memory, PointType, Steps};
use std::alloc::Global;
use std::sync::ledger::Ledger;
use u_set::copied_boxes;
use value_core::Row;

// The boxes under the parts of their labels.
fn parted<T: PointType>(
    alloc: Global,
    rows: Vec<BoxRow<T, Row>>,
    kept: &[usize],
) -> Result<Vec<BoxRow<T, Row>>, Memory>
    ensures { IfOk result (λ v. v.items ≡ map (relabelled (part_of kept.now)) rows.items) }
{
    let mut out = Vec::with_capacity(alloc, rows.len())?;
    for row in rows {
        let label = part_in_place(alloc, row.label, kept)?;
        out.push(BoxRow {
            label,
            sides: row.sides,
        })?;
    }
    Ok(out)
}

/// The boxes under the parts of their labels, packed, where they are no more than the limit.
pub(crate) fn projected_boxes<T: PointType, L: Ledger>(
    alloc: Global,
    types: &[T],
    rows: Vec<BoxRow<T, Row>>,
    kept: &[usize],
    limit: usize,
    steps: &mut Steps<L>,
) -> Result<Vec<BoxRow<T, Row>>, CellRefuse>
    requires boxes { All (λ b. IsBox T.IsPoint types.now b.1) rows.items }
    ensures rows { IfOk result (λ v. map (row_numbers T.number_of) v.items ≡ packed_boxes row_cmp (length types.now)
        (map (relabelled (part_of kept.now)) (unpacked_boxes row_cmp (length types.now) (map (row_numbers T.number_of) rows.items)))) }
    ensures boxes { IfOk result (λ v. All (λ b. IsBox T.IsPoint types.now b.1) v.items) }
    ensures few { IfOk result (λ v. length v.items ≤ limit) }
    ensures no_fault { (e : AnyFault) → result ≡ Err (OfOp e) → ⊥ }
    ensures limit { result ≡ Err OfLimit → limit < length (packed_boxes row_cmp (length types.now)
        (map (relabelled (part_of kept.now)) (unpacked_boxes row_cmp (length types.now) (map (row_numbers T.number_of) rows.items)))) }
    ensures cost { steps.new ≤ steps.old + bound (length rows.items) (length types.now) }
{
    let parts = parted(alloc, rows, kept)?;
    pack(alloc, types, parts, limit, steps)
}

/// The boxes under the labels' values at the kept positions, packed: at each point the parts of the labels there.
///
/// `Limit` comes exactly where the packed boxes are more than `limit`.
pub fn u_project<T: PointType, L: Ledger>(
    alloc: Global,
    types: &[T],
    rows: &[BoxRow<T, Row>],
    kept: &[usize],
    limit: usize,
    steps: &mut Steps<L>,
) -> Result<Vec<BoxRow<T, Row>>, CellRefuse>
    requires boxes { All (λ b. IsBox T.IsPoint types.now b.1) rows.now }
    requires within { All (λ b. All (λ (i : ℕ). i < length b.0) kept.now) rows.now }
    ensures rows { IfOk result (λ v. map (row_numbers T.number_of) v.items ≡ packed_boxes row_cmp (length types.now)
        (map (relabelled (part_of kept.now)) (unpacked_boxes row_cmp (length types.now) (map (row_numbers T.number_of) rows.now)))) }
    ensures boxes { IfOk result (λ v. All (λ b. IsBox T.IsPoint types.now b.1) v.items) }
    ensures few { IfOk result (λ v. length v.items ≤ limit) }
    ensures no_fault { (e : AnyFault) → result ≡ Err (OfOp e) → ⊥ }
    ensures limit { result ≡ Err OfLimit → limit < length (packed_boxes row_cmp (length types.now)
        (map (relabelled (part_of kept.now)) (unpacked_boxes row_cmp (length types.now) (map (row_numbers T.number_of) rows.now)))) }
    ensures cost { steps.new ≤ steps.old + bound (length rows.now) (length types.now) }
{
    let own = copied_boxes(alloc, rows)?;
    projected_boxes(alloc, types, own, kept, limit, steps)
}
