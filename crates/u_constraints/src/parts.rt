// Labelled boxes under parts of their labels.
ghost use Rattle.std.specs.Prelude.{◌≡◌, ℕ, ◌<◌, length, map, IfOk};
ghost use Rattle.std.specs.List.{All};
ghost use Rattle.relation_core.specs.Agreement.{part_of};
ghost use Rattle.u_row.specs.Labels.{relabelled};

use cell_core::BoxRow;
use cell_sweep::CellBox;
use point_core::{Memory, PointType};
use relation_core::part;
use std::alloc::Global;
use u_set::copied_cells;
use value_core::Row;

/// The boxes of cells under their labels' values at the positions.
pub(crate) fn cells_of_parts(
    alloc: Global,
    rows: &[CellBox<Row>],
    positions: &[usize],
) -> Result<Vec<CellBox<Row>>, Memory>
    requires { All (λ x. All (λ (i : ℕ). i < length x.0) positions.now) rows.now }
    ensures { IfOk result (λ v. v.items ≡ map (relabelled (part_of positions.now)) rows.now) }
{
    let mut out = Vec::with_capacity(alloc, rows.len())?;
    for row in rows {
        let label = part(alloc, &row.label, positions)?;
        let sides = copied_cells(alloc, row.sides.as_slice())?;
        out.push(CellBox { label, sides })?;
    }
    Ok(out)
}

/// The boxes under their labels' values at the positions.
pub(crate) fn boxes_of_parts<T: PointType>(
    alloc: Global,
    rows: &[BoxRow<T, Row>],
    positions: &[usize],
) -> Result<Vec<BoxRow<T, Row>>, Memory>
    requires { All (λ b. All (λ (i : ℕ). i < length b.0) positions.now) rows.now }
    ensures { IfOk result (λ v. v.items ≡ map (relabelled (part_of positions.now)) rows.now) }
{
    let mut out = Vec::with_capacity(alloc, rows.len())?;
    for row in rows {
        let label = part(alloc, &row.label, positions)?;
        let sides = row.sides.copy(alloc)?;
        out.push(BoxRow { label, sides })?;
    }
    Ok(out)
}
