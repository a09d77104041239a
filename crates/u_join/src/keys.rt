// Rows over cells by the parts of their labels.
ghost use Rattle.std.specs.Prelude.{◌≡◌, map, IfOk};
ghost use Rattle.relation_core.specs.Agreement.{part_of};
ghost use Rattle.u_row.specs.Labels.{relabelled};
ghost use Rattle.u_join.specs.KeyedCellBox.{keyed};

use cell_boxes::KeyedCellBox;
use cell_sweep::CellBox;
use point_core::Memory;
use std::alloc::Global;
use u_row::part_in_place;
use u_set::part_of_label;
use value_core::Row;

/// The rows with the parts of their labels at the positions as keys.
pub(crate) fn with_keys(
    alloc: Global,
    rows: Vec<CellBox<Row>>,
    positions: &[usize],
) -> Result<Vec<KeyedCellBox<Row, Row>>, Memory>
    ensures { IfOk result (λ v. v.items ≡ map (keyed (part_of positions.now)) rows.items) }
{
    let mut out = Vec::with_capacity(alloc, rows.len())?;
    for row in rows {
        let key = part_of_label(alloc, &row.label, positions)?;
        out.push(KeyedCellBox {
            key,
            label: row.label,
            sides: row.sides,
        })?;
    }
    Ok(out)
}

/// The rows under the parts of their labels at the positions.
pub(crate) fn by_keys(
    alloc: Global,
    rows: Vec<CellBox<Row>>,
    positions: &[usize],
) -> Result<Vec<CellBox<Row>>, Memory>
    ensures { IfOk result (λ v. v.items ≡ map (relabelled (part_of positions.now)) rows.items) }
{
    let mut out = Vec::with_capacity(alloc, rows.len())?;
    for row in rows {
        let label = part_in_place(alloc, row.label, positions)?;
        out.push(CellBox {
            label,
            sides: row.sides,
        })?;
    }
    Ok(out)
}
