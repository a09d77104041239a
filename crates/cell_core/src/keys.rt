// Rows over the numbered cells of all sides.
ghost use Rattle.std.specs.Prelude.{◌≡◌, ◌<◌, ◌≤◌, ◌+◌, ◌^◌, ◌++◌, length, OnOk};
ghost use Rattle.std.specs.List.{All};
ghost use Rattle.cell_core.specs.Cells.{keys_from};

use crate::boxes::BoxRow;
use crate::grids::one_box;
use crate::number::Side;
use cell_sweep::CellBox;
use point_core::{Label, Memory, PointType};
use std::alloc::Global;

// Adds the rows over their cells, which stand from `first` on in the tables of all sides.
pub fn push_keys<T: PointType, P: Label>(
    alloc: Global,
    out: &mut Vec<CellBox<P>>,
    rows: &[BoxRow<T, P>],
    first: usize,
    sides: &[Side<T>],
) -> Result<(), Memory>
    requires few { first < 2 ^ 62 }
    requires full { All (λ s. first + length rows.now ≤ length s.2) sides.now }
    ensures { OnOk result (out.new.items ≡ out.old.items ++ keys_from first rows.now sides.now) }
{
    out.reserve(rows.len())?;
    for r in 0..rows.len() {
        let row = &rows[r];
        let label = row.label.copy(alloc)?;
        let cells = one_box(alloc, sides, first + r)?;
        out.push(CellBox {
            label,
            sides: cells.sides,
        })?;
    }
    Ok(())
}

// Moves the rows over their cells, which stand from `first` on in the tables of all sides.
pub fn push_moved_keys<T: PointType, P: Drop>(
    alloc: Global,
    out: &mut Vec<CellBox<P>>,
    rows: Vec<BoxRow<T, P>>,
    first: usize,
    sides: &[Side<T>],
) -> Result<(), Memory>
    requires few { first < 2 ^ 62 }
    requires full { All (λ s. first + length rows.items ≤ length s.2) sides.now }
    ensures { OnOk result (out.new.items ≡ out.old.items ++ keys_from first rows.items sides.now) }
{
    out.reserve(rows.len())?;
    let mut at = first;
    for row in rows {
        let cells = one_box(alloc, sides, at)?;
        out.push(CellBox {
            label: row.label,
            sides: cells.sides,
        })?;
        at += 1;
    }
    Ok(())
}
