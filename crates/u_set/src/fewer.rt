// Rows over cells as an operator by keys takes them.
ghost use Rattle.std.specs.Prelude.{◌≡◌, length, IfOk};
ghost use Rattle.std.specs.List.{All};
ghost use Rattle.u_set.specs.Fewer.{IsSameOrPacked};

use cell_sweep::{CellBox, pack_arranged};
use point_core::{Label, Memory};
use presort::Numbers;
use std::alloc::Global;

/// On one side the rows packed label by label: they are no more than before, and no two of one label overlap, so an operator by keys meets few
/// pairs of them. On more sides the packed form may be far longer than the rows, and they stay as they are.
pub fn prepacked<P: Label + Numbers>(
    alloc: Global,
    sides: usize,
    rows: Vec<CellBox<P>>,
) -> Result<Vec<CellBox<P>>, Memory>
    requires sides { All (λ x. length x.1 ≡ sides) rows.items }
    ensures rows { IfOk result (λ v. IsSameOrPacked P.order sides rows.items v.items) }
    ensures sides { IfOk result (λ v. All (λ x. length x.1 ≡ sides) v.items) }
{
    if sides != 1 {
        return Ok(rows);
    }
    let packed = pack_arranged(alloc, sides, rows)?;
    Ok(packed)
}
