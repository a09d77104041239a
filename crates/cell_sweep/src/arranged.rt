// Rows over numbered cells, packed after they are brought near their order.
ghost use Rattle.std.specs.Prelude.{◌≡◌, ℕ, ◌↔◌, length, IfOk, List};
ghost use Rattle.std.specs.List.{All};
ghost use Rattle.std.specs.List.Sorted.{IsPermutation, IsStrictlySortedBy};
ghost use Rattle.cell_packing.specs.Covering.{Among};
ghost use Rattle.cell_sweep.specs.PackedRows.{IsPackedOf};
ghost use Rattle.cell_sweep.specs.Rows.{key_cmp};

use crate::by_label::pack_rows;
use crate::key::CellBox;
use point_core::{Label, Memory};
use presort::{Numbers, arrange};
use std::alloc::{AllocError, Global};

// Whether no item is after the next one.
fn stand_in_order<X: Ord>(items: &[X]) -> bool {
    for at in 1..items.len() {
        if items[at - 1].cmp(&items[at]).is_gt() {
            return false;
        }
    }
    true
}

/// Arranges the items by their numbers, unless they stand in order.
pub fn arrange_unordered<X: Ord + Numbers>(
    alloc: Global,
    items: &mut Vec<X>,
) -> Result<(), AllocError>
    ensures { IsPermutation items.old.items items.new.items }
{
    if stand_in_order(items.as_slice()) {
        return Ok(());
    }
    arrange(alloc, items)
}

/// The packed form of the rows as `pack_rows` gives it. Rows that stand in no order are arranged by their numbers first, so that its
/// sort has little to do.
pub fn pack_arranged<P: Label + Numbers>(
    alloc: Global,
    sides: usize,
    rows: Vec<CellBox<P>>,
) -> Result<Vec<CellBox<P>>, Memory>
    requires sides { All (λ x. length x.1 ≡ sides) rows.items }
    ensures rows { IfOk result (λ v. (x : P × List (ℕ × ℕ)) → Among x v.items ↔ (length x.1 ≡ sides) × IsPackedOf sides rows.items x) }
    ensures sorted { IfOk result (λ v. IsStrictlySortedBy (key_cmp P.order) v.items) }
{
    let mut arranged = rows;
    arrange_unordered(alloc, &mut arranged)?;
    let packed = pack_rows(alloc, sides, arranged)?;
    Ok(packed)
}
