// The rows of a key by their first cells, and by the cells after their last.
ghost use Rattle.std.specs.Prelude.{◌≡◌, ℕ, ◌<◌, ◌≤◌, ◌⊎◌, ◌++◌, length, get_or, map, OnOk, IfOk};
ghost use Rattle.cell_packing.specs.Covering.{Among};
ghost use Rattle.cell_boxes.specs.Tallies.{AreBy, span_at};

use point_core::Memory;
use std::alloc::Global;

// The first cell of each row with the row's number, by the cell.
pub fn by_first(
    alloc: Global,
    spans: &[(usize, usize)],
    rows: (usize, usize),
) -> Result<Vec<(usize, usize)>, Memory>
    requires some { rows.0 ≤ rows.1 }
    requires within { rows.1 ≤ length spans.now }
    ensures { IfOk result (λ v. AreBy (λ r. (span_at spans.now r).0) rows v.items) }
{
    let mut out = Vec::with_capacity(alloc, rows.1 - rows.0)?;
    for r in rows.0..rows.1 {
        out.push((spans[r].0, r))?;
    }
    out.sort()?;
    Ok(out)
}

// The cell after the last of each row with the row's number, by the cell.
pub fn by_end(
    alloc: Global,
    spans: &[(usize, usize)],
    rows: (usize, usize),
) -> Result<Vec<(usize, usize)>, Memory>
    requires some { rows.0 ≤ rows.1 }
    requires within { rows.1 ≤ length spans.now }
    ensures { IfOk result (λ v. AreBy (λ r. (span_at spans.now r).1) rows v.items) }
{
    let mut out = Vec::with_capacity(alloc, rows.1 - rows.0)?;
    for r in rows.0..rows.1 {
        out.push((spans[r].1, r))?;
    }
    out.sort()?;
    Ok(out)
}

// Adds the cells of the pairs.
fn push_cells(out: &mut Vec<usize>, pairs: &[(usize, usize)]) -> Result<(), Memory>
    ensures { OnOk result (out.new.items ≡ out.old.items ++ map (λ x. x.0) pairs.now) }
{
    for p in pairs {
        out.push(p.0)?;
    }
    Ok(())
}

// The cells of the pairs of both, in order.
pub fn cells_of(
    alloc: Global,
    starts: &[(usize, usize)],
    ends: &[(usize, usize)],
) -> Result<Vec<usize>, Memory>
    ensures order { IfOk result (λ v. (i j : ℕ) → i ≤ j → j < length v.items → get_or v.items i 0 ≤ get_or v.items j 0) }
    ensures cuts { IfOk result (λ v. (x : ℕ × ℕ) → Among x starts.now ⊎ Among x ends.now → Among x.0 v.items) }
{
    let mut cuts = Vec::with_capacity(alloc, starts.len().saturating_add(ends.len()))?;
    push_cells(&mut cuts, starts)?;
    push_cells(&mut cuts, ends)?;
    cuts.sort()?;
    Ok(cuts)
}
