// Rows under the numbers of the first rows of their keys, and the labels of these rows put on at the end: so that what
// copies and compares labels again and again copies and compares numbers.
ghost use Rattle.std.specs.Prelude.{◌≡◌, ℕ, ◌<◌, length, map, IfOk};
ghost use Rattle.cell_packing.specs.Covering.{Among};
ghost use Rattle.cell_boxes.specs.KeyNumbers.{HaveFirsts, named};
ghost use Rattle.cell_boxes.specs.Rows.{Ascend, IsRow, PlainCellBox};

use crate::numbering::{Number, first_of_key};
use cell_sweep::CellBox;
use point_core::{Label, Memory};
use std::alloc::Global;

// For each row the number of the first row of its key.
pub fn first_rows<K: Label>(alloc: Global, rows: &[CellBox<K>]) -> Result<Vec<Number>, Memory>
    requires order { Ascend K.order rows.now }
    ensures count { IfOk result (λ v. length v.items ≡ length rows.now) }
    ensures firsts { IfOk result (λ v. HaveFirsts K.order rows.now v.items) }
{
    let mut firsts = Vec::with_capacity(alloc, rows.len())?;
    let mut first = 0;
    for next in 0..rows.len() {
        first = first_of_key(rows, first, next);
        firsts.push(Number { value: first })?;
    }
    Ok(firsts)
}

// The row under the label of its number.
fn with_label<P: Label>(
    alloc: Global,
    labels: &[P],
    row: CellBox<Number>,
) -> Result<CellBox<P>, Memory>
    requires { row.0 < length labels.now }
    ensures label { IfOk result (λ z. IsRow labels.now row.0 z.0) }
    ensures sides { IfOk result (λ z. row.1 ≡ z.1) }
{
    let label = labels[row.label.value].copy(alloc)?;
    Ok(CellBox {
        label,
        sides: row.sides,
    })
}

// The same of each row.
pub fn with_labels<P: Label>(
    alloc: Global,
    labels: &[P],
    rows: Vec<CellBox<Number>>,
) -> Result<Vec<CellBox<P>>, Memory>
    requires { (x : PlainCellBox ℕ) → Among x rows.items → x.0 < length labels.now }
    ensures { IfOk result (λ v. (d : P) → v.items ≡ map (named labels.now d) rows.items) }
{
    let mut out = Vec::with_capacity(alloc, rows.len())?;
    for row in rows {
        let own = with_label(alloc, labels, row)?;
        out.push(own)?;
    }
    Ok(out)
}
