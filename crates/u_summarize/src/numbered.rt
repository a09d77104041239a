// Rows with their numbers.
ghost use Rattle.std.specs.Prelude.{◌≡◌, ◌↔◌, ℕ, IfOk};
ghost use Rattle.cell_packing.specs.Covering.{Among};
ghost use Rattle.value_core.specs.Values.{Row as PlainRow};
ghost use Rattle.relation_core.specs.Agreement.{part_of};
ghost use Rattle.cell_boxes.specs.Answers.{PlainKeyedCellBox};
ghost use Rattle.u_summarize.specs.Asked.{IsNumbered};

use cell_boxes::KeyedCellBox;
use cell_sweep::CellBox;
use point_core::Memory;
use std::alloc::Global;
use u_set::{copied_cells, part_of_label};
use value_core::Row;

// The row with its number, under the part of its label.
fn numbered_row(
    alloc: Global,
    row: &CellBox<Row>,
    by: &[usize],
    number: usize,
) -> Result<KeyedCellBox<Row, usize>, Memory>
    ensures { IfOk result (λ z. z ≡ (part_of by.now row.now.0, number, row.now.1)) }
{
    let key = part_of_label(alloc, &row.label, by)?;
    let sides = copied_cells(alloc, row.sides.as_slice())?;
    Ok(KeyedCellBox {
        key,
        label: number,
        sides,
    })
}

/// The rows with their numbers, under the parts of their labels at the positions.
pub(crate) fn numbered(
    alloc: Global,
    rows: &[CellBox<Row>],
    by: &[usize],
) -> Result<Vec<KeyedCellBox<Row, usize>>, Memory>
    ensures { IfOk result (λ v. (z : PlainKeyedCellBox PlainRow ℕ) → Among z v.items ↔ IsNumbered by.now rows.now z) }
{
    let mut out = Vec::new(alloc);
    for r in 0..rows.len() {
        let row = &rows[r];
        let entry = numbered_row(alloc, row, by, r)?;
        out.push(entry)?;
    }
    Ok(out)
}
