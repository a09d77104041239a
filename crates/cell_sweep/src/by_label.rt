// Rows over numbered cells, packed: on one side all at once, else label by label.
ghost use Rattle.std.specs.Prelude.{◌≡◌, ◌≢◌, ℕ, ◌<◌, ◌≤◌, ◌↔◌, length, map, slice_index_or, IfOk, OnOk, List};
ghost use Rattle.std.specs.List.{All};
ghost use Rattle.std.specs.List.Sorted.{IsStrictlySortedBy};
ghost use Rattle.std.specs.declared.cmp.Ordering.TheVariants.{Equal};
ghost use Rattle.cell_packing.specs.Covering.{Among};
ghost use Rattle.cell_sweep.specs.PackedRows.{IsPackedOf};
ghost use Rattle.cell_sweep.specs.Rows.{key_cmp, sides_of, AreRows};

use crate::inward::IndexBox;
use crate::key::CellBox;
use crate::one_side::on_first_side;
use crate::parted::push_packed;
use point_core::{Label, Memory};
use std::alloc::Global;

// The labels of the rows, and their boxes.
fn apart<P: Drop>(alloc: Global, rows: Vec<CellBox<P>>) -> Result<(Vec<P>, Vec<IndexBox>), Memory>
    ensures labels { IfOk result (λ v. v.0.items ≡ map (λ x. x.0) rows.items) }
    ensures boxes { IfOk result (λ v. sides_of v.1.items ≡ map (λ x. x.1) rows.items) }
{
    let mut labels = Vec::with_capacity(alloc, rows.len())?;
    let mut boxes = Vec::with_capacity(alloc, rows.len())?;
    for row in rows {
        labels.push(row.label)?;
        boxes.push(IndexBox { sides: row.sides })?;
    }
    Ok((labels, boxes))
}

// The number of the first row after `first` that has another label.
fn label_end<P: Label>(labels: &[P], first: usize) -> usize
    requires { first < length labels.now }
    ensures after { first < result }
    ensures within { result ≤ length labels.now }
    ensures same { (j : ℕ) (d e : P) → first ≤ j → j < result → P.order (slice_index_or labels.now first d) (slice_index_or labels.now j e) ≡ Equal }
    ensures other { (d e : P) → result < length labels.now → P.order (slice_index_or labels.now first d) (slice_index_or labels.now result e) ≢ Equal }
{
    let mut end = first + 1;
    while end < labels.len() && labels[first].compare(&labels[end]).is_eq() {
        end += 1;
    }
    end
}

// Makes the list that of the numbers from `first` up to before `end`. Its room is kept from turn to turn.
fn number(list: &mut Vec<usize>, first: usize, end: usize) -> Result<(), Memory>
    requires { first ≤ end }
    ensures members { OnOk result ((r : ℕ) → Among r list.new.items ↔ (first ≤ r) × (r < end)) }
    ensures order { OnOk result (AreRows first end list.new.items) }
{
    list.clear();
    for r in first..end {
        list.push(r)?;
    }
    Ok(())
}

/// The packed form of the rows as a set: on the first side, on the second, and so on; in the order of labels and then
/// of sides.
pub fn pack_rows<P: Label>(
    alloc: Global,
    sides: usize,
    rows: Vec<CellBox<P>>,
) -> Result<Vec<CellBox<P>>, Memory>
    requires sides { All (λ x. length x.1 ≡ sides) rows.items }
    ensures rows { IfOk result (λ v. (x : P × List (ℕ × ℕ)) → Among x v.items ↔ (length x.1 ≡ sides) × IsPackedOf sides rows.items x) }
    ensures sorted { IfOk result (λ v. IsStrictlySortedBy (key_cmp P.order) v.items) }
{
    if sides == 1 {
        let whole = on_first_side(alloc, rows)?;
        return Ok(whole);
    }
    let mut sorted = rows;
    sorted.sort()?;
    let (labels, boxes) = apart(alloc, sorted)?;
    let mut out = Vec::new(alloc);
    let mut live = Vec::new(alloc);
    let mut first = 0;
    while first < labels.len() {
        let end = label_end(labels.as_slice(), first);
        number(&mut live, first, end)?;
        push_packed(
            alloc,
            sides,
            &mut out,
            &labels[first],
            boxes.as_slice(),
            live.as_slice(),
        )?;
        first = end;
    }
    Ok(out)
}
