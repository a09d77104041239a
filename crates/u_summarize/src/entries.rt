// Rows with the numbers that stand for their labels, under the parts of these.
ghost use Rattle.std.specs.Prelude.{◌≡◌, ◌≢◌, ◌<◌, ◌+◌, ℕ, true, map, length, IfOk, IfSome};
ghost use Rattle.std.specs.List.{All};
ghost use Rattle.std.specs.List.Sorted.{IsPermutation, IsSortedBy};
ghost use Rattle.std.specs.Ordering.{eq_by_cmp, is_lt};
ghost use Rattle.std.specs.declared.cmp.Ordering.TheVariants.{Greater};
ghost use Rattle.value_core.specs.Values.{row_cmp};
ghost use Rattle.cell_sweep.specs.Rows.{key_cmp};
ghost use Rattle.cell_boxes.specs.Keys.{keyed_cmp};
ghost use Rattle.cell_boxes.specs.Rows.{Ascend};
ghost use Rattle.u_summarize.specs.Entries.{Listed, part_row, bare_row, entry_at, standing, numbered_row, row_at, turn, AreDealt, AreStanding, AreArranged, AreNumbered};

use cell_boxes::{KeyedCellBox, keys_in_order};
use cell_sweep::{CellBox, arrange_unordered};
use point_core::{Label, Memory};
use std::alloc::Global;
use std::cmp::Ordering;
use u_set::part_of_label;
use value_core::Row;

// The rows under the parts of their labels, and these labels with the rows' numbers. The cells are moved, and so are the labels.
fn parted(
    alloc: Global,
    rows: Vec<CellBox<Row>>,
    by: &[usize],
) -> Result<(Vec<CellBox<Row>>, Vec<KeyedCellBox<Row, usize>>), Memory>
    ensures parts { IfOk result (λ v. v.0.items ≡ map (part_row by.now) rows.items) }
    ensures labels { IfOk result (λ v. Listed (bare_row rows.items) (length rows.items) v.1.items) }
{
    let mut parts = Vec::with_capacity(alloc, rows.len())?;
    let mut labels = Vec::with_capacity(alloc, rows.len())?;
    for row in rows {
        let key = part_of_label(alloc, &row.label, by)?;
        let number = labels.len();
        parts.push(CellBox {
            label: key,
            sides: row.sides,
        })?;
        labels.push(KeyedCellBox {
            key: row.label,
            label: number,
            sides: Vec::new(alloc),
        })?;
    }
    Ok((parts, labels))
}

// The labels in order. They are arranged by their numbers first, so that the sort has little to do.
fn sorted(
    alloc: Global,
    labels: Vec<KeyedCellBox<Row, usize>>,
) -> Result<Vec<KeyedCellBox<Row, usize>>, Memory>
    ensures moved { IfOk result (λ v. IsPermutation labels.items v.items) }
    ensures order { IfOk result (λ v. IsSortedBy (λ x y. is_lt (keyed_cmp row_cmp x y)) v.items) }
{
    let mut list = labels;
    arrange_unordered(alloc, &mut list)?;
    list.sort()?;
    Ok(list)
}

// Whether the next label is the same.
fn follows(labels: &[KeyedCellBox<Row, usize>], i: usize) -> bool
    requires { i + 1 < length labels.now }
    ensures { result ≡ eq_by_cmp row_cmp (entry_at labels.now i).0 (entry_at labels.now (i + 1)).0 }
{
    let one = &labels[i];
    let other = &labels[i + 1];
    one.key.compare(&other.key).is_eq()
}

// The number of the label.
fn number_at(labels: &[KeyedCellBox<Row, usize>], i: usize) -> usize
    requires { i < length labels.now }
    ensures { result ≡ (entry_at labels.now i).1 }
{
    let own = &labels[i];
    own.label
}

// The number that stands for the label, where that of the one before it is known.
fn next_standing(labels: &[KeyedCellBox<Row, usize>], i: usize, before: usize) -> usize
    requires some { i < length labels.now }
    requires before { (j : ℕ) → i ≡ j + 1 → before ≡ standing labels.now j }
    ensures { result ≡ standing labels.now i }
{
    if i > 0 && follows(labels, i - 1) {
        return before;
    }
    number_at(labels, i)
}

// For the number of each label the one that stands for the label.
fn numbers_standing(
    alloc: Global,
    count: usize,
    labels: &[KeyedCellBox<Row, usize>],
) -> Result<Vec<usize>, Memory>
    requires { All (λ z. z.1 < count) labels.now }
    ensures count { IfOk result (λ v. length v.items ≡ count) }
    ensures each { IfOk result (λ v. AreDealt labels.now (length labels.now) v.items) }
{
    let mut out = vec![in alloc; 0; count]?;
    let mut before = 0;
    for i in 0..labels.len() {
        let number = next_standing(labels, i, before);
        let place = number_at(labels, i);
        out[place] = number;
        before = number;
    }
    Ok(out)
}

// The rows with the numbers.
fn with_numbers(
    alloc: Global,
    rows: Vec<CellBox<Row>>,
    numbers: &[usize],
) -> Result<Vec<KeyedCellBox<Row, usize>>, Memory>
    requires { length numbers.now ≡ length rows.items }
    ensures { IfOk result (λ v. Listed (numbered_row rows.items numbers.now) (length rows.items) v.items) }
{
    let mut out = Vec::with_capacity(alloc, rows.len())?;
    for row in rows {
        let number = numbers[out.len()];
        out.push(KeyedCellBox {
            key: row.label,
            label: number,
            sides: row.sides,
        })?;
    }
    Ok(out)
}

// Whether the next row is before the row, by their labels and cells.
fn goes_back(rows: &[CellBox<Row>], i: usize) -> bool
    requires { i + 1 < length rows.now }
    ensures { result ≡ is_lt (key_cmp row_cmp (row_at rows.now (i + 1)) (row_at rows.now i)) }
{
    let one = &rows[i];
    let next = &rows[i + 1];
    next.cmp(one).is_lt()
}

// Whether the rows stand by their labels and cells.
fn stand_in_order(rows: &[CellBox<Row>]) -> bool
    ensures { result ≡ true → Ascend row_cmp rows.now }
{
    let mut i = 0;
    while i + 1 < rows.len() && !goes_back(rows, i) {
        i += 1;
    }
    i + 1 >= rows.len()
}

// The rows by their labels and first cells, with their numbers. Rows that stand so keep their turn.
fn arranged(
    alloc: Global,
    rows: Vec<CellBox<Row>>,
    numbers: Vec<usize>,
) -> Result<(Vec<CellBox<Row>>, Vec<usize>), Memory>
    requires { length numbers.items ≡ length rows.items }
    ensures rows { IfOk result (λ v. AreArranged rows.items numbers.items v.0.items v.1.items) }
    ensures order { IfOk result (λ v. Ascend row_cmp v.0.items) }
{
    if stand_in_order(rows.as_slice()) {
        return Ok((rows, numbers));
    }
    let list = with_numbers(alloc, rows, numbers.as_slice())?;
    let (keys, own) = keys_in_order(alloc, list)?;
    Ok((keys, own))
}

// How the label of the row stands to that of the next one.
fn order_to_next(rows: &[CellBox<Row>], i: usize) -> Ordering
    requires { i + 1 < length rows.now }
    ensures { result ≡ row_cmp (row_at rows.now i).0 (row_at rows.now (i + 1)).0 }
{
    let one = &rows[i];
    let next = &rows[i + 1];
    one.label.compare(&next.label)
}

// The number of the first row that has the row's label, where that of the row before it is known. There is none where the label is
// before that of the row before.
fn next_in_turn(rows: &[CellBox<Row>], i: usize, before: usize) -> Option<usize>
    requires some { i < length rows.now }
    requires before { (j : ℕ) → i ≡ j + 1 → before ≡ turn rows.now j }
    ensures number { IfSome result (λ n. n ≡ turn rows.now i) }
    ensures order { (j : ℕ) → i ≡ j + 1 → IfSome result (λ _. row_cmp (row_at rows.now j).0 (row_at rows.now i).0 ≢ Greater) }
{
    if i == 0 {
        return Some(0);
    }
    match order_to_next(rows, i - 1) {
        Ordering::Less => Some(i),
        Ordering::Equal => Some(before),
        Ordering::Greater => None,
    }
}

// The numbers that stand for the labels of rows that stand by their labels.
fn numbers_in_turn(alloc: Global, rows: &[CellBox<Row>]) -> Result<Option<Vec<usize>>, Memory>
    ensures { IfOk result (λ o. IfSome o (λ v. AreStanding rows.now v.items)) }
{
    let mut out = Vec::with_capacity(alloc, rows.len())?;
    let mut before = 0;
    for i in 0..rows.len() {
        match next_in_turn(rows, i, before) {
            Some(number) => {
                out.push(number)?;
                before = number;
            }
            None => return Ok(None),
        }
    }
    Ok(Some(out))
}

// The rows under the parts of their labels. The cells are moved.
fn under_parts(
    alloc: Global,
    rows: Vec<CellBox<Row>>,
    by: &[usize],
) -> Result<Vec<CellBox<Row>>, Memory>
    ensures { IfOk result (λ v. v.items ≡ map (part_row by.now) rows.items) }
{
    let mut parts = Vec::with_capacity(alloc, rows.len())?;
    for row in rows {
        let key = part_of_label(alloc, &row.label, by)?;
        parts.push(CellBox {
            label: key,
            sides: row.sides,
        })?;
    }
    Ok(parts)
}

// The rows under the parts of their labels, and the numbers that stand for these, by their places among the sorted labels.
fn parts_and_numbers(
    alloc: Global,
    rows: Vec<CellBox<Row>>,
    by: &[usize],
) -> Result<(Vec<CellBox<Row>>, Vec<usize>), Memory>
    ensures parts { IfOk result (λ v. v.0.items ≡ map (part_row by.now) rows.items) }
    ensures numbers { IfOk result (λ v. AreStanding rows.items v.1.items) }
{
    let count = rows.len();
    let (parts, labels) = parted(alloc, rows, by)?;
    let names = sorted(alloc, labels)?;
    let numbers = numbers_standing(alloc, count, names.as_slice())?;
    Ok((parts, numbers))
}

// The same, without a sort where the rows stand by their labels.
fn parts_in_turn(
    alloc: Global,
    rows: Vec<CellBox<Row>>,
    by: &[usize],
) -> Result<(Vec<CellBox<Row>>, Vec<usize>), Memory>
    ensures parts { IfOk result (λ v. v.0.items ≡ map (part_row by.now) rows.items) }
    ensures numbers { IfOk result (λ v. AreStanding rows.items v.1.items) }
{
    match numbers_in_turn(alloc, rows.as_slice())? {
        Some(numbers) => {
            let parts = under_parts(alloc, rows, by)?;
            Ok((parts, numbers))
        }
        None => parts_and_numbers(alloc, rows, by),
    }
}

/// The rows under the parts of their labels, by these and by their first cells, with one number for each label: that of a row that has
/// it. Their cells are moved. Only labels are sorted for the numbers, and only such as do not stand in order; so rows that stand by parts
/// and cells are not brought in order again.
pub(crate) fn keyed_rows(
    alloc: Global,
    rows: Vec<CellBox<Row>>,
    by: &[usize],
) -> Result<(Vec<CellBox<Row>>, Vec<usize>), Memory>
    ensures rows { IfOk result (λ v. AreNumbered by.now rows.items v.0.items v.1.items) }
    ensures order { IfOk result (λ v. Ascend row_cmp v.0.items) }
{
    let (parts, numbers) = parts_in_turn(alloc, rows, by)?;
    let (keys, own) = arranged(alloc, parts, numbers)?;
    Ok((keys, own))
}
