// Numbers in place of keys, so that what compares keys again and again compares numbers.
ghost use Rattle.std.specs.Prelude.{◌≡◌, ℕ, ◌+◌, ◌<◌, ◌≤◌, ◌↔◌, length, map, IfOk, IsTrue};
ghost use Rattle.std.specs.declared.cmp.Ordering.TheVariants.{Less};
ghost use Rattle.cell_boxes.specs.KeyNumbers.{AreNumbered, HaveNumbers, Begins, IsCount, RiseAlike};
ghost use Rattle.cell_boxes.specs.Meetings.{boxes_in};
ghost use Rattle.cell_boxes.specs.Rows.{Ascend, IsRow, PlainCellBox};

use cell_sweep::CellBox;
use point_core::{Label, Memory};
use std::alloc::Global;
use std::cmp::Ordering;
use std::marker::Model;

// What stands for a key.
#[derive(Drop)]
pub struct Number {
    pub value: usize,
}

impl Model for Number {
    ghost use Rattle.std.specs.Prelude.{ℕ};

    ghost Value = { ℕ };

    ghost view = { λ n. n.value };
}

impl Label for Number {
    ghost use Rattle.std.specs.Ordering.{nat_cmp};
    ghost use Rattle.std.proofs.lemmas.Cmp.{nat_cmp_total};
    ghost use Rattle.cell_boxes.specs.KeyNumbers.{separates_numbers};

    ghost order = { nat_cmp };

    fn compare(&self, other: &Number) -> Ordering {
        self.value.cmp(&other.value)
    }

    fn copy(&self, _alloc: Global) -> Result<Number, Memory> {
        Ok(Number { value: self.value })
    }

    ghost total = { nat_cmp_total };

    ghost separates = { separates_numbers };
}

// Whether the row is of a lesser key than the other.
fn is_lesser<K: Label>(row: &CellBox<K>, other: &CellBox<K>) -> bool
    ensures { IsTrue result ↔ (K.order row.now.0 other.now.0 ≡ Less) }
{
    match row.label.compare(&other.label) {
        Ordering::Less => true,
        _ => false,
    }
}

// How many rows are of lesser keys than the other, of which the first `known` are. It goes on from these row by row: who asks
// for keys that rise comes past each row once.
fn count_lesser<K: Label>(rows: &[CellBox<K>], other: &CellBox<K>, known: usize) -> usize
    requires order { Ascend K.order rows.now }
    requires within { known ≤ length rows.now }
    requires known { (i : ℕ) (x : PlainCellBox K) → IsRow rows.now i x → i < known → K.order x.0 other.now.0 ≡ Less }
    ensures { IsCount K.order rows.now other.now.0 result }
{
    let mut count = known;
    while count < rows.len() && is_lesser(&rows[count], other) {
        count += 1;
    }
    count
}

// The first row of the key of the next row, where `first` is that of the row before it.
pub fn first_of_key<K: Label>(rows: &[CellBox<K>], first: usize, next: usize) -> usize
    requires order { Ascend K.order rows.now }
    requires begins { Begins K.order rows.now first next }
    requires first { first ≤ next }
    requires within { next < length rows.now }
    ensures begins { Begins K.order rows.now result (next + 1) }
    ensures first { result ≤ next }
{
    if is_lesser(&rows[first], &rows[next]) {
        return next;
    }
    first
}

// How many others are of lesser keys than the next row, where `known` are of lesser ones than the row before it. If both are
// of one key, no other is looked at.
fn count_for_next<K: Label>(
    rows: &[CellBox<K>],
    others: &[CellBox<K>],
    first: usize,
    next: usize,
    known: usize,
) -> usize
    requires order { Ascend K.order rows.now }
    requires other_order { Ascend K.order others.now }
    requires begins { Begins K.order rows.now first (next + 1) }
    requires next { next < length rows.now }
    requires within { known ≤ length others.now }
    requires lesser { (i q : ℕ) (x y : PlainCellBox K) → IsRow others.now i x → i < known → IsRow rows.now q y → next ≤ q → K.order x.0 y.0 ≡ Less }
    requires counted { (q : ℕ) (y : PlainCellBox K) → q + 1 ≡ next → IsRow rows.now q y → IsCount K.order others.now y.0 known }
    ensures { (x : PlainCellBox K) → IsRow rows.now next x → IsCount K.order others.now x.0 result }
{
    if first < next {
        return known;
    }
    count_lesser(others, &rows[next], known)
}

// The number of a key of which so many rows and so many others are lesser.
fn both_counts(rows: usize, others: usize) -> Result<usize, Memory>
    ensures { IfOk result (λ n. rows + others ≡ n) }
{
    rows.checked_add(others).ok_or(Memory)
}

// The numbers of the keys of the rows: how many rows and others together are of lesser keys. So keys of either list have
// equal numbers only if they are equal.
fn numbers_of<K: Label>(
    alloc: Global,
    rows: &[CellBox<K>],
    others: &[CellBox<K>],
) -> Result<Vec<usize>, Memory>
    requires order { Ascend K.order rows.now }
    requires other_order { Ascend K.order others.now }
    ensures count { IfOk result (λ v. length v.items ≡ length rows.now) }
    ensures numbers { IfOk result (λ v. HaveNumbers K.order rows.now others.now v.items) }
{
    let mut numbers = Vec::with_capacity(alloc, rows.len())?;
    let mut first = 0;
    let mut known = 0;
    for next in 0..rows.len() {
        first = first_of_key(rows, first, next);
        known = count_for_next(rows, others, first, next, known);
        let own = both_counts(first, known)?;
        numbers.push(own)?;
    }
    Ok(numbers)
}

// The rows with the numbers as their keys.
fn with_numbers<K: Drop>(
    alloc: Global,
    rows: Vec<CellBox<K>>,
    numbers: &[usize],
) -> Result<Vec<CellBox<Number>>, Memory>
    requires { length numbers.now ≡ length rows.items }
    ensures numbers { IfOk result (λ v. map (λ x. x.0) v.items ≡ numbers.now) }
    ensures boxes { IfOk result (λ v. boxes_in v.items ≡ boxes_in rows.items) }
{
    let mut out: Vec<CellBox<Number>> = Vec::with_capacity(alloc, rows.len())?;
    for row in rows {
        let value = numbers[out.len()];
        out.push(CellBox {
            label: Number { value },
            sides: row.sides,
        })?;
    }
    Ok(out)
}

// The rows with the numbers as their keys, and the keys that they had.
fn keys_apart<K: Drop>(
    alloc: Global,
    rows: Vec<CellBox<K>>,
    numbers: &[usize],
) -> Result<(Vec<CellBox<Number>>, Vec<K>), Memory>
    requires { length numbers.now ≡ length rows.items }
    ensures numbers { IfOk result (λ v. map (λ x. x.0) v.0.items ≡ numbers.now) }
    ensures boxes { IfOk result (λ v. boxes_in v.0.items ≡ boxes_in rows.items) }
    ensures keys { IfOk result (λ v. v.1.items ≡ map (λ x. x.0) rows.items) }
{
    let mut out: Vec<CellBox<Number>> = Vec::with_capacity(alloc, rows.len())?;
    let mut keys = Vec::with_capacity(alloc, rows.len())?;
    for row in rows {
        let value = numbers[out.len()];
        keys.push(row.label)?;
        out.push(CellBox {
            label: Number { value },
            sides: row.sides,
        })?;
    }
    Ok((out, keys))
}

// Rows in order with numbers for keys, which rise as the keys do.
pub fn numbered<K: Label>(
    alloc: Global,
    left: Vec<CellBox<K>>,
    right: Vec<CellBox<K>>,
) -> Result<(Vec<CellBox<Number>>, Vec<CellBox<Number>>), Memory>
    requires left { Ascend K.order left.items }
    requires right { Ascend K.order right.items }
    ensures { IfOk result (λ v. AreNumbered left.items right.items v.0.items v.1.items) }
{
    let left_numbers = numbers_of(alloc, left.as_slice(), right.as_slice())?;
    let right_numbers = numbers_of(alloc, right.as_slice(), left.as_slice())?;
    let lefts = with_numbers(alloc, left, left_numbers.as_slice())?;
    let rights = with_numbers(alloc, right, right_numbers.as_slice())?;
    Ok((lefts, rights))
}

// The same, with the keys of the left rows, to which the numbers stand alike: for rows whose key is their label.
pub fn numbered_apart<K: Label>(
    alloc: Global,
    left: Vec<CellBox<K>>,
    right: Vec<CellBox<K>>,
) -> Result<(Vec<CellBox<Number>>, Vec<K>, Vec<CellBox<Number>>), Memory>
    requires left { Ascend K.order left.items }
    requires right { Ascend K.order right.items }
    ensures numbers { IfOk result (λ v. AreNumbered left.items right.items v.0.items v.2.items) }
    ensures keys { IfOk result (λ v. v.1.items ≡ map (λ x. x.0) left.items) }
    ensures alike { IfOk result (λ v. RiseAlike K.order v.0.items v.1.items) }
{
    let left_numbers = numbers_of(alloc, left.as_slice(), right.as_slice())?;
    let right_numbers = numbers_of(alloc, right.as_slice(), left.as_slice())?;
    let (lefts, keys) = keys_apart(alloc, left, left_numbers.as_slice())?;
    let rights = with_numbers(alloc, right, right_numbers.as_slice())?;
    Ok((lefts, keys, rights))
}
