// Marks: a table by which most rows whose key is not sought are passed over.
ghost use Rattle.std.specs.Prelude.{◌≡◌, ℕ, true, IfOk};
ghost use Rattle.std.specs.List.{list_all};
ghost use Rattle.u_constraints.specs.Marks.{is_marked, place};

use crate::tuning::{BITS_LEFT_OUT, FEW_SOUGHT, FEWEST_MARKS, MARKS_FOR_ONE, SPREAD};
use point_core::Memory;
use std::alloc::Global;
use value_core::{Row, Value};

/// The hash that goes on with a number.
fn mixed(hash: u64, n: u64) -> u64 {
    hash.wrapping_mul(SPREAD).wrapping_add(n)
}

/// The hash of the bytes, one after the other.
fn bytes_hash(bytes: &[u8]) -> u64 {
    let mut hash = 0;
    for byte in bytes {
        hash = mixed(hash, u64::from(*byte));
    }
    hash
}

/// The hash of a value.
fn value_hash(value: &Value) -> u64 {
    match value {
        Value::Truth(b) => u64::from(*b),
        Value::Char(text) => bytes_hash(text.as_str().as_bytes()),
        Value::Point(p) => p.number().cast_unsigned(),
        Value::Span(i) => mixed(
            i.begin().number().cast_unsigned(),
            i.end().number().cast_unsigned(),
        ),
    }
}

/// The hash of the row's key, its values at the label. Rows of one key have one hash; rows of two keys mostly have two.
pub(crate) fn key_hash(row: &Row, label: &[usize]) -> u64 {
    let values = row.values();
    let mut hash = 0;
    for position in label {
        if let Some(value) = values.get(*position) {
            hash = mixed(hash, value_hash(value));
        }
    }
    hash
}

/// Where a hash has its mark, among so many marks, which are a power of two. Multiples of one number are spread over them too.
#[tactic(auto, unfolding(crate::specs::Marks::place))]
fn place_of(hash: u64, many: usize) -> usize
    ensures { result ≡ place many hash }
{
    (hash.wrapping_mul(SPREAD) >> BITS_LEFT_OUT) as usize & many.saturating_sub(1)
}

/// A table for so many hashes, with no mark.
fn table_for(alloc: Global, many: usize) -> Result<Vec<bool>, Memory> {
    let wanted = FEWEST_MARKS.max(many.saturating_mul(MARKS_FOR_ONE));
    let places = wanted.checked_next_power_of_two().unwrap_or(FEWEST_MARKS);
    let table = vec![in alloc; false; places]?;
    Ok(table)
}

/// Marks the hash.
fn set_mark(marks: &mut Vec<bool>, hash: u64)
    ensures own { is_marked marks.new.items hash ≡ true }
    ensures others { (h : ℕ) → is_marked marks.old.items h ≡ true → is_marked marks.new.items h ≡ true }
{
    let place = place_of(hash, marks.len());
    if place < marks.len() {
        marks[place] = true;
    }
}

/// Marks of the hashes of the rows' keys. Few other hashes have a place with a mark.
pub(crate) fn marks_of(alloc: Global, rows: &[Row], label: &[usize]) -> Result<Vec<bool>, Memory> {
    let mut marks = table_for(alloc, rows.len())?;
    for row in rows {
        set_mark(&mut marks, key_hash(row, label));
    }
    Ok(marks)
}

/// Marks of the hashes. Where these are few there is no table: then each hash has a mark.
pub(crate) fn marks_for(alloc: Global, hashes: &[u64]) -> Result<Vec<bool>, Memory>
    ensures { IfOk result (λ marks. list_all (is_marked marks.items) hashes.now ≡ true) }
{
    if hashes.len() <= FEW_SOUGHT {
        return Ok(Vec::new(alloc));
    }
    let mut marks = table_for(alloc, hashes.len())?;
    for hash in hashes {
        set_mark(&mut marks, *hash);
    }
    Ok(marks)
}

/// Whether the hash may be one of those that the marks are for.
pub(crate) fn is_marked(marks: &[bool], hash: u64) -> bool
    ensures { result ≡ is_marked marks.now hash }
{
    let place = place_of(hash, marks.len());
    place >= marks.len() || marks[place]
}
