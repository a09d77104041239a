// Whether left rows are to be made fewer before an operator by keys meets them.
ghost use Rattle.std.specs.Prelude.{◌≡◌, length, IfOk};
ghost use Rattle.std.specs.List.{All};
ghost use Rattle.value_core.specs.Values.{row_cmp};
ghost use Rattle.u_set.specs.Fewer.{IsSameOrPacked};

use crate::tuning::{FEW_RIGHTS, FEWEST_TRIED, MANY_LABELS, TRIED_ROWS};
use cell_sweep::CellBox;
use point_core::{Label, Memory};
use std::alloc::Global;
use std::cmp::Ordering;
use u_set::{part_of_label, prepacked};
use value_core::Row;

// The cells on the first side.
fn first_cells(row: &CellBox<Row>) -> (usize, usize) {
    match row.sides.first() {
        Some(cells) => *cells,
        None => (0, 0),
    }
}

// Whether the row is of a lesser label, or begins before the cell under the same one.
fn comes_before(row: &CellBox<Row>, label: &Row, cell: usize) -> bool {
    match row.label.compare(label) {
        Ordering::Less => true,
        Ordering::Equal => first_cells(row).0 < cell,
        Ordering::Greater => false,
    }
}

// How many of the rows, which stand by their labels and cells, begin in the cells under the label.
fn count_begins(rows: &[CellBox<Row>], label: &Row, cells: (usize, usize)) -> usize {
    let first = rows.partition_point(|row| comes_before(row, label, cells.0));
    let end = rows.partition_point(|row| comes_before(row, label, cells.1));
    end.saturating_sub(first)
}

// The next of a row of pseudo-random numbers.
fn next(seed: u64) -> u64 {
    seed.wrapping_mul(6364136223846793005)
        .wrapping_add(1442695040888963407)
}

// The places of the rows that are tried, of so many.
fn tried(alloc: Global, count: usize) -> Result<Vec<usize>, Memory> {
    let mut places = Vec::with_capacity(alloc, TRIED_ROWS)?;
    let mut seed = 1;
    for _turn in 0..TRIED_ROWS {
        seed = next(seed);
        places.push((seed >> 33) as usize % count.max(1))?;
    }
    Ok(places)
}

// Whether the rows at the places have many different labels. Where they have few, rows of one label are made fewer by far.
fn have_many_labels(
    alloc: Global,
    rows: &[CellBox<Row>],
    places: &[usize],
) -> Result<bool, Memory> {
    let mut labels = Vec::with_capacity(alloc, places.len())?;
    for place in places {
        if *place < rows.len() {
            let row = &rows[*place];
            labels.push(row.label.copy(alloc)?)?;
        }
    }
    labels.sort()?;
    labels.dedup();
    Ok(labels.len() >= MANY_LABELS)
}

// Whether few of the rights begin within the lefts at the places, each under the part of its label.
fn meet_few(
    alloc: Global,
    lefts: &[CellBox<Row>],
    places: &[usize],
    positions: &[usize],
    rights: &[CellBox<Row>],
) -> Result<bool, Memory> {
    let mut found = 0usize;
    for place in places {
        if *place < lefts.len() {
            let row = &lefts[*place];
            let key = part_of_label(alloc, &row.label, positions)?;
            let own = count_begins(rights, &key, first_cells(row));
            found = found.saturating_add(own);
        }
    }
    Ok(found <= TRIED_ROWS * FEW_RIGHTS)
}

// Whether the left rows seem to have many labels and to meet few rights.
fn seem_few(
    alloc: Global,
    lefts: &[CellBox<Row>],
    positions: &[usize],
    rights: &[CellBox<Row>],
) -> Result<bool, Memory> {
    let places = tried(alloc, lefts.len())?;
    let many = have_many_labels(alloc, lefts, places.as_slice())?;
    if !many {
        return Ok(false);
    }
    meet_few(alloc, lefts, places.as_slice(), positions, rights)
}

/// The left rows made fewer where that can be and seems to be worth it: not where they have many labels and few rights begin within
/// a left row, since its pairs are few then, whatever other lefts of its label overlap it. The rights stand under the keys, by these
/// and by their cells. Either way the lefts have the same labels at each place; only speed hangs on which it is.
pub(crate) fn fewer_where_many(
    alloc: Global,
    sides: usize,
    lefts: Vec<CellBox<Row>>,
    positions: &[usize],
    rights: &[CellBox<Row>],
) -> Result<Vec<CellBox<Row>>, Memory>
    requires sides { All (λ x. length x.1 ≡ sides) lefts.items }
    ensures rows { IfOk result (λ v. IsSameOrPacked row_cmp sides lefts.items v.items) }
    ensures sides { IfOk result (λ v. All (λ x. length x.1 ≡ sides) v.items) }
{
    if sides == 1 && lefts.len() >= FEWEST_TRIED {
        let few = seem_few(alloc, lefts.as_slice(), positions, rights)?;
        if few {
            return Ok(lefts);
        }
    }
    let packed = prepacked(alloc, sides, lefts)?;
    Ok(packed)
}
