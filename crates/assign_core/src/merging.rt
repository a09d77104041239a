// Room for rows that come, and many rows that come, by one merge.
ghost use Rattle.std.specs.Prelude.{◌≡◌, ◌+◌, ◌<◌, ◌≤◌, ◌∷◌, ◌++◌, List, take, drop, length, true, IfOk, OnErr};
ghost use Rattle.std.specs.List.{All};
ghost use Rattle.std.specs.Vec.{vec_len, vec_capacity};
ghost use Rattle.std.specs.List.Sorted.{IsStrictlySortedBy};
ghost use Rattle.value_core.specs.Values.{Heading, Row as PlainRow, row_cmp};
ghost use Rattle.relation_core.specs.Operators.{united};
ghost use Rattle.assign_core.specs.Exchanges.{HasRoom};

use crate::marking::exchange_each;
use crate::tuning::FEWEST_MERGED_ROWS;
use row_removal::{Cut, are_behind, keep_run, place_behind};
use std::alloc::{AllocError, Global};
use value_core::Row;

/// Makes room among rows for those that come, which ascend as they do: behind them, or, where many come, by as many empty rows in front;
/// and how many these are. For want of memory nothing changes.
pub(crate) fn make_room(
    alloc: Global,
    rows: &mut Vec<Row>,
    come: &[Row],
) -> Result<usize, AllocError>
    requires rows { IsStrictlySortedBy row_cmp rows.old.items }
    requires come { IsStrictlySortedBy row_cmp come.now }
    ensures rows { IfOk result (λ n. drop n rows.new.items ≡ rows.old.items) }
    ensures room { IfOk result (λ n. HasRoom n (vec_len rows.new) (vec_capacity rows.new) (length come.now)) }
    ensures err { OnErr result (rows.new.items ≡ rows.old.items) }
{
    if are_to_be_merged(rows.as_slice(), come) {
        let list = with_room(alloc, come.len(), rows)?;
        *rows = list;
        return Ok(come.len());
    }
    rows.reserve(come.len())?;
    Ok(0)
}

// Whether the rows that come are many, and do not all come behind those that are there. Both ascend.
fn are_to_be_merged(rows: &[Row], come: &[Row]) -> bool
    requires rows { IsStrictlySortedBy row_cmp rows.now }
    requires come { IsStrictlySortedBy row_cmp come.now }
    ensures { result ≡ true → 0 < length come.now }
{
    come.len() >= FEWEST_MERGED_ROWS && !are_behind(rows, come)
}

/// Puts rows, for which there is room, among those behind so many empty ones. All ascend, and are of one heading.
pub(crate) fn put_many(alloc: Global, rows: &mut Vec<Row>, empty: usize, come: Vec<Row>)
    ghost heading: { Heading }
    requires rest { IsStrictlySortedBy row_cmp (drop empty rows.old.items) }
    requires come { IsStrictlySortedBy row_cmp come.items }
    requires long { All (λ (x : PlainRow). length x ≡ length heading) come.items }
    requires room { HasRoom empty (vec_len rows.old) (vec_capacity rows.old) (vec_len come) }
    ensures { rows.new.items ≡ united (drop empty rows.old.items) come.items }
{
    if empty > 0 {
        merge_in(rows, come);
        return;
    }
    if are_behind(rows.as_slice(), come.as_slice()) {
        append(rows, come);
        return;
    }
    exchange_each(alloc, rows, &mut Vec::new(alloc), come, &[]);
}

// Puts rows behind those that come before them. There is room for all.
fn append(rows: &mut Vec<Row>, come: Vec<Row>)
    requires ascending { IsStrictlySortedBy row_cmp (rows.old.items ++ come.items) }
    requires room { vec_len rows.old + vec_len come ≤ vec_capacity rows.old }
    ensures { rows.new.items ≡ united rows.old.items come.items }
{
    let mut more = come;
    match rows.append(&mut more) {
        Ok(()) => (),
        Err(_) => unreachable!(),
    }
}

/// Takes so many rows out in front.
pub(crate) fn cut_front(rows: &mut Vec<Row>, count: usize)
    requires { count ≤ vec_len rows.old }
    ensures { rows.new.items ≡ drop count rows.old.items }
{
    let end = rows.len();
    let kept = keep_run(
        rows,
        Cut {
            kept: 0,
            seen: count,
        },
        end,
    );
    rows.truncate(kept);
}

// The rows behind so many empty ones, whose places others can take. For want of memory nothing changes.
fn with_room(alloc: Global, room: usize, rows: &mut Vec<Row>) -> Result<Vec<Row>, AllocError>
    ensures rows { IfOk result (λ v. drop room v.items ≡ rows.old.items) }
    ensures room { IfOk result (λ v. room ≤ vec_len v) }
    ensures err { OnErr result (rows.new.items ≡ rows.old.items) }
{
    let mut list = empty_rows(alloc, room, rows.len())?;
    list.append(rows)?;
    Ok(list)
}

// So many empty rows, and memory for more.
fn empty_rows(alloc: Global, count: usize, more: usize) -> Result<Vec<Row>, AllocError>
    ensures { IfOk result (λ v. vec_len v ≡ count) }
{
    let mut list = Vec::with_capacity(alloc, count.saturating_add(more))?;
    for _at in 0..count {
        list.push(Row::make(Vec::new(alloc)))?;
    }
    Ok(list)
}

// Puts rows that ascend among those behind as many empty ones, which ascend too. What stands between two places is moved once.
fn merge_in(rows: &mut Vec<Row>, come: Vec<Row>)
    requires room { vec_len come ≤ vec_len rows.old }
    requires rest { IsStrictlySortedBy row_cmp (drop (vec_len come) rows.old.items) }
    requires come { IsStrictlySortedBy row_cmp come.items }
    ensures { rows.new.items ≡ united (drop (vec_len come) rows.old.items) come.items }
{
    let mut cut = Cut {
        kept: 0,
        seen: come.len(),
    };
    for row in come {
        cut = put_next(rows, cut, row);
    }
    let end = rows.len();
    let kept = keep_run(rows, cut, end);
    rows.truncate(kept);
}

// Keeps the rows that come before this one, and then the row, which is put to those that are kept where it isn't among them.
fn put_next(rows: &mut Vec<Row>, cut: Cut, row: Row) -> Cut
    requires kept { cut.kept < cut.seen }
    requires seen { cut.seen ≤ vec_len rows.old }
    requires rest { IsStrictlySortedBy row_cmp (drop cut.seen rows.old.items) }
    ensures len { vec_len rows.new ≡ vec_len rows.old }
    ensures room { result.kept + cut.seen ≤ result.seen + cut.kept + 1 }
    ensures seen { cut.seen ≤ result.seen }
    ensures within { result.seen ≤ vec_len rows.old }
    ensures back { drop result.seen rows.new.items ≡ drop result.seen rows.old.items }
    ensures front { (more : List PlainRow) → IsStrictlySortedBy row_cmp (row ∷ more) → take result.kept rows.new.items ++ united (drop result.seen rows.old.items) more ≡ take cut.kept rows.old.items ++ united (drop cut.seen rows.old.items) (row ∷ more) }
{
    match place_behind(rows.as_slice(), cut.seen, &row) {
        Ok(at) => {
            let kept = keep_run(rows, cut, at + 1);
            drop(row);
            Cut { kept, seen: at + 1 }
        }
        Err(at) => {
            let kept = keep_run(rows, cut, at);
            rows[kept] = row;
            Cut {
                kept: kept + 1,
                seen: at,
            }
        }
    }
}
