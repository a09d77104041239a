// Rows that go from a relation.
ghost use Rattle.std.specs.Prelude.{◌≡◌, ◌<◌, ◌≤◌, ◌+◌, [], ◌∷◌, ◌++◌, take, drop, false, length, true, slice_index_or, slice_range, if◌then◌else◌};
ghost use Rattle.std.specs.List.{AllWithin};
ghost use Rattle.std.specs.List.Sorted.{IsStrictlySortedBy};
ghost use Rattle.std.specs.Vec.{vec_len};
ghost use Rattle.std.specs.declared.cmp.Ordering.TheVariants.{Less};
ghost use Rattle.std.specs.Ordering.{is_lt};
ghost use Rattle.base_core.specs.Sets.{has};
ghost use Rattle.value_core.specs.Values.{Row as PlainRow, row_cmp};
ghost use Rattle.relation_core.specs.Operators.{subtracted};
ghost use Rattle.row_removal.specs.Removals.{IsPlaceBehind, IsRestBehind};

use point_core::Label;
use std::alloc::Global;
use value_core::{Relation, Row};

/// Takes the rows of another relation out of a relation's own, in place. It takes no memory.
pub fn remove(value: &mut Relation, alloc: Global, gone: &Relation)
    ensures { value.new ≡ record { heading = value.old.heading; rows = subtracted value.old.rows gone.now.rows } }
{
    let mut rows = value.take_rows(alloc);
    take_out(&mut rows, gone.rows());
    value.set_rows(rows);
}

/// Takes the rows out of those that ascend, as they do themselves. Where both lie apart nothing is looked at; else the fewer ones
/// are sought among the more.
pub fn take_out(rows: &mut Vec<Row>, gone: &[Row])
    requires rows { IsStrictlySortedBy row_cmp rows.old.items }
    requires gone { IsStrictlySortedBy row_cmp gone.now }
    ensures { rows.new.items ≡ subtracted rows.old.items gone.now }
{
    if lie_apart(rows.as_slice(), gone) {
        return;
    }
    if gone.len() < rows.len() {
        cut_out(rows, gone);
    } else {
        leave_out(rows, gone);
    }
}

// Whether all of the rows come before the others, or all behind them, so that none is among these. Both ascend.
fn lie_apart(rows: &[Row], others: &[Row]) -> bool
    requires rows { IsStrictlySortedBy row_cmp rows.now }
    requires others { IsStrictlySortedBy row_cmp others.now }
    ensures { result ≡ true → rows.now ≡ subtracted rows.now others.now }
{
    are_behind(others, rows) || are_behind(rows, others)
}

/// Whether all rows of the second list come behind those of the first one. Both ascend, so only one pair of rows is compared.
pub fn are_behind(rows: &[Row], more: &[Row]) -> bool
    requires rows { IsStrictlySortedBy row_cmp rows.now }
    requires more { IsStrictlySortedBy row_cmp more.now }
    ensures { result ≡ true → IsStrictlySortedBy row_cmp (rows.now ++ more.now) }
{
    let Some((last, _)) = rows.split_last() else {
        return true;
    };
    let Some((first, _)) = more.split_first() else {
        return true;
    };
    last.cmp(first).is_lt()
}

// Takes the rows out of those that ascend, as they do themselves, by one pass over both. Those that stay are moved once.
fn leave_out(rows: &mut Vec<Row>, gone: &[Row])
    requires rows { IsStrictlySortedBy row_cmp rows.old.items }
    requires gone { IsStrictlySortedBy row_cmp gone.now }
    ensures { rows.new.items ≡ subtracted rows.old.items gone.now }
{
    let mut rest = gone;
    let mut kept = 0;
    for at in 0..rows.len() {
        let (found, behind) = seek(rest, &rows[at]);
        rest = behind;
        kept = keep_unless(rows, kept, at, found);
    }
    rows.truncate(kept);
}

// Moves the row at a place down to those that are kept, unless it goes; and how many are kept now.
fn keep_unless(rows: &mut Vec<Row>, kept: usize, at: usize, goes: bool) -> usize
    requires kept { kept ≤ at }
    requires at { at < vec_len rows.old }
    ensures len { vec_len rows.new ≡ vec_len rows.old }
    ensures kept { result ≤ at + 1 }
    ensures front { (x : PlainRow) → x ≡ slice_index_or rows.old.items at x → take result rows.new.items ≡ (if goes then take kept rows.old.items else take kept rows.old.items ++ x ∷ []) }
    ensures back { drop (at + 1) rows.new.items ≡ drop (at + 1) rows.old.items }
{
    if goes {
        return kept;
    }
    rows.swap(kept, at);
    kept + 1
}

// Whether the row is among those that ascend, and those of them that stand behind it. The place is sought near the first ones, so that
// rows that are sought one after the other come past them once.
fn seek<'a>(rows: &'a [Row], row: &Row) -> (bool, &'a [Row])
    requires { IsStrictlySortedBy row_cmp rows.now }
    ensures found { result.0 ≡ has row_cmp rows.now row.now }
    ensures rest { IsRestBehind row.now rows.now result.1.now }
    ensures sorted { IsStrictlySortedBy row_cmp result.1.now }
{
    let (near, _) = rows.split_at(near_end(rows, row));
    match near.binary_search(row) {
        Ok(at) => (true, rows.split_at(at).1),
        Err(at) => (false, rows.split_at(at).1),
    }
}

// A number of rows, of those that ascend, behind which all are greater than the row. It is doubled until they are.
fn near_end(rows: &[Row], row: &Row) -> usize
    requires { IsStrictlySortedBy row_cmp rows.now }
    ensures within { result ≤ length rows.now }
    ensures behind { AllWithin (λ z. row_cmp row.now z ≡ Less) rows.now result (length rows.now) }
{
    let mut end = rows.len().min(1);
    while end < rows.len() && rows[end - 1].cmp(row).is_lt() {
        end = rows.len().min(end.saturating_mul(2));
    }
    end
}

/// How far a cut or a merge has come: so many rows are kept in front, and so many are looked at.
#[derive(Clone, Copy)]
pub struct Cut {
    /// So many rows are kept in front.
    pub kept: usize,
    /// So many rows are looked at.
    pub seen: usize,
}

// Takes the rows out of those that ascend, as they do themselves: each is sought behind the one before. Those that stay are moved once.
fn cut_out(rows: &mut Vec<Row>, gone: &[Row])
    requires rows { IsStrictlySortedBy row_cmp rows.old.items }
    requires gone { IsStrictlySortedBy row_cmp gone.now }
    ensures { rows.new.items ≡ subtracted rows.old.items gone.now }
{
    let mut cut = Cut { kept: 0, seen: 0 };
    for row in gone {
        cut = cut_one(rows, cut, row);
    }
    let end = rows.len();
    let kept = keep_run(rows, cut, end);
    rows.truncate(kept);
}

// Looks at the rows as far as to the row, which goes where it is among them. Those that come before it are kept.
fn cut_one(rows: &mut Vec<Row>, cut: Cut, row: &Row) -> Cut
    requires kept { cut.kept ≤ cut.seen }
    requires seen { cut.seen ≤ vec_len rows.old }
    requires rest { IsStrictlySortedBy row_cmp (drop cut.seen rows.old.items) }
    ensures len { vec_len rows.new ≡ vec_len rows.old }
    ensures kept { result.kept ≤ result.seen }
    ensures seen { cut.seen ≤ result.seen }
    ensures within { result.seen ≤ vec_len rows.old }
    ensures front { take result.kept rows.new.items ≡ take cut.kept rows.old.items ++ subtracted (slice_range rows.old.items cut.seen result.seen) (row.now ∷ []) }
    ensures back { drop result.seen rows.new.items ≡ drop result.seen rows.old.items }
    ensures before { AllWithin (λ z. is_lt (row_cmp row.now z) ≡ false) rows.old.items cut.seen result.seen }
    ensures behind { AllWithin (λ z. row_cmp row.now z ≡ Less) rows.old.items result.seen (vec_len rows.old) }
{
    match place_behind(rows.as_slice(), cut.seen, row) {
        Ok(at) => {
            let kept = keep_run(rows, cut, at);
            Cut { kept, seen: at + 1 }
        }
        Err(at) => {
            let kept = keep_run(rows, cut, at);
            Cut { kept, seen: at }
        }
    }
}

/// Moves the rows that are not looked at yet, as far as to a place, down to those that are kept; and how many are kept now.
pub fn keep_run(rows: &mut Vec<Row>, cut: Cut, end: usize) -> usize
    requires kept { cut.kept ≤ cut.seen }
    requires seen { cut.seen ≤ end }
    requires end { end ≤ vec_len rows.old }
    ensures len { vec_len rows.new ≡ vec_len rows.old }
    ensures kept { result ≤ end }
    ensures front { take result rows.new.items ≡ take cut.kept rows.old.items ++ slice_range rows.old.items cut.seen end }
    ensures back { drop end rows.new.items ≡ drop end rows.old.items }
{
    let Cut { mut kept, seen } = cut;
    if kept == seen {
        return end;
    }
    for at in seen..end {
        kept = keep_unless(rows, kept, at, false);
    }
    kept
}

/// The place of the row among those behind a place, which ascend, or the one where it would stand. It is sought near the first of them.
pub fn place_behind(rows: &[Row], seen: usize, row: &Row) -> Result<usize, usize>
    requires seen { seen ≤ length rows.now }
    requires rest { IsStrictlySortedBy row_cmp (drop seen rows.now) }
    ensures { IsPlaceBehind rows.now seen row.now result }
{
    let (_, rest) = rows.split_at(seen);
    let (near, _) = rest.split_at(near_end(rest, row));
    match near.binary_search(row) {
        Ok(at) => Ok(seen + at),
        Err(at) => Err(seen + at),
    }
}
