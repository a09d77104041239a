// Rows of one label whose intervals overlap or follow one another, joined: PACK on one attribute without boxes.
ghost use Rattle.std.specs.Prelude.{◌≡◌, ◌<◌, ◌∷◌, [], ◌++◌, true, map, length, set, Some, IfOk, IfSome, OnOk, IsTrue, IsPermutation, MatchResult};
ghost use Rattle.std.specs.List.{All};
ghost use Rattle.point_core.specs.Points.{number, IsPointOf};
ghost use Rattle.interval_core.specs.Operators.{union as union_of};
ghost use Rattle.value_core.specs.Attributes.{span_of};
ghost use Rattle.value_core.specs.Plain.{plain};
ghost use Rattle.value_core.specs.Relations.{all_fit};
ghost use Rattle.value_core.specs.Values.{fits, fits_heading, row_cmp, rows_of};
ghost use Rattle.value_core.specs.declared.kind.Kind.TheVariants as kind;
ghost use Rattle.relation_core.specs.Agreement.{part_of};
ghost use Rattle.relation_core.specs.Answers.{IsAnswer, IsRefusal};
ghost use Rattle.relation_core.specs.Parts.{kind_at};
ghost use Rattle.cell_packing.specs.Boxed.{packed_boxes};
ghost use Rattle.u_set.specs.Apart.{span_in, HasInterval, AreBeyond, outside};
ghost use Rattle.cell_core.specs.Boxes.{IsBox};
ghost use Rattle.cell_core.specs.Cells.{row_numbers};
ghost use Rattle.u_set.specs.Boxes.{AreIntervals, types_at, others, boxed, unboxed};
ghost use Rattle.u_set.specs.Coalescing.{AreJoined, IsFormByLabel};
ghost use Rattle.u_set.specs.declared.apart.Gap.TheVariants.{One};

use crate::apart::{Gap, compare_at, is_beyond};
use crate::in_time::stand_in_time;
use crate::intervals::{interval_of, value_of};
use crate::kept::outside;
use crate::positions::type_of;
use crate::rows::to_rows;
use cell_core::BoxRow;
use point_core::{AnyType, Label, Memory};
use presort::{Numbers, Places, SortKeys, arrange, unsigned};
use std::alloc::Global;
use std::cmp::Ordering;
use value_core::{Heading, Kind, Name, Relation, Row, RowsRefuse, Value};

/// Adds copies of the rows.
pub(crate) fn push_copies(alloc: Global, list: &mut Vec<Row>, rows: &[Row]) -> Result<(), Memory>
    ensures { OnOk result (list.new.items ≡ list.old.items ++ rows.now) }
{
    for row in rows {
        let own = row.copy(alloc)?;
        list.push(own)?;
    }
    Ok(())
}

// ---- the order in which rows are joined

// Fewer rows than these are left to the sort.
const FEWEST_BY_INTERVAL: usize = 512;

// The turn of each row where the rows of one label need no number.
const AS_THEY_COME: i64 = i64::MIN;

// A row with the positions of its label, and the number by which rows of one label are ordered.
#[derive(Drop)]
struct RowByLabel<'a> {
    row: Row,
    label: &'a [usize],
    turn: i64,
}

impl<'a> Numbers for RowByLabel<'a> {
    fn put_numbers(&self, lines: &mut SortKeys) {
        let values = self.row.values();
        for position in self.label {
            if *position < values.len() {
                values[*position].put_numbers(lines);
            }
        }
        if self.turn != AS_THEY_COME {
            lines.put(unsigned(self.turn));
        }
    }
}

// The number at which the row's interval begins; 0 where it has none.
fn begin_of(row: &Row, at: usize) -> i64 {
    let values = row.values();
    if at < values.len() {
        if let Value::Span(i) = &values[at] {
            return i.begin().number();
        }
    }
    0
}

// The number at which it ends; 0 where the row has none.
fn end_of(row: &Row, at: usize) -> i64 {
    let values = row.values();
    if at < values.len() {
        if let Value::Span(i) = &values[at] {
            return i.end().number();
        }
    }
    0
}

// By the values at the label's positions, and then in turn.
fn compare_by_label(x: &RowByLabel, y: &RowByLabel) -> Ordering {
    compare_at(&x.row, &y.row, x.label).then(x.turn.cmp(&y.turn))
}

// Whether no interval begins before that of the row before it.
fn begins_ascend(rows: &[Row], at: usize) -> bool {
    let mut last = i64::MIN;
    for row in rows {
        let begin = begin_of(row, at);
        if begin < last {
            return false;
        }
        last = begin;
    }
    true
}

// The rows, with the begins of their intervals to order them by; rows that stand in that order already stay so, and need no number.
fn with_turns<'a>(
    alloc: Global,
    rows: Vec<Row>,
    label: &'a [usize],
    at: usize,
) -> Result<Vec<RowByLabel<'a>>, Memory>
    ensures { IfOk result (λ v. map (λ r. r.row) v.items ≡ rows.items) }
{
    let ascend = begins_ascend(rows.as_slice(), at);
    let mut list = Vec::with_capacity(alloc, rows.len())?;
    for row in rows {
        let turn = if ascend {
            AS_THEY_COME
        } else {
            begin_of(&row, at)
        };
        list.push(RowByLabel { row, label, turn })?;
    }
    Ok(list)
}

// The rows by their values at the label's positions, and those of one label by the begins of their intervals.
fn by_label<'a>(
    alloc: Global,
    rows: Vec<Row>,
    label: &'a [usize],
    at: usize,
) -> Result<Vec<RowByLabel<'a>>, Memory>
    ensures { IfOk result (λ v. IsPermutation rows.items (map (λ r. r.row) v.items)) }
{
    let mut list = with_turns(alloc, rows, label, at)?;
    arrange(alloc, &mut list)?;
    list.sort_by(|x: &RowByLabel, y: &RowByLabel| compare_by_label(x, y))?;
    Ok(list)
}

// Whether y has later values than x at the label's positions, or the same and begins no earlier.
fn comes_by_label(x: &Row, y: &Row, label: &[usize], at: usize) -> bool {
    match compare_at(x, y, label) {
        Ordering::Less => true,
        Ordering::Equal => begin_of(x, at) <= begin_of(y, at),
        Ordering::Greater => false,
    }
}

// Whether the rows stand in this order already.
fn stand_by_label(rows: &[Row], label: &[usize], at: usize) -> bool {
    for i in 1..rows.len() {
        if !comes_by_label(&rows[i - 1], &rows[i], label, at) {
            return false;
        }
    }
    true
}

// ---- two rows as one

// The interval of the points of either, if these are those of one.
fn union_of(t: AnyType, x: &Value, y: &Value) -> Option<Value>
    requires x { IsTrue (fits (kind.Span t) (plain x.now)) }
    requires y { IsTrue (fits (kind.Span t) (plain y.now)) }
    ensures fits { IfSome result (λ v. IsTrue (fits (kind.Span t) (plain v))) }
    ensures points { IfSome result (λ v. union_of (span_of (plain x.now)) (span_of (plain y.now)) ≡ Some (span_of (plain v))) }
{
    let points = interval_of(x).union(&t, &interval_of(y))?;
    Some(value_of(t, &points))
}

// The interval of the points that either row has at the position, if these are those of one interval, and both have the same values at
// the label's positions.
fn joining(x: &Row, y: &Row, heading: &[(Name, Kind)], label: &[usize], at: usize) -> Option<Value>
    requires interval { AreIntervals heading.now (at ∷ []) }
    requires x { IsTrue (fits_heading heading.now x.now) }
    requires y { IsTrue (fits_heading heading.now y.now) }
    ensures labels { IfSome result (λ v. part_of label.now x.now ≡ part_of label.now y.now) }
    ensures fits { IfSome result (λ v. IsTrue (fits (kind_at heading.now at) (plain v))) }
    ensures points { IfSome result (λ v. union_of (span_in at x.now) (span_in at y.now) ≡ Some (span_of (plain v))) }
{
    if !compare_at(x, y, label).is_eq() {
        return None;
    }
    let (left, right) = (x.values(), y.values());
    union_of(type_of(heading[at].1), &left[at], &right[at])
}

// The row with another value at the position.
fn with_value(row: Row, at: usize, value: Value) -> Row
    requires { at < length row }
    ensures { result ≡ set row at (plain value) }
{
    let mut values = row.into_values();
    values[at] = value;
    Row::make(values)
}

// Adds the row, or joins it to the last one.
fn add(
    list: &mut Vec<Row>,
    row: Row,
    heading: &[(Name, Kind)],
    label: &[usize],
    at: usize,
) -> Result<(), Memory>
    requires interval { AreIntervals heading.now (at ∷ []) }
    requires label { label.now ≡ outside (at ∷ []) heading.now }
    requires list { IsTrue (all_fit heading.now list.old.items) }
    requires row { IsTrue (fits_heading heading.now row) }
    ensures { OnOk result (AreJoined heading.now at (list.old.items ++ row ∷ []) list.new.items) }
{
    match list.pop() {
        Some(last) => match joining(&last, &row, heading, label, at) {
            Some(value) => list.push(with_value(last, at, value))?,
            None => {
                list.push(last)?;
                list.push(row)?;
            }
        },
        None => list.push(row)?,
    }
    Ok(())
}

// The rows, each joined to the one before it where they have the same values at the label's positions and the points of their intervals
// are those of one.
fn joined(
    alloc: Global,
    rows: Vec<Row>,
    heading: &[(Name, Kind)],
    label: &[usize],
    at: usize,
) -> Result<Vec<Row>, Memory>
    requires interval { AreIntervals heading.now (at ∷ []) }
    requires label { label.now ≡ outside (at ∷ []) heading.now }
    requires fit { IsTrue (all_fit heading.now rows.items) }
    ensures { IfOk result (λ v. AreJoined heading.now at rows.items v.items) }
{
    let mut list = Vec::with_capacity(alloc, rows.len())?;
    for row in rows {
        add(&mut list, row, heading, label, at)?;
    }
    Ok(list)
}

// The rows in the order of their labels, joined so.
fn joined_in_turn(
    alloc: Global,
    rows: Vec<RowByLabel>,
    heading: &[(Name, Kind)],
    label: &[usize],
    at: usize,
) -> Result<Vec<Row>, Memory>
    requires interval { AreIntervals heading.now (at ∷ []) }
    requires label { label.now ≡ outside (at ∷ []) heading.now }
    requires fit { All (λ r. IsTrue (fits_heading heading.now r.row)) rows.items }
    ensures { IfOk result (λ v. AreJoined heading.now at (map (λ r. r.row) rows.entry.items) v.items) }
{
    let mut list = Vec::with_capacity(alloc, rows.len())?;
    for own in rows {
        add(&mut list, own.row, heading, label, at)?;
    }
    Ok(list)
}

// The rows, joined in the order of their labels. Those that stand in it already are not sorted.
fn joined_by_label(
    alloc: Global,
    rows: Vec<Row>,
    heading: &[(Name, Kind)],
    label: &[usize],
    at: usize,
) -> Result<Vec<Row>, Memory>
    requires interval { AreIntervals heading.now (at ∷ []) }
    requires label { label.now ≡ outside (at ∷ []) heading.now }
    requires fit { IsTrue (all_fit heading.now rows.items) }
    ensures { IfOk result (λ v. AreJoined heading.now at rows.items v.items) }
{
    if stand_by_label(rows.as_slice(), label, at) {
        return joined(alloc, rows, heading, label, at);
    }
    let list = by_label(alloc, rows, label, at)?;
    joined_in_turn(alloc, list, heading, label, at)
}

// ---- rows that come in order of time

// Whether y begins after the end of x, or no earlier than x does where both have the same values at the label's positions.
fn begins_after(x: &Row, y: &Row, label: &[usize], at: usize) -> bool {
    let begin = begin_of(y, at);
    end_of(x, at) < begin || begin_of(x, at) <= begin && compare_at(x, y, label).is_eq()
}

// Whether y has a later key than x, or the same and begins after it so.
fn comes_after(x: &Row, y: &Row, key: &[usize], label: &[usize], at: usize) -> bool {
    match compare_at(x, y, key) {
        Ordering::Less => true,
        Ordering::Equal => begins_after(x, y, label, at),
        Ordering::Greater => false,
    }
}

// Whether each row but the first has a later key than the one before it, or the same and comes after it. Once rows that meet are joined,
// such rows mostly stand in order of keys and of time.
fn come_in_time(rows: &[Row], key: &[usize], label: &[usize], at: usize) -> bool {
    for i in 1..rows.len() {
        if !comes_after(&rows[i - 1], &rows[i], key, label, at) {
            return false;
        }
    }
    true
}

// The rows, joined as they come where they come in order of keys and of time. Others stay as they are, for a single look at the first that do not.
fn joined_in_time(
    alloc: Global,
    rows: Vec<Row>,
    heading: &[(Name, Kind)],
    key: &[usize],
    label: &[usize],
    at: usize,
) -> Result<Vec<Row>, Memory>
    requires interval { AreIntervals heading.now (at ∷ []) }
    requires label { label.now ≡ outside (at ∷ []) heading.now }
    requires fit { IsTrue (all_fit heading.now rows.items) }
    ensures { IfOk result (λ v. AreJoined heading.now at rows.items v.items) }
{
    if !come_in_time(rows.as_slice(), key, label, at) {
        return Ok(rows);
    }
    joined(alloc, rows, heading, label, at)
}

// ---- the packed rows

// Whether each row but the first is beyond the one before it.
fn stand_apart(rows: &[Row], label: &[usize], at: usize) -> bool
    requires { All (HasInterval at) rows.now }
    ensures { result ≡ true → AreBeyond label.now at One rows.now }
{
    for i in 1..rows.len() {
        if !is_beyond(&rows[i - 1], &rows[i], label, at, Gap::One) {
            return false;
        }
    }
    true
}

// The rows, packed on the attribute at the position by the order of their labels.
fn packed_by_label(
    alloc: Global,
    rows: Vec<Row>,
    heading: &[(Name, Kind)],
    label: &[usize],
    at: usize,
) -> Result<Option<Vec<Row>>, Memory>
    requires interval { AreIntervals heading.now (at ∷ []) }
    requires label { label.now ≡ outside (at ∷ []) heading.now }
    requires fit { IsTrue (all_fit heading.now rows.items) }
    ensures { IfOk result (λ o. IfSome o (λ v. IsFormByLabel heading.now at rows.items v.items)) }
{
    let joined = joined_by_label(alloc, rows, heading, label, at)?;
    if stand_apart(joined.as_slice(), label, at) {
        return Ok(Some(joined));
    }
    Ok(None)
}

/// The rows, packed on the attribute at the position, in the order of their other values and then of their intervals. So two lists of
/// rows are packed to one list where they are packed to the same rows.
///
/// There is none where `coalesced` has none.
pub(crate) fn form_by_label(
    alloc: Global,
    heading: &[(Name, Kind)],
    at: usize,
    rows: Vec<Row>,
) -> Result<Option<Vec<Row>>, Memory>
    requires interval { AreIntervals heading.now (at ∷ []) }
    requires fit { IsTrue (all_fit heading.now rows.items) }
    ensures { IfOk result (λ o. IfSome o (λ v. IsFormByLabel heading.now at rows.items v.items)) }
{
    let label = outside(alloc, heading, &[at])?;
    packed_by_label(alloc, rows, heading, label.as_slice(), at)
}

// The begins of the rows' intervals and their ends, as numbers to order them by.
fn end_columns(alloc: Global, rows: &[Row], at: usize) -> Result<(Vec<u64>, Vec<u64>), Memory> {
    let mut begins = Vec::with_capacity(alloc, rows.len())?;
    let mut ends = Vec::with_capacity(alloc, rows.len())?;
    for row in rows {
        begins.push(unsigned(begin_of(row, at)))?;
        ends.push(unsigned(end_of(row, at)))?;
    }
    Ok((begins, ends))
}

// The rows by their intervals, and those of one interval as they come. So rows that stand by their labels come in the printing order
// where the interval comes first in it; else they stay as they are.
fn by_interval(alloc: Global, rows: Vec<Row>, at: usize) -> Result<Vec<Row>, Memory>
    ensures { IfOk result (λ v. IsPermutation rows.items v.items) }
{
    if at > 0 || rows.len() < FEWEST_BY_INTERVAL {
        return Ok(rows);
    }
    let (begins, ends) = end_columns(alloc, rows.as_slice(), at)?;
    let mut places = Places::new(alloc, rows.len())?;
    places.refine(alloc, ends.as_slice())?;
    places.refine(alloc, begins.as_slice())?;
    let mut list = rows;
    places.put(&mut list);
    Ok(list)
}

// The rows, packed on the attribute at the position. Those that stand apart in order of time, be it key by key, stay as they are, and
// those that do once they are joined as they come are not sorted.
fn joined_rows(
    alloc: Global,
    heading: &[(Name, Kind)],
    at: usize,
    key: &[usize],
    rows: Vec<Row>,
) -> Result<Option<Vec<Row>>, Memory>
    requires interval { AreIntervals heading.now (at ∷ []) }
    requires fit { IsTrue (all_fit heading.now rows.items) }
    ensures fit { IfOk result (λ o. IfSome o (λ v. IsTrue (all_fit heading.now v.items))) }
    ensures rows { IfOk result (λ o. IfSome o (λ v.
        rows_of (map (unboxed heading.now (at ∷ [])) (packed_boxes row_cmp 1 (map (boxed (at ∷ [])) rows.items))) ≡ rows_of v.items)) }
{
    let label = outside(alloc, heading, &[at])?;
    if stand_in_time(rows.as_slice(), key, label.as_slice(), at) {
        return Ok(Some(rows));
    }
    let near = joined_in_time(alloc, rows, heading, key, label.as_slice(), at)?;
    if stand_in_time(near.as_slice(), key, label.as_slice(), at) {
        return Ok(Some(near));
    }
    let Some(packed) = packed_by_label(alloc, near, heading, label.as_slice(), at)? else {
        return Ok(None);
    };
    let list = by_interval(alloc, packed, at)?;
    Ok(Some(list))
}

// The rows, by their intervals where a key tells that they stand key by key.
fn in_printing_order(
    alloc: Global,
    rows: Vec<Row>,
    key: &[usize],
    at: usize,
) -> Result<Vec<Row>, Memory>
    ensures { IfOk result (λ v. IsPermutation rows.items v.items) }
{
    if key.is_empty() {
        return Ok(rows);
    }
    by_interval(alloc, rows, at)
}

// The rows, packed on the attribute at the position, near the printing order.
fn packed_rows(
    alloc: Global,
    heading: &[(Name, Kind)],
    at: usize,
    key: &[usize],
    rows: Vec<Row>,
) -> Result<Option<Vec<Row>>, Memory>
    requires interval { AreIntervals heading.now (at ∷ []) }
    requires fit { IsTrue (all_fit heading.now rows.items) }
    ensures fit { IfOk result (λ o. IfSome o (λ v. IsTrue (all_fit heading.now v.items))) }
    ensures rows { IfOk result (λ o. IfSome o (λ v.
        rows_of (map (unboxed heading.now (at ∷ [])) (packed_boxes row_cmp 1 (map (boxed (at ∷ [])) rows.items))) ≡ rows_of v.items)) }
{
    let Some(packed) = joined_rows(alloc, heading, at, key, rows)? else {
        return Ok(None);
    };
    let list = in_printing_order(alloc, packed, key, at)?;
    Ok(Some(list))
}

// The relation of the rows, packed on the attribute at the position.
fn coalesced_by(
    alloc: Global,
    heading: Heading,
    at: usize,
    key: &[usize],
    rows: Vec<Row>,
) -> Result<Option<Relation>, RowsRefuse>
    requires interval { AreIntervals heading (at ∷ []) }
    requires fit { IsTrue (all_fit heading rows.items) }
    ensures answer { let packed = rows_of (map (unboxed heading (at ∷ [])) (packed_boxes row_cmp 1 (map (boxed (at ∷ [])) rows.items))) in
        MatchResult result (λ o. IfSome o (IsAnswer heading packed)) (IsRefusal packed) }
{
    match packed_rows(alloc, heading.attributes(), at, key, rows)? {
        Some(packed) => {
            let relation = Relation::of_fitting(heading, packed)?;
            Ok(Some(relation))
        }
        None => Ok(None),
    }
}

/// The relation of the rows, packed on the attribute at the position: rows with the same values elsewhere whose intervals there overlap
/// or follow one another become one. The rows may stand in any order, and the same row more than once.
///
/// It is `Ok(None)` where the joined rows are not seen to stand apart. They are where the sort inside has brought the rows in order,
/// which no contract relies on.
pub fn coalesced(
    alloc: Global,
    heading: Heading,
    at: usize,
    rows: Vec<Row>,
) -> Result<Option<Relation>, RowsRefuse>
    requires interval { AreIntervals heading (at ∷ []) }
    requires fit { IsTrue (all_fit heading rows.items) }
    ensures answer { let packed = rows_of (map (unboxed heading (at ∷ [])) (packed_boxes row_cmp 1 (map (boxed (at ∷ [])) rows.items))) in
        MatchResult result (λ o. IfSome o (IsAnswer heading packed)) (IsRefusal packed) }
{
    coalesced_by(alloc, heading, at, &[], rows)
}

/// The relation of the rows of boxes with one side, packed on the attribute at the position, of which the sides are the intervals. The
/// boxes may stand in any order, and the same box more than once. Where their rows stand by their values at the positions of the key,
/// and those of one key in order of time, none is sorted.
///
/// It is `Ok(None)` where `coalesced` is.
pub fn coalesced_boxes(
    alloc: Global,
    heading: Heading,
    at: usize,
    key: &[usize],
    boxes: Vec<BoxRow<AnyType, Row>>,
) -> Result<Option<Relation>, RowsRefuse>
    requires intervals { AreIntervals heading (at ∷ []) }
    requires sides { All (λ b. IsBox IsPointOf (types_at heading (at ∷ [])) b.1) boxes.items }
    requires labels { All (λ b. IsTrue (fits_heading (others (at ∷ []) heading) b.0)) boxes.items }
    ensures { let rows = rows_of (map (unboxed heading (at ∷ [])) (packed_boxes row_cmp 1 (map (row_numbers number) boxes.items))) in
        MatchResult result (λ o. IfSome o (IsAnswer heading rows)) (IsRefusal rows) }
{
    let rows = to_rows(alloc, heading.attributes(), &[at], boxes)?;
    coalesced_by(alloc, heading, at, key, rows)
}
