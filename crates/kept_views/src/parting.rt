// The keys of the rows that operands of a stored view gain and lose, and the rows with these keys alone.
ghost use Rattle.std.specs.Prelude.{◌≡◌, ◌≤◌, ◌<◌, ◌++◌, ℕ, length, option_map, IfOk};
ghost use Rattle.std.specs.List.{All};
ghost use Rattle.std.specs.List.Sorted.{IsStrictlySortedBy};
ghost use Rattle.value_core.specs.Values.{most_rows, row_cmp};
ghost use Rattle.relation_core.specs.Parts.{projected};
ghost use Rattle.u_constraints.specs.Near.{with_keys};
ghost use Rattle.kept_views.specs.Kept.{Fits, heading_or_none, kept_heading, key_names, left_key, right_key, rows_or_none};
ghost use Rattle.kept_views.specs.Parting.{ArePartsAfter, HasHeading, HasHeadingIf, all_told, keys_told, part_after, part_after_or_none, rows_after};
ghost use Rattle.kept_views.specs.Touched.{left_of, right_of};

use crate::differing::Differences;
use crate::group_moves::{Moved, view_places};
use crate::rule::{KeptRule, Operands};
use crate::touching::{left_places, right_places};
use point_core::Memory;
use relation_core::{absent, sorted_parts};
use std::alloc::Global;
use u_constraints::rows_with_keys;
use value_core::{Relation, Row};

/// The rows with touched keys: of a view as it was, and of its operands as they are now.
#[derive(Drop)]
pub(crate) struct Parts {
    pub(crate) view: Relation,
    pub(crate) left: Relation,
    pub(crate) right: Option<Relation>,
}

// The keys at the positions of the rows that go, and of those that come.
fn keys_moved(alloc: Global, moved: &Moved, positions: &[usize]) -> Result<Vec<Row>, Memory>
    requires gone { All (λ (i : ℕ). i < length moved.now.gone.heading) positions.now }
    requires come { All (λ (i : ℕ). i < length moved.now.come.heading) positions.now }
    ensures { IfOk result (λ v. v.items ≡ projected positions.now moved.now.gone.rows ++ projected positions.now moved.now.come.rows) }
{
    let mut keys = sorted_parts(alloc, &moved.gone, positions)?;
    let mut more = sorted_parts(alloc, &moved.come, positions)?;
    keys.append(&mut more)?;
    Ok(keys)
}

// The same, where they may be none.
fn keys_told(
    alloc: Global,
    of: &Relation,
    difference: Option<&Moved>,
    positions: &[usize],
) -> Result<Vec<Row>, Memory>
    requires heading { HasHeading of.now.heading (option_map (λ m. m.now) difference) }
    requires within { All (λ (i : ℕ). i < length of.now.heading) positions.now }
    ensures { IfOk result (λ v. v.items ≡ keys_told positions.now (option_map (λ m. m.now) difference.entry)) }
{
    match difference {
        Some(moved) => keys_moved(alloc, moved, positions),
        None => Ok(Vec::new(alloc)),
    }
}

// The keys of the right operand's rows that come and go, if there is one.
fn right_told(
    alloc: Global,
    rule: &KeptRule,
    left: &Relation,
    right: Option<&Relation>,
    difference: Option<&Moved>,
) -> Result<Vec<Row>, Memory>
    requires fits { Fits rule.now left.now (option_map (λ r. r.now) right) }
    requires heading { HasHeadingIf (option_map (λ r. r.now) right) (option_map (λ m. m.now) difference) }
    ensures { let other = option_map (λ r. r.now) right.entry in
        let places = right_key rule.now.op rule.now.left left.now.heading (heading_or_none other) in
        IfOk result (λ v. v.items ≡ keys_told places (option_map (λ m. m.now) difference.entry)) }
{
    match right {
        Some(other) => {
            let places = right_places(alloc, rule, left, other)?;
            keys_told(alloc, other, difference, places.as_slice())
        }
        None => Ok(Vec::new(alloc)),
    }
}

/// The keys of the rows that come and go: in order, each once.
pub(crate) fn told(
    alloc: Global,
    rule: &KeptRule,
    before: Operands<'_>,
    differences: Differences<'_>,
) -> Result<Vec<Row>, Memory>
    requires fits { Fits rule.now (left_of before) (right_of before) }
    requires left { HasHeading (left_of before).heading (option_map (λ m. m.now) differences.left) }
    requires right { HasHeadingIf (right_of before) (option_map (λ m. m.now) differences.right) }
    ensures keys { IfOk result (λ v. v.items ≡ all_told rule.now (left_of before.entry) (right_of before.entry)
        (option_map (λ m. m.now) differences.entry.left) (option_map (λ m. m.now) differences.entry.right)) }
    ensures sorted { IfOk result (λ v. IsStrictlySortedBy row_cmp v.items) }
{
    let places = left_places(alloc, rule, before.left, before.right)?;
    let mut keys = keys_told(alloc, before.left, differences.left, places.as_slice())?;
    let mut more = right_told(alloc, rule, before.left, before.right, differences.right)?;
    keys.append(&mut more)?;
    keys.sort()?;
    keys.dedup();
    Ok(keys)
}

// The rows less those that go, with those that come.
fn rest_after(alloc: Global, rows: &Relation, moved: &Moved) -> Result<Relation, Memory>
    requires heading { moved.now.come.heading ≡ rows.now.heading }
    requires few { length (rows_after rows.now.rows (Some moved.now)) ≤ most_rows }
    ensures { IfOk result (λ r. r ≡ record { heading = rows.now.heading; rows = rows_after rows.now.rows (Some moved.now) }) }
{
    let mut rest = absent(alloc, rows, &moved.gone)?;
    rest.insert(moved.come.copy(alloc)?)?;
    Ok(rest)
}

// The operand's rows with one of the keys, afterwards.
fn part_after(
    alloc: Global,
    before: &Relation,
    difference: Option<&Moved>,
    positions: &[usize],
    keys: &[Row],
) -> Result<Relation, Memory>
    requires heading { HasHeading before.now.heading (option_map (λ m. m.now) difference) }
    requires few { length (rows_after (with_keys positions.now keys.now before.now.rows) (option_map (λ m. m.now) difference)) ≤ most_rows }
    requires within { All (λ (i : ℕ). i < length before.now.heading) positions.now }
    requires sorted { IsStrictlySortedBy row_cmp keys.now }
    requires long { All (λ k. length k ≡ length positions.now) keys.now }
    ensures { IfOk result (λ r. r ≡ part_after positions.now keys.now before.now (option_map (λ m. m.now) difference.entry)) }
{
    let part = rows_with_keys(alloc, before, positions, keys)?;
    match difference {
        Some(moved) => rest_after(alloc, &part, moved),
        None => Ok(part),
    }
}

// The right operand's, if there is one.
fn right_part(
    alloc: Global,
    rule: &KeptRule,
    before: Operands<'_>,
    difference: Option<&Moved>,
    keys: &[Row],
) -> Result<Option<Relation>, Memory>
    requires fits { Fits rule.now (left_of before) (right_of before) }
    requires heading { HasHeadingIf (right_of before) (option_map (λ m. m.now) difference) }
    requires few { let places = right_key rule.now.op rule.now.left (left_of before).heading (heading_or_none (right_of before)) in
        length (rows_after (with_keys places keys.now (rows_or_none (right_of before))) (option_map (λ m. m.now) difference)) ≤ most_rows }
    requires sorted { IsStrictlySortedBy row_cmp keys.now }
    requires long { All (λ k. length k ≡ length (key_names rule.now.op rule.now.left (left_of before).heading (heading_or_none (right_of before)))) keys.now }
    ensures { let places = right_key rule.now.op rule.now.left (left_of before.entry).heading (heading_or_none (right_of before.entry)) in
        IfOk result (λ o. o ≡ part_after_or_none places keys.now (right_of before.entry) (option_map (λ m. m.now) difference.entry)) }
{
    match before.right {
        Some(other) => {
            let places = right_places(alloc, rule, before.left, other)?;
            let part = part_after(alloc, other, difference, places.as_slice(), keys)?;
            Ok(Some(part))
        }
        None => Ok(None),
    }
}

/// The rows with one of the keys, which are in order: of the view as it is, and of its operands as they are afterwards.
pub(crate) fn touched_parts(
    alloc: Global,
    rule: &KeptRule,
    view: &Relation,
    before: Operands<'_>,
    differences: Differences<'_>,
    keys: &[Row],
) -> Result<Parts, Memory>
    requires fits { Fits rule.now (left_of before) (right_of before) }
    requires heading { view.now.heading ≡ kept_heading rule.now (left_of before) (right_of before) }
    requires left { HasHeading (left_of before).heading (option_map (λ m. m.now) differences.left) }
    requires right { HasHeadingIf (right_of before) (option_map (λ m. m.now) differences.right) }
    requires few_left { let places = left_key rule.now.op rule.now.left (left_of before).heading (heading_or_none (right_of before)) in
        length (rows_after (with_keys places keys.now (left_of before).rows) (option_map (λ m. m.now) differences.left)) ≤ most_rows }
    requires few_right { let places = right_key rule.now.op rule.now.left (left_of before).heading (heading_or_none (right_of before)) in
        length (rows_after (with_keys places keys.now (rows_or_none (right_of before))) (option_map (λ m. m.now) differences.right)) ≤ most_rows }
    requires sorted { IsStrictlySortedBy row_cmp keys.now }
    requires long { All (λ k. length k ≡ length (key_names rule.now.op rule.now.left (left_of before).heading (heading_or_none (right_of before)))) keys.now }
    ensures { IfOk result (λ parts. ArePartsAfter rule.now keys.now view.now (left_of before.entry) (right_of before.entry)
        (option_map (λ m. m.now) differences.entry.left) (option_map (λ m. m.now) differences.entry.right) parts) }
{
    let places = view_places(alloc, rule, view, before.left, before.right)?;
    let here = left_places(alloc, rule, before.left, before.right)?;
    let view = rows_with_keys(alloc, view, places.as_slice(), keys)?;
    let left = part_after(alloc, before.left, differences.left, here.as_slice(), keys)?;
    let right = right_part(alloc, rule, before, differences.right, keys)?;
    Ok(Parts { view, left, right })
}
