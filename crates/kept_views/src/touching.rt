// The keys of the groups of a stored view that a change of its operands touches.
ghost use Rattle.std.specs.Prelude.{◌≡◌, ◌<◌, ℕ, length, option_map, IfOk};
ghost use Rattle.std.specs.List.{All};
ghost use Rattle.std.specs.List.Sorted.{IsStrictlySortedBy};
ghost use Rattle.value_core.specs.Values.{row_cmp};
ghost use Rattle.kept_views.specs.Kept.{Fits, IsPair, heading_or_none, left_key, right_key, rows_or_none};
ghost use Rattle.kept_views.specs.Touched.{HaveOneHeading, changed_keys, left_of, right_of, touched_keys};

use crate::keys::key_places;
use crate::rule::{KeptRule, Operands};
use point_core::Memory;
use relation_core::{absent, sorted_parts};
use std::alloc::Global;
use value_core::{Relation, Row};

/// Where the key stands in the left operand.
pub(crate) fn left_places(
    alloc: Global,
    rule: &KeptRule,
    left: &Relation,
    right: Option<&Relation>,
) -> Result<Vec<usize>, Memory>
    requires { Fits rule.now left.now (option_map (λ r. r.now) right) }
    ensures places { let other = option_map (λ r. r.now) right.entry in
        IfOk result (λ v. v.items ≡ left_key rule.now.op rule.now.left left.now.heading (heading_or_none other)) }
    ensures within { IfOk result (λ v. All (λ (i : ℕ). i < length left.now.heading) v.items) }
{
    let own = left.heading().attributes();
    match right {
        Some(other) => key_places(alloc, rule, own, other.heading().attributes(), own),
        None => key_places(alloc, rule, own, own, own),
    }
}

/// Where the key stands in the right operand.
pub(crate) fn right_places(
    alloc: Global,
    rule: &KeptRule,
    left: &Relation,
    right: &Relation,
) -> Result<Vec<usize>, Memory>
    requires { IsPair rule.now.op rule.now.left rule.now.right left.now.heading right.now.heading }
    ensures places { IfOk result (λ v. v.items ≡ right_key rule.now.op rule.now.left left.now.heading right.now.heading) }
    ensures within { IfOk result (λ v. All (λ (i : ℕ). i < length right.now.heading) v.items) }
{
    let ours = left.heading().attributes();
    let theirs = right.heading().attributes();
    key_places(alloc, rule, ours, theirs, theirs)
}

// The keys at the positions of the rows that go, and of those that come.
fn changed_keys(
    alloc: Global,
    old: &Relation,
    new: &Relation,
    positions: &[usize],
) -> Result<Vec<Row>, Memory>
    requires heading { old.now.heading ≡ new.now.heading }
    requires within { All (λ (i : ℕ). i < length new.now.heading) positions.now }
    ensures { IfOk result (λ v. v.items ≡ changed_keys positions.now old.now.rows new.now.rows) }
{
    let gone = absent(alloc, old, new)?;
    let come = absent(alloc, new, old)?;
    let mut keys = sorted_parts(alloc, &gone, positions)?;
    let mut more = sorted_parts(alloc, &come, positions)?;
    keys.append(&mut more)?;
    Ok(keys)
}

// The keys of the left operand's rows that go or come.
fn left_keys(
    alloc: Global,
    rule: &KeptRule,
    before: Operands<'_>,
    after: Operands<'_>,
) -> Result<Vec<Row>, Memory>
    requires fits { Fits rule.now (left_of after) (right_of after) }
    requires heading { (left_of before).heading ≡ (left_of after).heading }
    ensures { let places = left_key rule.now.op rule.now.left (left_of after.entry).heading (heading_or_none (right_of after.entry)) in
        IfOk result (λ v. v.items ≡ changed_keys places (left_of before.entry).rows (left_of after.entry).rows) }
{
    let places = left_places(alloc, rule, after.left, after.right)?;
    changed_keys(alloc, before.left, after.left, places.as_slice())
}

// The keys of the right operand's rows that go or come.
fn keys_of_right(
    alloc: Global,
    rule: &KeptRule,
    left: &Relation,
    old: &Relation,
    new: &Relation,
) -> Result<Vec<Row>, Memory>
    requires fits { IsPair rule.now.op rule.now.left rule.now.right left.now.heading new.now.heading }
    requires heading { old.now.heading ≡ new.now.heading }
    ensures { let places = right_key rule.now.op rule.now.left left.now.heading new.now.heading in
        IfOk result (λ v. v.items ≡ changed_keys places old.now.rows new.now.rows) }
{
    let places = right_places(alloc, rule, left, new)?;
    changed_keys(alloc, old, new, places.as_slice())
}

// The same, where there may be none.
fn right_keys(
    alloc: Global,
    rule: &KeptRule,
    left: &Relation,
    old: Option<&Relation>,
    new: Option<&Relation>,
) -> Result<Vec<Row>, Memory>
    requires fits { Fits rule.now left.now (option_map (λ r. r.now) new) }
    requires heading { HaveOneHeading (option_map (λ r. r.now) old) (option_map (λ r. r.now) new) }
    ensures { let before = option_map (λ r. r.now) old.entry in
        let after = option_map (λ r. r.now) new.entry in
        let places = right_key rule.now.op rule.now.left left.now.heading (heading_or_none after) in
        IfOk result (λ v. v.items ≡ changed_keys places (rows_or_none before) (rows_or_none after)) }
{
    match new {
        Some(after) => match old {
            Some(before) => keys_of_right(alloc, rule, left, before, after),
            None => unreachable!(),
        },
        None => Ok(Vec::new(alloc)),
    }
}

/// The keys of the groups that are touched where the operands were those before and are those after: in order, each once.
pub fn touched(
    alloc: Global,
    rule: &KeptRule,
    before: Operands<'_>,
    after: Operands<'_>,
) -> Result<Vec<Row>, Memory>
    requires fits { Fits rule.now (left_of after) (right_of after) }
    requires left { (left_of before).heading ≡ (left_of after).heading }
    requires right { HaveOneHeading (right_of before) (right_of after) }
    ensures keys { IfOk result (λ v. v.items ≡ touched_keys rule.now (left_of before.entry) (right_of before.entry) (left_of after.entry) (right_of after.entry)) }
    ensures sorted { IfOk result (λ v. IsStrictlySortedBy row_cmp v.items) }
{
    let mut keys = left_keys(alloc, rule, before, after)?;
    let mut more = right_keys(alloc, rule, after.left, before.right, after.right)?;
    keys.append(&mut more)?;
    keys.sort()?;
    keys.dedup();
    Ok(keys)
}
