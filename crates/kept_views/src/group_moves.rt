// What a group of a view gains and loses.
ghost use Rattle.std.specs.Prelude.{◌≡◌, ◌≤◌, ◌<◌, ◌+◌, ℕ, length, option_map, IfOk, MatchResult};
ghost use Rattle.std.specs.List.{All};
ghost use Rattle.relation_core.specs.Answers.{IsRefusal};
ghost use Rattle.cell_core.specs.Costs.{bound};
ghost use Rattle.kept_views.specs.Kept.{Fits, IsMoved, heading_or_none, kept_heading, kept_rows, left_key, of_key, right_key, rows_or_none, view_key};

use crate::groups::group;
use crate::keys::{key_places, rows_of_key};
use crate::rule::KeptRule;
use point_core::{Memory, Steps};
use relation_core::absent;
use std::alloc::Global;
use std::sync::ledger::Ledger;
use value_core::{Relation, Row, RowsRefuse};

/// Rows that a view gains, and rows that it loses.
#[derive(Drop)]
pub struct Moved {
    pub come: Relation,
    pub gone: Relation,
}

/// Where the key stands in the view.
pub(crate) fn view_places(
    alloc: Global,
    rule: &KeptRule,
    view: &Relation,
    left: &Relation,
    right: Option<&Relation>,
) -> Result<Vec<usize>, Memory>
    requires fits { Fits rule.now left.now (option_map (λ r. r.now) right) }
    requires heading { view.now.heading ≡ kept_heading rule.now left.now (option_map (λ r. r.now) right) }
    ensures places { let other = option_map (λ r. r.now) right.entry in
        IfOk result (λ v. v.items ≡ view_key rule.now.op rule.now.left left.now.heading (heading_or_none other)) }
    ensures within { IfOk result (λ v. All (λ (i : ℕ). i < length view.now.heading) v.items) }
{
    let own = left.heading().attributes();
    let to = view.heading().attributes();
    match right {
        Some(other) => key_places(alloc, rule, own, other.heading().attributes(), to),
        None => key_places(alloc, rule, own, own, to),
    }
}

/// What the group of the key in the view gains and loses where its operands are now these. It is refused exactly where the group would have
/// more than 100,000 rows.
pub fn group_moved<L: Ledger>(
    alloc: Global,
    rule: &KeptRule,
    key: &Row,
    view: &Relation,
    left: &Relation,
    right: Option<&Relation>,
    steps: &mut Steps<L>,
) -> Result<Moved, RowsRefuse>
    requires fits { Fits rule.now left.now (option_map (λ r. r.now) right) }
    requires heading { view.now.heading ≡ kept_heading rule.now left.now (option_map (λ r. r.now) right) }
    ensures moved { let other = option_map (λ r. r.now) right.entry in
        let places = view_key rule.now.op rule.now.left left.now.heading (heading_or_none other) in
        let rows = of_key places key.now (kept_rows rule.now left.now other) in
        MatchResult result (IsMoved view.now.heading (of_key places key.now view.now.rows) rows) (IsRefusal rows) }
    ensures cost { let other = option_map (λ r. r.now) right.entry in
        steps.new ≤ steps.old + bound (length (of_key (left_key rule.now.op rule.now.left left.now.heading (heading_or_none other)) key.now left.now.rows)
        + length (of_key (right_key rule.now.op rule.now.left left.now.heading (heading_or_none other)) key.now (rows_or_none other))) (length rule.now.left) }
{
    let places = view_places(alloc, rule, view, left, right)?;
    let old = rows_of_key(alloc, view, places.as_slice(), key)?;
    let new = group(alloc, rule, key, left, right, steps)?;
    let come = absent(alloc, &new, &old)?;
    let gone = absent(alloc, &old, &new)?;
    Ok(Moved { come, gone })
}
