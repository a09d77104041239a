// The rows of one group of a view.
ghost use Rattle.std.specs.Prelude.{◌≤◌, ◌+◌, [], length, option_map, MatchResult};
ghost use Rattle.relation_core.specs.Answers.{IsAnswer, IsRefusal};
ghost use Rattle.cell_core.specs.Costs.{bound};
ghost use Rattle.kept_views.specs.Kept.{Fits, IsAlone, IsPair, heading_or_none, kept_heading, kept_rows, left_key, of_key, right_key, rows_by, rows_or_none, view_heading, view_key};

use crate::keys::{key_places, rows_of_key};
use crate::making::{of_one, of_two};
use crate::rule::KeptRule;
use point_core::Steps;
use std::alloc::Global;
use std::sync::ledger::Ledger;
use value_core::{Relation, Row, RowsRefuse};

// The group of two operands.
fn group_of_two<L: Ledger>(
    alloc: Global,
    rule: &KeptRule,
    key: &Row,
    left: &Relation,
    right: &Relation,
    steps: &mut Steps<L>,
) -> Result<Relation, RowsRefuse>
    requires { IsPair rule.now.op rule.now.left rule.now.right left.now.heading right.now.heading }
    ensures rows { let rows = of_key (view_key rule.now.op rule.now.left left.now.heading right.now.heading) key.now
        (rows_by rule.now.op rule.now.left rule.now.right left.now.heading right.now.heading left.now.rows right.now.rows) in
        MatchResult result (IsAnswer (view_heading rule.now.op left.now.heading right.now.heading) rows) (IsRefusal rows) }
    ensures cost { steps.new ≤ steps.old + bound (length (of_key (left_key rule.now.op rule.now.left left.now.heading right.now.heading) key.now left.now.rows)
        + length (of_key (right_key rule.now.op rule.now.left left.now.heading right.now.heading) key.now right.now.rows)) (length rule.now.left) }
{
    let ours = left.heading().attributes();
    let theirs = right.heading().attributes();
    let here = key_places(alloc, rule, ours, theirs, ours)?;
    let there = key_places(alloc, rule, ours, theirs, theirs)?;
    let l = rows_of_key(alloc, left, here.as_slice(), key)?;
    let r = rows_of_key(alloc, right, there.as_slice(), key)?;
    let (commalist, other) = (rule.left.list.as_slice(), rule.right.list.as_slice());
    of_two(alloc, &rule.op, commalist, other, &l, &r, steps)
}

// The group of one operand.
fn group_of_one<L: Ledger>(
    alloc: Global,
    rule: &KeptRule,
    key: &Row,
    r: &Relation,
    steps: &mut Steps<L>,
) -> Result<Relation, RowsRefuse>
    requires { IsAlone rule.now.op rule.now.left r.now.heading }
    ensures rows { let rows = of_key (view_key rule.now.op rule.now.left r.now.heading []) key.now
        (rows_by rule.now.op rule.now.left rule.now.right r.now.heading [] r.now.rows []) in
        MatchResult result (IsAnswer (view_heading rule.now.op r.now.heading []) rows) (IsRefusal rows) }
    ensures cost { steps.new ≤ steps.old + bound (length (of_key (left_key rule.now.op rule.now.left r.now.heading []) key.now r.now.rows)) (length rule.now.left) }
{
    let own = r.heading().attributes();
    let places = key_places(alloc, rule, own, own, own)?;
    let rows = rows_of_key(alloc, r, places.as_slice(), key)?;
    of_one(alloc, &rule.op, rule.left.list.as_slice(), &rows, steps)
}

/// The rows of the view with the key, made from the operands' rows with the key alone.
pub fn group<L: Ledger>(
    alloc: Global,
    rule: &KeptRule,
    key: &Row,
    left: &Relation,
    right: Option<&Relation>,
    steps: &mut Steps<L>,
) -> Result<Relation, RowsRefuse>
    requires { Fits rule.now left.now (option_map (λ r. r.now) right) }
    ensures rows { let other = option_map (λ r. r.now) right.entry in
        let rows = of_key (view_key rule.now.op rule.now.left left.now.heading (heading_or_none other)) key.now (kept_rows rule.now left.now other) in
        MatchResult result (IsAnswer (kept_heading rule.now left.now other) rows) (IsRefusal rows) }
    ensures cost { let other = option_map (λ r. r.now) right.entry in
        steps.new ≤ steps.old + bound (length (of_key (left_key rule.now.op rule.now.left left.now.heading (heading_or_none other)) key.now left.now.rows)
        + length (of_key (right_key rule.now.op rule.now.left left.now.heading (heading_or_none other)) key.now (rows_or_none other))) (length rule.now.left) }
{
    match right {
        Some(other) => group_of_two(alloc, rule, key, left, other, steps),
        None => group_of_one(alloc, rule, key, left, steps),
    }
}
