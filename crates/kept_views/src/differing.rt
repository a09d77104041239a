// What a stored view gains and loses, where it is told what its operands gain and lose.
ghost use Rattle.std.specs.Prelude.{◌≡◌, ◌≤◌, ◌+◌, Option, option_map, MatchResult};
ghost use Rattle.value_core.specs.Values.{Relation as PlainRelation};
ghost use Rattle.relation_core.specs.Answers.{IsRefusal};
ghost use Rattle.kept_views.specs.Differing.{IsDifference, IsDifferenceIf};
ghost use Rattle.kept_views.specs.Kept.{Fits, IsMoved, kept_heading, kept_rows};
ghost use Rattle.kept_views.specs.Touched.{AreRelations, groups_cost, left_of, right_of, touched_keys};

use crate::group_moves::Moved;
use crate::moving::{read, sorted_all, summed, view_moved};
use crate::parting::{told, touched_parts};
use crate::rule::{KeptRule, Operands};
use point_core::Steps;
use std::alloc::Global;
use std::sync::ledger::Ledger;
use value_core::{Relation, RowsRefuse};

/// What the operands of a stored view gain and lose; none, where one stays as it is.
#[derive(Clone, Copy)]
pub struct Differences<'a> {
    /// Of the left operand.
    pub left: Option<&'a Moved>,
    /// Of the right one.
    pub right: Option<&'a Moved>,
}

/// What the stored view gains and loses where its operands were those before and gain and lose these rows. Rows of other groups are not
/// looked at. It is refused exactly where the view would have more than 100,000 rows.
pub fn moved_by<L: Ledger>(
    alloc: Global,
    rule: &KeptRule,
    view: &Relation,
    before: Operands<'_>,
    differences: Differences<'_>,
    steps: &mut Steps<L>,
) -> Result<Moved, RowsRefuse>
    ghost after: { PlainRelation × Option PlainRelation }
    requires before { Fits rule.now (left_of before) (right_of before) }
    requires after { Fits rule.now after.0 after.1 }
    requires relations { AreRelations after.0 after.1 }
    requires left { IsDifference (left_of before) after.0 (option_map (λ m. m.now) differences.left) }
    requires right { IsDifferenceIf (right_of before) after.1 (option_map (λ m. m.now) differences.right) }
    requires heading { view.now.heading ≡ kept_heading rule.now (left_of before) (right_of before) }
    requires rows { view.now.rows ≡ kept_rows rule.now (left_of before) (right_of before) }
    ensures moved { let rows = kept_rows rule.now after.0 after.1 in
        MatchResult result (IsMoved view.now.heading view.now.rows rows) (IsRefusal rows) }
    ensures cost { steps.new ≤ steps.old + groups_cost rule.now after.0 after.1
        (touched_keys rule.now (left_of before.entry) (right_of before.entry) after.0 after.1) }
{
    read(before);
    let list = told(alloc, rule, before, differences)?;
    let keys = list.as_slice();
    let parts = touched_parts(alloc, rule, view, before, differences, keys)?;
    let left = &parts.left;
    let right = parts.right.as_ref();
    let after = Operands { left, right };
    let all = sorted_all(alloc, rule, &parts.view, after, keys)?;
    let moves = view_moved(alloc, rule, keys, view, after, &all, steps)?;
    summed(alloc, view, moves)
}
