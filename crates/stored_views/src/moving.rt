// What stored views gain and lose, where base relvars gain and lose rows.
ghost use Rattle.std.specs.Prelude.{◌≡◌, ◌≤◌, ◌<◌, ◌+◌, get_or, length, option_map, IfErr, IfOk, MatchResult, None, Option, Some};
ghost use Rattle.value_core.specs.Values.{Relation as PlainRelation};
ghost use Rattle.tree_core.specs.Relvars.{read_relvars};
ghost use Rattle.tree_core.specs.Trees.{read_tree};
ghost use Rattle.meaning_core.specs.Meanings.{meaning_in};
ghost use Rattle.meaning_core.specs.StoredRows.{AreStored, IsValueOf};
ghost use Rattle.meaning_core.specs.WellMade.{IsWellMade};
ghost use Rattle.relvar_logs.specs.Changes.{changed, AreChanges, Changes, IsSoAt};
ghost use Rattle.stored_views.specs.Moves.{move_cost, moves_cost, TakesSo};
ghost use Rattle.stored_views.specs.NextRows.{AreTooMany};
ghost use Rattle.stored_views.specs.Operands.{AreValues, IsStoredFor};
ghost use Rattle.stored_views.specs.Rules.{IsUnmade};
ghost use Rattle.stored_views.specs.ViewMoves.{all_placed, AreDifferences, AreMovesAt, AreTold, IsMoveFor, IsMoveTo};

use crate::differences::{differences_of, is_any};
use crate::kinds::stored_tree;
use crate::operands::operands;
use crate::places::there;
use crate::rules::rule_of;
use kept_views::{Differences, Moved, Operands, moved_by};
use point_core::Steps;
use std::alloc::Global;
use std::sync::ledger::Ledger;
use tree_core::{RelTree, Relvars};
use value_core::{Relation, RowsRefuse};

/// What stored views gain and lose where base relvars gain and lose these rows: one place for each entry, and rows where those of a stored
/// view may change. Only the groups that rows which come or go touch are looked at.
pub fn view_moves<L: Ledger>(
    alloc: Global,
    relvars: &Relvars,
    stored: &[Option<Relation>],
    differences: &[Option<Moved>],
    steps: &mut Steps<L>,
) -> Result<Vec<Option<Moved>>, RowsRefuse>
    ghost after: { Changes }
    requires made { IsWellMade (read_relvars relvars.now) }
    requires stored { AreStored (read_relvars relvars.now).relvars stored.now }
    requires changes { AreChanges after (read_relvars relvars.now).relvars }
    requires differences { AreDifferences after differences.now (read_relvars relvars.now).relvars }
    ensures length { IfOk result (λ v. length v.items ≡ length relvars.now.list.entries) }
    ensures stored { IfOk result (λ v. AreStored (changed after (read_relvars relvars.now).relvars) (all_placed v.items stored.now)) }
    ensures places { IfOk result (λ v. AreMovesAt v.items stored.now) }
    ensures few { IfErr result (AreTooMany (changed after (read_relvars relvars.now).relvars)) }
    ensures cost { steps.new ≤ steps.old + moves_cost (read_relvars relvars.now).relvars (changed after (read_relvars relvars.now).relvars) }
{
    let mut list = Vec::new(alloc);
    for at in 0..relvars.list.len() {
        let moved = move_at(alloc, relvars, stored, differences, at, steps)?;
        list.push(moved)?;
    }
    Ok(list)
}

// What the entry at a place gains and loses, where it is a stored view.
fn move_at<L: Ledger>(
    alloc: Global,
    relvars: &Relvars,
    stored: &[Option<Relation>],
    differences: &[Option<Moved>],
    at: usize,
    steps: &mut Steps<L>,
) -> Result<Option<Moved>, RowsRefuse>
    ghost after: { Changes }
    requires made { IsWellMade (read_relvars relvars.now) }
    requires stored { AreStored (read_relvars relvars.now).relvars stored.now }
    requires changes { AreChanges after (read_relvars relvars.now).relvars }
    requires differences { AreDifferences after differences.now (read_relvars relvars.now).relvars }
    requires at { at < length relvars.now.list.entries }
    ensures moved { let all = changed after (read_relvars relvars.now).relvars in
        IfOk result (λ m. IsSoAt at (IsMoveFor all (get_or stored.now at None) m) (read_relvars relvars.now).relvars) }
    ensures few { IfErr result (AreTooMany (changed after (read_relvars relvars.now).relvars)) }
    ensures cost { let all = changed after (read_relvars relvars.now).relvars in
        IsSoAt at (TakesSo (read_relvars relvars.now).relvars all steps.old steps.new) (read_relvars relvars.now).relvars }
{
    match relvars.list.get_index(at) {
        Some((_, relvar)) => match stored_tree(relvar) {
            Some(tree) => match there(stored, at) {
                Some(view) => move_of(alloc, relvars, view, differences, tree, steps),
                None => unreachable!(),
            },
            None => Ok(None),
        },
        None => unreachable!(),
    }
}

// What a stored view with this expression and these rows gains and loses, where an operand does.
fn move_of<L: Ledger>(
    alloc: Global,
    relvars: &Relvars,
    view: &Relation,
    differences: &[Option<Moved>],
    tree: &RelTree,
    steps: &mut Steps<L>,
) -> Result<Option<Moved>, RowsRefuse>
    ghost after: { Changes }
    requires stored { IsStoredFor (read_relvars relvars.now) (read_tree tree.now) }
    requires view { IsValueOf (read_relvars relvars.now).relvars (read_tree tree.now) view.now }
    requires changes { AreChanges after (read_relvars relvars.now).relvars }
    requires differences { AreDifferences after differences.now (read_relvars relvars.now).relvars }
    ensures moved { let all = changed after (read_relvars relvars.now).relvars in
        MatchResult result (IsMoveTo all (read_tree tree.now) view.now) (IsUnmade (read_tree tree.now) (meaning_in all (read_tree tree.now))) }
    ensures cost { steps.new ≤ steps.old + move_cost (read_relvars relvars.now).relvars (changed after (read_relvars relvars.now).relvars) (read_tree tree.now) }
{
    let told = differences_of(relvars, differences, tree);
    if !is_any(told) {
        return Ok(None);
    }
    let moved = told_move(alloc, relvars, view, told, tree, steps)?;
    Ok(Some(moved))
}

// What it gains and loses, where its operands gain and lose this.
fn told_move<L: Ledger>(
    alloc: Global,
    relvars: &Relvars,
    view: &Relation,
    told: Differences<'_>,
    tree: &RelTree,
    steps: &mut Steps<L>,
) -> Result<Moved, RowsRefuse>
    ghost after: { Changes × (PlainRelation × Option PlainRelation) }
    requires stored { IsStoredFor (read_relvars relvars.now) (read_tree tree.now) }
    requires view { IsValueOf (read_relvars relvars.now).relvars (read_tree tree.now) view.now }
    requires values { AreValues (changed after.0 (read_relvars relvars.now).relvars) (read_tree tree.now) after.1.0 after.1.1 }
    requires told { let entries = (read_relvars relvars.now).relvars in
        AreTold entries (changed after.0 entries) (read_tree tree.now) (option_map (λ m. m.now) told.left) (option_map (λ m. m.now) told.right) }
    ensures moved { let all = changed after.0 (read_relvars relvars.now).relvars in
        MatchResult result (λ m. IsMoveTo all (read_tree tree.now) view.now (Some m)) (IsUnmade (read_tree tree.now) (meaning_in all (read_tree tree.now))) }
    ensures cost { steps.new ≤ steps.old + move_cost (read_relvars relvars.now).relvars (changed after.0 (read_relvars relvars.now).relvars) (read_tree tree.now) }
{
    let none = Vec::new(alloc);
    let rule = rule_of(alloc, tree)?;
    let (left, right) = operands(relvars, none.as_slice(), tree);
    let before = Operands { left, right };
    moved_by(alloc, &rule, view, before, told, steps)
}
