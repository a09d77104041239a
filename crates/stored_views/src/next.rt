// The rows of stored views, brought up to date where base relvars get new values.
ghost use Rattle.std.specs.Prelude.{◌≡◌, ◌≤◌, ◌<◌, ◌+◌, get_or, length, IfErr, IfOk, MatchResult, None, Some};
ghost use Rattle.value_core.specs.Values.{most_rows};
ghost use Rattle.relation_core.specs.Operators.{united, subtracted};
ghost use Rattle.tree_core.specs.Relvars.{read_relvars};
ghost use Rattle.tree_core.specs.Trees.{read_tree};
ghost use Rattle.meaning_core.specs.Meanings.{meaning_in};
ghost use Rattle.meaning_core.specs.StoredRows.{AreStored, IsValueOf, IsValueThere};
ghost use Rattle.meaning_core.specs.WellMade.{IsWellMade};
ghost use Rattle.relvar_logs.specs.Changes.{changed, AreChanges, IsSoAt};
ghost use Rattle.stored_views.specs.Moves.{move_cost, moves_cost, TakesSo};
ghost use Rattle.stored_views.specs.NextRows.{newer, renewed, AreNextTo, AreTooMany, IsMoveOf, IsNextOf};
ghost use Rattle.stored_views.specs.Operands.{IsStoredFor};
ghost use Rattle.stored_views.specs.Rules.{IsUnmade};

use crate::kinds::stored_tree;
use crate::operands::operands;
use crate::places::there;
use crate::rules::rule_of;
use crate::touching::is_touched;
use kept_views::{Moved, Operands, moved};
use point_core::{Memory, Steps};
use relation_core::absent;
use std::alloc::Global;
use std::sync::ledger::Ledger;
use tree_core::{RelTree, Relvars};
use value_core::{Relation, RowsRefuse};

/// The rows of stored views that are to take the place of the stored ones, once base relvars have these new values: one place for each entry,
/// and rows where those of a stored view change. Only the groups that the new values touch are looked at.
pub fn next_rows<L: Ledger>(
    alloc: Global,
    relvars: &Relvars,
    stored: &[Option<Relation>],
    changes: &[Option<Relation>],
    steps: &mut Steps<L>,
) -> Result<Vec<Option<Relation>>, RowsRefuse>
    requires made { IsWellMade (read_relvars relvars.now) }
    requires stored { AreStored (read_relvars relvars.now).relvars stored.now }
    requires changes { AreChanges changes.now (read_relvars relvars.now).relvars }
    requires length { length changes.now ≡ length relvars.now.list.entries }
    ensures length { IfOk result (λ v. length v.items ≡ length relvars.now.list.entries) }
    ensures stored { IfOk result (λ v. AreStored (changed changes.now (read_relvars relvars.now).relvars) (renewed v.items stored.now)) }
    ensures places { IfOk result (λ v. AreNextTo v.items stored.now) }
    ensures few { IfErr result (AreTooMany (changed changes.now (read_relvars relvars.now).relvars)) }
    ensures cost { steps.new ≤ steps.old + moves_cost (read_relvars relvars.now).relvars (changed changes.now (read_relvars relvars.now).relvars) }
{
    let mut list = Vec::new(alloc);
    for at in 0..relvars.list.len() {
        let next = next_at(alloc, relvars, stored, changes, at, steps)?;
        list.push(next)?;
    }
    Ok(list)
}

// Those of the entry at a place, where it is a stored view whose rows change.
fn next_at<L: Ledger>(
    alloc: Global,
    relvars: &Relvars,
    stored: &[Option<Relation>],
    changes: &[Option<Relation>],
    at: usize,
    steps: &mut Steps<L>,
) -> Result<Option<Relation>, RowsRefuse>
    requires made { IsWellMade (read_relvars relvars.now) }
    requires stored { AreStored (read_relvars relvars.now).relvars stored.now }
    requires changes { AreChanges changes.now (read_relvars relvars.now).relvars }
    requires length { length changes.now ≡ length relvars.now.list.entries }
    requires at { at < length relvars.now.list.entries }
    ensures next { let all = changed changes.now (read_relvars relvars.now).relvars in
        IfOk result (λ next. IsSoAt at (IsNextOf all (get_or stored.now at None) next) (read_relvars relvars.now).relvars) }
    ensures few { IfErr result (AreTooMany (changed changes.now (read_relvars relvars.now).relvars)) }
    ensures cost { let all = changed changes.now (read_relvars relvars.now).relvars in
        IsSoAt at (TakesSo (read_relvars relvars.now).relvars all steps.old steps.new) (read_relvars relvars.now).relvars }
{
    match relvars.list.get_index(at) {
        Some((_, relvar)) => match stored_tree(relvar) {
            Some(tree) => match there(stored, at) {
                Some(view) => next_of(alloc, relvars, view, changes, tree, steps),
                None => unreachable!(),
            },
            None => Ok(None),
        },
        None => unreachable!(),
    }
}

// Those of a stored view with this expression and these rows, where they change.
fn next_of<L: Ledger>(
    alloc: Global,
    relvars: &Relvars,
    view: &Relation,
    changes: &[Option<Relation>],
    tree: &RelTree,
    steps: &mut Steps<L>,
) -> Result<Option<Relation>, RowsRefuse>
    requires stored { IsStoredFor (read_relvars relvars.now) (read_tree tree.now) }
    requires view { IsValueOf (read_relvars relvars.now).relvars (read_tree tree.now) view.now }
    requires changes { AreChanges changes.now (read_relvars relvars.now).relvars }
    requires length { length changes.now ≡ length relvars.now.list.entries }
    ensures next { IfOk result (λ next. IsValueThere (changed changes.now (read_relvars relvars.now).relvars) (read_tree tree.now) (newer next (Some view.now))) }
    ensures unmade { IfErr result (IsUnmade (read_tree tree.now) (meaning_in (changed changes.now (read_relvars relvars.now).relvars) (read_tree tree.now))) }
    ensures cost { steps.new ≤ steps.old + move_cost (read_relvars relvars.now).relvars (changed changes.now (read_relvars relvars.now).relvars) (read_tree tree.now) }
{
    if !is_touched(relvars, changes, tree) {
        return Ok(None);
    }
    let moved = moved_rows(alloc, relvars, view, changes, tree, steps)?;
    let next = rows_with(alloc, view, moved)?;
    Ok(next)
}

// What the view gains and loses.
fn moved_rows<L: Ledger>(
    alloc: Global,
    relvars: &Relvars,
    view: &Relation,
    changes: &[Option<Relation>],
    tree: &RelTree,
    steps: &mut Steps<L>,
) -> Result<Moved, RowsRefuse>
    requires stored { IsStoredFor (read_relvars relvars.now) (read_tree tree.now) }
    requires view { IsValueOf (read_relvars relvars.now).relvars (read_tree tree.now) view.now }
    requires changes { AreChanges changes.now (read_relvars relvars.now).relvars }
    ensures moved { let all = changed changes.now (read_relvars relvars.now).relvars in
        MatchResult result (IsMoveOf all (read_tree tree.now) view.now) (IsUnmade (read_tree tree.now) (meaning_in all (read_tree tree.now))) }
    ensures cost { steps.new ≤ steps.old + move_cost (read_relvars relvars.now).relvars (changed changes.now (read_relvars relvars.now).relvars) (read_tree tree.now) }
{
    let none = Vec::new(alloc);
    let rule = rule_of(alloc, tree)?;
    let (left, right) = operands(relvars, none.as_slice(), tree);
    let before = Operands { left, right };
    let (left, right) = operands(relvars, changes, tree);
    let after = Operands { left, right };
    moved(alloc, &rule, view, before, after, steps)
}

// The view without the rows that go, and with those that come; none, where it stays as it is.
fn rows_with(alloc: Global, view: &Relation, moved: Moved) -> Result<Option<Relation>, Memory>
    requires heading { moved.come.heading ≡ view.now.heading }
    requires few { length (united (subtracted view.now.rows moved.gone.rows) moved.come.rows) ≤ most_rows }
    ensures { let rows = united (subtracted view.now.rows moved.gone.rows) moved.come.rows in
        IfOk result (λ next. newer next (Some view.now) ≡ Some (record { heading = view.now.heading; rows = rows })) }
{
    let Moved { come, gone } = moved;
    if come.rows().is_empty() && gone.rows().is_empty() {
        let _ = view.heading();
        return Ok(None);
    }
    let mut rows = absent(alloc, view, &gone)?;
    rows.insert(come)?;
    Ok(Some(rows))
}
