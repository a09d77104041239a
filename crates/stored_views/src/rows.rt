// The rows of a stored view, made from nothing.
ghost use Rattle.std.specs.Prelude.{◌≡◌, ◌≤◌, ◌+◌, MatchResult};
ghost use Rattle.tree_core.specs.Relvars.{read_relvars};
ghost use Rattle.tree_core.specs.Trees.{read_tree};
ghost use Rattle.meaning_core.specs.Meanings.{meaning_in};
ghost use Rattle.relvar_logs.specs.Changes.{changed};
ghost use Rattle.stored_views.specs.Moves.{AreFirstChanges};
ghost use Rattle.stored_views.specs.Operands.{IsStoredFor};
ghost use Rattle.stored_views.specs.Rules.{IsMade, IsUnmade};
ghost use Rattle.stored_views.specs.Stored.{made_cost};

use crate::operands::operands;
use crate::rules::rule_of;
use kept_views::made;
use point_core::Steps;
use std::alloc::Global;
use std::sync::ledger::Ledger;
use tree_core::{RelTree, Relvars};
use value_core::{Relation, RowsRefuse};

/// The rows of a stored view with this expression. `TooMany` comes exactly where its expression means the fault of too many rows.
pub fn rows_now<L: Ledger>(
    alloc: Global,
    relvars: &Relvars,
    tree: &RelTree,
    steps: &mut Steps<L>,
) -> Result<Relation, RowsRefuse>
    requires { IsStoredFor (read_relvars relvars.now) (read_tree tree.now) }
    ensures rows { let meant = meaning_in (read_relvars relvars.now).relvars (read_tree tree.now) in
        MatchResult result (IsMade (read_tree tree.now) meant) (IsUnmade (read_tree tree.now) meant) }
    ensures cost { steps.new ≤ steps.old + made_cost (read_relvars relvars.now).relvars (read_tree tree.now) }
{
    let none = Vec::new(alloc);
    rows_after(alloc, relvars, none.as_slice(), tree, steps)
}

/// Its rows, once the first of the base relvars have these new values. `TooMany` comes exactly where its expression then means the fault of
/// too many rows.
pub fn rows_after<L: Ledger>(
    alloc: Global,
    relvars: &Relvars,
    changes: &[Option<Relation>],
    tree: &RelTree,
    steps: &mut Steps<L>,
) -> Result<Relation, RowsRefuse>
    requires stored { IsStoredFor (read_relvars relvars.now) (read_tree tree.now) }
    requires changes { AreFirstChanges changes.now (read_relvars relvars.now).relvars }
    ensures rows { let meant = meaning_in (changed changes.now (read_relvars relvars.now).relvars) (read_tree tree.now) in
        MatchResult result (IsMade (read_tree tree.now) meant) (IsUnmade (read_tree tree.now) meant) }
    ensures cost { steps.new ≤ steps.old + made_cost (changed changes.now (read_relvars relvars.now).relvars) (read_tree tree.now) }
{
    let rule = rule_of(alloc, tree)?;
    let (left, right) = operands(relvars, changes, tree);
    made(alloc, &rule, left, right, steps)
}
