// What statements change. No memory is taken once the database has changed.
ghost use Rattle.std.specs.Prelude.{◌≤◌, ◌<ℤ◌, ◌+◌, ◌+ℤ◌, pos, map};
ghost use Rattle.std.specs.List.{All};
ghost use Rattle.point_core.specs.Whole.{greatest_whole};
ghost use Rattle.tree_core.specs.Items.{read_item};
ghost use Rattle.tree_core.specs.Relvars.{read_relvars};
ghost use Rattle.tree_core.specs.Trees.{read_test, read_tree};
ghost use Rattle.meaning_core.specs.Declarations.{read_declaration, with_declaration, with_rule, without_group, without_rule};
ghost use Rattle.meaning_core.specs.Updates.{IsTypedItem, IsTypedLog};
ghost use Rattle.meaning_core.specs.WellMade.{IsWellMade};
ghost use Rattle.stored_views.specs.Operands.{IsStoredFor};
ghost use Rattle.stored_views.specs.Stored.{made_cost};
ghost use Rattle.since_during.specs.Histories.{declared_history, declared_in, IsTypedHistory};
ghost use Rattle.algebra_core.specs.Costs.{test_cost};
ghost use Rattle.assign_core.specs.Assignments.{assigned_in, constrained};
ghost use Rattle.assign_core.specs.Costs.{cost_of_assignments};
ghost use Rattle.assign_core.specs.Databases.{IsKept};
ghost use Rattle.assign_core.specs.Items.{assignments_of};
ghost use Rattle.assign_core.specs.Room.{opened, stored_in, with_stored};
ghost use Rattle.utd_statement.specs.Answers.{Changed, if_allowed, unless_refused};
ghost use Rattle.utd_statement.specs.Replies.{IsMade, IsPerformed};

use assign_core::Database;
use point_core::Steps;
use since_during::declare_history;
use std::alloc::Global;
use std::sync::ledger::Ledger;
use tree_core::{Declaration, HistoryData, Items, LogData, RelTest, RelTree};
use value_core::{Name, Refuse};

/// Declares an ordinal type, a relvar or a view.
pub fn declared(
    alloc: Global,
    declaration: Declaration,
    database: &mut Database,
) -> Result<Vec<u8>, Refuse>
    requires well_made { IsWellMade (with_declaration (read_relvars database.old) (read_declaration declaration)) }
    ensures { IsMade result (read_relvars database.old) (read_relvars database.new)
        (Changed (with_declaration (read_relvars database.old) (read_declaration declaration))) }
{
    let list = vec![in alloc; declaration]?;
    database.declare(list)?;
    Ok(Vec::new(alloc))
}

/// Declares the relvars and the view of a history, all three or none.
pub fn history_declared(
    alloc: Global,
    history: &HistoryData,
    database: &mut Database,
) -> Result<Vec<u8>, Refuse>
    requires kept { IsKept (read_relvars database.old) }
    requires typed { IsTypedHistory (read_relvars database.old) history.now }
    ensures { IsMade result (read_relvars database.old) (read_relvars database.new)
        (Changed (declared_in (read_relvars database.old) (declared_history history.now))) }
{
    let list = declare_history(alloc, history)?;
    database.declare(list)?;
    Ok(Vec::new(alloc))
}

/// Removes the relvar or view of this name, and with the view of a history its two relvars.
pub fn removed(alloc: Global, name: &Name, database: &mut Database) -> Result<Vec<u8>, Refuse>
    requires well_made { IsWellMade (without_group name.now (read_relvars database.old)) }
    ensures { IsMade result (read_relvars database.old) (read_relvars database.new) (Changed (without_group name.now (read_relvars database.old))) }
{
    database.remove(name)?;
    Ok(Vec::new(alloc))
}

/// Declares a database constraint, which must hold.
pub fn constrained<L: Ledger>(
    alloc: Global,
    name: Name,
    test: RelTest,
    database: &mut Database,
    steps: &mut Steps<L>,
) -> Result<Vec<u8>, Refuse>
    requires well_made { IsWellMade (with_rule name (read_test test) (read_relvars database.old)) }
    ensures performed { IsMade result (read_relvars database.old) (read_relvars database.new)
        (if_allowed (constrained (read_relvars database.old) name (read_test test))) }
    ensures cost { steps.new ≤ steps.old + test_cost (read_relvars database.old).relvars (read_test test) }
{
    database.constrain(name, test, steps)?;
    Ok(Vec::new(alloc))
}

/// Removes the database constraint of this name.
pub fn unconstrained(alloc: Global, name: &Name, database: &mut Database) -> Result<Vec<u8>, Refuse>
    requires well_made { IsWellMade (without_rule name.now (read_relvars database.old)) }
    ensures { IsMade result (read_relvars database.old) (read_relvars database.new) (Changed (without_rule name.now (read_relvars database.old))) }
{
    database.unconstrain(name)?;
    Ok(Vec::new(alloc))
}

/// Performs the items of an assignment, all together, and counts the statement; or refuses and changes nothing.
pub fn assigned<L: Ledger>(
    alloc: Global,
    items: &Items,
    database: &mut Database,
    steps: &mut Steps<L>,
) -> Result<Vec<u8>, Refuse>
    requires kept { IsKept (read_relvars database.old) }
    requires room { ((read_relvars database.old).accepted +ℤ pos 1) <ℤ greatest_whole }
    requires typed { All (IsTypedItem (read_relvars database.old)) (map read_item items.now) }
    ensures performed { IsPerformed result (read_relvars database.old) (read_relvars database.new)
        (unless_refused (read_relvars database.old) (assigned_in (read_relvars database.old) (assignments_of (read_relvars database.old).relvars (map read_item items.now)))) }
    ensures cost { steps.new ≤ steps.old + cost_of_assignments (read_relvars database.old) (assignments_of (read_relvars database.old).relvars (map read_item items.now)) }
{
    database.perform(items.list.as_slice(), steps)?;
    Ok(Vec::new(alloc))
}

/// Declares a log, which begins with this statement, and counts the statement; or refuses and changes nothing.
pub fn opened(alloc: Global, log: LogData, database: &mut Database) -> Result<Vec<u8>, Refuse>
    requires room { ((read_relvars database.old).accepted +ℤ pos 1) <ℤ greatest_whole }
    requires typed { IsTypedLog (read_relvars database.old) log }
    ensures { IsPerformed result (read_relvars database.old) (read_relvars database.new) (if_allowed (opened (read_relvars database.old) log)) }
{
    database.open_log(log)?;
    Ok(Vec::new(alloc))
}

/// Declares a view whose rows are stored, and counts the statement; or refuses and changes nothing.
pub fn kept<L: Ledger>(
    alloc: Global,
    name: Name,
    tree: RelTree,
    database: &mut Database,
    steps: &mut Steps<L>,
) -> Result<Vec<u8>, Refuse>
    requires room { ((read_relvars database.old).accepted +ℤ pos 1) <ℤ greatest_whole }
    requires made { IsWellMade (with_stored (read_relvars database.old) name (read_tree tree)) }
    requires typed { IsStoredFor (read_relvars database.old) (read_tree tree) }
    ensures performed { IsPerformed result (read_relvars database.old) (read_relvars database.new) (if_allowed (stored_in (read_relvars database.old) name (read_tree tree))) }
    ensures cost { steps.new ≤ steps.old + made_cost (read_relvars database.old).relvars (read_tree tree) }
{
    database.keep(name, tree, steps)?;
    Ok(Vec::new(alloc))
}
