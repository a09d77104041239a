// What a statement is performed as: it writes, or it changes the database.
ghost use Rattle.std.specs.Prelude.{◌≤◌, ◌<ℤ◌, ◌+◌, ◌+ℤ◌, pos};
ghost use Rattle.point_core.specs.Whole.{greatest_whole};
ghost use Rattle.utd_syntax.specs.Read.{read_statement};
ghost use Rattle.tree_core.specs.Relvars.{read_relvars, State};
ghost use Rattle.tree_core.specs.Trees.{read_tree, read_test};
ghost use Rattle.meaning_core.specs.StoredRows.{AreStored};
ghost use Rattle.meaning_core.specs.WellMade.{IsWellMade, IsTypedFor, IsTypedTestFor};
ghost use Rattle.assign_core.specs.Databases.{IsKept};
ghost use Rattle.type_check.specs.Checks.{print, ask, checked, read_checked, IsTypedPlain};
ghost use Rattle.utd_statement.specs.Answers.{of_checked, unless_fault, Answer};
ghost use Rattle.utd_statement.specs.Costs.{cost_of_checked, cost_of_tree};
ghost use Rattle.utd_statement.specs.Replies.{IsMade, IsPerformed};

use crate::changing::{
    assigned, constrained, declared, history_declared, kept, opened, removed, unconstrained,
};
use algebra_core::{eval, test};
use assign_core::Database;
use point_core::Steps;
use std::alloc::Global;
use std::sync::ledger::Ledger;
use tree_core::{RelTest, RelTree, Relvars};
use type_check::{Checked, check};
use utd_print::{table, truth_line};
use utd_syntax::Statement;
use value_core::{Refuse, Relation};

// The table of the relation that an expression means.
fn printed<L: Ledger>(
    alloc: Global,
    tree: &RelTree,
    relvars: &Relvars,
    stored: &[Option<Relation>],
    steps: &mut Steps<L>,
) -> Result<Vec<u8>, Refuse>
    requires well_made { IsWellMade (read_relvars relvars.now) }
    requires typed { IsTypedFor (read_relvars relvars.now) (read_tree tree.now) }
    requires stored { AreStored (read_relvars relvars.now).relvars stored.now }
    ensures performed { IsMade result (read_relvars relvars.now) (read_relvars relvars.now) (of_checked (read_relvars relvars.now) (print (read_tree tree.now))) }
    ensures cost { steps.new ≤ steps.old + cost_of_checked (read_relvars relvars.now) (print (read_tree tree.now)) }
{
    let relation = eval(alloc, tree, relvars, stored, None, None, steps)?;
    Ok(table(alloc, &relation, &relvars.ordinals)?)
}

// The line of a test's truth.
fn asked<L: Ledger>(
    alloc: Global,
    question: &RelTest,
    relvars: &Relvars,
    stored: &[Option<Relation>],
    steps: &mut Steps<L>,
) -> Result<Vec<u8>, Refuse>
    requires well_made { IsWellMade (read_relvars relvars.now) }
    requires typed { IsTypedTestFor (read_relvars relvars.now) (read_test question.now) }
    requires stored { AreStored (read_relvars relvars.now).relvars stored.now }
    ensures performed { IsMade result (read_relvars relvars.now) (read_relvars relvars.now) (of_checked (read_relvars relvars.now) (ask (read_test question.now))) }
    ensures cost { steps.new ≤ steps.old + cost_of_checked (read_relvars relvars.now) (ask (read_test question.now)) }
{
    let holds = test(alloc, question, relvars, stored, steps)?;
    Ok(Vec::from_slice(alloc, truth_line(holds))?)
}

// Counts a statement that is accepted. No memory is taken.
fn counted(database: &mut Database, made: Result<Vec<u8>, Refuse>) -> Result<Vec<u8>, Refuse>
    requires room { ((read_relvars database.old).accepted +ℤ pos 1) <ℤ greatest_whole }
    ensures { (old : State) (a : Answer) → IsMade made old (read_relvars database.old) a → IsPerformed result old (read_relvars database.new) a }
{
    match made {
        Ok(text) => {
            database.accept();
            Ok(text)
        }
        Err(refuse) => Err(refuse),
    }
}

// Performs a typed statement.
fn performed_typed<L: Ledger>(
    alloc: Global,
    typed: Checked,
    database: &mut Database,
    steps: &mut Steps<L>,
) -> Result<Vec<u8>, Refuse>
    requires kept { IsKept (read_relvars database.old) }
    requires room { ((read_relvars database.old).accepted +ℤ pos 1) <ℤ greatest_whole }
    requires typed { IsTypedPlain (read_relvars database.old) (read_checked typed) }
    ensures performed { IsPerformed result (read_relvars database.old) (read_relvars database.new) (of_checked (read_relvars database.old) (read_checked typed)) }
    ensures cost { steps.new ≤ steps.old + cost_of_checked (read_relvars database.old) (read_checked typed) }
{
    match typed {
        Checked::Assign(items) => assigned(alloc, &items, database, steps),
        Checked::Log(data) => opened(alloc, data, database),
        Checked::Kept(name, tree) => kept(alloc, name, tree, database, steps),
        Checked::Nothing => {
            let made = Ok(Vec::new(alloc));
            counted(database, made)
        }
        Checked::Ordinal(declaration) => {
            let made = declared(alloc, declaration, database);
            counted(database, made)
        }
        Checked::Base(declaration) => {
            let made = declared(alloc, declaration, database);
            counted(database, made)
        }
        Checked::View(declaration) => {
            let made = declared(alloc, declaration, database);
            counted(database, made)
        }
        Checked::History(history) => {
            let made = history_declared(alloc, &history, database);
            counted(database, made)
        }
        Checked::Remove(name) => {
            let made = removed(alloc, &name, database);
            counted(database, made)
        }
        Checked::Rule(name, question) => {
            let made = constrained(alloc, name, question, database, steps);
            counted(database, made)
        }
        Checked::Unrule(name) => {
            let made = unconstrained(alloc, &name, database);
            counted(database, made)
        }
        Checked::Print(tree) => {
            let made = printed(alloc, &tree, database.relvars(), database.stored(), steps);
            counted(database, made)
        }
        Checked::Ask(question) => {
            let made = asked(
                alloc,
                &question,
                database.relvars(),
                database.stored(),
                steps,
            );
            counted(database, made)
        }
    }
}

/// Performs a statement, counts it where it is accepted, and gives what it writes, or its first refusal. Where it is refused, or memory is
/// wanting, the database stays as it is.
pub fn performed<L: Ledger>(
    alloc: Global,
    statement: &Statement,
    database: &mut Database,
    steps: &mut Steps<L>,
) -> Result<Vec<u8>, Refuse>
    requires { ((read_relvars database.old).accepted +ℤ pos 1) <ℤ greatest_whole }
    ensures performed { IsPerformed result (read_relvars database.old) (read_relvars database.new)
        (unless_fault (of_checked (read_relvars database.old)) (checked (read_relvars database.old) (read_statement statement.now))) }
    ensures cost { steps.new ≤ steps.old + cost_of_tree (read_relvars database.old) (read_statement statement.now) }
{
    let typed = check(alloc, statement, database.relvars())?;
    performed_typed(alloc, typed, database, steps)
}
