// What type checking answers to a statement.
ghost use Rattle.std.specs.Prelude.{IfOk};
ghost use Rattle.utd_syntax.specs.Read.{read_name, read_statement, read_var_form};
ghost use Rattle.scalar_typing.specs.Names.{AreOrdinals};
ghost use Rattle.tree_core.specs.Relvars.{read_relvars};
ghost use Rattle.meaning_core.specs.WellMade.{IsWellMade};
ghost use Rattle.type_check.specs.Checks.{Checks, checked, checked_var, read_checked, IsTypedPlain};

use declaration_typing::{
    type_drop, type_history, type_kept, type_log, type_ordinal, type_relvar, type_rule,
    type_rule_drop, type_view,
};
use item_typing::type_items;
use std::alloc::Global;
use tree_core::{Declaration, HistoryData, Items, LogData, RelTest, RelTree, Relvars};
use tree_typing::{type_test, type_tree};
use utd_syntax::{Statement, VarForm, Word};
use value_core::{Name, Refuse};

/// What a statement does: nothing, declare an ordinal type, a base relvar, a view, a stored view, a history or a log, remove a relvar, view
/// or log, declare or remove a database constraint, assign, print a relation, or tell whether a test holds.
#[derive(Drop)]
pub enum Checked {
    Nothing,
    Ordinal(Declaration),
    Base(Declaration),
    View(Declaration),
    Kept(Name, RelTree),
    History(HistoryData),
    Log(LogData),
    Remove(Name),
    Rule(Name, RelTest),
    Unrule(Name),
    Assign(Items),
    Print(RelTree),
    Ask(RelTest),
}

/// The base relvar, view or stored view that VAR declares.
fn type_var(
    alloc: Global,
    word: &Word,
    form: &VarForm,
    relvars: &Relvars,
) -> Result<Checked, Refuse>
    requires { AreOrdinals (read_relvars relvars.now).ordinals }
    ensures { Checks result (checked_var (read_relvars relvars.now) (read_name word.now) (read_var_form form.now)) }
{
    match form {
        VarForm::Relation(_, heading, constraints) => {
            let declaration = type_relvar(alloc, word, heading, constraints, relvars)?;
            Ok(Checked::Base(declaration))
        }
        VarForm::Virtual(_, rel) => {
            let declaration = type_view(alloc, word, rel, relvars)?;
            Ok(Checked::View(declaration))
        }
        VarForm::Kept(_, kept) => {
            let (name, tree) = type_kept(alloc, word, kept, relvars)?;
            Ok(Checked::Kept(name, tree))
        }
    }
}

/// What the statement does, without what is known of a well made state.
fn type_statement(
    alloc: Global,
    statement: &Statement,
    relvars: &Relvars,
) -> Result<Checked, Refuse>
    requires { AreOrdinals (read_relvars relvars.now).ordinals }
    ensures { Checks result (checked (read_relvars relvars.now) (read_statement statement.now)) }
{
    match statement {
        Statement::Nothing => Ok(Checked::Nothing),
        Statement::Ordinal(_, word, values) => {
            let declaration = type_ordinal(alloc, word, values, relvars)?;
            Ok(Checked::Ordinal(declaration))
        }
        Statement::Var(_, word, form) => type_var(alloc, word, form, relvars),
        Statement::DeclareLog(_, log, source, attribute) => {
            let declared = type_log(alloc, log, source, attribute, relvars)?;
            Ok(Checked::Log(declared))
        }
        Statement::History(history) => {
            let declared = type_history(alloc, history, relvars)?;
            Ok(Checked::History(declared))
        }
        Statement::Drop(_, word) => {
            let name = type_drop(alloc, word, relvars)?;
            Ok(Checked::Remove(name))
        }
        Statement::DeclareRule(_, word, test) => {
            let (name, typed) = type_rule(alloc, word, test, relvars)?;
            Ok(Checked::Rule(name, typed))
        }
        Statement::DropRule(_, _, word) => {
            let name = type_rule_drop(alloc, word, relvars)?;
            Ok(Checked::Unrule(name))
        }
        Statement::Assign(assignment) => {
            let items = type_items(alloc, assignment, relvars)?;
            Ok(Checked::Assign(items))
        }
        Statement::Print(_, rel) => {
            let tree = type_tree(alloc, rel, relvars)?;
            Ok(Checked::Print(tree))
        }
        Statement::Ask(_, test) => {
            let test = type_test(alloc, test, relvars)?;
            Ok(Checked::Ask(test))
        }
    }
}

/// The typed statement where these are the relvars, views and ordinal types, or its first refusal with its place.
pub fn check(alloc: Global, statement: &Statement, relvars: &Relvars) -> Result<Checked, Refuse>
    requires well_made { IsWellMade (read_relvars relvars.now) }
    ensures typing { Checks result (checked (read_relvars relvars.now) (read_statement statement.now)) }
    ensures typed { IfOk result (λ c. IsTypedPlain (read_relvars relvars.now) (read_checked c)) }
{
    type_statement(alloc, statement, relvars)
}
