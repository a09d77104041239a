// What is dropped, and what names it.
ghost use Rattle.std.specs.Prelude.{◌≡◌, map, not, ◌&&◌};
ghost use Rattle.std.specs.List.{list_any};
ghost use Rattle.utd_syntax.specs.Read.{read_name};
ghost use Rattle.scalar_core.specs.Answers.{Gives};
ghost use Rattle.tree_core.specs.Relvars.{read_kind, read_relvar, read_relvars};
ghost use Rattle.tree_core.specs.Uses as uses;
ghost use Rattle.tree_core.specs.Uses.{is_one_of};
ghost use Rattle.meaning_core.specs.Declarations.{group};
ghost use Rattle.declaration_typing.specs.Drops as rules;

use crate::references::is_known;
use node_typing::check;
use point_core::{Code, Stop};
use relation_typing::name_typed;
use std::alloc::Global;
use tree_core::{
    Relvar, Relvars, ViewKind, history_if, is_one_of, relvar_names_any, test_names_any,
};
use utd_syntax::Word;
use value_core::Name;

// Whether a view of the kind is a history's, and the name that of its since relvar or its during relvar.
fn is_of(name: &Name, kind: &ViewKind) -> bool
    ensures { result ≡ rules.is_of name.now (read_kind kind.now) }
{
    match kind {
        ViewKind::OfHistory(names) => *name == names.0 || *name == names.1,
        ViewKind::Derived => false,
        ViewKind::Stored => false,
    }
}

/// Whether the view is a history's, and the name that of its since relvar or its during relvar.
fn is_in_history(name: &Name, relvar: &Relvar) -> bool
    ensures { result ≡ rules.is_in_history name.now (read_relvar relvar.now) }
{
    match relvar {
        Relvar::View { tree: _, kind } => is_of(name, kind),
        Relvar::Base {
            value: _,
            constraints: _,
        } => false,
        Relvar::Log { of: _, log: _ } => false,
    }
}

/// Whether a history has the name as that of its since relvar or its during relvar.
fn is_of_history(relvars: &Relvars, name: &Name) -> bool
    ensures { result ≡ rules.is_of_history (read_relvars relvars.now).relvars name.now }
{
    for (_, relvar) in &relvars.list {
        if is_in_history(name, relvar) {
            return true;
        }
    }
    false
}

/// Whether a relvar or view that is none of these names one of these.
fn relvars_use(relvars: &Relvars, names: &[&Name]) -> bool
    ensures { result ≡ rules.relvars_use (read_relvars relvars.now).relvars (is_one_of (map (λ n. n.now) names.now)) }
{
    for (other, relvar) in &relvars.list {
        if !is_one_of(other, names) && relvar_names_any(relvar, names) {
            return true;
        }
    }
    false
}

/// Whether a database constraint names one of these.
fn rules_use(relvars: &Relvars, names: &[&Name]) -> bool
    ensures { result ≡ rules.rules_use (read_relvars relvars.now).rules (is_one_of (map (λ n. n.now) names.now)) }
{
    for (_, test) in &relvars.rules {
        if test_names_any(test, names) {
            return true;
        }
    }
    false
}

/// Whether one of these is named by a relvar or view that is none of them, or by a database constraint.
fn is_used(relvars: &Relvars, names: &[&Name]) -> bool
    ensures { result ≡ rules.is_used (read_relvars relvars.now) (is_one_of (map (λ n. n.now) names.now)) }
{
    relvars_use(relvars, names) || rules_use(relvars, names)
}

/// Whether what is dropped with the name is used by another.
fn group_is_used(relvars: &Relvars, name: &Name) -> bool
    ensures { result ≡ rules.is_used (read_relvars relvars.now) (is_one_of (group (read_relvars relvars.now).relvars name.now)) }
{
    match history_if(relvars.named(name)) {
        Some((since, during)) => is_used(relvars, &[name, during, since]),
        None => is_used(relvars, &[name]),
    }
}

/// The name of the relvar or view that DROP VAR drops where these are the relvars, or the first refusal.
#[tactic(auto, unfolding(crate::specs::Drops::dropped))]
pub fn type_drop(alloc: Global, word: &Word, relvars: &Relvars) -> Result<Name, Stop>
    ensures { Gives (λ n. n) result (rules.dropped (read_relvars relvars.now) (read_name word.now)) }
{
    let name = name_typed(alloc, word)?;
    check(word.place, Code::E10, is_known(relvars, &name))?;
    check(word.place, Code::E21, !is_of_history(relvars, &name))?;
    check(word.place, Code::E21, !group_is_used(relvars, &name))?;
    Ok(name)
}
