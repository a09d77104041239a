// Ordinal types.
ghost use Rattle.std.specs.Prelude.{◌≡◌, ◌∷◌, [], IfOk};
ghost use Rattle.scalar_core.specs.Answers.{Gives};
ghost use Rattle.utd_syntax.specs.Read.{read_name, read_name_list, read_some_names};
ghost use Rattle.tree_core.specs.Relvars.{read_relvars};
ghost use Rattle.meaning_core.specs.Declarations.{read_declaration};
ghost use Rattle.declaration_typing.specs.Ordinals as rules;

use crate::names::new_name;
use indexmap::IndexSet;
use node_typing::check;
use point_core::{Code, Memory, Stop};
use relation_typing::name_typed;
use std::alloc::Global;
use tree_core::{Declaration, Relvars};
use utd_syntax::{SomeNames, Word};
use value_core::{MOST_ORDINAL_TYPES, MOST_ORDINAL_VALUES, Name, Names};

/// One value more.
fn with_value(alloc: Global, values: &mut IndexSet<Name>, word: &Word) -> Result<(), Stop>
    ensures { Gives (λ _. values.new.keys) result (rules.with_value values.old.keys (read_name word.now)) }
{
    let name = name_typed(alloc, word)?;
    let new = values.insert(name)?;
    check(word.place, Code::E15, new)?;
    Ok(())
}

/// The values that are written.
fn values_typed(alloc: Global, first: &Word, more: &[Word]) -> Result<IndexSet<Name>, Stop>
    ensures { Gives (λ v. v.keys) result (rules.values_typed [] (read_name first.now ∷ read_name_list more.now)) }
{
    let mut values = IndexSet::new(alloc);
    with_value(alloc, &mut values, first)?;
    for word in more {
        with_value(alloc, &mut values, word)?;
    }
    Ok(values)
}

/// The names as a list, in their order.
fn listed(alloc: Global, values: IndexSet<Name>) -> Result<Names, Memory>
    ensures { IfOk result (λ names. names ≡ values.keys) }
{
    let list: Vec<Name> = values.into_iter().collect(alloc)?;
    Ok(Names { list })
}

/// The values that are written, where they are few enough.
fn few_values(alloc: Global, list: &SomeNames) -> Result<Names, Stop>
    ensures { Gives (λ v. v) result (rules.few_values (read_some_names list.now)) }
{
    let values = values_typed(alloc, &list.first, list.more.list.as_slice())?;
    check(list.place, Code::E22, values.len() <= MOST_ORDINAL_VALUES)?;
    let names = listed(alloc, values)?;
    Ok(names)
}

/// The ordinal type that TYPE declares where these are the relvars, views and ordinal types, or the first refusal.
#[tactic(auto, unfolding(crate::specs::Ordinals::ordinal_declared))]
pub fn type_ordinal(
    alloc: Global,
    word: &Word,
    values: &SomeNames,
    relvars: &Relvars,
) -> Result<Declaration, Stop>
    ensures { Gives read_declaration result (rules.ordinal_declared (read_relvars relvars.now) (read_name word.now) (read_some_names values.now)) }
{
    let name = new_name(alloc, word, relvars)?;
    let values = few_values(alloc, values)?;
    let room = relvars.ordinals.list.len() < MOST_ORDINAL_TYPES;
    check(word.place, Code::E22, room)?;
    Ok(Declaration::Ordinal(name, values))
}
