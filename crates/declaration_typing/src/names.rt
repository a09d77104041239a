// The names of ordinal types, relvars, views, logs and database constraints, which are one set.
ghost use Rattle.std.specs.Prelude.{◌≡◌};
ghost use Rattle.std.specs.List.{list_any};
ghost use Rattle.std.specs.Str.{bytes_eq};
ghost use Rattle.scalar_core.specs.Answers.{Gives};
ghost use Rattle.utd_syntax.specs.Read.{read_name};
ghost use Rattle.tree_core.specs.Relvars.{read_relvars};
ghost use Rattle.declaration_typing.specs.Names as rules;

use crate::references::is_known;
use node_typing::check;
use point_core::{Code, Place, Stop};
use relation_typing::name_typed;
use std::alloc::Global;
use tree_core::Relvars;
use utd_syntax::Word;
use value_core::{MOST_RELVARS, Name, OrdinalTypes};

/// Whether an ordinal type has the name.
fn is_ordinal(types: &OrdinalTypes, name: &Name) -> bool
    ensures { result ≡ list_any (λ o. bytes_eq name.now o.name) types.now }
{
    types.list.iter().any(|ordinal| *name == ordinal.name)
}

/// Whether a database constraint has the name.
pub(crate) fn is_rule(relvars: &Relvars, name: &Name) -> bool
    ensures { result ≡ rules.is_rule (read_relvars relvars.now) name.now }
{
    for (other, _) in &relvars.rules {
        if *name == *other {
            return true;
        }
    }
    false
}

/// Whether an ordinal type, a relvar, a view, a log or a database constraint has the name.
fn is_taken(relvars: &Relvars, name: &Name) -> bool
    ensures { result ≡ rules.is_taken (read_relvars relvars.now) name.now }
{
    is_ordinal(&relvars.ordinals, name) || is_known(relvars, name) || is_rule(relvars, name)
}

/// The name, which nothing has.
pub(crate) fn new_name(alloc: Global, word: &Word, relvars: &Relvars) -> Result<Name, Stop>
    ensures { Gives (λ n. n) result (rules.new_name (read_relvars relvars.now) (read_name word.now)) }
{
    let name = name_typed(alloc, word)?;
    check(word.place, Code::E11, !is_taken(relvars, &name))?;
    Ok(name)
}

/// The refusal of a relvar, view or log where there are as many as there may be.
pub(crate) fn room_for(relvars: &Relvars, place: Place) -> Result<(), Stop>
    ensures { Gives (λ _. tt) result (rules.room_for (read_relvars relvars.now) place) }
{
    check(place, Code::E22, relvars.list.len() < MOST_RELVARS)
}
