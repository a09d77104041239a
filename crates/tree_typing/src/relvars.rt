// Names of relvars and views.
ghost use Rattle.std.specs.Prelude.{◌≡◌, IfOk, IfSome, option_map};
ghost use Rattle.scalar_core.specs.Answers.{Gives};
ghost use Rattle.utd_syntax.specs.Read.{read_name};
ghost use Rattle.tree_core.specs.Relvars.{read_relvar, read_relvars, relvar_named};
ghost use Rattle.tree_core.specs.Trees.{named, read_tree};
ghost use Rattle.tree_typing.specs.Scopes.{read_scope};
ghost use Rattle.tree_typing.specs.Trees as rules;

use crate::scopes::Scope;
use node_typing::check;
use point_core::{Code, Fault, Memory, Place, Stop};
use relation_typing::name_typed;
use std::alloc::Global;
use tree_core::{RelTree, Relvar, Relvars, is_one_of};
use utd_syntax::Word;
use value_core::{Heading, Name};

/// The relvar or view of the name.
pub fn relvar_of<'a>(relvars: &'a Relvars, name: &Name) -> Option<&'a Relvar>
    ensures { option_map (λ r. read_relvar r.now) result ≡ relvar_named (read_relvars relvars.now).relvars name.now }
{
    relvars.named(name)
}

/// A name with its heading.
fn named(alloc: Global, place: Place, heading: &Heading, name: Name) -> Result<RelTree, Memory>
    ensures { IfOk result (λ t. read_tree t ≡ named place heading.now name) }
{
    let heading = heading.copy(alloc)?;
    Ok(RelTree::named(place, heading, name))
}

/// The typed tree of a relvar's or a view's name: E10 at it where there is none, and E20 where it may not be named. A name out of its
/// length is E06; the reading of a text lets none through.
pub(crate) fn type_relvar(alloc: Global, word: &Word, scope: Scope<'_>) -> Result<RelTree, Stop>
    ensures { Gives read_tree result (rules.relvar_typed (read_scope scope.entry) (read_name word.now)) }
{
    let name = name_typed(alloc, word)?;
    match relvar_of(scope.relvars, &name) {
        Some(relvar) => {
            check(word.place, Code::E20, !is_one_of(&name, scope.closed))?;
            let t = named(alloc, word.place, relvar.heading(), name)?;
            Ok(t)
        }
        None => Err(Stop::Fault(Fault {
            place: word.place,
            code: Code::E10,
        })),
    }
}
