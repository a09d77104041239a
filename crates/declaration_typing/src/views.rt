// Views.
ghost use Rattle.utd_syntax.specs.Read.{read_name, read_rel};
ghost use Rattle.scalar_core.specs.Answers.{Gives};
ghost use Rattle.scalar_typing.specs.Names.{AreOrdinals};
ghost use Rattle.tree_core.specs.Relvars.{read_relvars};
ghost use Rattle.tree_core.specs.Trees.{read_tree};
ghost use Rattle.meaning_core.specs.Declarations.{read_declaration};
ghost use Rattle.declaration_typing.specs.Views as rules;

use crate::names::{new_name, room_for};
use crate::nodes::are_few;
use node_typing::check;
use point_core::{Code, Place, Stop};
use std::alloc::Global;
use tree_core::{Declaration, RelTree, Relvars};
use tree_typing::type_tree;
use utd_syntax::{Rel, Word};

/// The refusal of a view of this expression where it has too many nodes, or there are as many relvars and views as there may be.
pub(crate) fn room_for_view(
    alloc: Global,
    relvars: &Relvars,
    place: Place,
    tree: &RelTree,
) -> Result<(), Stop>
    ensures { Gives (λ _. tt) result (rules.room_for_view (read_relvars relvars.now) place (read_tree tree.now)) }
{
    let few = are_few(alloc, tree, relvars)?;
    check(place, Code::E22, few)?;
    room_for(relvars, place)
}

/// The view that VAR VIRTUAL declares where these are the relvars, views and ordinal types, or the first refusal.
#[tactic(auto, unfolding(crate::specs::Views::view_declared))]
pub fn type_view(
    alloc: Global,
    word: &Word,
    rel: &Rel,
    relvars: &Relvars,
) -> Result<Declaration, Stop>
    requires { AreOrdinals (read_relvars relvars.now).ordinals }
    ensures { Gives read_declaration result (rules.view_declared (read_relvars relvars.now) (read_name word.now) (read_rel rel.now)) }
{
    let name = new_name(alloc, word, relvars)?;
    let tree = type_tree(alloc, rel, relvars)?;
    match room_for_view(alloc, relvars, word.place, &tree) {
        Ok(()) => Ok(Declaration::View(name, tree)),
        Err(stop) => {
            drop(tree);
            Err(stop)
        }
    }
}
