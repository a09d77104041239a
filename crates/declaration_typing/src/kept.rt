// Kept views.
ghost use Rattle.utd_syntax.specs.Read.{read_kept, read_name};
ghost use Rattle.scalar_core.specs.Answers.{Gives};
ghost use Rattle.tree_core.specs.Relvars.{read_relvars};
ghost use Rattle.tree_core.specs.Trees.{read_tree};
ghost use Rattle.declaration_typing.specs.KeptViews as rules;

use crate::names::new_name;
use crate::references::base_heading;
use crate::views::room_for_view;
use point_core::Stop;
use relation_typing::name_typed;
use std::alloc::Global;
use tree_core::{RelTree, Relvars};
use tree_typing::{relvar_of, type_kept as type_expression};
use utd_syntax::{Kept, Word};
use value_core::{Heading, Name};

/// The heading of the base relvar of a name.
fn base_named<'a>(alloc: Global, word: &Word, relvars: &'a Relvars) -> Result<&'a Heading, Stop>
    ensures { Gives (λ h. h.now) result (rules.base_named (read_relvars relvars.now) (read_name word.now)) }
{
    let name = name_typed(alloc, word)?;
    base_heading(word.place, relvar_of(relvars, &name))
}

/// The refusal of the first of two names that is not that of a base relvar.
fn both_named<'a>(
    alloc: Global,
    left: &Word,
    right: &Word,
    relvars: &'a Relvars,
) -> Result<&'a Heading, Stop>
    ensures { Gives (λ h. h.now) result (rules.both_named (read_relvars relvars.now) (read_name left.now) (read_name right.now)) }
{
    base_named(alloc, left, relvars)?;
    base_named(alloc, right, relvars)
}

/// The refusal of the first operand that is not the name of a base relvar.
fn bases_named<'a>(alloc: Global, kept: &Kept, relvars: &'a Relvars) -> Result<&'a Heading, Stop>
    ensures { Gives (λ h. h.now) result (rules.bases_named (read_relvars relvars.now) (read_kept kept.now)) }
{
    match kept {
        Kept::Infix(_, _, left, _, _, right) => both_named(alloc, left, right, relvars),
        Kept::NotMatching(_, _, left, _, right) => both_named(alloc, left, right, relvars),
        Kept::Project(_, _, of, _) => base_named(alloc, of, relvars),
        Kept::Pack(_, of, _) => base_named(alloc, of, relvars),
    }
}

/// The name and the expression of the view that VAR KEPT declares where these are the relvars, views and ordinal types, or the first refusal.
#[tactic(auto, unfolding(crate::specs::KeptViews::kept_declared))]
pub fn type_kept(
    alloc: Global,
    word: &Word,
    kept: &Kept,
    relvars: &Relvars,
) -> Result<(Name, RelTree), Stop>
    ensures { Gives (λ v. (v.0, read_tree v.1)) result (rules.kept_declared (read_relvars relvars.now) (read_name word.now) (read_kept kept.now)) }
{
    let name = new_name(alloc, word, relvars)?;
    bases_named(alloc, kept, relvars)?;
    let tree = type_expression(alloc, kept, relvars)?;
    match room_for_view(alloc, relvars, word.place, &tree) {
        Ok(()) => Ok((name, tree)),
        Err(stop) => {
            drop(tree);
            Err(stop)
        }
    }
}
