// Base relvars.
ghost use Rattle.std.specs.Prelude.{IsTrue};
ghost use Rattle.utd_syntax.specs.Read.{read_name, read_heading, read_constraint_list};
ghost use Rattle.scalar_core.specs.Answers.{Gives};
ghost use Rattle.scalar_typing.specs.Names.{AreOrdinals};
ghost use Rattle.tree_core.specs.Relvars.{read_relvars};
ghost use Rattle.meaning_core.specs.Declarations.{read_declaration};
ghost use Rattle.declaration_typing.specs.Relvars as rules;

use crate::constraints::{constraints_typed, few_constraints};
use crate::names::{new_name, room_for};
use point_core::Stop;
use relation_typing::heading_typed;
use std::alloc::Global;
use tree_core::{Declaration, Relvars};
use utd_syntax as syntax;
use utd_syntax::{Constraints, Word};

/// The base relvar that VAR RELATION declares where these are the relvars, views and ordinal types, or the first refusal.
#[tactic(auto, unfolding(crate::specs::Relvars::relvar_declared))]
pub fn type_relvar(
    alloc: Global,
    word: &Word,
    heading: &syntax::Heading,
    constraints: &Constraints,
    relvars: &Relvars,
) -> Result<Declaration, Stop>
    requires ordinals { AreOrdinals (read_relvars relvars.now).ordinals }
    ensures { Gives read_declaration result (rules.relvar_declared (read_relvars relvars.now) (read_name word.now) (read_heading heading.now) (read_constraint_list constraints.now.list.items)) }
{
    let written = constraints.list.as_slice();
    let name = new_name(alloc, word, relvars)?;
    let heading = heading_typed(alloc, &relvars.ordinals, heading)?;
    let typed = constraints_typed(alloc, relvars, &name, &heading, written)?;
    few_constraints(written)?;
    room_for(relvars, word.place)?;
    Ok(Declaration::Base(name, heading, typed))
}
