// Nodes over typed operands.
ghost use Rattle.std.specs.Prelude.{◌≡◌};
ghost use Rattle.scalar_core.specs.Answers.{Gives};
ghost use Rattle.scalar_typing.specs.Names.{AreOrdinals};
ghost use Rattle.tree_core.specs.Trees.{read_tree};
ghost use Rattle.utd_syntax.specs.Read.{read_aggregates, read_list, read_names, read_projection, read_renamings, read_scalar, read_sets};
ghost use Rattle.node_typing.specs.Infixes as infixes;
ghost use Rattle.node_typing.specs.Nodes as rules;

use crate::infixes::infix_heading;
use crate::lists::listed;
use crate::projections::{projected, projection_place};
use crate::renamings::{renamed_heading, renaming_names};
use crate::rows::{condition_typed, extension_made};
use crate::summaries::{aggregates_made, groups_typed};
use crate::trees;
use crate::trees::{both_boxed, boxed, heading};
use point_core::{Place, Stop};
use std::alloc::Global;
use tree_core::{InfixWord, RelTree};
use utd_syntax as syntax;
use utd_syntax::{NameList, PackWord, Projection, Renamings};
use value_core::OrdinalTypes;

/// The operator that a word of one token names.
pub fn infix_named(word: syntax::InfixWord) -> InfixWord
    ensures { result ≡ infixes.infix_named word }
{
    match word {
        syntax::InfixWord::Union => InfixWord::Union,
        syntax::InfixWord::Intersect => InfixWord::Intersect,
        syntax::InfixWord::Minus => InfixWord::Minus,
        syntax::InfixWord::Join => InfixWord::Join,
        syntax::InfixWord::Matching => InfixWord::Matching,
    }
}

/// An operator between two relations: E13 or E12 at its first word, and E17 there for a join of too many attributes.
pub fn type_infix(
    alloc: Global,
    place: Place,
    word: InfixWord,
    left: RelTree,
    right: RelTree,
) -> Result<RelTree, Stop>
    ensures { Gives read_tree result (rules.infix_rule place word (read_tree left) (read_tree right)) }
{
    let (left, right) = both_boxed(alloc, left, right)?;
    infix_typed(alloc, place, word, left, right)
}

/// An operator between two operands in blocks of their own.
pub(crate) fn infix_typed(
    alloc: Global,
    place: Place,
    word: InfixWord,
    left: Box<RelTree>,
    right: Box<RelTree>,
) -> Result<RelTree, Stop>
    ensures { Gives read_tree result (rules.infix_rule place word (read_tree left.value) (read_tree right.value)) }
{
    let to = infix_heading(alloc, place, word, heading(&left), heading(&right))?;
    Ok(RelTree::infix(place, to, word, left, right))
}

/// A projection: E14 or E15 at a name.
pub fn type_projection(alloc: Global, projection: &Projection, t: RelTree) -> Result<RelTree, Stop>
    ensures { Gives read_tree result (rules.projection_rule (read_projection projection.now) (read_tree t)) }
{
    let part = boxed(alloc, t)?;
    projection_typed(alloc, projection, part)
}

/// The projection of an operand in a block of its own.
fn projection_typed(
    alloc: Global,
    projection: &Projection,
    part: Box<RelTree>,
) -> Result<RelTree, Stop>
    ensures { Gives read_tree result (rules.projection_rule (read_projection projection.now) (read_tree part.value)) }
{
    let (kept, to) = projected(alloc, heading(&part), projection)?;
    Ok(RelTree::project(projection_place(projection), to, kept, part))
}

/// A RENAME: E14 or E15 at an old name, then E15 at a new one. A name out of its length is E06; the reading of a text lets none
/// through.
pub fn type_renaming(
    alloc: Global,
    place: Place,
    renamings: &Renamings,
    t: RelTree,
) -> Result<RelTree, Stop>
    ensures { Gives read_tree result (rules.renaming_rule place (read_renamings renamings.now) (read_tree t)) }
{
    let part = boxed(alloc, t)?;
    renaming_typed(alloc, place, renamings, part)
}

/// The RENAME of an operand in a block of its own.
fn renaming_typed(
    alloc: Global,
    place: Place,
    renamings: &Renamings,
    part: Box<RelTree>,
) -> Result<RelTree, Stop>
    ensures { Gives read_tree result (rules.renaming_rule place (read_renamings renamings.now) (read_tree part.value)) }
{
    let names = renaming_names(alloc, heading(&part), renamings)?;
    let to = renamed_heading(alloc, names.list.as_slice(), heading(&part))?;
    Ok(RelTree::rename(place, to, names, part))
}

/// A WHERE: the refusals of its scalar, then E12 at the place.
pub fn type_restriction(
    alloc: Global,
    types: &OrdinalTypes,
    place: Place,
    scalar: &syntax::Scalar,
    t: RelTree,
) -> Result<RelTree, Stop>
    requires { AreOrdinals types.now }
    ensures { Gives read_tree result (rules.restriction_rule types.now place (read_scalar scalar.now) (read_tree t)) }
{
    let part = boxed(alloc, t)?;
    restriction_typed(alloc, types, place, scalar, part)
}

/// The WHERE over an operand in a block of its own.
fn restriction_typed(
    alloc: Global,
    types: &OrdinalTypes,
    place: Place,
    scalar: &syntax::Scalar,
    part: Box<RelTree>,
) -> Result<RelTree, Stop>
    requires { AreOrdinals types.now }
    ensures { Gives read_tree result (rules.restriction_rule types.now place (read_scalar scalar.now) (read_tree part.value)) }
{
    let to = heading(&part).copy(alloc)?;
    let c = condition_typed(alloc, types, place, heading(&part), scalar)?;
    Ok(RelTree::restrict(place, to, c, part))
}

/// An EXTEND: E15 at a name or the refusals of its scalar, item by item, then E17 at the place.
pub fn type_extension(
    alloc: Global,
    types: &OrdinalTypes,
    place: Place,
    sets: &syntax::Sets,
    t: RelTree,
) -> Result<RelTree, Stop>
    requires { AreOrdinals types.now }
    ensures { Gives read_tree result (rules.extension_rule types.now place (read_sets sets.now) (read_tree t)) }
{
    let part = boxed(alloc, t)?;
    extension_typed(alloc, types, place, sets, part)
}

/// The EXTEND of an operand in a block of its own.
fn extension_typed(
    alloc: Global,
    types: &OrdinalTypes,
    place: Place,
    sets: &syntax::Sets,
    part: Box<RelTree>,
) -> Result<RelTree, Stop>
    requires { AreOrdinals types.now }
    ensures { Gives read_tree result (rules.extension_rule types.now place (read_sets sets.now) (read_tree part.value)) }
{
    let made = extension_made(alloc, types, place, heading(&part), sets)?;
    Ok(RelTree::extend(place, made.heading, made.sets, part))
}

/// A SUMMARIZE: E14 or E15 at a name of BY; then item by item E15 at its name, the refusals of its scalar and E12 at its word;
/// then E17 at the place.
pub fn type_summary(
    alloc: Global,
    types: &OrdinalTypes,
    place: Place,
    by: &syntax::Names,
    aggregates: &syntax::Aggregates,
    t: RelTree,
) -> Result<RelTree, Stop>
    requires { AreOrdinals types.now }
    ensures { Gives read_tree result (rules.summary_rule types.now place (read_names by.now) (read_aggregates aggregates.now) (read_tree t)) }
{
    let part = boxed(alloc, t)?;
    summary_typed(alloc, types, place, by, aggregates, part)
}

/// The SUMMARIZE of an operand in a block of its own.
fn summary_typed(
    alloc: Global,
    types: &OrdinalTypes,
    place: Place,
    by: &syntax::Names,
    aggregates: &syntax::Aggregates,
    part: Box<RelTree>,
) -> Result<RelTree, Stop>
    requires { AreOrdinals types.now }
    ensures { Gives read_tree result (rules.summary_rule types.now place (read_names by.now) (read_aggregates aggregates.now) (read_tree part.value)) }
{
    let (by, groups) = groups_typed(alloc, heading(&part), by)?;
    let made = aggregates_made(alloc, types, place, heading(&part), &groups, aggregates)?;
    Ok(RelTree::summarize(place, made.heading, by, made.aggregates, part))
}

/// A PACK or an UNPACK: the refusals of its list.
pub fn type_packing(
    alloc: Global,
    place: Place,
    word: PackWord,
    list: &NameList,
    t: RelTree,
) -> Result<RelTree, Stop>
    ensures { Gives read_tree result (rules.packing_rule place word (read_list list.now) (read_tree t)) }
{
    let part = boxed(alloc, t)?;
    packing_typed(alloc, place, word, list, part)
}

/// The PACK or UNPACK of an operand in a block of its own.
fn packing_typed(
    alloc: Global,
    place: Place,
    word: PackWord,
    list: &NameList,
    part: Box<RelTree>,
) -> Result<RelTree, Stop>
    ensures { Gives read_tree result (rules.packing_rule place word (read_list list.now) (read_tree part.value)) }
{
    let commalist = listed(alloc, heading(&part), heading(&part), list)?;
    let to = heading(&part).copy(alloc)?;
    Ok(trees::pack(place, to, word, commalist, part))
}
