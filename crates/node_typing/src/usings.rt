// USING over typed operands.
ghost use Rattle.scalar_core.specs.Answers.{Gives};
ghost use Rattle.scalar_typing.specs.Names.{AreOrdinals};
ghost use Rattle.tree_core.specs.Trees.{read_tree};
ghost use Rattle.utd_syntax.specs.Read.{read_aggregates, read_list, read_names, read_projection, read_scalar, read_sets};
ghost use Rattle.node_typing.specs.Usings as rules;

use crate::lists::{list_checked, listed};
use crate::nodes::infix_typed;
use crate::projections::{projected, projection_place};
use crate::rows::{condition_typed, extension_made};
use crate::summaries::{aggregates_made, groups_typed};
use crate::sweeps::{aggregates_name_no, all_kept, none_assigned, sets_swept, swept};
use crate::trees;
use crate::trees::{both_boxed, boxed, heading};
use point_core::{Place, Stop};
use std::alloc::Global;
use tree_core::{InfixWord, RelTree};
use utd_syntax as syntax;
use utd_syntax::{NameList, Projection};
use value_core::OrdinalTypes;

/// What stands around an operator under USING: the place of the whole, the list, and the operator's own place.
#[derive(Clone, Copy)]
pub struct UsingList<'a> {
    pub place: Place,
    pub list: &'a NameList,
    pub at: Place,
}

/// An operator between two relations under USING: the refusals of the list, then those of the operator.
pub fn type_using_infix(
    alloc: Global,
    using: UsingList<'_>,
    word: InfixWord,
    left: RelTree,
    right: RelTree,
) -> Result<RelTree, Stop>
    ensures { Gives read_tree result (rules.using_infix_rule using.entry.place (read_list using.entry.list.now) using.entry.at word (read_tree left) (read_tree right)) }
{
    let (left, right) = both_boxed(alloc, left, right)?;
    infix_used(alloc, using, word, left, right)
}

/// The operator between operands in blocks of their own.
fn infix_used(
    alloc: Global,
    using: UsingList<'_>,
    word: InfixWord,
    left: Box<RelTree>,
    right: Box<RelTree>,
) -> Result<RelTree, Stop>
    ensures { Gives read_tree result (rules.using_infix_rule using.entry.place (read_list using.entry.list.now) using.entry.at word (read_tree left.value) (read_tree right.value)) }
{
    list_checked(heading(&left), heading(&right), using.list)?;
    let part = infix_typed(alloc, using.at, word, left, right)?;
    trees::used(alloc, using.place, using.list, part)
}

/// A projection under USING: the refusals of the list and of the projection, then E19 at a listed name.
pub fn type_using_projection(
    alloc: Global,
    place: Place,
    list: &NameList,
    projection: &Projection,
    t: RelTree,
) -> Result<RelTree, Stop>
    ensures { Gives read_tree result (rules.using_projection_rule place (read_list list.now) (read_projection projection.now) (read_tree t)) }
{
    let of = boxed(alloc, t)?;
    projection_used(alloc, place, list, projection, of)
}

/// The projection of an operand in a block of its own.
fn projection_used(
    alloc: Global,
    place: Place,
    list: &NameList,
    projection: &Projection,
    of: Box<RelTree>,
) -> Result<RelTree, Stop>
    ensures { Gives read_tree result (rules.using_projection_rule place (read_list list.now) (read_projection projection.now) (read_tree of.value)) }
{
    list_checked(heading(&of), heading(&of), list)?;
    let (kept, to) = projected(alloc, heading(&of), projection)?;
    all_kept(to.attributes(), list.names.list.as_slice())?;
    let part = RelTree::project(projection_place(projection), to, kept, of);
    trees::used(alloc, place, list, part)
}

/// A WHERE under USING: the refusals of the list and of the condition, then E18 at a name in it.
pub fn type_using_restriction(
    alloc: Global,
    types: &OrdinalTypes,
    using: UsingList<'_>,
    scalar: &syntax::Scalar,
    t: RelTree,
) -> Result<RelTree, Stop>
    requires { AreOrdinals types.now }
    ensures { Gives read_tree result (rules.using_restriction_rule types.now using.entry.place (read_list using.entry.list.now) using.entry.at (read_scalar scalar.now) (read_tree t)) }
{
    let of = boxed(alloc, t)?;
    restriction_used(alloc, types, using, scalar, of)
}

/// The WHERE over an operand in a block of its own.
fn restriction_used(
    alloc: Global,
    types: &OrdinalTypes,
    using: UsingList<'_>,
    scalar: &syntax::Scalar,
    of: Box<RelTree>,
) -> Result<RelTree, Stop>
    requires { AreOrdinals types.now }
    ensures { Gives read_tree result (rules.using_restriction_rule types.now using.entry.place (read_list using.entry.list.now) using.entry.at (read_scalar scalar.now) (read_tree of.value)) }
{
    let to = heading(&of).copy(alloc)?;
    let commalist = listed(alloc, heading(&of), heading(&of), using.list)?;
    let c = condition_typed(alloc, types, using.at, heading(&of), scalar)?;
    match swept(commalist.list.as_slice(), &c) {
        Ok(()) => {
            let part = RelTree::restrict(using.at, to, c, of);
            trees::used(alloc, using.place, using.list, part)
        }
        Err(stop) => {
            drop(c);
            Err(stop)
        }
    }
}

/// An EXTEND under USING: the refusals of the list and of the items, then E19 at an item's name, then E18 at a name in an item.
pub fn type_using_extension(
    alloc: Global,
    types: &OrdinalTypes,
    using: UsingList<'_>,
    sets: &syntax::Sets,
    t: RelTree,
) -> Result<RelTree, Stop>
    requires { AreOrdinals types.now }
    ensures { Gives read_tree result (rules.using_extension_rule types.now using.entry.place (read_list using.entry.list.now) using.entry.at (read_sets sets.now) (read_tree t)) }
{
    let of = boxed(alloc, t)?;
    extension_used(alloc, types, using, sets, of)
}

/// The EXTEND of an operand in a block of its own.
fn extension_used(
    alloc: Global,
    types: &OrdinalTypes,
    using: UsingList<'_>,
    sets: &syntax::Sets,
    of: Box<RelTree>,
) -> Result<RelTree, Stop>
    requires { AreOrdinals types.now }
    ensures { Gives read_tree result (rules.using_extension_rule types.now using.entry.place (read_list using.entry.list.now) using.entry.at (read_sets sets.now) (read_tree of.value)) }
{
    let commalist = listed(alloc, heading(&of), heading(&of), using.list)?;
    let made = extension_made(alloc, types, using.at, heading(&of), sets)?;
    let words = using.list.names.list.as_slice();
    none_assigned(words, &sets.first, sets.more.list.as_slice())?;
    sets_swept(commalist.list.as_slice(), made.sets.list.as_slice())?;
    let part = RelTree::extend(using.at, made.heading, made.sets, of);
    trees::used(alloc, using.place, using.list, part)
}

/// A SUMMARIZE under USING: the refusals of the list and of the summary, then E19 at a listed name, then E18 at a listed name in
/// an aggregate.
pub fn type_using_summary(
    alloc: Global,
    types: &OrdinalTypes,
    using: UsingList<'_>,
    by: &syntax::Names,
    aggregates: &syntax::Aggregates,
    t: RelTree,
) -> Result<RelTree, Stop>
    requires { AreOrdinals types.now }
    ensures { Gives read_tree result (rules.using_summary_rule types.now using.entry.place (read_list using.entry.list.now) using.entry.at (read_names by.now) (read_aggregates aggregates.now) (read_tree t)) }
{
    let of = boxed(alloc, t)?;
    summary_used(alloc, types, using, by, aggregates, of)
}

/// The SUMMARIZE of an operand in a block of its own.
fn summary_used(
    alloc: Global,
    types: &OrdinalTypes,
    using: UsingList<'_>,
    by: &syntax::Names,
    aggregates: &syntax::Aggregates,
    of: Box<RelTree>,
) -> Result<RelTree, Stop>
    requires { AreOrdinals types.now }
    ensures { Gives read_tree result (rules.using_summary_rule types.now using.entry.place (read_list using.entry.list.now) using.entry.at (read_names by.now) (read_aggregates aggregates.now) (read_tree of.value)) }
{
    let commalist = listed(alloc, heading(&of), heading(&of), using.list)?;
    let (positions, groups) = groups_typed(alloc, heading(&of), by)?;
    let made = aggregates_made(alloc, types, using.at, heading(&of), &groups, aggregates)?;
    all_kept(groups.attributes(), using.list.names.list.as_slice())?;
    aggregates_name_no(commalist.list.as_slice(), made.aggregates.list.as_slice())?;
    let part = RelTree::summarize(using.at, made.heading, positions, made.aggregates, of);
    trees::used(alloc, using.place, using.list, part)
}
