// The nodes of typed trees.
ghost use Rattle.std.specs.Prelude.{◌≡◌, IfOk, Ok};
ghost use Rattle.utd_syntax.specs.Read.{read_list};
ghost use Rattle.scalar_core.specs.Answers.{Gives};
ghost use Rattle.tree_core.specs.Trees.{heading_of, read_tree};
ghost use Rattle.node_typing.specs.Lists.{listed_names};
ghost use Rattle.node_typing.specs.Nodes as nodes;
ghost use Rattle.node_typing.specs.Usings as usings;

use crate::lists::positions_of;
use point_core::{Memory, Place, Stop};
use std::alloc::Global;
use tree_core::RelTree;
use utd_syntax::{NameList, PackWord};
use value_core::{Heading, Positions};

/// The heading of a tree.
pub(crate) fn heading(t: &RelTree) -> &Heading
    ensures { result.now ≡ heading_of (read_tree t.now) }
{
    &t.heading
}

/// The tree in a block of its own: what is typed passes on a pointer instead of the whole tree.
pub(crate) fn boxed(alloc: Global, t: RelTree) -> Result<Box<RelTree>, Memory>
    ensures { IfOk result (λ b. b.value ≡ t) }
{
    let part = Box::new(alloc, t)?;
    Ok(part)
}

/// Two trees, each in a block of its own.
pub(crate) fn both_boxed(
    alloc: Global,
    left: RelTree,
    right: RelTree,
) -> Result<(Box<RelTree>, Box<RelTree>), Memory>
    ensures left { IfOk result (λ p. p.0.value ≡ left) }
    ensures right { IfOk result (λ p. p.1.value ≡ right) }
{
    let first = boxed(alloc, left);
    let second = boxed(alloc, right);
    Ok((first?, second?))
}

/// A PACK or an UNPACK.
pub(crate) fn pack(
    place: Place,
    heading: Heading,
    word: PackWord,
    commalist: Positions,
    part: Box<RelTree>,
) -> RelTree
    ensures { read_tree result ≡ nodes.packed_by word place heading commalist (read_tree part.value) }
{
    match word {
        PackWord::Pack => RelTree::pack(place, heading, commalist, part),
        PackWord::Unpack => RelTree::unpack(place, heading, commalist, part),
    }
}

/// The part under USING with the listed attributes.
pub(crate) fn used(
    alloc: Global,
    place: Place,
    list: &NameList,
    part: RelTree,
) -> Result<RelTree, Stop>
    ensures { Gives read_tree result (Ok (usings.used place (listed_names (read_list list.now)) (read_tree part))) }
{
    let part = boxed(alloc, part)?;
    using(alloc, place, list, part)
}

/// The node of USING over a part in a block of its own.
fn using(alloc: Global, place: Place, list: &NameList, part: Box<RelTree>) -> Result<RelTree, Stop>
    ensures { Gives read_tree result (Ok (usings.used place (listed_names (read_list list.now)) (read_tree part.value))) }
{
    let commalist = positions_of(alloc, heading(&part), list)?;
    let heading = heading(&part).copy(alloc)?;
    Ok(RelTree::using(place, heading, commalist, part))
}
