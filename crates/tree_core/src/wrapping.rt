// Expressions put into nodes, each with a copy of the heading of its rows.
ghost use Rattle.std.specs.Prelude.{◌≡◌, IfOk};
ghost use Rattle.scalar_core.specs.Expressions.{read};
ghost use Rattle.tree_core.specs.Trees as trees;
ghost use Rattle.tree_core.specs.Trees.{read_sets, read_tree};

use crate::tree::{InfixWord, RelTree, Sets};
use point_core::{Memory, Place};
use scalar_core::Scalar;
use std::alloc::Global;
use value_core::{Heading, Name, Positions};

/// The heading of a node, and its part in a block of its own.
fn wrapped(
    alloc: Global,
    heading: &Heading,
    part: RelTree,
) -> Result<(Heading, Box<RelTree>), Memory>
    ensures heading { IfOk result (λ w. w.0 ≡ heading.now) }
    ensures part { IfOk result (λ w. w.1.value ≡ part) }
{
    let part = Box::new(alloc, part)?;
    let heading = heading.copy(alloc)?;
    Ok((heading, part))
}

impl RelTree {
    /// The relvar or view of the name.
    pub fn of_name(
        alloc: Global,
        place: Place,
        heading: &Heading,
        name: &Name,
    ) -> Result<RelTree, Memory>
        ensures { IfOk result (λ t. read_tree t ≡ trees.named place heading.now name.now) }
    {
        let heading = heading.copy(alloc)?;
        let name = name.copy(alloc)?;
        Ok(RelTree::named(place, heading, name))
    }

    /// The rows that meet the condition.
    pub fn restricted(
        self,
        alloc: Global,
        place: Place,
        heading: &Heading,
        c: Scalar,
    ) -> Result<RelTree, Memory>
        ensures { IfOk result (λ t. read_tree t ≡ trees.restrict place heading.now (read c) (read_tree self)) }
    {
        let (heading, part) = wrapped(alloc, heading, self)?;
        Ok(RelTree::restrict(place, heading, c, part))
    }

    /// The rows with new values.
    pub fn extended(
        self,
        alloc: Global,
        place: Place,
        heading: &Heading,
        sets: Sets,
    ) -> Result<RelTree, Memory>
        ensures { IfOk result (λ t. read_tree t ≡ trees.extend place heading.now (read_sets sets) (read_tree self)) }
    {
        let (heading, part) = wrapped(alloc, heading, self)?;
        Ok(RelTree::extend(place, heading, sets, part))
    }

    /// The rows on some of the attributes.
    pub fn projected(
        self,
        alloc: Global,
        place: Place,
        heading: &Heading,
        kept: Positions,
    ) -> Result<RelTree, Memory>
        ensures { IfOk result (λ t. read_tree t ≡ trees.project place heading.now kept (read_tree self)) }
    {
        let (heading, part) = wrapped(alloc, heading, self)?;
        Ok(RelTree::project(place, heading, kept, part))
    }

    /// The rows of two expressions joined by a word.
    pub fn joined(
        self,
        alloc: Global,
        place: Place,
        heading: &Heading,
        word: InfixWord,
        right: RelTree,
    ) -> Result<RelTree, Memory>
        ensures { IfOk result (λ t. read_tree t ≡ trees.infix_of place heading.now word (read_tree self) (read_tree right)) }
    {
        let right = Box::new(alloc, right);
        let (heading, left) = wrapped(alloc, heading, self)?;
        let right = right?;
        Ok(RelTree::infix(place, heading, word, left, right))
    }

    /// The expression under USING.
    pub fn under_using(
        self,
        alloc: Global,
        place: Place,
        heading: &Heading,
        commalist: Positions,
    ) -> Result<RelTree, Memory>
        ensures { IfOk result (λ t. read_tree t ≡ trees.using place heading.now commalist (read_tree self)) }
    {
        let (heading, part) = wrapped(alloc, heading, self)?;
        Ok(RelTree::using(place, heading, commalist, part))
    }
}
