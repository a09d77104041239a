// The nodes of relational expressions: each is made of parts that are there, and is read by one equation.
ghost use Rattle.std.specs.Prelude.{◌≡◌, map};
ghost use Rattle.scalar_core.specs.Expressions.{read};
ghost use Rattle.tree_core.specs.Trees as trees;
ghost use Rattle.tree_core.specs.Trees.{read_aggregate, read_sets, read_tree};

use crate::tree::{Aggregates, InfixWord, RelForm, RelTree, Sets};
use point_core::Place;
use scalar_core::Scalar;
use value_core::{Heading, Name, Names, Positions};

impl RelTree {
    /// A relvar or a view by its name.
    pub fn named(place: Place, heading: Heading, name: Name) -> RelTree
        ensures { read_tree result ≡ trees.named place heading name }
    {
        RelTree {
            place,
            heading,
            form: RelForm::Named(name),
        }
    }

    /// An operator between two relations.
    pub fn infix(
        place: Place,
        heading: Heading,
        word: InfixWord,
        left: Box<RelTree>,
        right: Box<RelTree>,
    ) -> RelTree
        ensures { read_tree result ≡ trees.infix_of place heading word (read_tree left.value) (read_tree right.value) }
    {
        RelTree {
            place,
            heading,
            form: RelForm::Infix(word, left, right),
        }
    }

    /// A projection.
    pub fn project(place: Place, heading: Heading, kept: Positions, part: Box<RelTree>) -> RelTree
        ensures { read_tree result ≡ trees.project place heading kept (read_tree part.value) }
    {
        RelTree {
            place,
            heading,
            form: RelForm::Project(kept, part),
        }
    }

    /// A RENAME.
    pub fn rename(place: Place, heading: Heading, names: Names, part: Box<RelTree>) -> RelTree
        ensures { read_tree result ≡ trees.rename place heading names (read_tree part.value) }
    {
        RelTree {
            place,
            heading,
            form: RelForm::Rename(names, part),
        }
    }

    /// A WHERE.
    pub fn restrict(place: Place, heading: Heading, c: Scalar, part: Box<RelTree>) -> RelTree
        ensures { read_tree result ≡ trees.restrict place heading (read c) (read_tree part.value) }
    {
        RelTree {
            place,
            heading,
            form: RelForm::Restrict(c, part),
        }
    }

    /// An EXTEND.
    pub fn extend(place: Place, heading: Heading, sets: Sets, part: Box<RelTree>) -> RelTree
        ensures { read_tree result ≡ trees.extend place heading (read_sets sets) (read_tree part.value) }
    {
        RelTree {
            place,
            heading,
            form: RelForm::Extend(sets, part),
        }
    }

    /// A SUMMARIZE.
    pub fn summarize(
        place: Place,
        heading: Heading,
        by: Positions,
        aggregates: Aggregates,
        part: Box<RelTree>,
    ) -> RelTree
        ensures { read_tree result ≡ trees.summarize place heading by (map read_aggregate aggregates) (read_tree part.value) }
    {
        RelTree {
            place,
            heading,
            form: RelForm::Summarize(by, aggregates, part),
        }
    }

    /// A PACK.
    pub fn pack(place: Place, heading: Heading, commalist: Positions, part: Box<RelTree>) -> RelTree
        ensures { read_tree result ≡ trees.pack place heading commalist (read_tree part.value) }
    {
        RelTree {
            place,
            heading,
            form: RelForm::Pack(commalist, part),
        }
    }

    /// An UNPACK.
    pub fn unpack(
        place: Place,
        heading: Heading,
        commalist: Positions,
        part: Box<RelTree>,
    ) -> RelTree
        ensures { read_tree result ≡ trees.unpack place heading commalist (read_tree part.value) }
    {
        RelTree {
            place,
            heading,
            form: RelForm::Unpack(commalist, part),
        }
    }

    /// A part under USING.
    pub fn using(
        place: Place,
        heading: Heading,
        commalist: Positions,
        part: Box<RelTree>,
    ) -> RelTree
        ensures { read_tree result ≡ trees.using place heading commalist (read_tree part.value) }
    {
        RelTree {
            place,
            heading,
            form: RelForm::Using(commalist, part),
        }
    }
}
