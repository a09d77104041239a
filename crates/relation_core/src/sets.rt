// Union, difference and intersection.
ghost use Rattle.std.specs.Prelude.{◌≡◌, MatchResult};
ghost use Rattle.value_core.specs.Values.{IsRelation};
ghost use Rattle.relation_core.specs.Answers.{IsAnswer, IsRefusal};
ghost use Rattle.relation_core.specs.Merged.{merged};
ghost use Rattle.relation_core.specs.Operators.{united, subtracted, intersected};

use crate::answers::relation;
use crate::merging::{Keeps, merge};
use std::alloc::Global;
use value_core::{Relation, RowsRefuse};

/// The rows of either relation, which have one heading.
pub fn union(alloc: Global, left: &Relation, right: &Relation) -> Result<Relation, RowsRefuse>
    requires { left.now.heading ≡ right.now.heading }
    ensures { MatchResult result (IsAnswer left.now.heading (united left.now.rows right.now.rows)) (IsRefusal (united left.now.rows right.now.rows)) }
{
    merge_relations(
        alloc,
        left,
        right,
        Keeps {
            left: true,
            both: true,
            right: true,
        },
    )
}

/// The rows of the left relation that are not in the right one. Both have one heading.
pub fn minus(alloc: Global, left: &Relation, right: &Relation) -> Result<Relation, RowsRefuse>
    requires { left.now.heading ≡ right.now.heading }
    ensures { MatchResult result (IsAnswer left.now.heading (subtracted left.now.rows right.now.rows)) (IsRefusal (subtracted left.now.rows right.now.rows)) }
{
    merge_relations(
        alloc,
        left,
        right,
        Keeps {
            left: true,
            both: false,
            right: false,
        },
    )
}

/// The rows of both relations, which have one heading.
pub fn intersect(alloc: Global, left: &Relation, right: &Relation) -> Result<Relation, RowsRefuse>
    requires { left.now.heading ≡ right.now.heading }
    ensures { MatchResult result (IsAnswer left.now.heading (intersected left.now.rows right.now.rows)) (IsRefusal (intersected left.now.rows right.now.rows)) }
{
    merge_relations(
        alloc,
        left,
        right,
        Keeps {
            left: false,
            both: true,
            right: false,
        },
    )
}

/// The rows of two relations that a merge keeps.
fn merge_relations(
    alloc: Global,
    left: &Relation,
    right: &Relation,
    keeps: Keeps,
) -> Result<Relation, RowsRefuse>
    requires { left.now.heading ≡ right.now.heading }
    ensures relation { IsRelation left.now }
    ensures rows { MatchResult result (IsAnswer left.now.heading (merged keeps left.now.rows right.now.rows)) (IsRefusal (merged keeps left.now.rows right.now.rows)) }
{
    let rows = merge(alloc, left.rows(), right.rows(), keeps)?;
    relation(alloc, left.heading(), rows)
}
