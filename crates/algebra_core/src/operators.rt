// The plain operators of nodes, with the limit of rows or_fault_at at their places.
ghost use Rattle.value_core.specs.Values.{Heading as PlainHeading};
ghost use Rattle.relation_core.specs.Answers.{Answers, under};
ghost use Rattle.relation_core.specs.Parts.{projected};
ghost use Rattle.meaning_core.specs.Meanings.{limited, infix_rows, renamed_rows};
ghost use Rattle.meaning_core.specs.Typing.{IsInfix, IsProjection, IsRenaming};

use point_core::{Place, Stop};
use relation_core::{intersect, join, matching, minus, not_matching, project, rename, union};
use row_making::or_fault_at;
use std::alloc::Global;
use tree_core::InfixWord;
use value_core::{MOST_ROWS, Names, Positions, Relation};

/// What the operator gives of two relations, or the fault of too many rows.
pub(crate) fn infix(
    alloc: Global,
    place: Place,
    word: InfixWord,
    left: &Relation,
    right: &Relation,
) -> Result<Relation, Stop>
    requires { (heading : PlainHeading) × IsInfix word left.now.heading right.now.heading heading }
    ensures { (heading : PlainHeading) → IsInfix word left.now.heading right.now.heading heading
        → Answers result (under heading (limited place (infix_rows word left.now.heading right.now.heading left.now.rows right.now.rows))) }
{
    match word {
        InfixWord::Union => or_fault_at(place, union(alloc, left, right)),
        InfixWord::Intersect => or_fault_at(place, intersect(alloc, left, right)),
        InfixWord::Minus => or_fault_at(place, minus(alloc, left, right)),
        InfixWord::Join => or_fault_at(place, join(alloc, left, right)),
        InfixWord::Matching => or_fault_at(place, matching(alloc, left, right)),
        InfixWord::NotMatching => or_fault_at(place, not_matching(alloc, left, right)),
    }
}

/// The parts of the rows at the positions.
pub(crate) fn projected(alloc: Global, r: &Relation, kept: &Positions) -> Result<Relation, Stop>
    requires { (heading : PlainHeading) × IsProjection r.now.heading heading kept.now }
    ensures { (place : _) (heading : PlainHeading) → IsProjection r.now.heading heading kept.now
        → Answers result (under heading (limited place (projected kept.now r.now.rows))) }
{
    let relation = project(alloc, r, kept.list.as_slice())?;
    Ok(relation)
}

/// The relation with new names of its attributes.
pub(crate) fn renamed(alloc: Global, r: &Relation, names: &Names) -> Result<Relation, Stop>
    requires { (heading : PlainHeading) × IsRenaming r.now.heading heading names.now }
    ensures { (place : _) (heading : PlainHeading) → IsRenaming r.now.heading heading names.now
        → Answers result (under heading (limited place (renamed_rows r.now.heading heading names.now r.now.rows))) }
{
    prove!(r.rows().len() <= MOST_ROWS);
    let relation = rename(alloc, r, names.list.as_slice())?;
    Ok(relation)
}
