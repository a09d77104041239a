// The view of a history, over any expression of its since relvar's heading.
ghost use Rattle.std.specs.Prelude.{◌≡◌, [], ◌∷◌, IfOk};
ghost use Rattle.scalar_core.specs.Expressions.{read};
ghost use Rattle.tree_core.specs.Trees.{read_sets, read_tree};
ghost use Rattle.since_during.specs.Sides.{at_points, ended, joined, lasting, narrowed, united, IsNarrow};
ghost use Rattle.meaning_core.specs.Histories.{all_but};
ghost use Rattle.relation_core.specs.Agreement.{position_of};

use crate::headings::{all_but, one_position, with_attribute};
use point_core::{AnyType, Memory, Place};
use scalar_core::Scalar;
use std::alloc::Global;
use tree_core::{InfixWord, RelTree, Sets, attribute, closed_interval};
use value_core::{Heading, Kind, ListOf, Name, Positions, position};

/// The two relvars of a history as its view joins them: their headings, the attribute of the since relvar's points and that
/// of the during relvar's intervals, the type of the points, the during relvar's name, and the place of the nodes.
#[derive(Clone, Copy)]
pub(crate) struct Sides<'a> {
    pub(crate) place: Place,
    pub(crate) over: AnyType,
    pub(crate) point: &'a Name,
    pub(crate) span: &'a Name,
    pub(crate) during_name: &'a Name,
    pub(crate) since: &'a Heading,
    pub(crate) during: &'a Heading,
}

/// The interval from the since relvar's point up to the given one.
fn lasting(alloc: Global, sides: Sides<'_>, at: Place, end: Scalar) -> Result<Scalar, Memory>
    ensures { IfOk result (λ e. read e ≡ lasting sides.entry at (read end)) }
{
    let from = position(sides.since.attributes(), sides.point);
    closed_interval(alloc, at, sides.over, attribute(at, from), end)
}

/// A name with the expression of its value.
fn one_set(alloc: Global, name: &Name, e: Scalar) -> Result<Sets, Memory>
    ensures { IfOk result (λ s. read_sets s ≡ (name.now, read e) ∷ []) }
{
    let name = name.copy(alloc)?;
    let list = vec![in alloc; (name, e)]?;
    Ok(ListOf { list })
}

/// The intervals as values of the rows, and the attributes that the rows keep.
fn intervals(
    alloc: Global,
    sides: Sides<'_>,
    wide: &Heading,
    e: Scalar,
) -> Result<(Sets, Positions), Memory>
    ensures sets { IfOk result (λ p. read_sets p.0 ≡ (sides.entry.span.now, read e) ∷ []) }
    ensures kept { IfOk result (λ p. p.1 ≡ all_but (position_of wide.now sides.entry.point.now) wide.now) }
{
    let sets = one_set(alloc, sides.span, e)?;
    let kept = all_but(alloc, position(wide.attributes(), sides.point), wide)?;
    Ok((sets, kept))
}

/// The rows with these intervals, without the points.
fn narrowed(
    alloc: Global,
    sides: Sides<'_>,
    wide: &Heading,
    e: Scalar,
    t: RelTree,
) -> Result<RelTree, Memory>
    ensures { IfOk result (λ r. read_tree r ≡ narrowed sides.entry wide.now (read e) (read_tree t)) }
{
    let (sets, kept) = intervals(alloc, sides, wide, e)?;
    let rows = t.extended(alloc, sides.place, wide, sets)?;
    rows.projected(alloc, sides.place, sides.during, kept)
}

/// The rows of an expression of the since relvar's heading as rows of the during relvar's: each lasts up to the end.
fn ended(
    alloc: Global,
    sides: Sides<'_>,
    at: Place,
    end: Scalar,
    t: RelTree,
) -> Result<RelTree, Memory>
    requires { IsNarrow sides }
    ensures { IfOk result (λ r. read_tree r ≡ ended sides.entry at (read end) (read_tree t)) }
{
    let wide = with_attribute(alloc, sides.since, sides.span, Kind::Span(sides.over))?;
    let e = lasting(alloc, sides, at, end)?;
    narrowed(alloc, sides, &wide, e, t)
}

/// The during relvar's rows, and others of its heading.
fn united(alloc: Global, sides: Sides<'_>, more: RelTree) -> Result<RelTree, Memory>
    ensures { IfOk result (λ r. read_tree r ≡ united sides.entry (read_tree more)) }
{
    let own = RelTree::of_name(alloc, sides.place, sides.during, sides.during_name)?;
    own.joined(alloc, sides.place, sides.during, InfixWord::Union, more)
}

/// The rows point by point.
fn at_points(alloc: Global, sides: Sides<'_>, rows: RelTree) -> Result<RelTree, Memory>
    ensures { IfOk result (λ r. read_tree r ≡ at_points sides.entry (read_tree rows)) }
{
    let swept = one_position(alloc, position(sides.during.attributes(), sides.span))?;
    rows.under_using(alloc, sides.place, sides.during, swept)
}

/// The during relvar's rows, and those of an expression of the since relvar's heading, which last up to the end.
pub(crate) fn joined_history(
    alloc: Global,
    sides: Sides<'_>,
    at: Place,
    end: Scalar,
    t: RelTree,
) -> Result<RelTree, Memory>
    requires { IsNarrow sides }
    ensures { IfOk result (λ r. read_tree r ≡ joined sides.entry at (read end) (read_tree t)) }
{
    let more = ended(alloc, sides, at, end, t)?;
    let rows = united(alloc, sides, more)?;
    at_points(alloc, sides, rows)
}
