// Foreign keys over what is unpacked.
ghost use Rattle.std.specs.Prelude.{◌≡◌, ◌+◌, ◌<◌, ◌≤◌, ℕ, true, length, map, IfOk};
ghost use Rattle.std.specs.List.{All};
ghost use Rattle.point_core.specs.Points.{number, IsPointOf};
ghost use Rattle.value_core.specs.Values.{IsRelation};
ghost use Rattle.relation_core.specs.Agreement.{part_of};
ghost use Rattle.cell_core.specs.Boxes.{IsBox};
ghost use Rattle.cell_core.specs.Cells.{row_numbers};
ghost use Rattle.cell_core.specs.Costs.{bound};
ghost use Rattle.meaning_core.specs.Typing.{IsList};
ghost use Rattle.meaning_core.specs.WellMade.{AreAlike, AreAmong, AreDifferent};
ghost use Rattle.u_set.specs.Boxes.{AreIntervals, boxed, types_at};
ghost use Rattle.relation_core.specs.Parts.{projected};
ghost use Rattle.u_row.specs.Kept.{inner, unlisted};
ghost use Rattle.u_row.specs.Labels.{relabelled};
ghost use Rattle.u_constraints.specs.Constraints.{counterpart, is_referenced};
ghost use Rattle.u_constraints.specs.Near.{with_keys};

use crate::near::{are_fewer, rows_with_keys};
use crate::parts::boxes_of_parts;
use crate::prefixes::are_first;
use crate::runs::{KeySide, are_covered};
use crate::search::are_few;
use cell_core::{BoxRow, within_points};
use point_core::{AnyType, Memory, Steps};
use relation_core::sorted_parts;
use std::alloc::Global;
use std::sync::ledger::Ledger;
use u_row::{inner, unlisted};
use u_set::{to_boxes, types_at};
use value_core::{Relation, Row};

/// What stands there at the place of the position in `here`; the position itself where it does not stand in `here`.
fn counterpart(here: &[usize], there: &[usize], position: usize) -> usize
    requires { length here.now ≡ length there.now }
    ensures { result ≡ counterpart here.now there.now position }
{
    for (at, own) in here.iter().enumerate() {
        if *own == position {
            return there[at];
        }
    }
    position
}

/// The counterparts of the positions.
fn counterparts(
    alloc: Global,
    positions: &[usize],
    here: &[usize],
    there: &[usize],
) -> Result<Vec<usize>, Memory>
    requires { length here.now ≡ length there.now }
    ensures { IfOk result (λ v. v.items ≡ map (counterpart here.now there.now) positions.now) }
{
    let mut list = Vec::with_capacity(alloc, positions.len())?;
    for position in positions {
        list.push(counterpart(here, there, *position))?;
    }
    Ok(list)
}

/// The boxes of a relation's rows under the rows' values at those of the positions that are not unpacked.
fn boxes_at(
    alloc: Global,
    r: &Relation,
    commalist: &[usize],
    positions: &[usize],
) -> Result<Vec<BoxRow<AnyType, Row>>, Memory>
    requires intervals { AreIntervals r.now.heading commalist.now }
    requires within { All (λ (i : ℕ). i < length r.now.heading) positions.now }
    ensures relation { IsRelation r.now }
    ensures rows { IfOk result (λ v. map (row_numbers number) v.items ≡ map (relabelled (part_of (inner commalist.now positions.now))) (map (boxed commalist.now) r.now.rows)) }
    ensures boxes { IfOk result (λ v. All (λ b. IsBox IsPointOf (types_at r.now.heading commalist.now) b.1) v.items) }
{
    let boxes = to_boxes(alloc, r, commalist)?;
    let places = inner(alloc, commalist, positions)?;
    boxes_of_parts(alloc, boxes.as_slice(), places.as_slice())
}

/// Whether the values here of each of the unpacked rows are the values there of one of the other's rows, unpacked alike, by
/// the boxes of all rows.
fn is_referenced_by_boxes<L: Ledger>(
    alloc: Global,
    commalist: &[usize],
    of: &Relation,
    here: &[usize],
    other: &Relation,
    there: &[usize],
    steps: &mut Steps<L>,
) -> Result<bool, Memory>
    requires list { IsList of.now.heading commalist.now }
    requires here { AreDifferent of.now.heading here.now }
    requires lies { AreAmong here.now commalist.now }
    requires there { AreDifferent other.now.heading there.now }
    requires alike { AreAlike of.now.heading here.now other.now.heading there.now }
    ensures answer { IfOk result (λ kept. kept ≡ is_referenced commalist.now here.now there.now of.now.rows other.now.rows) }
    ensures cost { steps.new ≤ steps.old + bound (length of.now.rows + length other.now.rows) (length commalist.now) }
{
    let commalist_there = counterparts(alloc, commalist, here, there)?;
    let types = types_at(alloc, of.heading().attributes(), commalist)?;
    let left = boxes_at(alloc, of, commalist, here)?;
    let right = boxes_at(alloc, other, commalist_there.as_slice(), there)?;
    within_points(
        alloc,
        types.as_slice(),
        left.as_slice(),
        right.as_slice(),
        steps,
    )
}

/// The positions of a foreign key that are not unpacked, here and there.
#[derive(Drop)]
pub(crate) struct Rest {
    pub own: Vec<usize>,
    pub theirs: Vec<usize>,
}

/// What of a foreign key is not unpacked.
pub(crate) fn rest_of_key(
    alloc: Global,
    commalist: &[usize],
    here: &[usize],
    there: &[usize],
) -> Result<Rest, Memory>
    requires { length here.now ≡ length there.now }
    ensures own { IfOk result (λ rest. rest.own.items ≡ unlisted commalist.now here.now) }
    ensures theirs { IfOk result (λ rest. rest.theirs.items ≡ unlisted (map (counterpart here.now there.now) commalist.now) there.now) }
{
    let commalist_there = counterparts(alloc, commalist, here, there)?;
    let own = unlisted(alloc, commalist, here)?;
    let theirs = unlisted(alloc, commalist_there.as_slice(), there)?;
    Ok(Rest { own, theirs })
}

/// The rows there with the values of some row here at what is not unpacked. No others can hold an unpacked row here.
fn rows_near(
    alloc: Global,
    commalist: &[usize],
    of: &Relation,
    here: &[usize],
    other: &Relation,
    there: &[usize],
) -> Result<Relation, Memory>
    requires here { AreDifferent of.now.heading here.now }
    requires lies { AreAmong here.now commalist.now }
    requires there { AreDifferent other.now.heading there.now }
    requires alike { AreAlike of.now.heading here.now other.now.heading there.now }
    ensures { IfOk result (λ r. (r.heading ≡ other.now.heading)
        × (r.rows ≡ with_keys (unlisted (map (counterpart here.now there.now) commalist.now) there.now) (projected (unlisted commalist.now here.now) of.now.rows) other.now.rows)) }
{
    let rest = rest_of_key(alloc, commalist, here, there)?;
    let keys = sorted_parts(alloc, of, rest.own.as_slice())?;
    rows_with_keys(alloc, other, rest.theirs.as_slice(), keys.as_slice())
}

/// Whether the rows there are found best by search: these are many, and what is not unpacked stands first.
fn are_found_by_search(
    alloc: Global,
    commalist: &[usize],
    of: &Relation,
    here: &[usize],
    other: &Relation,
    there: &[usize],
) -> Result<bool, Memory>
    requires { length here.now ≡ length there.now }
{
    let rest = rest_of_key(alloc, commalist, here, there)?;
    Ok(are_few(of, other) && are_first(rest.theirs.as_slice()))
}

/// Whether it is seen without boxes that each of the rows, unpacked on one attribute, has its values there, by runs of all rows there.
fn is_seen_among(
    alloc: Global,
    commalist: &[usize],
    of: &Relation,
    here: &[usize],
    other: &Relation,
    there: &[usize],
) -> Result<bool, Memory>
    requires one { length commalist.now ≡ 1 }
    requires list { IsList of.now.heading commalist.now }
    requires here { AreDifferent of.now.heading here.now }
    requires lies { AreAmong here.now commalist.now }
    requires there { AreDifferent other.now.heading there.now }
    requires alike { AreAlike of.now.heading here.now other.now.heading there.now }
    ensures { IfOk result (λ b. b ≡ true → is_referenced commalist.now here.now there.now of.now.rows other.now.rows ≡ true) }
{
    let rest = rest_of_key(alloc, commalist, here, there)?;
    let at = commalist[0];
    let own = KeySide {
        label: rest.own.as_slice(),
        at,
    };
    let theirs = KeySide {
        label: rest.theirs.as_slice(),
        at: counterpart(here, there, at),
    };
    are_covered(alloc, of, own, other, theirs)
}

/// Whether it is seen without boxes that the values here of each of the unpacked rows are those there of one of the other's rows, unpacked
/// alike. Where more than one attribute is unpacked it is not seen.
fn is_seen(
    alloc: Global,
    commalist: &[usize],
    of: &Relation,
    here: &[usize],
    other: &Relation,
    there: &[usize],
) -> Result<bool, Memory>
    requires list { IsList of.now.heading commalist.now }
    requires here { AreDifferent of.now.heading here.now }
    requires lies { AreAmong here.now commalist.now }
    requires there { AreDifferent other.now.heading there.now }
    requires alike { AreAlike of.now.heading here.now other.now.heading there.now }
    ensures { IfOk result (λ b. b ≡ true → is_referenced commalist.now here.now there.now of.now.rows other.now.rows ≡ true) }
{
    if commalist.len() != 1 {
        return Ok(false);
    }
    if are_found_by_search(alloc, commalist, of, here, other, there)? {
        let near = rows_near(alloc, commalist, of, here, other, there)?;
        return is_seen_among(alloc, commalist, of, here, &near, there);
    }
    is_seen_among(alloc, commalist, of, here, other, there)
}

/// Whether the values here of each of the unpacked rows are the values there of one of the other's rows, unpacked alike. Where it is not
/// seen without boxes, these tell it. Of many rows there those alone are looked at that have the values of some row here at what is not
/// unpacked, if that is not all.
pub(crate) fn is_referenced_unpacked<L: Ledger>(
    alloc: Global,
    commalist: &[usize],
    of: &Relation,
    here: &[usize],
    other: &Relation,
    there: &[usize],
    steps: &mut Steps<L>,
) -> Result<bool, Memory>
    requires list { IsList of.now.heading commalist.now }
    requires here { AreDifferent of.now.heading here.now }
    requires lies { AreAmong here.now commalist.now }
    requires there { AreDifferent other.now.heading there.now }
    requires alike { AreAlike of.now.heading here.now other.now.heading there.now }
    ensures answer { IfOk result (λ kept. kept ≡ is_referenced commalist.now here.now there.now of.now.rows other.now.rows) }
    ensures cost { steps.new ≤ steps.old + bound (length of.now.rows + length other.now.rows) (length commalist.now) }
{
    if is_seen(alloc, commalist, of, here, other, there)? {
        return Ok(true);
    }
    if commalist.len() == here.len() || !are_fewer(of, other) {
        return is_referenced_by_boxes(alloc, commalist, of, here, other, there, steps);
    }
    let near = rows_near(alloc, commalist, of, here, other, there)?;
    is_referenced_by_boxes(alloc, commalist, of, here, &near, there, steps)
}
