// NOT MATCHING of two relations under USING of one attribute, over rows themselves.
ghost use Rattle.std.specs.Prelude.{◌≡◌, ◌∷◌, [], map, length, List, IfOk, IfSome, IsTrue, MatchResult};
ghost use Rattle.cell_packing.specs.Boxed.{packed_boxes};
ghost use Rattle.value_core.specs.Relations.{all_fit};
ghost use Rattle.value_core.specs.RowPacking.{packed, unpacked};
ghost use Rattle.value_core.specs.Values.{IsRelation, row_cmp, rows_of};
ghost use Rattle.relation_core.specs.Agreement.{common_positions, unmatched};
ghost use Rattle.relation_core.specs.Answers.{IsAnswer, IsRefusal};
ghost use Rattle.relation_core.specs.Joins.{HaveEqualKinds};
ghost use Rattle.relation_core.specs.Parts.{attributes_at, kind_at};
ghost use Rattle.u_set.specs.Boxes.{AreIntervals, type_of, boxed, unboxed};
ghost use Rattle.u_row.specs.Kept.{unlisted};
ghost use Rattle.u_join.specs.RowPairs.{Stood, seen, Ascend, HaveOrder};
ghost use Rattle.u_join.specs.Rests.{AreOfOneType, AreRests, AreLeft, rest_at, rest_row};

use crate::packing::packed_copy;
use crate::pairing::{are_few, key_positions, type_at};
use crate::rests::rests_of;
use crate::row_rests::of_rests;
use crate::runs::runs_of;
use crate::standing::{Standing, rows_standing};
use point_core::{AnyType, Memory};
use std::alloc::Global;
use u_set::coalesced;
use value_core::{Relation, Row, RowsRefuse};

// The left rows, each once for each part of its interval that no right row of its key covers.
fn rows_left(
    alloc: Global,
    left: &[Standing],
    right: &[Standing],
    point_type: AnyType,
    at: usize,
) -> Result<Vec<Row>, Memory>
    requires left { Ascend seen left.now }
    requires right { Ascend seen right.now }
    requires lefts { HaveOrder seen left.now }
    requires rights { HaveOrder seen right.now }
    requires of_type { AreOfOneType seen point_type at left.now }
    ensures { IfOk result (λ v. (parts : List Stood) × AreRests seen left.now right.now (length left.now) parts × (v.items ≡ map (rest_row point_type at) parts)) }
{
    let runs = runs_of(alloc, right)?;
    let parts = rests_of(alloc, left, runs.as_slice())?;
    let rows = of_rests(alloc, parts.as_slice(), point_type, at)?;
    Ok(rows)
}

// The left rows, each with what of its interval no right row covers that agrees beside it. There are none where it is to be seen
// whether left rows overlap that have all values else alike, and they may.
fn leaving_rows(
    alloc: Global,
    left: &Relation,
    right: &Relation,
    here: usize,
    there: usize,
    looking: bool,
) -> Result<Option<Vec<Row>>, Memory>
    requires left { AreIntervals left.now.heading (here ∷ []) }
    requires right { AreIntervals right.now.heading (there ∷ []) }
    ensures left_relation { IsRelation left.now }
    ensures right_relation { IsRelation right.now }
    ensures rows { IfOk result (λ o. IfSome o (λ v. AreLeft
        (unlisted (here ∷ []) (common_positions left.now.heading left.now.heading right.now.heading))
        (unlisted (there ∷ []) (common_positions right.now.heading left.now.heading right.now.heading))
        here there
        (rest_at (type_of (kind_at left.now.heading here)) here)
        left.now.rows right.now.rows v.items)) }
{
    let ours = left.heading().attributes();
    let theirs = right.heading().attributes();
    let key = key_positions(alloc, ours, ours, theirs, here)?;
    let other_key = key_positions(alloc, theirs, ours, theirs, there)?;
    let lefts = rows_standing(alloc, left, key.as_slice(), here)?;
    let rights = rows_standing(alloc, right, other_key.as_slice(), there)?;
    let (ls, rs) = (lefts.as_slice(), rights.as_slice());
    if looking && !are_few(alloc, left, here, ls)? {
        return Ok(None);
    }
    let rows = rows_left(alloc, ls, rs, type_at(ours, here), here)?;
    Ok(Some(rows))
}

// The same rows. Packed they are the left ones that agree with no right one.
fn unmatched_rows(
    alloc: Global,
    left: &Relation,
    right: &Relation,
    here: usize,
    there: usize,
    looking: bool,
) -> Result<Option<Vec<Row>>, Memory>
    requires kinds { HaveEqualKinds left.now.heading right.now.heading }
    requires same { attributes_at (here ∷ []) left.now.heading ≡ attributes_at (there ∷ []) right.now.heading }
    requires left { AreIntervals left.now.heading (here ∷ []) }
    requires right { AreIntervals right.now.heading (there ∷ []) }
    ensures fit { IfOk result (λ o. IfSome o (λ v. IsTrue (all_fit left.now.heading v.items))) }
    ensures rows { IfOk result (λ o. IfSome o (λ v.
        rows_of (map (unboxed left.now.heading (here ∷ [])) (packed_boxes row_cmp 1 (map (boxed (here ∷ [])) v.items)))
        ≡ packed (here ∷ []) (unmatched left.now.heading right.now.heading (unpacked (here ∷ []) left.now.rows) (unpacked (there ∷ []) right.now.rows)))) }
{
    leaving_rows(alloc, left, right, here, there, looking)
}

// NOT MATCHING under USING of the attribute that stands at the positions, or nothing where it is to be seen whether left rows overlap,
// and they may.
fn unmatched_once(
    alloc: Global,
    left: &Relation,
    right: &Relation,
    here: usize,
    there: usize,
    looking: bool,
) -> Result<Option<Relation>, RowsRefuse>
    requires kinds { HaveEqualKinds left.now.heading right.now.heading }
    requires same { attributes_at (here ∷ []) left.now.heading ≡ attributes_at (there ∷ []) right.now.heading }
    requires left { AreIntervals left.now.heading (here ∷ []) }
    requires right { AreIntervals right.now.heading (there ∷ []) }
    ensures { let rows = packed (here ∷ []) (unmatched left.now.heading right.now.heading (unpacked (here ∷ []) left.now.rows) (unpacked (there ∷ []) right.now.rows)) in
        MatchResult result (λ o. IfSome o (IsAnswer left.now.heading rows)) (IsRefusal rows) }
{
    let heading = left.heading().copy(alloc)?;
    let made = unmatched_rows(alloc, left, right, here, there, looking)?;
    match made {
        Some(rows) => coalesced(alloc, heading, here, rows),
        None => Ok(None),
    }
}

// The same of left rows that may overlap: they are packed first.
fn unmatched_packed(
    alloc: Global,
    left: &Relation,
    right: &Relation,
    here: usize,
    there: usize,
) -> Result<Option<Relation>, RowsRefuse>
    requires kinds { HaveEqualKinds left.now.heading right.now.heading }
    requires same { attributes_at (here ∷ []) left.now.heading ≡ attributes_at (there ∷ []) right.now.heading }
    requires left { AreIntervals left.now.heading (here ∷ []) }
    requires right { AreIntervals right.now.heading (there ∷ []) }
    ensures { let rows = packed (here ∷ []) (unmatched left.now.heading right.now.heading (unpacked (here ∷ []) left.now.rows) (unpacked (there ∷ []) right.now.rows)) in
        MatchResult result (λ o. IfSome o (IsAnswer left.now.heading rows)) (IsRefusal rows) }
{
    let lefts = packed_copy(alloc, left, here)?;
    match lefts {
        Some(l) => unmatched_once(alloc, &l, right, here, there, false),
        None => Ok(None),
    }
}

// NOT MATCHING under USING of the attribute that stands at the positions, or nothing where rows are not seen to be packed.
fn unmatched_on_one(
    alloc: Global,
    left: &Relation,
    right: &Relation,
    here: usize,
    there: usize,
) -> Result<Option<Relation>, RowsRefuse>
    requires kinds { HaveEqualKinds left.now.heading right.now.heading }
    requires same { attributes_at (here ∷ []) left.now.heading ≡ attributes_at (there ∷ []) right.now.heading }
    requires left { AreIntervals left.now.heading (here ∷ []) }
    requires right { AreIntervals right.now.heading (there ∷ []) }
    ensures { let rows = packed (here ∷ []) (unmatched left.now.heading right.now.heading (unpacked (here ∷ []) left.now.rows) (unpacked (there ∷ []) right.now.rows)) in
        MatchResult result (λ o. IfSome o (IsAnswer left.now.heading rows)) (IsRefusal rows) }
{
    match unmatched_once(alloc, left, right, here, there, true) {
        Ok(Some(answer)) => Ok(Some(answer)),
        Ok(None) => unmatched_packed(alloc, left, right, here, there),
        Err(refuse) => Err(refuse),
    }
}

/// NOT MATCHING under USING of one attribute over rows themselves: neither boxes nor cells are made. There is no answer where more
/// attributes are listed. Left rows that may overlap are packed first.
pub(crate) fn unmatched_by_rows(
    alloc: Global,
    left: &Relation,
    right: &Relation,
    here: &[usize],
    there: &[usize],
) -> Result<Option<Relation>, RowsRefuse>
    requires kinds { HaveEqualKinds left.now.heading right.now.heading }
    requires same { attributes_at here.now left.now.heading ≡ attributes_at there.now right.now.heading }
    requires left { AreIntervals left.now.heading here.now }
    requires right { AreIntervals right.now.heading there.now }
    ensures { let rows = packed here.now (unmatched left.now.heading right.now.heading (unpacked here.now left.now.rows) (unpacked there.now right.now.rows)) in
        MatchResult result (λ o. IfSome o (IsAnswer left.now.heading rows)) (IsRefusal rows) }
{
    if here.len() != 1 || there.len() != 1 {
        return Ok(None);
    }
    unmatched_on_one(alloc, left, right, here[0], there[0])
}
