// Joins of two relations under USING of one attribute, over rows themselves.
ghost use Rattle.std.specs.Prelude.{◌≡◌, ◌∷◌, [], IfOk, IfSome, IsTrue, MatchResult};
ghost use Rattle.value_core.specs.Relations.{all_fit};
ghost use Rattle.value_core.specs.RowPacking.{packed, unpacked};
ghost use Rattle.value_core.specs.Values.{rows_of};
ghost use Rattle.relation_core.specs.Answers.{IsAnswer, IsRefusal};
ghost use Rattle.relation_core.specs.Joins.{HaveEqualKinds, joined_heading, joined};
ghost use Rattle.relation_core.specs.Parts.{attributes_at};
ghost use Rattle.u_set.specs.Boxes.{AreIntervals};

use crate::names::joined_places;
use crate::packing::packed_copy;
use crate::pairing::{Look, rows_of_pairs, type_at};
use crate::row_pairs::Sources;
use point_core::Memory;
use std::alloc::Global;
use u_set::is_apart;
use value_core::{Heading, Relation, Row, RowsRefuse};

// Where the listed attribute stands: in the joined heading, and in those of the operands.
#[derive(Clone, Copy)]
struct Listed {
    at: usize,
    here: usize,
    there: usize,
}

// The rows that the pairs of a left and a right row give that agree beside the interval and whose intervals meet. There are none
// where the pairs are not seen to be few.
fn made_rows(
    alloc: Global,
    heading: &Heading,
    left: &Relation,
    right: &Relation,
    listed: Listed,
    look: Look,
) -> Result<Option<Vec<Row>>, Memory>
    requires heading { heading.now ≡ joined_heading left.now.heading right.now.heading }
    requires kinds { HaveEqualKinds left.now.heading right.now.heading }
    requires listed { attributes_at (listed.at ∷ []) heading.now ≡ attributes_at (listed.here ∷ []) left.now.heading }
    requires same { attributes_at (listed.here ∷ []) left.now.heading ≡ attributes_at (listed.there ∷ []) right.now.heading }
    requires intervals { AreIntervals heading.now (listed.at ∷ []) }
    requires left { AreIntervals left.now.heading (listed.here ∷ []) }
    requires right { AreIntervals right.now.heading (listed.there ∷ []) }
    ensures fit { IfOk result (λ o. IfSome o (λ v. IsTrue (all_fit heading.now v.items))) }
    ensures rows { IfOk result (λ o. IfSome o (λ v. packed (listed.at ∷ []) (rows_of v.items)
        ≡ packed (listed.at ∷ []) (joined left.now.heading right.now.heading (unpacked (listed.here ∷ []) left.now.rows) (unpacked (listed.there ∷ []) right.now.rows)))) }
{
    let ours = left.heading().attributes();
    let theirs = right.heading().attributes();
    let places = joined_places(alloc, ours, theirs, heading.attributes())?;
    let sources = Sources {
        places: places.as_slice(),
        point_type: type_at(ours, listed.here),
        at: listed.at,
        here: listed.here,
        there: listed.there,
    };
    rows_of_pairs(alloc, left, right, &sources, look)
}

// The relation, packed on the attribute at the position. There is none where its rows are not seen to be packed.
fn packed_of(alloc: Global, r: Relation, at: usize) -> Result<Option<Relation>, Memory>
    requires { AreIntervals r.heading (at ∷ []) }
    ensures { IfOk result (λ o. IfSome o (IsAnswer r.heading (packed (at ∷ []) r.rows))) }
{
    let apart = is_apart(alloc, &r, &[at])?;
    if apart {
        return Ok(Some(r));
    }
    let copy = packed_copy(alloc, &r, at)?;
    Ok(copy)
}

// The relation with the rows, packed on the attribute at the position. There is none where they are not seen to be packed, or too many.
fn with_rows(
    alloc: Global,
    heading: Heading,
    at: usize,
    rows: Vec<Row>,
) -> Result<Option<Relation>, RowsRefuse>
    requires intervals { AreIntervals heading (at ∷ []) }
    requires fit { IsTrue (all_fit heading rows.items) }
    ensures { let set = packed (at ∷ []) (rows_of rows.items) in MatchResult result (λ o. IfSome o (IsAnswer heading set)) (IsRefusal set) }
{
    match Relation::of_fitting(heading, rows) {
        Ok(answer) => {
            let packed = packed_of(alloc, answer, at)?;
            Ok(packed)
        }
        Err(RowsRefuse::TooMany) => Ok(None),
        Err(RowsRefuse::Memory) => Err(RowsRefuse::Memory),
    }
}

// JOIN under USING of the attribute that stands at the positions, of operands whose rows are apart; or nothing where the pairs' rows
// are not seen to be packed.
fn joined_apart(
    alloc: Global,
    heading: &Heading,
    left: &Relation,
    right: &Relation,
    listed: Listed,
) -> Result<Option<Relation>, RowsRefuse>
    requires heading { heading.now ≡ joined_heading left.now.heading right.now.heading }
    requires kinds { HaveEqualKinds left.now.heading right.now.heading }
    requires listed { attributes_at (listed.at ∷ []) heading.now ≡ attributes_at (listed.here ∷ []) left.now.heading }
    requires same { attributes_at (listed.here ∷ []) left.now.heading ≡ attributes_at (listed.there ∷ []) right.now.heading }
    requires intervals { AreIntervals heading.now (listed.at ∷ []) }
    requires left { AreIntervals left.now.heading (listed.here ∷ []) }
    requires right { AreIntervals right.now.heading (listed.there ∷ []) }
    ensures { let rows = packed (listed.at ∷ []) (joined left.now.heading right.now.heading (unpacked (listed.here ∷ []) left.now.rows) (unpacked (listed.there ∷ []) right.now.rows)) in
        MatchResult result (λ o. IfSome o (IsAnswer heading.now rows)) (IsRefusal rows) }
{
    let whole = heading.copy(alloc)?;
    let made = made_rows(alloc, heading, left, right, listed, Look::Nothing)?;
    match made {
        Some(rows) => with_rows(alloc, whole, listed.at, rows),
        None => Ok(None),
    }
}

// The same of operands whose rows may overlap: they are packed first.
fn joined_packed(
    alloc: Global,
    heading: &Heading,
    left: &Relation,
    right: &Relation,
    listed: Listed,
) -> Result<Option<Relation>, RowsRefuse>
    requires heading { heading.now ≡ joined_heading left.now.heading right.now.heading }
    requires kinds { HaveEqualKinds left.now.heading right.now.heading }
    requires listed { attributes_at (listed.at ∷ []) heading.now ≡ attributes_at (listed.here ∷ []) left.now.heading }
    requires same { attributes_at (listed.here ∷ []) left.now.heading ≡ attributes_at (listed.there ∷ []) right.now.heading }
    requires intervals { AreIntervals heading.now (listed.at ∷ []) }
    requires left { AreIntervals left.now.heading (listed.here ∷ []) }
    requires right { AreIntervals right.now.heading (listed.there ∷ []) }
    ensures { let rows = packed (listed.at ∷ []) (joined left.now.heading right.now.heading (unpacked (listed.here ∷ []) left.now.rows) (unpacked (listed.there ∷ []) right.now.rows)) in
        MatchResult result (λ o. IfSome o (IsAnswer heading.now rows)) (IsRefusal rows) }
{
    let lefts = packed_copy(alloc, left, listed.here)?;
    let rights = packed_copy(alloc, right, listed.there)?;
    match lefts {
        Some(l) => match rights {
            Some(r) => joined_apart(alloc, heading, &l, &r, listed),
            None => Ok(None),
        },
        None => Ok(None),
    }
}

// JOIN under USING of the attribute that stands at the positions, or nothing where the pairs' rows are not seen to be packed.
fn joined_once(
    alloc: Global,
    heading: &Heading,
    left: &Relation,
    right: &Relation,
    listed: Listed,
) -> Result<Option<Relation>, RowsRefuse>
    requires heading { heading.now ≡ joined_heading left.now.heading right.now.heading }
    requires kinds { HaveEqualKinds left.now.heading right.now.heading }
    requires listed { attributes_at (listed.at ∷ []) heading.now ≡ attributes_at (listed.here ∷ []) left.now.heading }
    requires same { attributes_at (listed.here ∷ []) left.now.heading ≡ attributes_at (listed.there ∷ []) right.now.heading }
    requires intervals { AreIntervals heading.now (listed.at ∷ []) }
    requires left { AreIntervals left.now.heading (listed.here ∷ []) }
    requires right { AreIntervals right.now.heading (listed.there ∷ []) }
    ensures { let rows = packed (listed.at ∷ []) (joined left.now.heading right.now.heading (unpacked (listed.here ∷ []) left.now.rows) (unpacked (listed.there ∷ []) right.now.rows)) in
        MatchResult result (λ o. IfSome o (IsAnswer heading.now rows)) (IsRefusal rows) }
{
    let whole = heading.copy(alloc)?;
    let made = made_rows(alloc, heading, left, right, listed, Look::Operands)?;
    match made {
        Some(rows) => with_rows(alloc, whole, listed.at, rows),
        None => joined_packed(alloc, heading, left, right, listed),
    }
}

/// JOIN under USING of one attribute over rows themselves: neither boxes nor cells are made, and what is joined are the pairs of rows
/// whose intervals meet. An operand whose rows may overlap is packed first. There is no answer where more attributes are listed, or
/// where the rows of pairs are too many.
pub(crate) fn joined_by_rows(
    alloc: Global,
    heading: &Heading,
    commalist: &[usize],
    left: &Relation,
    right: &Relation,
    here: &[usize],
    there: &[usize],
) -> Result<Option<Relation>, RowsRefuse>
    requires heading { heading.now ≡ joined_heading left.now.heading right.now.heading }
    requires kinds { HaveEqualKinds left.now.heading right.now.heading }
    requires listed { attributes_at commalist.now heading.now ≡ attributes_at here.now left.now.heading }
    requires same { attributes_at here.now left.now.heading ≡ attributes_at there.now right.now.heading }
    requires intervals { AreIntervals heading.now commalist.now }
    requires left { AreIntervals left.now.heading here.now }
    requires right { AreIntervals right.now.heading there.now }
    ensures { let rows = packed commalist.now (joined left.now.heading right.now.heading (unpacked here.now left.now.rows) (unpacked there.now right.now.rows)) in
        MatchResult result (λ o. IfSome o (IsAnswer heading.now rows)) (IsRefusal rows) }
{
    if commalist.len() != 1 || here.len() != 1 || there.len() != 1 {
        return Ok(None);
    }
    let listed = Listed {
        at: commalist[0],
        here: here[0],
        there: there[0],
    };
    joined_once(alloc, heading, left, right, listed)
}
