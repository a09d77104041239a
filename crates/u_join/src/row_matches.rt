// Matches of two relations under USING of one attribute, over rows themselves.
ghost use Rattle.std.specs.Prelude.{◌≡◌, ◌∷◌, [], map, IfOk, IfSome, IsTrue, MatchResult};
ghost use Rattle.cell_packing.specs.Boxed.{packed_boxes};
ghost use Rattle.value_core.specs.Relations.{all_fit};
ghost use Rattle.value_core.specs.RowPacking.{packed, unpacked};
ghost use Rattle.value_core.specs.Values.{row_cmp, rows_of};
ghost use Rattle.relation_core.specs.Agreement.{matched};
ghost use Rattle.relation_core.specs.Answers.{IsAnswer, IsRefusal};
ghost use Rattle.relation_core.specs.Joins.{HaveEqualKinds};
ghost use Rattle.relation_core.specs.Parts.{attributes_at};
ghost use Rattle.u_set.specs.Boxes.{AreIntervals, boxed, unboxed};

use crate::pairing::{Look, rows_of_pairs, type_at};
use crate::row_pairs::Sources;
use point_core::Memory;
use std::alloc::Global;
use u_set::{coalesced, outside};
use value_core::{Relation, Row, RowsRefuse};

// The left rows, each with what its interval and that of a right row have in common that agrees beside it. There are none where the
// pairs may be many.
fn matching_rows(
    alloc: Global,
    left: &Relation,
    right: &Relation,
    here: usize,
    there: usize,
) -> Result<Option<Vec<Row>>, Memory>
    requires kinds { HaveEqualKinds left.now.heading right.now.heading }
    requires same { attributes_at (here ∷ []) left.now.heading ≡ attributes_at (there ∷ []) right.now.heading }
    requires left { AreIntervals left.now.heading (here ∷ []) }
    requires right { AreIntervals right.now.heading (there ∷ []) }
    ensures fit { IfOk result (λ o. IfSome o (λ v. IsTrue (all_fit left.now.heading v.items))) }
    ensures rows { IfOk result (λ o. IfSome o (λ v.
        rows_of (map (unboxed left.now.heading (here ∷ [])) (packed_boxes row_cmp 1 (map (boxed (here ∷ [])) v.items)))
        ≡ packed (here ∷ []) (matched left.now.heading right.now.heading (unpacked (here ∷ []) left.now.rows) (unpacked (there ∷ []) right.now.rows)))) }
{
    let ours = left.heading().attributes();
    let places = outside(alloc, ours, &[])?;
    let sources = Sources {
        places: places.as_slice(),
        point_type: type_at(ours, here),
        at: here,
        here,
        there,
    };
    rows_of_pairs(alloc, left, right, &sources, Look::Pairs)
}

// MATCHING under USING of the attribute that stands at the positions, or nothing where the pairs may be many.
fn matched_once(
    alloc: Global,
    left: &Relation,
    right: &Relation,
    here: usize,
    there: usize,
) -> Result<Option<Relation>, RowsRefuse>
    requires kinds { HaveEqualKinds left.now.heading right.now.heading }
    requires same { attributes_at (here ∷ []) left.now.heading ≡ attributes_at (there ∷ []) right.now.heading }
    requires left { AreIntervals left.now.heading (here ∷ []) }
    requires right { AreIntervals right.now.heading (there ∷ []) }
    ensures { let rows = packed (here ∷ []) (matched left.now.heading right.now.heading (unpacked (here ∷ []) left.now.rows) (unpacked (there ∷ []) right.now.rows)) in
        MatchResult result (λ o. IfSome o (IsAnswer left.now.heading rows)) (IsRefusal rows) }
{
    let heading = left.heading().copy(alloc)?;
    let made = matching_rows(alloc, left, right, here, there)?;
    match made {
        Some(rows) => coalesced(alloc, heading, here, rows),
        None => Ok(None),
    }
}

/// MATCHING under USING of one attribute over rows themselves: neither boxes nor cells are made. There is no answer where more
/// attributes are listed, or where the pairs of rows that agree may be many more than the rows.
pub(crate) fn matched_by_rows(
    alloc: Global,
    left: &Relation,
    right: &Relation,
    here: &[usize],
    there: &[usize],
) -> Result<Option<Relation>, RowsRefuse>
    requires kinds { HaveEqualKinds left.now.heading right.now.heading }
    requires same { attributes_at here.now left.now.heading ≡ attributes_at there.now right.now.heading }
    requires left { AreIntervals left.now.heading here.now }
    requires right { AreIntervals right.now.heading there.now }
    ensures { let rows = packed here.now (matched left.now.heading right.now.heading (unpacked here.now left.now.rows) (unpacked there.now right.now.rows)) in
        MatchResult result (λ o. IfSome o (IsAnswer left.now.heading rows)) (IsRefusal rows) }
{
    if here.len() != 1 || there.len() != 1 {
        return Ok(None);
    }
    matched_once(alloc, left, right, here[0], there[0])
}
