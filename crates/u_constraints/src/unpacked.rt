// Keys of unpacked rows.
ghost use Rattle.std.specs.Prelude.{◌≡◌, ◌+◌, ◌*◌, ◌<◌, ◌≤◌, ◌∷◌, [], ℕ, true, length, IfOk};
ghost use Rattle.std.specs.List.{All};
ghost use Rattle.std.specs.Result.{result_err};
ghost use Rattle.point_core.specs.declared.fault.Code.TheVariants as codes;
ghost use Rattle.value_core.specs.RowPacking.{unpacked};
ghost use Rattle.cell_core.specs.Costs.{bound};
ghost use Rattle.meaning_core.specs.Typing.{IsList};
ghost use Rattle.meaning_core.specs.WellMade.{AreAmong, AreDifferent};
ghost use Rattle.u_constraints.specs.Constraints.{first_failed, is_key, is_packed};

use crate::apart::is_key_at;
use crate::keys::is_key;
use crate::packed::is_packed;
use crate::positions::are_all;
use point_core::{Code, Memory, Steps};
use std::alloc::Global;
use std::sync::ledger::Ledger;
use u_row::{inner, unlisted};
use u_set::{Gap, are_apart, to_boxes, types_at};
use value_core::Relation;

/// Whether no two different unpacked rows have the same values at the key, by the rows' boxes. Something is unpacked.
fn is_key_by_boxes<L: Ledger>(
    alloc: Global,
    r: &Relation,
    commalist: &[usize],
    key: &[usize],
    steps: &mut Steps<L>,
) -> Result<bool, Memory>
    requires some { 0 < length commalist.now }
    requires list { IsList r.now.heading commalist.now }
    requires key { AreDifferent r.now.heading key.now }
    requires lies { AreAmong key.now commalist.now }
    ensures answer { IfOk result (λ kept. kept ≡ is_key key.now (unpacked commalist.now r.now.rows)) }
    ensures cost { steps.new ≤ steps.old + bound (length r.now.rows) (length commalist.now) }
{
    let types = types_at(alloc, r.heading().attributes(), commalist)?;
    let boxes = to_boxes(alloc, r, commalist)?;
    let places = inner(alloc, commalist, key)?;
    is_key_at(
        alloc,
        types.as_slice(),
        boxes.as_slice(),
        places.as_slice(),
        steps,
    )
}

/// Whether one attribute alone is listed, and the rows are seen to have no point of it in common where they have the same values at the
/// rest of the key.
fn are_parted(
    alloc: Global,
    r: &Relation,
    commalist: &[usize],
    key: &[usize],
) -> Result<bool, Memory>
    requires list { IsList r.now.heading commalist.now }
    requires lies { AreAmong key.now commalist.now }
    ensures { IfOk result (λ b. b ≡ true → is_key key.now (unpacked commalist.now r.now.rows) ≡ true) }
{
    if commalist.len() != 1 {
        return Ok(false);
    }
    let label = unlisted(alloc, commalist, key)?;
    let apart = are_apart(alloc, r, label.as_slice(), commalist[0], Gap::Zero)?;
    Ok(apart)
}

/// Whether no two different rows, unpacked on the listed attributes, have the same values at the key, which has all that are listed.
/// A key of all attributes needs no look at the rows. Where one attribute is listed, one sort may tell it; and else the rows' boxes do.
pub(crate) fn is_unpacked_key<L: Ledger>(
    alloc: Global,
    r: &Relation,
    commalist: &[usize],
    key: &[usize],
    steps: &mut Steps<L>,
) -> Result<bool, Memory>
    requires list { IsList r.now.heading commalist.now }
    requires key { AreDifferent r.now.heading key.now }
    requires lies { AreAmong key.now commalist.now }
    ensures answer { IfOk result (λ kept. kept ≡ is_key key.now (unpacked commalist.now r.now.rows)) }
    ensures cost { steps.new ≤ steps.old + bound (length r.now.rows) (length commalist.now) }
{
    if commalist.is_empty() {
        return is_key(alloc, r, key);
    }
    if are_all(key, r.heading().attributes().len()) {
        return Ok(true);
    }
    if are_parted(alloc, r, commalist, key)? {
        return Ok(true);
    }
    is_key_by_boxes(alloc, r, commalist, key, steps)
}

/// The code of the first line that is broken of a key under USING: the rows are packed, then the unpacked rows have the key, and then the
/// rows themselves. Where the unpacked rows have it, so have the rows, since the key has all attributes that are unpacked.
pub(crate) fn used_key<L: Ledger>(
    alloc: Global,
    r: &Relation,
    commalist: &[usize],
    key: &[usize],
    steps: &mut Steps<L>,
) -> Result<Result<(), Code>, Memory>
    requires list { IsList r.now.heading commalist.now }
    requires key { AreDifferent r.now.heading key.now }
    requires lies { AreAmong key.now commalist.now }
    ensures answer { IfOk result (λ answer. result_err answer ≡ first_failed ((is_packed commalist.now r.now.rows, codes.E41)
        ∷ (is_key key.now (unpacked commalist.now r.now.rows), codes.E42) ∷ (is_key key.now r.now.rows, codes.E40) ∷ [])) }
    ensures cost { steps.new ≤ steps.old + 2 * bound (length r.now.rows) (length commalist.now) }
{
    // The rows fit their heading.
    let _rows = r.rows();
    if !is_packed(alloc, r, commalist, steps)? {
        return Ok(Err(Code::E41));
    }
    if !is_unpacked_key(alloc, r, commalist, key, steps)? {
        return Ok(Err(Code::E42));
    }
    Ok(Ok(()))
}
