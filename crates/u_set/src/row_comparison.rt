// Comparisons under USING of a single attribute, by the packed rows and without boxes.
ghost use Rattle.std.specs.Prelude.{◌≡◌, true, ◌∷◌, [], ◌++◌, ◌&&◌, ◌↔◌, not, IfOk, IfSome, IsTrue};
ghost use Rattle.base_core.specs.Sets.{is_within};
ghost use Rattle.value_core.specs.RowPacking.{unpacked};
ghost use Rattle.value_core.specs.Values.{row_cmp, same_rows};
ghost use Rattle.u_set.specs.Apart.{IsChain, outside};
ghost use Rattle.u_set.specs.Boxes.{AreIntervals};
ghost use Rattle.u_set.specs.Coalescing.{IsFormByLabel};
ghost use Rattle.u_set.specs.declared.apart.Gap.TheVariants.{One};

use crate::coalescing::{form_by_label, push_copies};
use crate::in_time::stand_in_time;
use crate::kept::outside;
use crate::union::rows_of_both;
use point_core::Memory;
use std::alloc::Global;
use value_core::{Relation, Row};

// Whether two lists of rows are one.
fn are_one(x: &[Row], y: &[Row]) -> bool
    ensures { IsTrue result ↔ (x.now ≡ y.now) }
{
    x.cmp(y).is_eq()
}

// ---- packed rows

// The packed rows of a relation, where they are had without boxes.
fn own_form(alloc: Global, r: &Relation, at: usize) -> Result<Option<Vec<Row>>, Memory>
    requires { AreIntervals r.now.heading (at ∷ []) }
    ensures { IfOk result (λ o. IfSome o (λ form. IsFormByLabel r.now.heading at r.now.rows form.items)) }
{
    let own = r.rows();
    let mut rows = Vec::with_capacity(alloc, own.len())?;
    push_copies(alloc, &mut rows, own)?;
    form_by_label(alloc, r.heading().attributes(), at, rows)
}

// The packed rows of both together, where they are had without boxes.
fn form_of_both(
    alloc: Global,
    left: &Relation,
    right: &Relation,
    at: usize,
) -> Result<Option<Vec<Row>>, Memory>
    requires heading { left.now.heading ≡ right.now.heading }
    requires interval { AreIntervals left.now.heading (at ∷ []) }
    ensures { IfOk result (λ o. IfSome o (λ form. IsFormByLabel left.now.heading at (left.now.rows ++ right.now.rows) form.items)) }
{
    let rows = rows_of_both(alloc, left, right)?;
    form_by_label(alloc, left.heading().attributes(), at, rows)
}

// Whether the rows of both stand in order of time, so that packing leaves them as they are.
fn stand_both_in_time(
    alloc: Global,
    left: &Relation,
    right: &Relation,
    at: usize,
) -> Result<bool, Memory>
    requires heading { left.now.heading ≡ right.now.heading }
    requires interval { AreIntervals left.now.heading (at ∷ []) }
    ensures left { IfOk result (λ b. b ≡ true → IsChain (outside (at ∷ []) left.now.heading) at One left.now.rows) }
    ensures right { IfOk result (λ b. b ≡ true → IsChain (outside (at ∷ []) left.now.heading) at One right.now.rows) }
{
    let label = outside(alloc, left.heading().attributes(), &[at])?;
    if !stand_in_time(left.rows(), &[], label.as_slice(), at) {
        return Ok(false);
    }
    let stand = stand_in_time(right.rows(), &[], label.as_slice(), at);
    Ok(stand)
}

// ---- comparisons on the attribute at a position

// Whether both are equal unpacked: where they are packed to the same rows. Rows in order of time are packed already.
fn same_at(
    alloc: Global,
    left: &Relation,
    right: &Relation,
    at: usize,
) -> Result<Option<bool>, Memory>
    requires heading { left.now.heading ≡ right.now.heading }
    requires interval { AreIntervals left.now.heading (at ∷ []) }
    ensures { IfOk result (λ o. IfSome o (λ b. b ≡ same_rows (unpacked (at ∷ []) left.now.rows) (unpacked (at ∷ []) right.now.rows))) }
{
    if are_one(left.rows(), right.rows()) {
        return Ok(Some(true));
    }
    let in_time = stand_both_in_time(alloc, left, right, at)?;
    if in_time {
        return Ok(Some(false));
    }
    let Some(left_form) = own_form(alloc, left, at)? else {
        return Ok(None);
    };
    let Some(right_form) = own_form(alloc, right, at)? else {
        return Ok(None);
    };
    let same = are_one(left_form.as_slice(), right_form.as_slice());
    Ok(Some(same))
}

// Whether the first is unpacked a subset of the second: where both together are packed to the rows that the second alone is.
fn within_at(
    alloc: Global,
    left: &Relation,
    right: &Relation,
    at: usize,
) -> Result<Option<bool>, Memory>
    requires heading { left.now.heading ≡ right.now.heading }
    requires interval { AreIntervals left.now.heading (at ∷ []) }
    ensures { IfOk result (λ o. IfSome o (λ b. b ≡ is_within row_cmp (unpacked (at ∷ []) left.now.rows) (unpacked (at ∷ []) right.now.rows))) }
{
    if are_one(left.rows(), right.rows()) {
        return Ok(Some(true));
    }
    let Some(right_form) = own_form(alloc, right, at)? else {
        return Ok(None);
    };
    let Some(form) = form_of_both(alloc, left, right, at)? else {
        return Ok(None);
    };
    let within = are_one(form.as_slice(), right_form.as_slice());
    Ok(Some(within))
}

// Whether the first is unpacked a subset of the second, and not equal to it.
fn properly_within_at(
    alloc: Global,
    left: &Relation,
    right: &Relation,
    at: usize,
) -> Result<Option<bool>, Memory>
    requires heading { left.now.heading ≡ right.now.heading }
    requires interval { AreIntervals left.now.heading (at ∷ []) }
    ensures { IfOk result (λ o. IfSome o (λ b. b ≡ (is_within row_cmp (unpacked (at ∷ []) left.now.rows) (unpacked (at ∷ []) right.now.rows)
        && not (same_rows (unpacked (at ∷ []) left.now.rows) (unpacked (at ∷ []) right.now.rows))))) }
{
    if are_one(left.rows(), right.rows()) {
        return Ok(Some(false));
    }
    let Some(left_form) = own_form(alloc, left, at)? else {
        return Ok(None);
    };
    let Some(right_form) = own_form(alloc, right, at)? else {
        return Ok(None);
    };
    if are_one(left_form.as_slice(), right_form.as_slice()) {
        return Ok(Some(false));
    }
    let Some(form) = form_of_both(alloc, left, right, at)? else {
        return Ok(None);
    };
    let strict = are_one(form.as_slice(), right_form.as_slice());
    Ok(Some(strict))
}

// ---- under USING

/// Whether two relations of one heading, unpacked on the attribute at the position, are equal. Nothing is told where more than one is
/// listed, or where the rows could not be packed without boxes.
pub(crate) fn same_on_one(
    alloc: Global,
    left: &Relation,
    right: &Relation,
    commalist: &[usize],
) -> Result<Option<bool>, Memory>
    requires heading { left.now.heading ≡ right.now.heading }
    requires intervals { AreIntervals left.now.heading commalist.now }
    ensures { IfOk result (λ o. IfSome o (λ b. b ≡ same_rows (unpacked commalist.now left.now.rows) (unpacked commalist.now right.now.rows))) }
{
    if commalist.len() != 1 {
        return Ok(None);
    }
    same_at(alloc, left, right, commalist[0])
}

/// Whether a relation, unpacked on the attribute at the position, is a subset of another of the same heading, unpacked alike. Nothing is
/// told where `same_on_one` tells nothing.
pub(crate) fn within_on_one(
    alloc: Global,
    left: &Relation,
    right: &Relation,
    commalist: &[usize],
) -> Result<Option<bool>, Memory>
    requires heading { left.now.heading ≡ right.now.heading }
    requires intervals { AreIntervals left.now.heading commalist.now }
    ensures { IfOk result (λ o. IfSome o (λ b. b ≡ is_within row_cmp (unpacked commalist.now left.now.rows) (unpacked commalist.now right.now.rows))) }
{
    if commalist.len() != 1 {
        return Ok(None);
    }
    within_at(alloc, left, right, commalist[0])
}

/// Whether a relation, unpacked on the attribute at the position, is a subset of another of the same heading, unpacked alike, and not
/// equal to it. Nothing is told where `same_on_one` tells nothing.
pub(crate) fn properly_within_on_one(
    alloc: Global,
    left: &Relation,
    right: &Relation,
    commalist: &[usize],
) -> Result<Option<bool>, Memory>
    requires heading { left.now.heading ≡ right.now.heading }
    requires intervals { AreIntervals left.now.heading commalist.now }
    ensures { IfOk result (λ o. IfSome o (λ b. b ≡ (is_within row_cmp (unpacked commalist.now left.now.rows) (unpacked commalist.now right.now.rows)
        && not (same_rows (unpacked commalist.now left.now.rows) (unpacked commalist.now right.now.rows))))) }
{
    if commalist.len() != 1 {
        return Ok(None);
    }
    properly_within_at(alloc, left, right, commalist[0])
}
