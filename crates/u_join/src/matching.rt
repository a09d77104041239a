// Matches point by point.
ghost use Rattle.std.specs.Prelude.{◌≡◌, ◌+◌, ◌<◌, ◌≤◌, map, length, Err, IfOk};
ghost use Rattle.std.specs.List.{All};
ghost use Rattle.point_core.specs.declared.fault.Fault.{Fault as AnyFault};
ghost use Rattle.cell_packing.specs.Boxed.{packed_boxes, unpacked_boxes};
ghost use Rattle.value_core.specs.Values.{row_cmp};
ghost use Rattle.cell_core.specs.Boxes.{IsBox};
ghost use Rattle.cell_core.specs.Cells.{row_numbers};
ghost use Rattle.cell_core.specs.Costs.{bound};
ghost use Rattle.cell_core.specs.declared.boxes.CellRefuse.TheVariants.{Op as OfOp, Limit as OfLimit};
ghost use Rattle.u_join.specs.Pairs.{matched_boxes, unmatched_boxes};
ghost use Rattle.u_join.specs.Shared.{left_positions, right_positions};

use crate::keys::{by_keys, with_keys};
use crate::needed::fewer_where_many;
use crate::shared::apart;
use cell_boxes::{matching, not_matching};
use cell_core::{BoxRow, CellRefuse, CellRows, back, moved_over_cells};
use point_core::{Memory, PointType, Steps};
use std::alloc::Global;
use std::sync::ledger::Ledger;
use u_set::{copied_boxes, prepacked};
use value_core::Row;

// The left boxes where a right box has their key, packed. The right boxes under their keys are made fewer first where that can be, and the left
// ones where many rights begin within them: then those of one key do not overlap.
fn matched_form<T: PointType, L: Ledger>(
    alloc: Global,
    types: &[T],
    left: Vec<BoxRow<T, Row>>,
    right: Vec<BoxRow<T, Row>>,
    here: &[usize],
    there: &[usize],
    steps: &mut Steps<L>,
) -> Result<Vec<BoxRow<T, Row>>, Memory>
    requires left { All (λ b. IsBox T.IsPoint types.now b.1) left.items }
    requires right { All (λ b. IsBox T.IsPoint types.now b.1) right.items }
    ensures rows { IfOk result (λ v. map (row_numbers T.number_of) v.items ≡ packed_boxes row_cmp (length types.now) (matched_boxes here.now there.now
        (unpacked_boxes row_cmp (length types.now) (map (row_numbers T.number_of) left.items))
        (unpacked_boxes row_cmp (length types.now) (map (row_numbers T.number_of) right.items)))) }
    ensures boxes { IfOk result (λ v. All (λ b. IsBox T.IsPoint types.now b.1) v.items) }
    ensures cost { steps.new ≤ steps.old + bound (length left.items + length right.items) (length types.now) }
{
    let CellRows {
        sides,
        left: l,
        right: r,
    } = moved_over_cells(alloc, types, left, right, steps)?;
    let keys = by_keys(alloc, r, there)?;
    let rights = prepacked(alloc, types.len(), keys)?;
    let fewer_left = fewer_where_many(alloc, types.len(), l, here, rights.as_slice())?;
    let lefts = with_keys(alloc, fewer_left, here)?;
    let form = matching(alloc, types.len(), lefts, rights)?;
    let answer = back(alloc, types, sides.as_slice(), form)?;
    Ok(answer)
}

// The left boxes where no right box has their key, packed. Both operands are made fewer first, as above.
fn unmatched_form<T: PointType, L: Ledger>(
    alloc: Global,
    types: &[T],
    left: Vec<BoxRow<T, Row>>,
    right: Vec<BoxRow<T, Row>>,
    here: &[usize],
    there: &[usize],
    steps: &mut Steps<L>,
) -> Result<Vec<BoxRow<T, Row>>, Memory>
    requires left { All (λ b. IsBox T.IsPoint types.now b.1) left.items }
    requires right { All (λ b. IsBox T.IsPoint types.now b.1) right.items }
    ensures rows { IfOk result (λ v. map (row_numbers T.number_of) v.items ≡ packed_boxes row_cmp (length types.now) (unmatched_boxes here.now there.now
        (unpacked_boxes row_cmp (length types.now) (map (row_numbers T.number_of) left.items))
        (unpacked_boxes row_cmp (length types.now) (map (row_numbers T.number_of) right.items)))) }
    ensures boxes { IfOk result (λ v. All (λ b. IsBox T.IsPoint types.now b.1) v.items) }
    ensures cost { steps.new ≤ steps.old + bound (length left.items + length right.items) (length types.now) }
{
    let CellRows {
        sides,
        left: l,
        right: r,
    } = moved_over_cells(alloc, types, left, right, steps)?;
    let keys = by_keys(alloc, r, there)?;
    let rights = prepacked(alloc, types.len(), keys)?;
    let fewer_left = fewer_where_many(alloc, types.len(), l, here, rights.as_slice())?;
    let lefts = with_keys(alloc, fewer_left, here)?;
    let form = not_matching(alloc, types.len(), lefts, rights)?;
    let answer = back(alloc, types, sides.as_slice(), form)?;
    Ok(answer)
}

/// The left boxes where some right label has the same values at the positions that `shared` pairs, packed, where they are no more than
/// the limit.
pub(crate) fn matched_in_limit<T: PointType, L: Ledger>(
    alloc: Global,
    types: &[T],
    left: Vec<BoxRow<T, Row>>,
    right: Vec<BoxRow<T, Row>>,
    shared: &[(usize, usize)],
    limit: usize,
    steps: &mut Steps<L>,
) -> Result<Vec<BoxRow<T, Row>>, CellRefuse>
    requires left { All (λ b. IsBox T.IsPoint types.now b.1) left.items }
    requires right { All (λ b. IsBox T.IsPoint types.now b.1) right.items }
    ensures rows { IfOk result (λ v. map (row_numbers T.number_of) v.items ≡ packed_boxes row_cmp (length types.now) (matched_boxes (left_positions shared.now) (right_positions shared.now)
        (unpacked_boxes row_cmp (length types.now) (map (row_numbers T.number_of) left.items))
        (unpacked_boxes row_cmp (length types.now) (map (row_numbers T.number_of) right.items)))) }
    ensures boxes { IfOk result (λ v. All (λ b. IsBox T.IsPoint types.now b.1) v.items) }
    ensures few { IfOk result (λ v. length v.items ≤ limit) }
    ensures no_fault { (e : AnyFault) → result ≡ Err (OfOp e) → ⊥ }
    ensures limit { result ≡ Err OfLimit → limit < length (packed_boxes row_cmp (length types.now) (matched_boxes (left_positions shared.now) (right_positions shared.now)
        (unpacked_boxes row_cmp (length types.now) (map (row_numbers T.number_of) left.items))
        (unpacked_boxes row_cmp (length types.now) (map (row_numbers T.number_of) right.items)))) }
    ensures cost { steps.new ≤ steps.old + bound (length left.items + length right.items) (length types.now) }
{
    let (here, there) = apart(alloc, shared)?;
    let answer = matched_form(
        alloc,
        types,
        left,
        right,
        here.as_slice(),
        there.as_slice(),
        steps,
    )?;
    if answer.len() > limit {
        return Err(CellRefuse::Limit);
    }
    Ok(answer)
}

/// The left boxes where no right label has the same values at the positions that `shared` pairs, packed, where they are no more than the
/// limit.
pub(crate) fn unmatched_in_limit<T: PointType, L: Ledger>(
    alloc: Global,
    types: &[T],
    left: Vec<BoxRow<T, Row>>,
    right: Vec<BoxRow<T, Row>>,
    shared: &[(usize, usize)],
    limit: usize,
    steps: &mut Steps<L>,
) -> Result<Vec<BoxRow<T, Row>>, CellRefuse>
    requires left { All (λ b. IsBox T.IsPoint types.now b.1) left.items }
    requires right { All (λ b. IsBox T.IsPoint types.now b.1) right.items }
    ensures rows { IfOk result (λ v. map (row_numbers T.number_of) v.items ≡ packed_boxes row_cmp (length types.now) (unmatched_boxes (left_positions shared.now) (right_positions shared.now)
        (unpacked_boxes row_cmp (length types.now) (map (row_numbers T.number_of) left.items))
        (unpacked_boxes row_cmp (length types.now) (map (row_numbers T.number_of) right.items)))) }
    ensures boxes { IfOk result (λ v. All (λ b. IsBox T.IsPoint types.now b.1) v.items) }
    ensures few { IfOk result (λ v. length v.items ≤ limit) }
    ensures no_fault { (e : AnyFault) → result ≡ Err (OfOp e) → ⊥ }
    ensures limit { result ≡ Err OfLimit → limit < length (packed_boxes row_cmp (length types.now) (unmatched_boxes (left_positions shared.now) (right_positions shared.now)
        (unpacked_boxes row_cmp (length types.now) (map (row_numbers T.number_of) left.items))
        (unpacked_boxes row_cmp (length types.now) (map (row_numbers T.number_of) right.items)))) }
    ensures cost { steps.new ≤ steps.old + bound (length left.items + length right.items) (length types.now) }
{
    let (here, there) = apart(alloc, shared)?;
    let answer = unmatched_form(
        alloc,
        types,
        left,
        right,
        here.as_slice(),
        there.as_slice(),
        steps,
    )?;
    if answer.len() > limit {
        return Err(CellRefuse::Limit);
    }
    Ok(answer)
}

/// MATCHING of boxes at each point: the left boxes where some right label has the same values as theirs at the positions that `shared`
/// pairs, packed. Any positions may be paired.
///
/// `Limit` comes exactly where the packed boxes are more than `limit`.
pub fn u_matching<T: PointType, L: Ledger>(
    alloc: Global,
    types: &[T],
    left: &[BoxRow<T, Row>],
    right: &[BoxRow<T, Row>],
    shared: &[(usize, usize)],
    limit: usize,
    steps: &mut Steps<L>,
) -> Result<Vec<BoxRow<T, Row>>, CellRefuse>
    requires left { All (λ b. IsBox T.IsPoint types.now b.1) left.now }
    requires right { All (λ b. IsBox T.IsPoint types.now b.1) right.now }
    ensures rows { IfOk result (λ v. map (row_numbers T.number_of) v.items ≡ packed_boxes row_cmp (length types.now) (matched_boxes (left_positions shared.now) (right_positions shared.now)
        (unpacked_boxes row_cmp (length types.now) (map (row_numbers T.number_of) left.now))
        (unpacked_boxes row_cmp (length types.now) (map (row_numbers T.number_of) right.now)))) }
    ensures boxes { IfOk result (λ v. All (λ b. IsBox T.IsPoint types.now b.1) v.items) }
    ensures few { IfOk result (λ v. length v.items ≤ limit) }
    ensures no_fault { (e : AnyFault) → result ≡ Err (OfOp e) → ⊥ }
    ensures limit { result ≡ Err OfLimit → limit < length (packed_boxes row_cmp (length types.now) (matched_boxes (left_positions shared.now) (right_positions shared.now)
        (unpacked_boxes row_cmp (length types.now) (map (row_numbers T.number_of) left.now))
        (unpacked_boxes row_cmp (length types.now) (map (row_numbers T.number_of) right.now)))) }
    ensures cost { steps.new ≤ steps.old + bound (length left.now + length right.now) (length types.now) }
{
    let l = copied_boxes(alloc, left)?;
    let r = copied_boxes(alloc, right)?;
    matched_in_limit(alloc, types, l, r, shared, limit, steps)
}

/// NOT MATCHING of boxes at each point: the left boxes where no right label has the same values as theirs at the positions that `shared`
/// pairs, packed. Any positions may be paired.
///
/// `Limit` comes exactly where the packed boxes are more than `limit`.
pub fn u_not_matching<T: PointType, L: Ledger>(
    alloc: Global,
    types: &[T],
    left: &[BoxRow<T, Row>],
    right: &[BoxRow<T, Row>],
    shared: &[(usize, usize)],
    limit: usize,
    steps: &mut Steps<L>,
) -> Result<Vec<BoxRow<T, Row>>, CellRefuse>
    requires left { All (λ b. IsBox T.IsPoint types.now b.1) left.now }
    requires right { All (λ b. IsBox T.IsPoint types.now b.1) right.now }
    ensures rows { IfOk result (λ v. map (row_numbers T.number_of) v.items ≡ packed_boxes row_cmp (length types.now) (unmatched_boxes (left_positions shared.now) (right_positions shared.now)
        (unpacked_boxes row_cmp (length types.now) (map (row_numbers T.number_of) left.now))
        (unpacked_boxes row_cmp (length types.now) (map (row_numbers T.number_of) right.now)))) }
    ensures boxes { IfOk result (λ v. All (λ b. IsBox T.IsPoint types.now b.1) v.items) }
    ensures few { IfOk result (λ v. length v.items ≤ limit) }
    ensures no_fault { (e : AnyFault) → result ≡ Err (OfOp e) → ⊥ }
    ensures limit { result ≡ Err OfLimit → limit < length (packed_boxes row_cmp (length types.now) (unmatched_boxes (left_positions shared.now) (right_positions shared.now)
        (unpacked_boxes row_cmp (length types.now) (map (row_numbers T.number_of) left.now))
        (unpacked_boxes row_cmp (length types.now) (map (row_numbers T.number_of) right.now)))) }
    ensures cost { steps.new ≤ steps.old + bound (length left.now + length right.now) (length types.now) }
{
    let l = copied_boxes(alloc, left)?;
    let r = copied_boxes(alloc, right)?;
    unmatched_in_limit(alloc, types, l, r, shared, limit, steps)
}
