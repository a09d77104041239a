// Joins point by point.
ghost use Rattle.std.specs.Prelude.{◌≡◌, ◌+◌, ◌<◌, ◌≤◌, map, length, Err, IfOk};
ghost use Rattle.std.specs.List.{All};
ghost use Rattle.point_core.specs.declared.fault.Fault.{Fault as AnyFault};
ghost use Rattle.cell_packing.specs.Boxed.{packed_boxes, unpacked_boxes};
ghost use Rattle.value_core.specs.Values.{row_cmp};
ghost use Rattle.cell_core.specs.Boxes.{IsBox};
ghost use Rattle.cell_core.specs.Cells.{row_numbers};
ghost use Rattle.cell_core.specs.Costs.{bound};
ghost use Rattle.cell_core.specs.declared.boxes.CellRefuse.TheVariants.{Op as OfOp, Limit as OfLimit};
ghost use Rattle.u_join.specs.Pairs.{joined_boxes};
ghost use Rattle.u_join.specs.Shared.{left_positions, right_positions, joined_by};

use crate::keys::with_keys;
use crate::labels::Beside;
use crate::shared::apart;
use cell_boxes::{PairRule, join};
use cell_core::{BoxRow, CellRefuse, CellRows, back, moved_over_cells};
use point_core::{Memory, PointType, Steps};
use std::alloc::Global;
use std::sync::ledger::Ledger;
use u_set::{copied_boxes, in_limit, prepacked};
use value_core::Row;

/// Where the keys stand in left and in right labels.
#[derive(Clone, Copy)]
pub(crate) struct KeyPlaces<'a> {
    pub here: &'a [usize],
    pub there: &'a [usize],
}

/// What left and right boxes of one key have in common, with the labels that the rule gives of pairs, packed. Each operand is made fewer
/// first where that can be: so boxes of one label that overlap, of which many make the same pairs, are looked at once.
pub(crate) fn joined_form<T: PointType, O: PairRule<Left = Row, Right = Row, Out = Row>, L: Ledger>(
    alloc: Global,
    types: &[T],
    left: Vec<BoxRow<T, Row>>,
    right: Vec<BoxRow<T, Row>>,
    keys: KeyPlaces,
    rule: &O,
    steps: &mut Steps<L>,
) -> Result<Vec<BoxRow<T, Row>>, Memory>
    requires left { All (λ b. IsBox T.IsPoint types.now b.1) left.items }
    requires right { All (λ b. IsBox T.IsPoint types.now b.1) right.items }
    ensures rows { IfOk result (λ v. map (row_numbers T.number_of) v.items ≡ packed_boxes row_cmp (length types.now)
        (joined_boxes keys.entry.here.now keys.entry.there.now (O.means rule.now)
        (unpacked_boxes row_cmp (length types.now) (map (row_numbers T.number_of) left.items))
        (unpacked_boxes row_cmp (length types.now) (map (row_numbers T.number_of) right.items)))) }
    ensures boxes { IfOk result (λ v. All (λ b. IsBox T.IsPoint types.now b.1) v.items) }
    ensures cost { steps.new ≤ steps.old + bound (length left.items + length right.items) (length types.now) }
{
    let CellRows {
        sides,
        left: l,
        right: r,
    } = moved_over_cells(alloc, types, left, right, steps)?;
    let fewer_left = prepacked(alloc, types.len(), l)?;
    let fewer_right = prepacked(alloc, types.len(), r)?;
    let lefts = with_keys(alloc, fewer_left, keys.here)?;
    let rights = with_keys(alloc, fewer_right, keys.there)?;
    let form = join(alloc, types.len(), lefts, rights, rule)?;
    let answer = back(alloc, types, sides.as_slice(), form)?;
    Ok(answer)
}

/// JOIN of boxes at each point: of each left label and each right label there that have the same values at the positions that
/// `shared` pairs, the left label followed by the right one's values outside them; packed. Any positions may be paired.
///
/// `Limit` comes exactly where the packed boxes are more than `limit`.
pub fn u_join<T: PointType, L: Ledger>(
    alloc: Global,
    types: &[T],
    left: &[BoxRow<T, Row>],
    right: &[BoxRow<T, Row>],
    shared: &[(usize, usize)],
    limit: usize,
    steps: &mut Steps<L>,
) -> Result<Vec<BoxRow<T, Row>>, CellRefuse>
    requires left { All (λ b. IsBox T.IsPoint types.now b.1) left.now }
    requires right { All (λ b. IsBox T.IsPoint types.now b.1) right.now }
    ensures rows { IfOk result (λ v. map (row_numbers T.number_of) v.items ≡ packed_boxes row_cmp (length types.now)
        (joined_boxes (left_positions shared.now) (right_positions shared.now) (joined_by shared.now)
        (unpacked_boxes row_cmp (length types.now) (map (row_numbers T.number_of) left.now))
        (unpacked_boxes row_cmp (length types.now) (map (row_numbers T.number_of) right.now)))) }
    ensures boxes { IfOk result (λ v. All (λ b. IsBox T.IsPoint types.now b.1) v.items) }
    ensures few { IfOk result (λ v. length v.items ≤ limit) }
    ensures no_fault { (e : AnyFault) → result ≡ Err (OfOp e) → ⊥ }
    ensures limit { result ≡ Err OfLimit → limit < length (packed_boxes row_cmp (length types.now)
        (joined_boxes (left_positions shared.now) (right_positions shared.now) (joined_by shared.now)
        (unpacked_boxes row_cmp (length types.now) (map (row_numbers T.number_of) left.now))
        (unpacked_boxes row_cmp (length types.now) (map (row_numbers T.number_of) right.now)))) }
    ensures cost { steps.new ≤ steps.old + bound (length left.now + length right.now) (length types.now) }
{
    let l = copied_boxes(alloc, left)?;
    let r = copied_boxes(alloc, right)?;
    let (here, positions) = apart(alloc, shared)?;
    let rule = Beside { positions };
    let keys = KeyPlaces {
        here: here.as_slice(),
        there: rule.positions.as_slice(),
    };
    let form = joined_form(alloc, types, l, r, keys, &rule, steps)?;
    in_limit(form, limit)
}
