// What left and right boxes of one key have in common, labelled for each pair.
ghost use Rattle.std.specs.Prelude.{◌≡◌, ℕ, ◌<◌, ◌↔◌, List, length, IfOk};
ghost use Rattle.std.specs.List.{All};
ghost use Rattle.std.specs.List.Sorted.{IsStrictlySortedBy};
ghost use Rattle.cell_packing.specs.Covering.{Among};
ghost use Rattle.cell_sweep.specs.PackedRows.{HasRow};
ghost use Rattle.cell_sweep.specs.Rows.{key_cmp};
ghost use Rattle.cell_boxes.specs.Answers.{IsPackedRow, IsPackedCover, IsBoxOf, IsBoxOfKeyed, IsJoined};
ghost use Rattle.cell_boxes.specs.Common.{EndsBy};
ghost use Rattle.cell_boxes.specs.Meetings.{Met, IsPair, IsPairLabelled};
ghost use Rattle.cell_boxes.specs.Rows.{Ascend, IsRow, PlainCellBox};

use crate::keyed::{KeyedCellBox, keys_in_order};
use crate::meeting::{Meeting, overlaps};
use crate::numbering::numbered;
use cell_sweep::{CellBox, pack_arranged};
use point_core::{Label, Memory};
use presort::Numbers;
use std::alloc::Global;

/// The label that a left and a right label give together.
pub trait PairRule {
    type Left: Label;

    type Right: Label;

    type Out: Label + Numbers;

    ghost means: { Self → Self.Left → Self.Right → Self.Out };

    fn apply(
        &self,
        alloc: Global,
        left: &Self::Left,
        right: &Self::Right,
    ) -> Result<Self::Out, Memory>
        ensures { IfOk result (λ l. l ≡ means self.now left.now right.now) };
}

// The box of the meeting, with the label that the rule gives of its rows' labels.
fn with_pair_label<O: PairRule>(
    alloc: Global,
    lefts: &[O::Left],
    rights: &[O::Right],
    m: Meeting,
    rule: &O,
) -> Result<CellBox<O::Out>, Memory>
    requires left { m.0.0 < length lefts.now }
    requires right { m.0.1 < length rights.now }
    ensures label { IfOk result (λ z. (a : O.Left) × (b : O.Right) × IsRow lefts.now m.0.0 a × IsRow rights.now m.0.1 b × (O.means rule.now a b ≡ z.0)) }
    ensures sides { IfOk result (λ z. m.1 ≡ z.1) }
{
    let label = rule.apply(alloc, &lefts[m.left], &rights[m.right])?;
    Ok(CellBox {
        label,
        sides: m.sides,
    })
}

// The same of each meeting.
fn with_pair_labels<O: PairRule>(
    alloc: Global,
    lefts: &[O::Left],
    rights: &[O::Right],
    meetings: Vec<Meeting>,
    rule: &O,
) -> Result<Vec<CellBox<O::Out>>, Memory>
    requires left { (m : Met) → Among m meetings.items → m.0.0 < length lefts.now }
    requires right { (m : Met) → Among m meetings.items → m.0.1 < length rights.now }
    ensures { IfOk result (λ v. (z : PlainCellBox O.Out) → Among z v.items ↔ IsPairLabelled (O.means rule.now) lefts.now rights.now meetings.items z) }
{
    let mut out = Vec::with_capacity(alloc, meetings.len())?;
    for m in meetings {
        let row = with_pair_label(alloc, lefts, rights, m, rule)?;
        out.push(row)?;
    }
    Ok(out)
}

/// What left and right boxes of one key have in common, in boxes with the labels of the pairs.
pub fn joined<K: Label, O: PairRule>(
    alloc: Global,
    sides: usize,
    left: &[CellBox<K>],
    lefts: &[O::Left],
    right: &[CellBox<K>],
    rights: &[O::Right],
    rule: &O,
) -> Result<Vec<CellBox<O::Out>>, Memory>
    requires left { All (λ x. length x.1 ≡ sides) left.now }
    requires right { All (λ x. length x.1 ≡ sides) right.now }
    requires left_order { Ascend K.order left.now }
    requires right_order { Ascend K.order right.now }
    requires lefts { length lefts.now ≡ length left.now }
    requires rights { length rights.now ≡ length right.now }
    ensures grid_points { IfOk result (λ v. (l : O.Out) (grid_point : List ℕ) → length grid_point ≡ sides →
        HasRow v.items l grid_point ↔ IsPair (O.means rule.now) left.now lefts.now right.now rights.now l grid_point) }
    ensures lengths { IfOk result (λ v. All (λ x. length x.1 ≡ sides) v.items) }
    ensures ends { IfOk result (λ v. (z : PlainCellBox O.Out) → Among z v.items → (x : PlainCellBox K) × Among x left.now × EndsBy x.1 z.1) }
{
    let meetings = overlaps(alloc, sides, left, right)?;
    let out = with_pair_labels(alloc, lefts, rights, meetings, rule)?;
    Ok(out)
}

// The same packed.
fn packed_joined<K: Label, O: PairRule>(
    alloc: Global,
    sides: usize,
    left: &[CellBox<K>],
    lefts: &[O::Left],
    right: &[CellBox<K>],
    rights: &[O::Right],
    rule: &O,
) -> Result<Vec<CellBox<O::Out>>, Memory>
    requires left { All (λ x. length x.1 ≡ sides) left.now }
    requires right { All (λ x. length x.1 ≡ sides) right.now }
    requires left_order { Ascend K.order left.now }
    requires right_order { Ascend K.order right.now }
    requires lefts { length lefts.now ≡ length left.now }
    requires rights { length rights.now ≡ length right.now }
    ensures rows { IfOk result (λ v. (x : PlainCellBox O.Out) → Among x v.items ↔
        IsPackedRow sides (IsPair (O.means rule.now) left.now lefts.now right.now rights.now) x) }
    ensures cover { IfOk result (λ v. IsPackedCover sides (IsPair (O.means rule.now) left.now lefts.now right.now rights.now) (IsBoxOf left.now) v.items) }
    ensures sorted { IfOk result (λ v. IsStrictlySortedBy (key_cmp O.Out.order) v.items) }
{
    let parts = joined(alloc, sides, left, lefts, right, rights, rule)?;
    let out = pack_arranged(alloc, sides, parts)?;
    Ok(out)
}

/// The packed form of the labels that the rule gives of the left and right rows of one key.
pub fn join<K: Label + Numbers, O: PairRule>(
    alloc: Global,
    sides: usize,
    left: Vec<KeyedCellBox<K, O::Left>>,
    right: Vec<KeyedCellBox<K, O::Right>>,
    rule: &O,
) -> Result<Vec<CellBox<O::Out>>, Memory>
    requires left { All (λ x. length x.2 ≡ sides) left.items }
    requires right { All (λ x. length x.2 ≡ sides) right.items }
    ensures rows { IfOk result (λ v. (x : PlainCellBox O.Out) → Among x v.items ↔ IsPackedRow sides (IsJoined (O.means rule.now) left.items right.items) x) }
    ensures cover { IfOk result (λ v. IsPackedCover sides (IsJoined (O.means rule.now) left.items right.items) (IsBoxOfKeyed left.items) v.items) }
    ensures sorted { IfOk result (λ v. IsStrictlySortedBy (key_cmp O.Out.order) v.items) }
{
    let (left_keys, lefts) = keys_in_order(alloc, left)?;
    let (right_keys, rights) = keys_in_order(alloc, right)?;
    let (left_rows, right_rows) = numbered(alloc, left_keys, right_keys)?;
    let out = packed_joined(
        alloc,
        sides,
        left_rows.as_slice(),
        lefts.as_slice(),
        right_rows.as_slice(),
        rights.as_slice(),
        rule,
    )?;
    Ok(out)
}
