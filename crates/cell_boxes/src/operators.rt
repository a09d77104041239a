// Operators over labelled boxes: the packed form of what they give at each place.
ghost use Rattle.std.specs.Prelude.{◌≡◌, ℕ, ◌<◌, ◌↔◌, List, length, IfOk};
ghost use Rattle.std.specs.List.{All};
ghost use Rattle.std.specs.List.Sorted.{IsStrictlySortedBy};
ghost use Rattle.cell_packing.specs.Covering.{Among};
ghost use Rattle.cell_sweep.specs.Rows.{key_cmp};
ghost use Rattle.std.specs.Ordering.{nat_cmp};
ghost use Rattle.cell_boxes.specs.Answers.{IsPackedRow, IsPackedCover, IsBoxOf, IsBoxOfKeyed, InBoth, InFirst, IsMatched, IsUnmatched};
ghost use Rattle.cell_boxes.specs.KeyNumbers.{RiseAlike};
ghost use Rattle.cell_boxes.specs.Meetings.{IsShared};
ghost use Rattle.cell_boxes.specs.Outside.{IsRest};
ghost use Rattle.cell_boxes.specs.Rows.{Ascend, PlainCellBox};

use crate::keyed::{KeyedCellBox, keys_in_order, rows_in_order};
use crate::labelling::{first_rows, with_labels};
use crate::numbering::{Number, numbered, numbered_apart};
use crate::remaining::rest;
use crate::sharing::shared;
use cell_sweep::{CellBox, pack_arranged, pack_rows};
use point_core::{Label, Memory};
use presort::Numbers;
use std::alloc::Global;

// What the left boxes have in common with the right boxes of their keys, packed.
fn packed_shared<K: Label, P: Label + Numbers>(
    alloc: Global,
    sides: usize,
    left: &[CellBox<K>],
    labels: &[P],
    right: &[CellBox<K>],
) -> Result<Vec<CellBox<P>>, Memory>
    requires left { All (λ x. length x.1 ≡ sides) left.now }
    requires right { All (λ x. length x.1 ≡ sides) right.now }
    requires left_order { Ascend K.order left.now }
    requires right_order { Ascend K.order right.now }
    requires labels { length labels.now ≡ length left.now }
    ensures rows { IfOk result (λ v. (x : PlainCellBox P) → Among x v.items ↔ IsPackedRow sides (IsShared left.now labels.now right.now) x) }
    ensures cover { IfOk result (λ v. IsPackedCover sides (IsShared left.now labels.now right.now) (IsBoxOf left.now) v.items) }
    ensures sorted { IfOk result (λ v. IsStrictlySortedBy (key_cmp P.order) v.items) }
{
    let parts = shared(alloc, sides, left, labels, right)?;
    let out = pack_arranged(alloc, sides, parts)?;
    Ok(out)
}

// The same for labels that stand as the keys do: the parts are under numbers until they are packed.
fn labelled_shared<P: Label>(
    alloc: Global,
    sides: usize,
    left: &[CellBox<Number>],
    labels: &[P],
    right: &[CellBox<Number>],
) -> Result<Vec<CellBox<P>>, Memory>
    requires left { All (λ x. length x.1 ≡ sides) left.now }
    requires right { All (λ x. length x.1 ≡ sides) right.now }
    requires left_order { Ascend nat_cmp left.now }
    requires right_order { Ascend nat_cmp right.now }
    requires labels { length labels.now ≡ length left.now }
    requires alike { RiseAlike P.order left.now labels.now }
    ensures rows { IfOk result (λ v. (x : PlainCellBox P) → Among x v.items ↔ IsPackedRow sides (IsShared left.now labels.now right.now) x) }
    ensures cover { IfOk result (λ v. IsPackedCover sides (IsShared left.now labels.now right.now) (IsBoxOf left.now) v.items) }
    ensures sorted { IfOk result (λ v. IsStrictlySortedBy (key_cmp P.order) v.items) }
{
    let firsts = first_rows(alloc, left)?;
    let parts = shared(alloc, sides, left, firsts.as_slice(), right)?;
    let packed = pack_rows(alloc, sides, parts)?;
    let out = with_labels(alloc, labels, packed)?;
    Ok(out)
}

// The same in the way that takes less time: on one side labels are packed quickly.
fn own_shared<P: Label + Numbers>(
    alloc: Global,
    sides: usize,
    left: &[CellBox<Number>],
    labels: &[P],
    right: &[CellBox<Number>],
) -> Result<Vec<CellBox<P>>, Memory>
    requires left { All (λ x. length x.1 ≡ sides) left.now }
    requires right { All (λ x. length x.1 ≡ sides) right.now }
    requires left_order { Ascend nat_cmp left.now }
    requires right_order { Ascend nat_cmp right.now }
    requires labels { length labels.now ≡ length left.now }
    requires alike { RiseAlike P.order left.now labels.now }
    ensures rows { IfOk result (λ v. (x : PlainCellBox P) → Among x v.items ↔ IsPackedRow sides (IsShared left.now labels.now right.now) x) }
    ensures cover { IfOk result (λ v. IsPackedCover sides (IsShared left.now labels.now right.now) (IsBoxOf left.now) v.items) }
    ensures sorted { IfOk result (λ v. IsStrictlySortedBy (key_cmp P.order) v.items) }
{
    if sides == 1 {
        return packed_shared(alloc, sides, left, labels, right);
    }
    labelled_shared(alloc, sides, left, labels, right)
}

// What of the left boxes is outside the right boxes of their keys, packed.
fn packed_rest<K: Label, P: Label + Numbers>(
    alloc: Global,
    sides: usize,
    left: Vec<CellBox<K>>,
    labels: Vec<P>,
    right: &[CellBox<K>],
) -> Result<Vec<CellBox<P>>, Memory>
    requires left { All (λ x. length x.1 ≡ sides) left.items }
    requires right { All (λ x. length x.1 ≡ sides) right.now }
    requires left_order { Ascend K.order left.items }
    requires right_order { Ascend K.order right.now }
    requires labels { length labels.items ≡ length left.items }
    ensures rows { IfOk result (λ v. (x : PlainCellBox P) → Among x v.items ↔ IsPackedRow sides (IsRest left.items labels.items right.now) x) }
    ensures cover { IfOk result (λ v. IsPackedCover sides (IsRest left.items labels.items right.now) (IsBoxOf left.items) v.items) }
    ensures sorted { IfOk result (λ v. IsStrictlySortedBy (key_cmp P.order) v.items) }
{
    let parts = rest(alloc, sides, left, labels, right)?;
    let out = pack_arranged(alloc, sides, parts)?;
    Ok(out)
}

// The same for labels that stand as the keys do: the parts are under numbers until they are packed.
fn labelled_rest<P: Label>(
    alloc: Global,
    sides: usize,
    left: Vec<CellBox<Number>>,
    labels: &[P],
    right: &[CellBox<Number>],
) -> Result<Vec<CellBox<P>>, Memory>
    requires left { All (λ x. length x.1 ≡ sides) left.items }
    requires right { All (λ x. length x.1 ≡ sides) right.now }
    requires left_order { Ascend nat_cmp left.items }
    requires right_order { Ascend nat_cmp right.now }
    requires labels { length labels.now ≡ length left.items }
    requires alike { RiseAlike P.order left.items labels.now }
    ensures rows { IfOk result (λ v. (x : PlainCellBox P) → Among x v.items ↔ IsPackedRow sides (IsRest left.items labels.now right.now) x) }
    ensures cover { IfOk result (λ v. IsPackedCover sides (IsRest left.items labels.now right.now) (IsBoxOf left.items) v.items) }
    ensures sorted { IfOk result (λ v. IsStrictlySortedBy (key_cmp P.order) v.items) }
{
    let firsts = first_rows(alloc, left.as_slice())?;
    let parts = rest(alloc, sides, left, firsts, right)?;
    let packed = pack_rows(alloc, sides, parts)?;
    let out = with_labels(alloc, labels, packed)?;
    Ok(out)
}

// The same in the way that takes less time: on one side labels that are moved are packed quickly.
fn own_rest<P: Label + Numbers>(
    alloc: Global,
    sides: usize,
    left: Vec<CellBox<Number>>,
    labels: Vec<P>,
    right: &[CellBox<Number>],
) -> Result<Vec<CellBox<P>>, Memory>
    requires left { All (λ x. length x.1 ≡ sides) left.items }
    requires right { All (λ x. length x.1 ≡ sides) right.now }
    requires left_order { Ascend nat_cmp left.items }
    requires right_order { Ascend nat_cmp right.now }
    requires labels { length labels.items ≡ length left.items }
    requires alike { RiseAlike P.order left.items labels.items }
    ensures rows { IfOk result (λ v. (x : PlainCellBox P) → Among x v.items ↔ IsPackedRow sides (IsRest left.items labels.items right.now) x) }
    ensures cover { IfOk result (λ v. IsPackedCover sides (IsRest left.items labels.items right.now) (IsBoxOf left.items) v.items) }
    ensures sorted { IfOk result (λ v. IsStrictlySortedBy (key_cmp P.order) v.items) }
{
    if sides == 1 {
        return packed_rest(alloc, sides, left, labels, right);
    }
    labelled_rest(alloc, sides, left, labels.as_slice(), right)
}

/// The packed form of the labels of the left rows where a right row has their key.
pub fn matching<K: Label + Numbers, P: Label + Numbers>(
    alloc: Global,
    sides: usize,
    left: Vec<KeyedCellBox<K, P>>,
    right: Vec<CellBox<K>>,
) -> Result<Vec<CellBox<P>>, Memory>
    requires left { All (λ x. length x.2 ≡ sides) left.items }
    requires right { All (λ x. length x.1 ≡ sides) right.items }
    ensures rows { IfOk result (λ v. (x : PlainCellBox P) → Among x v.items ↔ IsPackedRow sides (IsMatched left.items right.items) x) }
    ensures cover { IfOk result (λ v. IsPackedCover sides (IsMatched left.items right.items) (IsBoxOfKeyed left.items) v.items) }
    ensures sorted { IfOk result (λ v. IsStrictlySortedBy (key_cmp P.order) v.items) }
{
    let (keys, labels) = keys_in_order(alloc, left)?;
    let others = rows_in_order(alloc, right)?;
    let (lefts, rights) = numbered(alloc, keys, others)?;
    let out = packed_shared(
        alloc,
        sides,
        lefts.as_slice(),
        labels.as_slice(),
        rights.as_slice(),
    )?;
    Ok(out)
}

/// The packed form of the labels of the left rows where no right row has their key.
pub fn not_matching<K: Label + Numbers, P: Label + Numbers>(
    alloc: Global,
    sides: usize,
    left: Vec<KeyedCellBox<K, P>>,
    right: Vec<CellBox<K>>,
) -> Result<Vec<CellBox<P>>, Memory>
    requires left { All (λ x. length x.2 ≡ sides) left.items }
    requires right { All (λ x. length x.1 ≡ sides) right.items }
    ensures rows { IfOk result (λ v. (x : PlainCellBox P) → Among x v.items ↔ IsPackedRow sides (IsUnmatched left.items right.items) x) }
    ensures cover { IfOk result (λ v. IsPackedCover sides (IsUnmatched left.items right.items) (IsBoxOfKeyed left.items) v.items) }
    ensures sorted { IfOk result (λ v. IsStrictlySortedBy (key_cmp P.order) v.items) }
{
    let (keys, labels) = keys_in_order(alloc, left)?;
    let others = rows_in_order(alloc, right)?;
    let (lefts, rights) = numbered(alloc, keys, others)?;
    let out = packed_rest(alloc, sides, lefts, labels, rights.as_slice())?;
    Ok(out)
}

/// The packed form of the labels that both have.
pub fn intersect<P: Label + Numbers>(
    alloc: Global,
    sides: usize,
    left: Vec<CellBox<P>>,
    right: Vec<CellBox<P>>,
) -> Result<Vec<CellBox<P>>, Memory>
    requires left { All (λ x. length x.1 ≡ sides) left.items }
    requires right { All (λ x. length x.1 ≡ sides) right.items }
    ensures rows { IfOk result (λ v. (x : PlainCellBox P) → Among x v.items ↔ IsPackedRow sides (InBoth left.items right.items) x) }
    ensures cover { IfOk result (λ v. IsPackedCover sides (InBoth left.items right.items) (IsBoxOf left.items) v.items) }
    ensures sorted { IfOk result (λ v. IsStrictlySortedBy (key_cmp P.order) v.items) }
{
    let lefts = rows_in_order(alloc, left)?;
    let others = rows_in_order(alloc, right)?;
    let (keys, labels, rights) = numbered_apart(alloc, lefts, others)?;
    let out = own_shared(
        alloc,
        sides,
        keys.as_slice(),
        labels.as_slice(),
        rights.as_slice(),
    )?;
    Ok(out)
}

/// The packed form of the labels that the left rows have and the right rows have not.
pub fn minus<P: Label + Numbers>(
    alloc: Global,
    sides: usize,
    left: Vec<CellBox<P>>,
    right: Vec<CellBox<P>>,
) -> Result<Vec<CellBox<P>>, Memory>
    requires left { All (λ x. length x.1 ≡ sides) left.items }
    requires right { All (λ x. length x.1 ≡ sides) right.items }
    ensures rows { IfOk result (λ v. (x : PlainCellBox P) → Among x v.items ↔ IsPackedRow sides (InFirst left.items right.items) x) }
    ensures cover { IfOk result (λ v. IsPackedCover sides (InFirst left.items right.items) (IsBoxOf left.items) v.items) }
    ensures sorted { IfOk result (λ v. IsStrictlySortedBy (key_cmp P.order) v.items) }
{
    let lefts = rows_in_order(alloc, left)?;
    let others = rows_in_order(alloc, right)?;
    let (keys, labels, rights) = numbered_apart(alloc, lefts, others)?;
    let out = own_rest(alloc, sides, keys, labels, rights.as_slice())?;
    Ok(out)
}
