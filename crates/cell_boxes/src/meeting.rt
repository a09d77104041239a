// Boxes of one key that meet.
ghost use Rattle.std.specs.Prelude.{◌≡◌, ℕ, ◌<◌, ◌↔◌, ◌++◌, List, length, flat_map, OnOk, IfOk};
ghost use Rattle.std.specs.List.{All};
ghost use Rattle.std.specs.declared.cmp.Ordering.TheVariants.{Equal};
ghost use Rattle.cell_packing.specs.Covering.{Among};
ghost use Rattle.cell_boxes.specs.Common.{At};
ghost use Rattle.cell_boxes.specs.Meetings.{IsMeeting, StandByLeft, Met, met, meets, boxes_in};
ghost use Rattle.cell_boxes.specs.Rows.{Ascend, IsRow, PlainCellBox};
ghost use Rattle.cell_boxes.specs.Sides.{AreCandidates};

use crate::by_side::pairs_on_best_side;
use crate::common::{common, meet};
use cell_sweep::CellBox;
use point_core::{Label, Memory};
use std::alloc::Global;
use std::marker::Model;

/// The number of a left row and of a right row of one key, and the box that they have in common.
#[derive(Drop)]
pub struct Meeting {
    pub left: usize,
    pub right: usize,
    pub sides: Vec<(usize, usize)>,
}

impl Model for Meeting {
    ghost use Rattle.std.specs.Prelude.{ℕ, List};

    ghost Value = { (ℕ × ℕ) × List (ℕ × ℕ) };

    ghost view = { λ m. ((m.left, m.right), m.sides.items) };
}

// Whether the boxes of the pair have a cell in common on each side. A pair without rows is let through.
#[tactic(auto, using(crate::proofs::MeetingLemmas::meets_no_left, crate::proofs::MeetingLemmas::meets_no_right))]
fn pair_meets<P>(left: &[CellBox<P>], right: &[CellBox<P>], pair: (usize, usize)) -> bool
    ensures { result ≡ meets (boxes_in left.now) (boxes_in right.now) pair }
{
    if pair.0 >= left.len() || pair.1 >= right.len() {
        return true;
    }
    meet(&left[pair.0], &right[pair.1])
}

// The pairs, where there is more than one side without those that do not meet. On one side they are left as they are, since
// all that were found there meet.
fn those_that_meet<P: Label>(
    sides: usize,
    left: &[CellBox<P>],
    right: &[CellBox<P>],
    pairs: Vec<(usize, usize)>,
) -> Vec<(usize, usize)>
    ensures { AreCandidates P.order left.now right.now pairs.items → AreCandidates P.order left.now right.now result.items }
{
    if sides <= 1 {
        return pairs;
    }
    let mut kept = pairs;
    kept.retain(|pair: &(usize, usize)| pair_meets(left, right, *pair));
    kept
}

// Adds the pair with what its rows have in common, if that has a cell.
fn push_meeting<P>(
    alloc: Global,
    out: &mut Vec<Meeting>,
    left: &[CellBox<P>],
    right: &[CellBox<P>],
    pair: (usize, usize),
) -> Result<(), Memory>
    requires left { pair.0 < length left.now }
    requires right { pair.1 < length right.now }
    requires sides { (x y : PlainCellBox P) → IsRow left.now pair.0 x → IsRow right.now pair.1 y → length x.1 ≡ length y.1 }
    ensures { OnOk result (out.new.items ≡ out.old.items ++ met (boxes_in left.now) (boxes_in right.now) pair) }
{
    if meet(&left[pair.0], &right[pair.1]) {
        let sides = common(alloc, &left[pair.0], &right[pair.1])?;
        out.push(Meeting {
            left: pair.0,
            right: pair.1,
            sides,
        })?;
    }
    Ok(())
}

// The meetings among the pairs.
fn meetings<P>(
    alloc: Global,
    left: &[CellBox<P>],
    right: &[CellBox<P>],
    pairs: &[(usize, usize)],
) -> Result<Vec<Meeting>, Memory>
    requires pairs { All (λ p. (p.0 < length left.now) × (p.1 < length right.now)) pairs.now }
    requires sides { (i j : ℕ) (x y : PlainCellBox P) → IsRow left.now i x → IsRow right.now j y → length x.1 ≡ length y.1 }
    ensures { IfOk result (λ v. v.items ≡ flat_map (met (boxes_in left.now) (boxes_in right.now)) pairs.now) }
{
    let mut out = Vec::with_capacity(alloc, pairs.len())?;
    for pair in pairs {
        push_meeting(alloc, &mut out, left, right, *pair)?;
    }
    Ok(out)
}

/// The pairs of a left and a right row of one key whose boxes meet, each with the box that they have in common.
///
/// The pairs are found on one side: for a left row the rights that begin within it there, and for a right row the lefts
/// that begin within it and after its first cell, so each pair once. It is the first side, by which the rows stand, unless
/// they are at most half as long for the length of the axis on another one: then it is the side on which they are shortest
/// so, since there the fewest overlap, and the rows are sorted by that side. On one side just the pairs that meet are
/// found; on more, those that do not meet are left out before the pairs are sorted. That takes the time of a sort of the
/// rows, where it is another side than the first, of a look at each pair that overlaps on that side, and of a sort of the
/// pairs that meet. In the worst case, where many rows of one key overlap on every side and yet few meet, the pairs to be
/// looked at are as many as the left rows times the right rows of the key.
pub fn overlaps<P: Label>(
    alloc: Global,
    sides: usize,
    left: &[CellBox<P>],
    right: &[CellBox<P>],
) -> Result<Vec<Meeting>, Memory>
    requires left { All (λ x. length x.1 ≡ sides) left.now }
    requires right { All (λ x. length x.1 ≡ sides) right.now }
    requires left_order { Ascend P.order left.now }
    requires right_order { Ascend P.order right.now }
    ensures members { IfOk result (λ v. (m : Met) → Among m v.items ↔ IsMeeting P.order left.now right.now m) }
    ensures grid_points { IfOk result (λ v. (i j : ℕ) (x y : PlainCellBox P) (grid_point : List ℕ) → IsRow left.now i x → IsRow right.now j y → P.order x.0 y.0 ≡ Equal → length grid_point ≡ sides →
        ((b : List (ℕ × ℕ)) × Among ((i, j), b) v.items × At b grid_point) ↔ At x.1 grid_point × At y.1 grid_point) }
    ensures order { IfOk result (λ v. StandByLeft v.items) }
{
    let pairs = pairs_on_best_side(alloc, sides, left, right)?;
    let mut kept = those_that_meet(sides, left, right, pairs);
    kept.sort()?;
    let out = meetings(alloc, left, right, kept.as_slice())?;
    Ok(out)
}
