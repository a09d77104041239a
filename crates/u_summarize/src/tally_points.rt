// Labels for groups of rows of one side, at each point, where a cell is a point.
ghost use Rattle.std.specs.Prelude.{◌≡◌, ◌↔◌, ℤ, List, [], ◌∷◌, map, length, pos, ◌+ℤ◌, ◌≤ℤ◌, ◌<ℤ◌, ◌^◌, Ok, None, IfOk, IfSome};
ghost use Rattle.std.specs.List.{All};
ghost use Rattle.value_core.specs.Values.{Row as PlainRow};
ghost use Rattle.point_core.specs.LeastFault.{IsLeast};
ghost use Rattle.cell_packing.specs.Boxed.{InBoxes};
ghost use Rattle.cell_core.specs.Boxes.{IsBox};
ghost use Rattle.cell_core.specs.Cells.{box_numbers, row_numbers};
ghost use Rattle.u_summarize.specs.Groups.{HasGroupFault, InGroupRule, labels_in};
ghost use Rattle.u_summarize.specs.PointCells.{LiesIn};

use crate::point_cells::{can_count, over_cells, over_points, reach};
use crate::tally_cells::given_at_cells;
use crate::tally_rule::GroupTally;
use cell_core::BoxRow;
use point_core::{Fault, Memory, PointNumber};
use std::alloc::Global;
use value_core::Row;

// The boxes over the labels that the rule gives, and its least fault, where all ends lie between two numbers.
fn given_within<T: PointNumber, G: GroupTally>(
    alloc: Global,
    t: &T,
    all: (i64, i64),
    rows: Vec<BoxRow<T, Row>>,
    by: &[usize],
    rule: &G,
) -> Result<(Vec<BoxRow<T, Row>>, Option<Fault>), Memory>
    requires takes { G.Takes rule.now (length rows.items) }
    requires fits { G.Fits rule.now by.now (labels_in rows.items) }
    requires boxes { All (λ b. IsBox T.IsPoint (t.now ∷ []) b.1) rows.items }
    requires within { All (λ b. LiesIn all (box_numbers T.number_of b.1)) rows.items }
    requires low { T.first_number t.now ≤ℤ all.0 }
    requires high { all.1 ≤ℤ T.last_number t.now }
    requires few { (all.1 +ℤ pos 1) <ℤ (all.0 +ℤ pos (2 ^ 64)) }
    ensures places { IfOk result (λ v. (l : PlainRow) (place : List ℤ) → InBoxes (map (row_numbers T.number_of) v.0.items) l place ↔
        InGroupRule (G.means rule.now) by.now (map (row_numbers T.number_of) rows.items) l place) }
    ensures boxes { IfOk result (λ v. All (λ b. IsBox T.IsPoint (t.now ∷ []) b.1) v.0.items) }
    ensures least { IfOk result (λ v. IsLeast (HasGroupFault (G.means rule.now) by.now (map (row_numbers T.number_of) rows.items)) v.1) }
{
    let cells = over_cells(alloc, t, all, rows)?;
    let (parts, least) = given_at_cells(alloc, 1, cells, by, rule)?;
    let boxes = over_points(alloc, t, all, parts)?;
    Ok((boxes, least))
}

/// What `u_tally` gives of rows of one side, not packed, and the least fault of the rule over all points and groups. The boxes come group
/// by group, and in order of time within a group. No end is numbered, since the cells are the points themselves.
///
/// It is `None` only of a type that has 2 ^ 64 points or more.
pub fn u_tally_cells<T: PointNumber, G: GroupTally>(
    alloc: Global,
    t: &T,
    rows: Vec<BoxRow<T, Row>>,
    by: &[usize],
    rule: &G,
) -> Result<Option<(Vec<BoxRow<T, Row>>, Option<Fault>)>, Memory>
    requires takes { G.Takes rule.now (length rows.items) }
    requires fits { G.Fits rule.now by.now (labels_in rows.items) }
    requires boxes { All (λ b. IsBox T.IsPoint (t.now ∷ []) b.1) rows.items }
    ensures places { IfOk result (λ o. IfSome o (λ v. (l : PlainRow) (place : List ℤ) → InBoxes (map (row_numbers T.number_of) v.0.items) l place ↔
        InGroupRule (G.means rule.now) by.now (map (row_numbers T.number_of) rows.items) l place)) }
    ensures boxes { IfOk result (λ o. IfSome o (λ v. All (λ b. IsBox T.IsPoint (t.now ∷ []) b.1) v.0.items)) }
    ensures least { IfOk result (λ o. IfSome o (λ v. IsLeast (HasGroupFault (G.means rule.now) by.now (map (row_numbers T.number_of) rows.items)) v.1)) }
    ensures none { result ≡ Ok None → (T.first_number t.now +ℤ pos (2 ^ 64)) ≤ℤ (T.last_number t.now +ℤ pos 1) }
{
    let all = reach(t, rows.as_slice());
    if !can_count(all) {
        return Ok(None);
    }
    let given = given_within(alloc, t, all, rows, by, rule)?;
    Ok(Some(given))
}
