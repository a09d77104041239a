// The operators over boxes of integers on one side.
ghost use Rattle.std.specs.Prelude.{◌≡◌};
ghost use Rattle.std.specs.List.{All};
ghost use Rattle.cell_core.specs.Boxes.{IsBox};
ghost use Rattle.point_core.specs.Whole.{IsWhole};

use crate::boxes::{boxes_of, spans_of};
use cell_core::{BoxRow, CellRefuse};
use point_core::{IntType, Steps};
use std::alloc::Global;
use std::sync::ledger::{Blank, Ledger};
use u_join::{u_join, u_matching, u_not_matching};
use u_set::{u_intersect, u_minus};
use value_core::Row;

/// What is done with left and right boxes.
#[derive(Clone, Copy)]
pub(crate) enum Operator {
    Intersect,
    Minus,
    Join,
    Matching,
    NotMatching,
}

// What the operator gives of the boxes.
fn operated<L: Ledger>(
    alloc: Global,
    operator: Operator,
    types: &[IntType],
    left: &[BoxRow<IntType, Row>],
    right: &[BoxRow<IntType, Row>],
    limit: usize,
    steps: &mut Steps<L>,
) -> Result<Vec<BoxRow<IntType, Row>>, CellRefuse>
    requires left { All (λ b. IsBox (λ _ p. IsWhole p) types.now b.1) left.now }
    requires right { All (λ b. IsBox (λ _ p. IsWhole p) types.now b.1) right.now }
{
    match operator {
        Operator::Intersect => u_intersect(alloc, types, left, right, limit, steps),
        Operator::Minus => u_minus(alloc, types, left, right, limit, steps),
        Operator::Join => u_join(alloc, types, left, right, &[], limit, steps),
        Operator::Matching => u_matching(alloc, types, left, right, &[], limit, steps),
        Operator::NotMatching => u_not_matching(alloc, types, left, right, &[], limit, steps),
    }
}

/// The intervals that the operator gives of left and right ones.
pub(crate) fn given<L: Ledger>(
    rt: &HostRuntime,
    operator: Operator,
    types: &[IntType],
    left: &[(i64, i64)],
    right: &[(i64, i64)],
    blank: Blank,
) -> Result<Vec<(i64, i64)>, CellRefuse>
    requires name { blank.name ≡ L.name }
    requires parts { blank.parts ≡ L.parts }
    requires one { blank.parts ≡ 1 }
{
    let alloc = rt.alloc();
    let mut steps = Steps::<L>::new(blank, rt);
    let left = boxes_of(alloc, types, left)?;
    let right = boxes_of(alloc, types, right)?;
    let found = operated(
        alloc,
        operator,
        types,
        left.as_slice(),
        right.as_slice(),
        9,
        &mut steps,
    )?;
    let list = spans_of(alloc, found.as_slice())?;
    Ok(list)
}
