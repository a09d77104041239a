// A view's rows made from its operands.
ghost use Rattle.std.specs.Prelude.{◌≤◌, ◌+◌, ℕ, List, [], length, option_map, MatchResult};
ghost use Rattle.value_core.specs.RowPacking.{packed, unpacked};
ghost use Rattle.relation_core.specs.Answers.{IsAnswer, IsRefusal};
ghost use Rattle.relation_core.specs.Joins.{joined_heading, joined};
ghost use Rattle.relation_core.specs.Parts.{attributes_at, projected};
ghost use Rattle.cell_core.specs.Costs.{bound};
ghost use Rattle.kept_views.specs.Kept.{AreJoined, Fits, IsAlone, IsPair, IsPart, kept_heading, kept_rows, positions_beside, rows_by, rows_or_none, view_heading};

use crate::headings::{joined_heading, part_heading, positions_beside};
use crate::rule::{KeptOp, KeptRule};
use point_core::Steps;
use std::alloc::Global;
use std::sync::ledger::Ledger;
use u_join::{intersected, joined, matched, subtracted, unmatched};
use u_row::projected;
use u_set::{packed, united};
use value_core::{Relation, RowsRefuse};

// The rows of either that agree, put together, under USING.
fn joined_rows<L: Ledger>(
    alloc: Global,
    left: &Relation,
    right: &Relation,
    here: &[usize],
    there: &[usize],
    steps: &mut Steps<L>,
) -> Result<Relation, RowsRefuse>
    requires { AreJoined here.now there.now left.now.heading right.now.heading }
    ensures rows { let heading = joined_heading left.now.heading right.now.heading in
        let rows = packed (positions_beside left.now.heading heading here.now)
        (joined left.now.heading right.now.heading (unpacked here.now left.now.rows) (unpacked there.now right.now.rows)) in
        MatchResult result (IsAnswer heading rows) (IsRefusal rows) }
    ensures cost { steps.new ≤ steps.old + bound (length left.now.rows + length right.now.rows) (length here.now) }
{
    let heading = joined_heading(alloc, left, right)?;
    let own = left.heading().attributes();
    let _other = right.heading().attributes();
    let places = positions_beside(alloc, own, heading.attributes(), here)?;
    joined(
        alloc,
        &heading,
        places.as_slice(),
        left,
        right,
        here,
        there,
        steps,
    )
}

// The different parts of the rows at the kept positions under USING.
fn parts<L: Ledger>(
    alloc: Global,
    r: &Relation,
    kept: &[usize],
    here: &[usize],
    steps: &mut Steps<L>,
) -> Result<Relation, RowsRefuse>
    requires { IsPart kept.now here.now r.now.heading }
    ensures rows { let heading = attributes_at kept.now r.now.heading in
        let rows = packed (positions_beside r.now.heading heading here.now) (projected kept.now (unpacked here.now r.now.rows)) in
        MatchResult result (IsAnswer heading rows) (IsRefusal rows) }
    ensures cost { steps.new ≤ steps.old + bound (length r.now.rows) (length here.now) }
{
    let heading = part_heading(alloc, r, kept)?;
    let own = r.heading().attributes();
    let places = positions_beside(alloc, own, heading.attributes(), here)?;
    projected(alloc, &heading, places.as_slice(), kept, r, steps)
}

/// What an operator of two operands gives, of which these positions are listed.
pub(crate) fn of_two<L: Ledger>(
    alloc: Global,
    op: &KeptOp,
    here: &[usize],
    there: &[usize],
    left: &Relation,
    right: &Relation,
    steps: &mut Steps<L>,
) -> Result<Relation, RowsRefuse>
    requires { IsPair op.now here.now there.now left.now.heading right.now.heading }
    ensures rows { let rows = rows_by op.now here.now there.now left.now.heading right.now.heading left.now.rows right.now.rows in
        MatchResult result (IsAnswer (view_heading op.now left.now.heading right.now.heading) rows) (IsRefusal rows) }
    ensures cost { steps.new ≤ steps.old + bound (length left.now.rows + length right.now.rows) (length here.now) }
{
    match op {
        KeptOp::Union => united(alloc, left, right, here, steps),
        KeptOp::Intersect => intersected(alloc, left, right, here, steps),
        KeptOp::Minus => subtracted(alloc, left, right, here, steps),
        KeptOp::Join => joined_rows(alloc, left, right, here, there, steps),
        KeptOp::Matching => matched(alloc, left, right, here, there, steps),
        KeptOp::NotMatching => unmatched(alloc, left, right, here, there, steps),
        KeptOp::Project(_) => unreachable!(),
        KeptOp::Pack => unreachable!(),
    }
}

/// What an operator of one operand gives, of which these positions are listed.
pub(crate) fn of_one<L: Ledger>(
    alloc: Global,
    op: &KeptOp,
    here: &[usize],
    r: &Relation,
    steps: &mut Steps<L>,
) -> Result<Relation, RowsRefuse>
    requires { IsAlone op.now here.now r.now.heading }
    ensures rows { (there : List ℕ) → let rows = rows_by op.now here.now there r.now.heading [] r.now.rows [] in
        MatchResult result (IsAnswer (view_heading op.now r.now.heading []) rows) (IsRefusal rows) }
    ensures cost { steps.new ≤ steps.old + bound (length r.now.rows) (length here.now) }
{
    match op {
        KeptOp::Project(kept) => parts(alloc, r, kept.list.as_slice(), here, steps),
        KeptOp::Pack => packed(alloc, r, here, steps),
        KeptOp::Union | KeptOp::Intersect | KeptOp::Minus => unreachable!(),
        KeptOp::Join | KeptOp::Matching | KeptOp::NotMatching => unreachable!(),
    }
}

/// The rows that the rule gives of its operands, as a relation: those of its operator under USING, or of PACK. `TooMany` comes exactly
/// where they are more than 100,000.
pub fn made<L: Ledger>(
    alloc: Global,
    rule: &KeptRule,
    left: &Relation,
    right: Option<&Relation>,
    steps: &mut Steps<L>,
) -> Result<Relation, RowsRefuse>
    requires { Fits rule.now left.now (option_map (λ r. r.now) right) }
    ensures rows { let other = option_map (λ r. r.now) right.entry in
        let rows = kept_rows rule.now left.now other in
        MatchResult result (IsAnswer (kept_heading rule.now left.now other) rows) (IsRefusal rows) }
    ensures cost { let other = option_map (λ r. r.now) right.entry in
        steps.new ≤ steps.old + bound (length left.now.rows + length (rows_or_none other)) (length rule.now.left) }
{
    let (here, there) = (rule.left.list.as_slice(), rule.right.list.as_slice());
    match right {
        Some(other) => of_two(alloc, &rule.op, here, there, left, other, steps),
        None => of_one(alloc, &rule.op, here, left, steps),
    }
}
