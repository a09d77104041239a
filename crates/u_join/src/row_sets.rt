// Difference and intersection of two relations of one heading under USING of one attribute, over rows themselves: what is unmatched,
// and what is matched, where all attributes are common.
ghost use Rattle.std.specs.Prelude.{◌≡◌, ◌+◌, ◌≤◌, length, IfSome, MatchResult};
ghost use Rattle.value_core.specs.RowPacking.{packed, unpacked};
ghost use Rattle.value_core.specs.Values.{IsRelation};
ghost use Rattle.relation_core.specs.Answers.{IsAnswer, IsRefusal};
ghost use Rattle.relation_core.specs.Operators.{subtracted, intersected};
ghost use Rattle.cell_core.specs.Costs.{bound};
ghost use Rattle.u_set.specs.Boxes.{AreIntervals};

use crate::row_matches::matched_by_rows;
use crate::row_unmatched::unmatched_by_rows;
use point_core::Steps;
use std::alloc::Global;
use std::sync::ledger::Ledger;
use value_core::{Relation, RowsRefuse};

// The difference, or nothing where more attributes are listed.
fn subtracted_by_rows(
    alloc: Global,
    left: &Relation,
    right: &Relation,
    commalist: &[usize],
) -> Result<Option<Relation>, RowsRefuse>
    requires heading { left.now.heading ≡ right.now.heading }
    requires intervals { AreIntervals left.now.heading commalist.now }
    ensures { let rows = packed commalist.now (subtracted (unpacked commalist.now left.now.rows) (unpacked commalist.now right.now.rows)) in
        MatchResult result (λ o. IfSome o (IsAnswer left.now.heading rows)) (IsRefusal rows) }
{
    let _ours = left.heading();
    let _theirs = right.heading();
    unmatched_by_rows(alloc, left, right, commalist, commalist)
}

// The intersection, or nothing where more attributes are listed or the pairs of rows that agree may be many.
fn intersected_by_rows(
    alloc: Global,
    left: &Relation,
    right: &Relation,
    commalist: &[usize],
) -> Result<Option<Relation>, RowsRefuse>
    requires heading { left.now.heading ≡ right.now.heading }
    requires intervals { AreIntervals left.now.heading commalist.now }
    ensures { let rows = packed commalist.now (intersected (unpacked commalist.now left.now.rows) (unpacked commalist.now right.now.rows)) in
        MatchResult result (λ o. IfSome o (IsAnswer left.now.heading rows)) (IsRefusal rows) }
{
    let _ours = left.heading();
    let _theirs = right.heading();
    matched_by_rows(alloc, left, right, commalist, commalist)
}

/// The difference of two relations of one heading under USING of the attributes at the positions: the rows of the left alone, both unpacked,
/// are packed.
pub fn subtracted<L: Ledger>(
    alloc: Global,
    left: &Relation,
    right: &Relation,
    commalist: &[usize],
    steps: &mut Steps<L>,
) -> Result<Relation, RowsRefuse>
    requires heading { left.now.heading ≡ right.now.heading }
    requires intervals { AreIntervals left.now.heading commalist.now }
    ensures rows { let rows = packed commalist.now (subtracted (unpacked commalist.now left.now.rows) (unpacked commalist.now right.now.rows)) in
        MatchResult result (IsAnswer left.now.heading rows) (IsRefusal rows) }
    ensures cost { steps.new ≤ steps.old + bound (length left.now.rows + length right.now.rows) (length commalist.now) }
{
    match subtracted_by_rows(alloc, left, right, commalist) {
        Ok(Some(answer)) => Ok(answer),
        Ok(None) => u_set::subtracted(alloc, left, right, commalist, steps),
        Err(refuse) => Err(refuse),
    }
}

/// The intersection of two relations of one heading under USING of the attributes at the positions: the rows of both, both unpacked, are
/// packed.
pub fn intersected<L: Ledger>(
    alloc: Global,
    left: &Relation,
    right: &Relation,
    commalist: &[usize],
    steps: &mut Steps<L>,
) -> Result<Relation, RowsRefuse>
    requires heading { left.now.heading ≡ right.now.heading }
    requires intervals { AreIntervals left.now.heading commalist.now }
    ensures rows { let rows = packed commalist.now (intersected (unpacked commalist.now left.now.rows) (unpacked commalist.now right.now.rows)) in
        MatchResult result (IsAnswer left.now.heading rows) (IsRefusal rows) }
    ensures cost { steps.new ≤ steps.old + bound (length left.now.rows + length right.now.rows) (length commalist.now) }
{
    match intersected_by_rows(alloc, left, right, commalist) {
        Ok(Some(answer)) => Ok(answer),
        Ok(None) => u_set::intersected(alloc, left, right, commalist, steps),
        Err(refuse) => Err(refuse),
    }
}
