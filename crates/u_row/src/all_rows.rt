// What a rule gives on all rows.
ghost use Rattle.std.specs.Prelude.{◌≡◌, ◌↔◌, ℕ, ◌<◌, ◌≤◌, ◌+◌, ℤ, List, map, length, get_or, Some, None, Err, IfOk};
ghost use Rattle.std.specs.List.{All};
ghost use Rattle.point_core.specs.declared.fault.Fault.{Fault as AnyFault};
ghost use Rattle.interval_core.specs.Members.{Span};
ghost use Rattle.cell_packing.specs.Boxed.{InBoxes};
ghost use Rattle.value_core.specs.Values.{Row as PlainRow, row_cmp};
ghost use Rattle.point_core.specs.LeastFault.{IsLeast};
ghost use Rattle.cell_core.specs.Boxes.{IsBox};
ghost use Rattle.cell_core.specs.Cells.{row_numbers};
ghost use Rattle.cell_core.specs.Costs.{bound};
ghost use Rattle.cell_core.specs.declared.boxes.CellRefuse.TheVariants.{Op as OfOp, Limit as OfLimit};
ghost use Rattle.u_row.specs.Cutting.{count_cells, count_cuts};
ghost use Rattle.u_row.specs.Rules.{InRule, HasRuleFault, IsRuleForm, sides_numbers};

use crate::rows::give_row;
use crate::rule::RowRule;
use cell_core::{BoxRow, CellRefuse, pack};
use point_core::{Fault, Memory, PointType, Steps};
use std::alloc::Global;
use std::sync::ledger::Ledger;
use value_core::Row;

// The cells of all rows under the labels that the rule gives on them, and its least fault. It costs a step for each cut.
fn give_rows<T: PointType, R: RowRule<T>, L: Ledger>(
    alloc: Global,
    types: &[T],
    rows: &[BoxRow<T, Row>],
    rule: &R,
    steps: &mut Steps<L>,
) -> Result<(Vec<BoxRow<T, Row>>, Option<Fault>), Memory>
    requires can { (r : ℕ) → r < length rows.now → R.CanApply rule.now r }
    requires sides { (r : ℕ) (d : PlainRow × List (T.Point × T.Point)) → r < length rows.now → R.sides rule.now r ≡ (get_or rows.now r d).1 }
    requires boxes { All (λ b. IsBox T.IsPoint types.now b.1) rows.now }
    ensures places { IfOk result (λ v. (l : PlainRow) (place : List ℤ) → InBoxes (map (row_numbers T.number_of) v.0.items) l place ↔
        InRule (R.means rule.now) (sides_numbers T.number_of rows.now) l place) }
    ensures boxes { IfOk result (λ v. All (λ b. IsBox T.IsPoint types.now b.1) v.0.items) }
    ensures few { IfOk result (λ v. length v.0.items ≤ count_cells (R.cuts_of rule.now) 0 (sides_numbers T.number_of rows.now)) }
    ensures least { IfOk result (λ v. IsLeast (HasRuleFault (R.means rule.now) (sides_numbers T.number_of rows.now)) v.1) }
    ensures cost { steps.new ≤ steps.old + count_cuts (R.cuts_of rule.now) 0 (sides_numbers T.number_of rows.now) }
{
    let mut out = Vec::new(alloc);
    let mut least = None;
    for i in 0..rows.len() {
        let row = &rows[i];
        give_row(
            alloc, types, &row.sides, rule, i, &mut out, &mut least, steps,
        )?;
    }
    Ok((out, least))
}

/// At each point of each row's box the label that the rule gives there for the row, if it gives one, packed on the first side, then
/// on the second, and so on; the rows stand in the order of their labels and then of their sides. The rule is asked once for each
/// cell between its cuts.
///
/// `Op` is the least fault of the rule over all points of all rows, and comes exactly where there is one. `Limit` comes exactly where
/// there is none and the packed rows are more than `limit`. The bound goes by the number of cells, and counts a step for each cut.
pub fn u_rule<T: PointType, R: RowRule<T>, L: Ledger>(
    alloc: Global,
    types: &[T],
    rows: &[BoxRow<T, Row>],
    rule: &R,
    limit: usize,
    steps: &mut Steps<L>,
) -> Result<Vec<BoxRow<T, Row>>, CellRefuse>
    requires can { (r : ℕ) → r < length rows.now → R.CanApply rule.now r }
    requires sides { (r : ℕ) (d : PlainRow × List (T.Point × T.Point)) → r < length rows.now → R.sides rule.now r ≡ (get_or rows.now r d).1 }
    requires boxes { All (λ b. IsBox T.IsPoint types.now b.1) rows.now }
    ensures rows { IfOk result (λ v. IsRuleForm row_cmp (length types.now) (R.means rule.now) (sides_numbers T.number_of rows.now)
        (map (row_numbers T.number_of) v.items)) }
    ensures boxes { IfOk result (λ v. All (λ b. IsBox T.IsPoint types.now b.1) v.items) }
    ensures few { IfOk result (λ v. length v.items ≤ limit) }
    ensures no_fault { IfOk result (λ v. IsLeast (HasRuleFault (R.means rule.now) (sides_numbers T.number_of rows.now)) None) }
    ensures fault { (e : AnyFault) → result ≡ Err (OfOp e) →
        IsLeast (HasRuleFault (R.means rule.now) (sides_numbers T.number_of rows.now)) (Some e) }
    ensures limit { result ≡ Err OfLimit → IsLeast (HasRuleFault (R.means rule.now) (sides_numbers T.number_of rows.now)) None ×
        ((form : List (PlainRow × List Span)) ×
        IsRuleForm row_cmp (length types.now) (R.means rule.now) (sides_numbers T.number_of rows.now) form × (limit < length form)) }
    ensures cost { steps.new ≤ steps.old + bound (count_cells (R.cuts_of rule.now) 0 (sides_numbers T.number_of rows.now)) (length types.now) }
{
    let (cells, least) = give_rows(alloc, types, rows, rule, steps)?;
    match least {
        Some(fault) => Err(CellRefuse::Op(fault)),
        None => pack(alloc, types, cells, limit, steps),
    }
}
