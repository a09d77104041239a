// Labels for groups of rows, at each point.
ghost use Rattle.std.specs.Prelude.{◌≡◌, ◌≢◌, ℕ, ◌<◌, ◌≤◌, ◌+◌, List, [], map, length, Some, None, Err, IfOk};
ghost use Rattle.std.specs.List.{All};
ghost use Rattle.point_core.specs.declared.fault.Fault.{Fault as AnyFault};
ghost use Rattle.cell_packing.specs.Boxed.{Boxed};
ghost use Rattle.value_core.specs.Values.{Row as PlainRow, row_cmp};
ghost use Rattle.point_core.specs.LeastFault.{IsLeast};
ghost use Rattle.cell_sweep.specs.Rows.{AreRows};
ghost use Rattle.cell_core.specs.Boxes.{IsBox};
ghost use Rattle.cell_core.specs.Cells.{row_numbers};
ghost use Rattle.cell_core.specs.Costs.{bound};
ghost use Rattle.cell_core.specs.declared.boxes.CellRefuse.TheVariants.{Op as OfOp, Limit as OfLimit};
ghost use Rattle.u_summarize.specs.Groups.{HasGroupFault, IsGroupForm};

use crate::cells::given_at_cells;
use crate::rule::GroupRule;
use cell_core::{BoxRow, CellRefuse, CellRows, back, rows_over_cells};
use cell_sweep::pack_arranged;
use point_core::{Fault, Memory, PointType, Steps};
use std::alloc::Global;
use std::sync::ledger::Ledger;
use u_set::in_limit;
use value_core::Row;

// The packed form of the labels that the rule gives, and its least fault.
fn group_form<T: PointType, G: GroupRule, L: Ledger>(
    alloc: Global,
    types: &[T],
    rows: &[BoxRow<T, Row>],
    by: &[usize],
    rule: &G,
    steps: &mut Steps<L>,
) -> Result<(Vec<BoxRow<T, Row>>, Option<Fault>), Memory>
    requires can { (a : List ℕ) → a ≢ [] → AreRows 0 (length rows.now) a → G.CanApply rule.now a }
    requires boxes { All (λ b. IsBox T.IsPoint types.now b.1) rows.now }
    ensures rows { IfOk result (λ v. IsGroupForm row_cmp (length types.now) (G.means rule.now) by.now (map (row_numbers T.number_of) rows.now)
        (map (row_numbers T.number_of) v.0.items)) }
    ensures boxes { IfOk result (λ v. All (λ b. IsBox T.IsPoint types.now b.1) v.0.items) }
    ensures least { IfOk result (λ v. IsLeast (HasGroupFault (G.means rule.now) by.now (map (row_numbers T.number_of) rows.now)) v.1) }
    ensures cost { steps.new ≤ steps.old + bound (length rows.now) (length types.now) }
{
    let none: Vec<BoxRow<T, Row>> = Vec::new(alloc);
    let CellRows {
        sides,
        left,
        right: _,
    } = rows_over_cells(alloc, types, rows, none.as_slice(), steps)?;
    let (parts, least) = given_at_cells(alloc, types.len(), left.as_slice(), by, rule)?;
    let form = pack_arranged(alloc, types.len(), parts)?;
    let answer = back(alloc, types, sides.as_slice(), form)?;
    Ok((answer, least))
}

/// At each point the rows whose boxes have it are grouped by their labels' values at the positions `by`; of rows with equal labels only
/// the first is in its group. The rule is given the ascending numbers of a group, and the row that it gives is the whole new label there.
/// The answer is packed on the first side, then on the second, and so on; the rows stand in the order of their labels and then of their
/// sides. Any positions may be given: where a label is shorter its value there counts as FALSE.
///
/// `Op` is the least fault of the rule over all points and groups, and comes exactly where there is one. `Limit` comes exactly where there
/// is none and the packed rows are more than `limit`.
pub fn u_summarize<T: PointType, G: GroupRule, L: Ledger>(
    alloc: Global,
    types: &[T],
    rows: &[BoxRow<T, Row>],
    by: &[usize],
    rule: &G,
    limit: usize,
    steps: &mut Steps<L>,
) -> Result<Vec<BoxRow<T, Row>>, CellRefuse>
    requires can { (a : List ℕ) → a ≢ [] → AreRows 0 (length rows.now) a → G.CanApply rule.now a }
    requires boxes { All (λ b. IsBox T.IsPoint types.now b.1) rows.now }
    ensures rows { IfOk result (λ v. IsGroupForm row_cmp (length types.now) (G.means rule.now) by.now (map (row_numbers T.number_of) rows.now)
        (map (row_numbers T.number_of) v.items)) }
    ensures boxes { IfOk result (λ v. All (λ b. IsBox T.IsPoint types.now b.1) v.items) }
    ensures few { IfOk result (λ v. length v.items ≤ limit) }
    ensures no_fault { IfOk result (λ v. IsLeast (HasGroupFault (G.means rule.now) by.now (map (row_numbers T.number_of) rows.now)) None) }
    ensures fault { (e : AnyFault) → result ≡ Err (OfOp e) →
        IsLeast (HasGroupFault (G.means rule.now) by.now (map (row_numbers T.number_of) rows.now)) (Some e) }
    ensures limit { result ≡ Err OfLimit → IsLeast (HasGroupFault (G.means rule.now) by.now (map (row_numbers T.number_of) rows.now)) None ×
        ((form : List (Boxed PlainRow)) ×
        IsGroupForm row_cmp (length types.now) (G.means rule.now) by.now (map (row_numbers T.number_of) rows.now) form × (limit < length form)) }
    ensures cost { steps.new ≤ steps.old + bound (length rows.now) (length types.now) }
{
    let (form, least) = group_form(alloc, types, rows, by, rule, steps)?;
    match least {
        Some(fault) => Err(CellRefuse::Op(fault)),
        None => in_limit(form, limit),
    }
}
