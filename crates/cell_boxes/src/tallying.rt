// What a rule gives of the rows of one key, with a state that is kept from cell to cell.
ghost use Rattle.std.specs.Prelude.{◌≡◌, ℕ, ◌<◌, ◌≤◌, ◌↔◌, ◌⊎◌, ◌++◌, List, [], ◌∷◌, Bool, length, get_or, Some, Ok, Err, OnOk, IfOk};
ghost use Rattle.std.specs.List.{All};
ghost use Rattle.cell_packing.specs.Covering.{Among};
ghost use Rattle.point_core.specs.LeastFault.{IsLeast};
ghost use Rattle.cell_sweep.specs.PackedRows.{HasRow};
ghost use Rattle.cell_boxes.specs.Rows.{PlainCellBox};
ghost use Rattle.cell_boxes.specs.Tallies.{IsIn, AreBy, Within, span_at, boxed, label_in, OfTallied, IsPart};

use crate::keeping::come;
use crate::tally::Tally;
use cell_sweep::CellBox;
use point_core::{Fault, Memory, Stop};
use std::alloc::Global;

// Adds the cells with the label, if there is one.
fn push_boxed<P: Drop>(
    alloc: Global,
    out: &mut Vec<CellBox<P>>,
    label: Option<P>,
    cells: (usize, usize),
) -> Result<(), Memory>
    ensures { OnOk result (out.new.items ≡ out.old.items ++ boxed cells label) }
{
    if let Some(own) = label {
        let mut sides = Vec::with_capacity(alloc, 1)?;
        sides.push(cells)?;
        out.push(CellBox { label: own, sides })?;
    }
    Ok(())
}

// The lesser of the fault so far and one more, in the one clause that its caller's proof finds.
fn least_so_far(least: Option<Fault>, e: Fault) -> Fault
    ensures { IsLeast (λ d. (least ≡ Some d) ⊎ (e ≡ d)) (Some result) }
{
    Fault::least_of(least, e)
}

// Adds the cells with the label of the key and of the rows that the state is of, or takes in the fault.
fn push_label<T: Tally>(
    alloc: Global,
    out: &mut Vec<CellBox<T::Out>>,
    rule: &T,
    key: &T::Key,
    state: &T::State,
    cells: (usize, usize),
    least: &mut Option<Fault>,
) -> Result<(), Memory>
    requires { (f : List Bool) × T.IsOf rule.now state.now f }
    ensures rows { OnOk result ((f : List Bool) → T.IsOf rule.now state.now f → out.new.items ≡ out.old.items ++ boxed cells (label_in (T.means rule.now key.now f))) }
    ensures least { OnOk result ((f : List Bool) → T.IsOf rule.now state.now f → IsLeast (λ e. (least.old ≡ Some e) ⊎ (T.means rule.now key.now f ≡ Err e)) least.new) }
{
    match rule.label(alloc, key, state) {
        Ok(label) => {
            push_boxed(alloc, out, label, cells)?;
            Ok(())
        }
        Err(Stop::Fault(e)) => {
            *least = Some(least_so_far(*least, e));
            Ok(())
        }
        Err(Stop::Memory) => Err(Memory),
    }
}

// Adds for each cell what the rule gives of the key and of its rows that have it. Between two cuts these are the same, so
// the rule is asked once there; and a row comes and goes once.
pub fn tally_rows<T: Tally>(
    alloc: Global,
    out: &mut Vec<CellBox<T::Out>>,
    rule: &T,
    key: &T::Key,
    state: T::State,
    flags: &mut Vec<bool>,
    spans: &[(usize, usize)],
    rows: (usize, usize),
    starts: &[(usize, usize)],
    ends: &[(usize, usize)],
    cuts: &[usize],
    least: &mut Option<Fault>,
) -> Result<T::State, Memory>
    requires of { T.IsOf rule.now state flags.now.items }
    requires none { (r : ℕ) → IsIn flags.now.items r → ⊥ }
    requires flags { length spans.now ≤ length flags.now.items }
    requires starts { All (λ x. x.1 < length spans.now) starts.now }
    requires ends { All (λ x. x.1 < length spans.now) ends.now }
    requires by_start { AreBy (λ r. (span_at spans.now r).0) rows starts.now }
    requires by_end { AreBy (λ r. (span_at spans.now r).1) rows ends.now }
    requires order { (i j : ℕ) → i ≤ j → j < length cuts.now → get_or cuts.now i 0 ≤ get_or cuts.now j 0 }
    requires cuts { (r : ℕ) → Within rows r → Among (span_at spans.now r).0 cuts.now × Among (span_at spans.now r).1 cuts.now }
    ensures of { IfOk result (λ s. T.IsOf rule.now s flags.new.items) }
    ensures count { IfOk result (λ _. length flags.new.items ≡ length flags.old.items) }
    ensures none { IfOk result (λ _. (r : ℕ) → IsIn flags.new.items r → ⊥) }
    ensures grid_points { IfOk result (λ _. (l : T.Out) (j : ℕ) →
        HasRow out.new.items l (j ∷ []) ↔ HasRow out.old.items l (j ∷ []) ⊎ OfTallied (λ f. T.means rule.now key.now f ≡ Ok (Some l)) spans.now rows (length flags.old.items) j) }
    ensures parts { IfOk result (λ _. (z : PlainCellBox T.Out) → Among z out.new.items → Among z out.old.items ⊎ IsPart spans.now rows z) }
    ensures least { OnOk result (IsLeast (λ e. (least.old ≡ Some e) ⊎ ((j : ℕ) × OfTallied (λ f. T.means rule.now key.now f ≡ Err e) spans.now rows (length flags.old.items) j)) least.new) }
{
    let mut at = (0, 0);
    let mut kept = state;
    let mut begin = 0;
    for i in 0..cuts.len() {
        let end = cuts[i];
        if begin < end {
            let (next, now) = come(rule, kept, flags, spans, starts, ends, at, begin)?;
            push_label(alloc, out, rule, key, &now, (begin, end), least)?;
            at = next;
            kept = now;
        }
        begin = end;
    }
    let (_, last) = come(rule, kept, flags, spans, starts, ends, at, begin)?;
    Ok(last)
}
