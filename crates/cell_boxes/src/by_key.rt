// What a rule gives of the rows of each key on one side, with a state that is kept from cell to cell.
ghost use Rattle.std.specs.Prelude.{◌≡◌, ℕ, ◌<◌, ◌≤◌, ◌↔◌, ◌⊎◌, List, [], ◌∷◌, length, map, Some, Ok, Err, OnOk, IfOk};
ghost use Rattle.std.specs.List.{All};
ghost use Rattle.cell_packing.specs.Covering.{Among};
ghost use Rattle.point_core.specs.LeastFault.{IsLeast};
ghost use Rattle.cell_sweep.specs.PackedRows.{HasRow};
ghost use Rattle.cell_boxes.specs.Common.{EndsBy, first_of};
ghost use Rattle.cell_boxes.specs.Rows.{Ascend, IsRow, PlainCellBox};
ghost use Rattle.cell_boxes.specs.Tallies.{IsIn, OfTallied, IsPart, IsTallied, IsTallyFault};

use crate::by_cell::{by_end, by_first, cells_of};
use crate::grouping::group_end;
use crate::tally::Tally;
use crate::tallying::tally_rows;
use cell_sweep::CellBox;
use point_core::{Fault, Memory};
use std::alloc::Global;

// The cells of the rows on their first side.
fn first_sides<P>(alloc: Global, rows: &[CellBox<P>]) -> Result<Vec<(usize, usize)>, Memory>
    requires { All (λ x. 0 < length x.1) rows.now }
    ensures { IfOk result (λ v. v.items ≡ map (λ x. first_of x.1) rows.now) }
{
    let mut out = Vec::with_capacity(alloc, rows.len())?;
    for row in rows {
        out.push(row.sides[0])?;
    }
    Ok(out)
}

// A flag for each of so many rows, of which none is in.
fn no_flags(alloc: Global, count: usize) -> Result<Vec<bool>, Memory>
    ensures count { IfOk result (λ v. length v.items ≡ count) }
    ensures none { IfOk result (λ v. (r : ℕ) → IsIn v.items r → ⊥) }
{
    let flags = vec![in alloc; false; count]?;
    Ok(flags)
}

// The key of the row.
fn key_at<P>(rows: &[CellBox<P>], row: usize) -> &P
    requires { row < length rows.now }
    ensures { (x : PlainCellBox P) → IsRow rows.now row x → result.now ≡ x.0 }
{
    let own = &rows[row];
    &own.label
}

// Adds for each cell what the rule gives of the key and of those of its rows, from the first number up to before the
// second, that have it.
fn tally_key<T: Tally>(
    alloc: Global,
    out: &mut Vec<CellBox<T::Out>>,
    rule: &T,
    key: &T::Key,
    state: T::State,
    flags: &mut Vec<bool>,
    spans: &[(usize, usize)],
    rows: (usize, usize),
    least: &mut Option<Fault>,
) -> Result<T::State, Memory>
    requires of { T.IsOf rule.now state flags.now.items }
    requires none { (r : ℕ) → IsIn flags.now.items r → ⊥ }
    requires flags { length spans.now ≤ length flags.now.items }
    requires some { rows.0 ≤ rows.1 }
    requires within { rows.1 ≤ length spans.now }
    ensures of { IfOk result (λ s. T.IsOf rule.now s flags.new.items) }
    ensures count { IfOk result (λ _. length flags.new.items ≡ length flags.old.items) }
    ensures none { IfOk result (λ _. (r : ℕ) → IsIn flags.new.items r → ⊥) }
    ensures grid_points { IfOk result (λ _. (l : T.Out) (j : ℕ) →
        HasRow out.new.items l (j ∷ []) ↔ HasRow out.old.items l (j ∷ []) ⊎ OfTallied (λ f. T.means rule.now key.now f ≡ Ok (Some l)) spans.now rows (length flags.old.items) j) }
    ensures parts { IfOk result (λ _. (z : PlainCellBox T.Out) → Among z out.new.items → Among z out.old.items ⊎ IsPart spans.now rows z) }
    ensures least { OnOk result (IsLeast (λ e. (least.old ≡ Some e) ⊎ ((j : ℕ) × OfTallied (λ f. T.means rule.now key.now f ≡ Err e) spans.now rows (length flags.old.items) j)) least.new) }
{
    let starts = by_first(alloc, spans, rows)?;
    let ends = by_end(alloc, spans, rows)?;
    let firsts = starts.as_slice();
    let lasts = ends.as_slice();
    let cells = cells_of(alloc, firsts, lasts)?;
    let cuts = cells.as_slice();
    tally_rows(
        alloc, out, rule, key, state, flags, spans, rows, firsts, lasts, cuts, least,
    )
}

/// For each key its cells with what the rule gives of the key and of its rows there, in boxes; and the least fault that
/// it gives.
///
/// A row enters the state once and leaves it once. The rule is asked once between each two neighbouring cells where a row
/// of the key begins or ends, and no list of the rows that are in is gone through. Of the rows that begin and end at one
/// cell all that begin enter before those that end leave.
pub fn tallied<T: Tally>(
    alloc: Global,
    rows: &[CellBox<T::Key>],
    rule: &T,
    least: &mut Option<Fault>,
) -> Result<Vec<CellBox<T::Out>>, Memory>
    requires takes { T.Takes rule.now (length rows.now) }
    requires sides { All (λ x. length x.1 ≡ 1) rows.now }
    requires order { Ascend T.Key.order rows.now }
    ensures grid_points { IfOk result (λ v. (l : T.Out) (j : ℕ) → HasRow v.items l (j ∷ []) ↔ IsTallied (T.means rule.now) rows.now l (j ∷ [])) }
    ensures lengths { IfOk result (λ v. All (λ x. length x.1 ≡ 1) v.items) }
    ensures ends { IfOk result (λ v. (z : PlainCellBox T.Out) → Among z v.items → (x : PlainCellBox T.Key) × Among x rows.now × EndsBy x.1 z.1) }
    ensures least { OnOk result (IsLeast (λ e. (least.old ≡ Some e) ⊎ IsTallyFault (T.means rule.now) rows.now e) least.new) }
{
    let spans = first_sides(alloc, rows)?;
    let mut flags = no_flags(alloc, rows.len())?;
    let mut state = rule.start(alloc, rows.len())?;
    let mut out: Vec<CellBox<T::Out>> = Vec::new(alloc);
    let mut first = 0;
    while first < rows.len() {
        let end = group_end(rows, first);
        let key = key_at(rows, first);
        let next = tally_key(
            alloc,
            &mut out,
            rule,
            key,
            state,
            &mut flags,
            spans.as_slice(),
            (first, end),
            least,
        )?;
        state = next;
        first = end;
    }
    Ok(out)
}
