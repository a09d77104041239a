// What is kept of columns as rows come and go.
ghost use Rattle.std.specs.Prelude.{◌≡◌, ℕ, ◌<◌, ◌≤◌, ◌^◌, List, Bool, true, false, length, get_or, set, OnOk, IfOk};
ghost use Rattle.std.specs.List.{All};
ghost use Rattle.cell_boxes.specs.Tallies.{IsIn};
ghost use Rattle.u_summarize.specs.Figures.{AreKept, figures_of};

use crate::keeping::{Kept, enter_kept, figure, leave_kept, none_kept};
use crate::values::{Column, Figure};
use point_core::Memory;
use std::alloc::Global;

/// What is kept of no rows.
pub(crate) fn start_all(alloc: Global, columns: &[Column]) -> Result<Vec<Kept>, Memory>
    ensures { IfOk result (λ v. (f : List Bool) → All (λ c. length f ≤ length c.2) columns.now → length f < 2 ^ 64 → ((r : ℕ) → IsIn f r → ⊥) → AreKept columns.now v.items f) }
{
    let mut kept = Vec::new(alloc);
    for j in 0..columns.len() {
        let column = &columns[j];
        kept.push(none_kept(alloc, column))?;
    }
    Ok(kept)
}

/// One row more.
pub(crate) fn enter_all(kept: &mut Vec<Kept>, columns: &[Column], row: usize) -> Result<(), Memory>
    requires { (f : List Bool) × AreKept columns.now kept.now.items f × (row < length f) × (get_or f row true ≡ false) }
    ensures { OnOk result ((f : List Bool) → AreKept columns.now kept.old.items f → row < length f → get_or f row true ≡ false → AreKept columns.now kept.new.items (set f row true)) }
{
    for j in 0..columns.len() {
        let column = &columns[j];
        enter_kept(&mut kept[j], column, row)?;
    }
    Ok(())
}

/// One row less.
pub(crate) fn leave_all(kept: &mut Vec<Kept>, columns: &[Column], row: usize)
    requires { (f : List Bool) × AreKept columns.now kept.now.items f × (row < length f) × (get_or f row false ≡ true) }
    ensures { (f : List Bool) → AreKept columns.now kept.old.items f → row < length f → get_or f row false ≡ true → AreKept columns.now kept.new.items (set f row false) }
{
    for j in 0..columns.len() {
        let column = &columns[j];
        leave_kept(&mut kept[j], column, row);
    }
}

/// What they give of the rows that are in.
pub(crate) fn read_all(
    alloc: Global,
    kept: &[Kept],
    columns: &[Column],
) -> Result<Vec<Figure>, Memory>
    requires { length kept.now ≡ length columns.now }
    ensures { IfOk result (λ v. (f : List Bool) → AreKept columns.now kept.now f → v.items ≡ figures_of columns.now f) }
{
    let mut list = Vec::with_capacity(alloc, columns.len())?;
    for j in 0..columns.len() {
        let column = &columns[j];
        list.push(figure(column, &kept[j]))?;
    }
    Ok(list)
}
