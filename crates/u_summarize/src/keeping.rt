// What is kept of a column as rows come and go.
ghost use Rattle.std.specs.Prelude.{◌≡◌, ℕ, ◌<◌, ◌≤◌, ◌^◌, List, Bool, true, false, length, get_or, set, ℤ, OnOk};
ghost use Rattle.cell_boxes.specs.Tallies.{IsIn};
ghost use Rattle.u_summarize.specs.Figures.{PlainColumn, IsKept, measured, figure_of};

use crate::ordered::{Ordered, come_in, go_out, greatest, least, none_ordered};
use crate::sums::{with_row, without_row};
use crate::values::{Column, Figure, Measure};
use point_core::Memory;
use std::alloc::Global;

/// The sum of the rows that are in, or these in the order of their values.
#[derive(Drop)]
pub enum Kept {
    Total(i128),
    Least(Ordered),
    Greatest(Ordered),
}

/// What is kept of no rows.
pub(crate) fn none_kept(alloc: Global, column: &Column) -> Kept
    ensures { (f : List Bool) → length f ≤ length column.now.2 → length f < 2 ^ 64 → ((r : ℕ) → IsIn f r → ⊥) → IsKept column.now result f }
{
    match column.measure {
        Measure::Sum => Kept::Total(0),
        Measure::Least => Kept::Least(none_ordered(alloc)),
        Measure::Greatest => Kept::Greatest(none_ordered(alloc)),
    }
}

/// One row more.
pub(crate) fn enter_kept(kept: &mut Kept, column: &Column, row: usize) -> Result<(), Memory>
    requires { (f : List Bool) × IsKept column.now kept.now f × (row < length f) × (get_or f row true ≡ false) }
    ensures { OnOk result ((f : List Bool) → IsKept column.now kept.old f → row < length f → get_or f row true ≡ false → IsKept column.now kept.new (set f row true)) }
{
    match kept {
        Kept::Total(sum) => {
            *sum = with_row(*sum, column, row);
            Ok(())
        }
        Kept::Least(ordered) => come_in(ordered, column, row),
        Kept::Greatest(ordered) => come_in(ordered, column, row),
    }
}

/// One row less.
pub(crate) fn leave_kept(kept: &mut Kept, column: &Column, row: usize)
    requires { (f : List Bool) × IsKept column.now kept.now f × (row < length f) × (get_or f row false ≡ true) }
    ensures { (f : List Bool) → IsKept column.now kept.old f → row < length f → get_or f row false ≡ true → IsKept column.now kept.new (set f row false) }
{
    match kept {
        Kept::Total(sum) => {
            *sum = without_row(*sum, column, row);
        }
        Kept::Least(ordered) => go_out(ordered, column, row),
        Kept::Greatest(ordered) => go_out(ordered, column, row),
    }
}

// The number that it gives of the rows that are in.
fn number_kept(kept: &Kept) -> i128
    ensures { (column : PlainColumn) (f : List Bool) → IsKept column kept.now f → result ≡ measured column.0 column.2 f }
{
    match kept {
        Kept::Total(sum) => *sum,
        Kept::Least(ordered) => i128::from(least(ordered)),
        Kept::Greatest(ordered) => i128::from(greatest(ordered)),
    }
}

/// What it gives of the rows that are in.
pub(crate) fn figure(column: &Column, kept: &Kept) -> Figure
    ensures { (f : List Bool) → IsKept column.now kept.now f → result ≡ figure_of column.now f }
{
    let number = number_kept(kept);
    Figure {
        of: column.of,
        number,
    }
}
