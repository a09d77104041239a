// The rows that are in, by the values of a column, of which the first and the last are the least and the greatest.
ghost use Rattle.std.specs.Prelude.{◌≡◌, ℕ, ◌<◌, ◌≤◌, List, Bool, true, false, length, get_or, set, ℤ, pos, OnOk};
ghost use Rattle.cell_boxes.specs.Tallies.{IsIn};
ghost use Rattle.u_summarize.specs.Extremes.{AreOrdered, least_of, greatest_of};

use crate::values::{Column, number_of_row};
use point_core::Memory;
use std::alloc::Global;
use std::collections::BTreeSet;

/// Values with their rows, by the value and then by the row.
pub type Ordered = BTreeSet<(i64, usize)>;

/// No rows.
pub(crate) fn none_ordered(alloc: Global) -> Ordered
    ensures { (values : List ℤ) (f : List Bool) → length f ≤ length values → ((r : ℕ) → IsIn f r → ⊥) → AreOrdered values result f }
{
    BTreeSet::new(alloc)
}

/// One row more.
pub(crate) fn come_in(ordered: &mut Ordered, column: &Column, row: usize) -> Result<(), Memory>
    requires { (f : List Bool) × AreOrdered column.now.2 ordered.now f × (row < length f) × (get_or f row true ≡ false) }
    ensures { OnOk result ((f : List Bool) → AreOrdered column.now.2 ordered.old f → row < length f → get_or f row true ≡ false → AreOrdered column.now.2 ordered.new (set f row true)) }
{
    let number = number_of_row(column, row);
    ordered.insert((number, row))?;
    Ok(())
}

/// One row less.
pub(crate) fn go_out(ordered: &mut Ordered, column: &Column, row: usize)
    requires { (f : List Bool) × AreOrdered column.now.2 ordered.now f × (row < length f) × (get_or f row false ≡ true) }
    ensures { (f : List Bool) → AreOrdered column.now.2 ordered.old f → row < length f → get_or f row false ≡ true → AreOrdered column.now.2 ordered.new (set f row false) }
{
    let number = number_of_row(column, row);
    ordered.remove(&(number, row));
}

/// The least value, and 0 of none.
pub(crate) fn least(ordered: &Ordered) -> i64
    ensures { (values : List ℤ) (f : List Bool) → AreOrdered values ordered.now f → result ≡ least_of values f }
{
    match ordered.first() {
        Some(pair) => pair.0,
        None => 0,
    }
}

/// The greatest value, and 0 of none.
pub(crate) fn greatest(ordered: &Ordered) -> i64
    ensures { (values : List ℤ) (f : List Bool) → AreOrdered values ordered.now f → result ≡ greatest_of values f }
{
    match ordered.last() {
        Some(pair) => pair.0,
        None => 0,
    }
}
