// The exact sum of a column over the rows that are in.
ghost use Rattle.std.specs.Prelude.{◌≡◌, ◌<◌, ◌^◌, Bool, true, false, List, length, get_or, set, pos, neg_ℤ, ◌+ℤ◌, ◌-ℤ◌, ◌≤ℤ◌, ◌<ℤ◌};
ghost use Rattle.cell_boxes.specs.Totals.{count_of, IsTotal};

use crate::values::{Column, number_of_row};

// One more value.
fn plus(sum: i128, value: i64) -> i128
    requires least { neg_ℤ (pos (2 ^ 127)) ≤ℤ (sum +ℤ value) }
    requires most { (sum +ℤ value) <ℤ pos (2 ^ 127) }
    ensures { result ≡ sum +ℤ value }
{
    sum + i128::from(value)
}

// One value less.
fn minus(sum: i128, value: i64) -> i128
    requires least { neg_ℤ (pos (2 ^ 127)) ≤ℤ (sum -ℤ value) }
    requires most { (sum -ℤ value) <ℤ pos (2 ^ 127) }
    ensures { result ≡ sum -ℤ value }
{
    sum - i128::from(value)
}

/// The sum with the row's value.
pub(crate) fn with_row(sum: i128, column: &Column, row: usize) -> i128
    requires { (f : List Bool) × IsTotal column.now.2 (count_of f) sum f × (row < length f) × (get_or f row true ≡ false) }
    ensures { (f : List Bool) → IsTotal column.now.2 (count_of f) sum f → row < length f → get_or f row true ≡ false → IsTotal column.now.2 (count_of (set f row true)) result (set f row true) }
{
    let number = number_of_row(column, row);
    plus(sum, number)
}

/// The sum without the row's value.
pub(crate) fn without_row(sum: i128, column: &Column, row: usize) -> i128
    requires { (f : List Bool) × IsTotal column.now.2 (count_of f) sum f × (row < length f) × (get_or f row false ≡ true) }
    ensures { (f : List Bool) → IsTotal column.now.2 (count_of f) sum f → row < length f → get_or f row false ≡ true → IsTotal column.now.2 (count_of (set f row false)) result (set f row false) }
{
    let number = number_of_row(column, row);
    minus(sum, number)
}
