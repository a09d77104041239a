// Columns of numbers of points, and what is asked of them.
ghost use Rattle.std.specs.Prelude.{◌≡◌, ◌<◌, length, get_or};

use point_core::AnyType;
use std::marker::Model;

/// What is asked of the numbers of a column: their exact sum, the least or the greatest.
#[derive(Clone, Copy, Debug, PartialEq, Eq)]
pub enum Measure {
    Sum,
    Least,
    Greatest,
}

/// A number for each row, of a point of the type, and what is asked of those of a group.
#[derive(Drop)]
pub struct Column {
    pub measure: Measure,
    pub of: AnyType,
    pub numbers: Vec<i64>,
}

impl Model for Column {
    ghost use Rattle.std.specs.Prelude.{ℤ, List};
    ghost use Rattle.point_core.specs.declared.any_type.AnyType.{AnyType as PlainType};
    ghost use Rattle.u_summarize.specs.declared.values.Measure.{Measure as AnyMeasure};

    ghost Value = { AnyMeasure × PlainType × List ℤ };

    ghost view = { λ c. (c.measure, c.of, c.numbers.items) };
}

/// What a column gives of a group: a number, which is that of a point of the type if it has one.
#[derive(Clone, Copy, Debug, PartialEq, Eq)]
pub struct Figure {
    pub of: AnyType,
    pub number: i128,
}

/// The number of the row.
pub(crate) fn number_of_row(column: &Column, row: usize) -> i64
    requires { row < length column.now.2 }
    ensures { result ≡ get_or column.now.2 row result }
{
    column.numbers[row]
}
