// The rows that are left, each with a part of its interval.
ghost use Rattle.std.specs.Prelude.{◌≡◌, ℕ, ◌<◌, ◌≤ℤ◌, map, length, IfOk, IsTrue};
ghost use Rattle.std.specs.List.{All};
ghost use Rattle.point_core.specs.Points.{line_of, first_of, last_of};
ghost use Rattle.value_core.specs.declared.kind.Kind.TheVariants as kind;
ghost use Rattle.value_core.specs.Plain.{plain};
ghost use Rattle.value_core.specs.Values.{interval, fits};
ghost use Rattle.u_join.specs.RowPairs.{seen};
ghost use Rattle.u_join.specs.Rests.{IsOfType, rest_row};

use crate::row_pairs::{put, value_of};
use crate::standing::Standing;
use interval_core::Interval;
use point_core::{AnyType, Label, Memory, PointNumber};
use std::alloc::Global;
use value_core::{Row, Value};

// The value of the interval of the type whose ends have the numbers.
fn value_between(point_type: AnyType, begin: i64, end: i64) -> Value
    requires first { first_of point_type ≤ℤ begin }
    requires ordered { begin ≤ℤ end }
    requires last { end ≤ℤ last_of point_type }
    ensures { plain result ≡ interval (line_of point_type) (begin, end) }
{
    let first = point_type.point(begin).unwrap();
    let last = point_type.point(end).unwrap();
    value_of(point_type, &Interval::of(first, last))
}

// The row with what is left of its interval at the position.
fn of_rest(alloc: Global, part: &Standing, point_type: AnyType, at: usize) -> Result<Row, Memory>
    requires { IsOfType point_type at (seen part.now) }
    ensures { IfOk result (λ r. r ≡ rest_row point_type at (seen part.now)) }
{
    let copy = part.row.copy(alloc)?;
    let mut values = copy.into_values();
    put(
        &mut values,
        at,
        value_between(point_type, part.begin, part.end),
    );
    Ok(Row::make(values))
}

/// The rows with what is left of their intervals, which are of the type and stand at the position.
pub(crate) fn of_rests(
    alloc: Global,
    parts: &[Standing],
    point_type: AnyType,
    at: usize,
) -> Result<Vec<Row>, Memory>
    requires { All (λ z. IsOfType point_type at (seen z)) parts.now }
    ensures { IfOk result (λ v. v.items ≡ map (λ z. rest_row point_type at (seen z)) parts.now) }
{
    let mut rows = Vec::with_capacity(alloc, parts.len())?;
    for part in parts {
        let row = of_rest(alloc, part, point_type, at)?;
        rows.push(row)?;
    }
    Ok(rows)
}
