// Rows at the first points of a cell.
ghost use Rattle.std.specs.Prelude.{◌≡◌, ℕ, ◌<◌, length, map, IfOk};
ghost use Rattle.std.specs.List.{All};
ghost use Rattle.point_core.specs.Points.{number, line};
ghost use Rattle.cell_packing.specs.Packed.{firsts};
ghost use Rattle.interval_core.specs.Members.{at_point};
ghost use Rattle.value_core.specs.Attributes.{value_at, span_of, put_span};
ghost use Rattle.value_core.specs.Plain.{plain};
ghost use Rattle.value_core.specs.Values.{interval};
ghost use Rattle.scalar_core.specs.AtPlaces.{at_place};
ghost use Rattle.cell_core.specs.Cells.{box_numbers};
ghost use Rattle.eval_using.specs.PlaceRows.{HaveLines};

use interval_core::Interval;
use point_core::{AnyType, Label, Memory};
use std::alloc::Global;
use value_core::{Row, Value};

/// The row with the first point of each side in place of the interval of its attribute.
pub(crate) fn row_at(
    alloc: Global,
    row: &Row,
    commalist: &[usize],
    at: &[Interval<AnyType>],
) -> Result<Row, Memory>
    requires count { length at.now ≡ length commalist.now }
    requires within { All (λ (i : ℕ). i < length row.now) commalist.now }
    requires lines { HaveLines commalist.now at.now row.now }
    ensures { IfOk result (λ r. r ≡ at_place commalist.now (firsts (box_numbers number at.now)) row.now) }
{
    let same = row.copy(alloc)?;
    let mut values = same.into_values();
    for j in 0..commalist.len() {
        put_first(&mut values, commalist[j], &at[j]);
    }
    Ok(Row::make(values))
}

// The first point of the interval in place of the value at the position.
fn put_first(values: &mut Vec<Value>, i: usize, at: &Interval<AnyType>)
    requires within { i < length values.old.items }
    requires line { value_at (map plain values.old.items) i ≡ interval (line at.now.0) (span_of (value_at (map plain values.old.items) i)) }
    ensures { map plain values.new.items ≡ put_span (map plain values.old.items) i (at_point (number at.now.0)) }
{
    let p = at.begin();
    values[i] = Value::Span(Interval::of(p, p));
}
