// The boxes of a relation's rows.
ghost use Rattle.std.specs.Prelude.{◌≡◌, map, IfOk, IsTrue};
ghost use Rattle.std.specs.List.{All};
ghost use Rattle.point_core.specs.Points.{number, IsPointOf};
ghost use Rattle.value_core.specs.Plain.{plain};
ghost use Rattle.value_core.specs.Values.{IsRelation, fits_heading};
ghost use Rattle.cell_core.specs.Boxes.{IsBox};
ghost use Rattle.cell_core.specs.Cells.{box_numbers, row_numbers};
ghost use Rattle.u_set.specs.Boxes.{AreIntervals, types_at, spans_at, boxed};

use crate::intervals::interval_of;
use crate::labels::label_of;
use cell_core::{BoxRow, Sides};
use point_core::{AnyType, Label, Memory, PointType};
use std::alloc::Global;
use value_core::{Kind, Name, Relation, Row, Value};

// The intervals at the positions.
fn sides_of(
    alloc: Global,
    heading: &[(Name, Kind)],
    values: &[Value],
    commalist: &[usize],
) -> Result<Sides<AnyType>, Memory>
    requires intervals { AreIntervals heading.now commalist.now }
    requires fits { IsTrue (fits_heading heading.now (map plain values.now)) }
    ensures numbers { IfOk result (λ s. box_numbers number s ≡ spans_at commalist.now (map plain values.now)) }
    ensures points { IfOk result (λ s. IsBox IsPointOf (types_at heading.now commalist.now) s) }
{
    let mut list = Vec::with_capacity(alloc, commalist.len())?;
    for i in commalist {
        let side = interval_of(&values[*i]);
        list.push(side)?;
    }
    Ok(Sides { list })
}

// The box of a row.
fn to_box(
    alloc: Global,
    heading: &[(Name, Kind)],
    row: &Row,
    commalist: &[usize],
) -> Result<BoxRow<AnyType, Row>, Memory>
    requires intervals { AreIntervals heading.now commalist.now }
    requires fits { IsTrue (fits_heading heading.now row.now) }
    ensures row { IfOk result (λ b. row_numbers number b ≡ boxed commalist.now row.now) }
    ensures points { IfOk result (λ b. IsBox IsPointOf (types_at heading.now commalist.now) b.1) }
{
    let values = row.values();
    let label = label_of(alloc, values, commalist)?;
    let sides = sides_of(alloc, heading, values, commalist)?;
    Ok(BoxRow { label, sides })
}

/// The box of each row: its intervals at the positions in their order, with the row of its other values as the label.
pub fn to_boxes(
    alloc: Global,
    r: &Relation,
    commalist: &[usize],
) -> Result<Vec<BoxRow<AnyType, Row>>, Memory>
    requires { AreIntervals r.now.heading commalist.now }
    ensures relation { IsRelation r.now }
    ensures rows { IfOk result (λ v. map (row_numbers number) v.items ≡ map (boxed commalist.now) r.now.rows) }
    ensures boxes { IfOk result (λ v. All (λ b. IsBox IsPointOf (types_at r.now.heading commalist.now) b.1) v.items) }
{
    let heading = r.heading().attributes();
    let rows = r.rows();
    let mut list = Vec::with_capacity(alloc, rows.len())?;
    for row in rows {
        let b = to_box(alloc, heading, row, commalist)?;
        list.push(b)?;
    }
    Ok(list)
}

// The same box with the same label.
fn copied_box<T: PointType>(alloc: Global, row: &BoxRow<T, Row>) -> Result<BoxRow<T, Row>, Memory>
    ensures { IfOk result (λ b. b ≡ row.now) }
{
    let label = row.label.copy(alloc)?;
    let sides = row.sides.copy(alloc)?;
    Ok(BoxRow { label, sides })
}

/// The same boxes with the same labels.
pub fn copied_boxes<T: PointType>(
    alloc: Global,
    rows: &[BoxRow<T, Row>],
) -> Result<Vec<BoxRow<T, Row>>, Memory>
    ensures { IfOk result (λ v. v.items ≡ rows.now) }
{
    let mut copy = Vec::with_capacity(alloc, rows.len())?;
    for row in rows {
        let own = copied_box(alloc, row)?;
        copy.push(own)?;
    }
    Ok(copy)
}
