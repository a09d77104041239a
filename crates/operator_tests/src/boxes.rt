// Boxes of integers under one label, and the ends of their first sides.
ghost use Rattle.std.specs.Prelude.{IfOk};
ghost use Rattle.std.specs.List.{All};
ghost use Rattle.interval_core.specs.Members.{HasEndsIn};
ghost use Rattle.cell_core.specs.Boxes.{IsBox};

use cell_core::{BoxRow, Sides};
use interval_core::Interval;
use point_core::{IntType, Memory, PointNumber};
use std::alloc::Global;
use value_core::Row;

// From one end to the other, or the type's first point where the ends are none of its points.
fn interval<T: PointNumber>(t: &T, ends: (i64, i64)) -> Interval<T>
    ensures { HasEndsIn T.IsPoint t.now result }
{
    if ends.0 <= ends.1 {
        if let Some(p) = t.point(ends.0) {
            if let Some(q) = t.point(ends.1) {
                return Interval::of(p, q);
            }
        }
    }
    let p = t.first();
    Interval::of(p, p)
}

// The same interval as a side for each of the types.
fn sides_of<T: PointNumber>(
    alloc: Global,
    types: &[T],
    ends: (i64, i64),
) -> Result<Sides<T>, Memory>
    ensures { IfOk result (λ s. IsBox T.IsPoint types.now s) }
{
    let mut list = Vec::new(alloc);
    for j in 0..types.len() {
        let i = interval(&types[j], ends);
        list.push(i)?;
    }
    Ok(Sides { list })
}

/// A box of the types for each interval.
pub(crate) fn boxes_of<T: PointNumber>(
    alloc: Global,
    types: &[T],
    spans: &[(i64, i64)],
) -> Result<Vec<BoxRow<T, Row>>, Memory>
    ensures { IfOk result (λ v. All (λ r. IsBox T.IsPoint types.now r.1) v.items) }
{
    let mut out = Vec::new(alloc);
    for ends in spans {
        let sides = sides_of(alloc, types, *ends)?;
        let label = Row::make(Vec::new(alloc));
        out.push(BoxRow { label, sides })?;
    }
    Ok(out)
}

/// The sides of the types for each interval.
pub(crate) fn sides_list<T: PointNumber>(
    alloc: Global,
    types: &[T],
    spans: &[(i64, i64)],
) -> Result<Vec<Sides<T>>, Memory>
    ensures { IfOk result (λ v. All (λ s. IsBox T.IsPoint types.now s) v.items) }
{
    let mut out = Vec::new(alloc);
    for ends in spans {
        let sides = sides_of(alloc, types, *ends)?;
        out.push(sides)?;
    }
    Ok(out)
}

/// The ends of the first side of each box.
pub(crate) fn spans_of<P>(
    alloc: Global,
    rows: &[BoxRow<IntType, P>],
) -> Result<Vec<(i64, i64)>, Memory> {
    let mut out = Vec::new(alloc);
    for row in rows {
        if let Some(side) = row.sides.list.first() {
            out.push((side.begin(), side.end()))?;
        }
    }
    Ok(out)
}
