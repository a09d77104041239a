// Labelled boxes unpacked: the points of their packed form, by numbers.
ghost use Rattle.std.specs.Prelude.{◌≡◌, ℕ, ◌+◌, ◌-◌, ◌^◌, ◌<◌, ◌≤◌, ◌≤ℤ◌, List, ℤ, map, min, length, Ok, None, Err};
ghost use Rattle.std.specs.Prelude.{IfOk, IfSome};
ghost use Rattle.std.specs.List.{All};
ghost use Rattle.interval_core.specs.Members.{HasEndsIn, at_point};
ghost use Rattle.cell_packing.specs.Boxed.{unpacked_boxes};
ghost use Rattle.cell_packing.specs.Covering.{Among};
ghost use Rattle.point_core.specs.declared.fault.Fault.{Fault as AnyFault};
ghost use Rattle.cell_core.specs.Boxes.{IsBox};
ghost use Rattle.cell_core.specs.Cells.{box_numbers, row_numbers};
ghost use Rattle.cell_core.specs.Costs.{bound};
ghost use Rattle.cell_core.specs.Numbering.{numbers_of};
ghost use Rattle.cell_core.specs.GridPoints.{listing, total, point_row, IsGridPointOf};
ghost use Rattle.cell_core.specs.declared.boxes.CellRefuse.TheVariants.{Op as OfOp, Limit as OfLimit};

use crate::boxes::{BoxRow, CellRefuse, Sides};
use crate::grid_points::{Numbers, Place, grid_points_of, in_order, push_grid_points, volume_of};
use crate::packing::packed_rows;
use interval_core::Interval;
use point_core::{Label, Memory, PointNumber, Steps};
use presort::Numbers as SortNumbers;
use std::alloc::Global;
use std::sync::ledger::Ledger;

// The numbers of an interval's ends.
fn span_of<T: PointNumber>(t: &T, i: &Interval<T>) -> (i64, i64)
    requires { HasEndsIn T.IsPoint t.now i.now }
    ensures numbers { result ≡ numbers_of T.number_of i.now }
    ensures ordered { result.0 ≤ℤ result.1 }
{
    (t.number(i.begin()), t.number(i.end()))
}

// The numbers of a box.
fn spans_of<T: PointNumber>(
    alloc: Global,
    types: &[T],
    sides: &Sides<T>,
) -> Result<Vec<(i64, i64)>, Memory>
    requires { IsBox T.IsPoint types.now sides.now }
    ensures numbers { IfOk result (λ v. v.items ≡ box_numbers T.number_of sides.now) }
    ensures ordered { IfOk result (λ v. All (λ i. i.0 ≤ℤ i.1) v.items) }
{
    let mut out = Vec::with_capacity(alloc, types.len())?;
    for j in 0..types.len() {
        out.push(span_of(&types[j], &sides.list[j]))?;
    }
    Ok(out)
}

// How many places the rows have, each counted for itself, or the greatest number where there are more.
fn count<T: PointNumber, P>(
    alloc: Global,
    types: &[T],
    rows: &[BoxRow<T, P>],
) -> Result<u128, Memory>
    requires { All (λ r. IsBox T.IsPoint types.now r.1) rows.now }
    ensures { IfOk result (λ n. n ≡ min (total (map (row_numbers T.number_of) rows.now)) (2 ^ 128 - 1)) }
{
    let mut sum: u128 = 0;
    for row in rows {
        let spans = spans_of(alloc, types, &row.sides)?;
        sum = sum.saturating_add(volume_of(spans.as_slice()));
    }
    Ok(sum)
}

// The labels of the rows at the places of their boxes.
fn listed<T: PointNumber, P: Label>(
    alloc: Global,
    types: &[T],
    rows: &[BoxRow<T, P>],
) -> Result<Vec<Place<P>>, Memory>
    requires { All (λ r. IsBox T.IsPoint types.now r.1) rows.now }
    ensures { IfOk result (λ v. v.items ≡ listing (map (row_numbers T.number_of) rows.now)) }
{
    let mut out = Vec::new(alloc);
    for row in rows {
        let spans = spans_of(alloc, types, &row.sides)?;
        let list = grid_points_of(alloc, spans.as_slice())?;
        push_grid_points(alloc, &mut out, &row.label, list)?;
    }
    Ok(out)
}

// The interval of one number.
fn at_number<T: PointNumber>(t: &T, n: &i64) -> Interval<T>
    requires low { T.first_number t.now ≤ℤ n.now }
    requires high { n.now ≤ℤ T.last_number t.now }
    ensures numbers { numbers_of T.number_of result ≡ at_point n.now }
    ensures points { HasEndsIn T.IsPoint t.now result }
{
    let p = t.point(*n).unwrap();
    Interval::of(p, p)
}

// The box of one place.
fn box_at<T: PointNumber>(alloc: Global, types: &[T], numbers: &Numbers) -> Result<Sides<T>, Memory>
    requires { IsGridPointOf T.first_number T.last_number types.now numbers.now }
    ensures numbers { IfOk result (λ v. box_numbers T.number_of v ≡ map at_point numbers.now) }
    ensures points { IfOk result (λ v. IsBox T.IsPoint types.now v) }
{
    let mut list = Vec::with_capacity(alloc, types.len())?;
    for j in 0..types.len() {
        list.push(at_number(&types[j], &numbers.list[j]))?;
    }
    Ok(Sides { list })
}

// The rows of one place each.
fn point_rows<T: PointNumber, P: Label>(
    alloc: Global,
    types: &[T],
    list: Vec<Place<P>>,
) -> Result<Vec<BoxRow<T, P>>, Memory>
    requires { (x : P × List ℤ) → Among x list.items → IsGridPointOf T.first_number T.last_number types.now x.1 }
    ensures rows { IfOk result (λ v. map (row_numbers T.number_of) v.items ≡ map point_row list.items) }
    ensures boxes { IfOk result (λ v. All (λ r. IsBox T.IsPoint types.now r.1) v.items) }
{
    let mut out = Vec::with_capacity(alloc, list.len())?;
    for grid_point in list {
        let sides = box_at(alloc, types, &grid_point.numbers)?;
        out.push(BoxRow {
            label: grid_point.label,
            sides,
        })?;
    }
    Ok(out)
}

/// How many rows the unpacked form has: how many pairs of a label and a point. It is `None` exactly where there are more
/// than `limit`. The points are counted by their packed form and not listed.
pub fn unpack_count<T: PointNumber, P: Label + SortNumbers, L: Ledger>(
    alloc: Global,
    types: &[T],
    rows: Vec<BoxRow<T, P>>,
    limit: usize,
    steps: &mut Steps<L>,
) -> Result<Option<usize>, Memory>
    requires { All (λ r. IsBox T.IsPoint types.now r.1) rows.items }
    ensures count { IfOk result (λ o. IfSome o (λ n. n ≡
        length (unpacked_boxes P.order (length types.now) (map (row_numbers T.number_of) rows.items)))) }
    ensures few { IfOk result (λ o. IfSome o (λ n. n ≤ limit)) }
    ensures many { result ≡ Ok None → limit < length (unpacked_boxes P.order (length types.now) (map (row_numbers
        T.number_of) rows.items)) }
    ensures cost { steps.new ≤ steps.old + bound (length rows.items) (length types.now) }
{
    let packed = packed_rows(alloc, types, rows, steps)?;
    let sum = count(alloc, types, packed.as_slice())?;
    if sum > limit as u128 {
        return Ok(None);
    }
    Ok(Some(sum as usize))
}

/// The rows as a set, unpacked on all sides: a row of one point for each pair of a label and a point, in the order of
/// labels and then of points. The listing goes by numbers and takes no step.
///
/// `Limit` comes exactly where these rows are more than `limit`, and then none is listed.
pub fn unpack<T: PointNumber, P: Label + SortNumbers, L: Ledger>(
    alloc: Global,
    types: &[T],
    rows: Vec<BoxRow<T, P>>,
    limit: usize,
    steps: &mut Steps<L>,
) -> Result<Vec<BoxRow<T, P>>, CellRefuse>
    requires { All (λ r. IsBox T.IsPoint types.now r.1) rows.items }
    ensures rows { IfOk result (λ v. map (row_numbers T.number_of) v.items ≡
        unpacked_boxes P.order (length types.now) (map (row_numbers T.number_of) rows.items)) }
    ensures boxes { IfOk result (λ v. All (λ r. IsBox T.IsPoint types.now r.1) v.items) }
    ensures few { IfOk result (λ v. length v.items ≤ limit) }
    ensures no_fault { (e : AnyFault) → result ≡ Err (OfOp e) → ⊥ }
    ensures limit { result ≡ Err OfLimit → limit < length (unpacked_boxes P.order (length types.now) (map (row_numbers
        T.number_of) rows.items)) }
    ensures cost { steps.new ≤ steps.old + bound (length rows.items) (length types.now) }
{
    let packed = packed_rows(alloc, types, rows, steps)?;
    let sum = count(alloc, types, packed.as_slice())?;
    if sum > limit as u128 {
        return Err(CellRefuse::Limit);
    }
    let list = listed(alloc, types, packed.as_slice())?;
    let set = in_order(list)?;
    let answer = point_rows(alloc, types, set)?;
    Ok(answer)
}
