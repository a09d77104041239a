// Boxes of one side over cells that are points, counted from the least begin.
ghost use Rattle.std.specs.Prelude.{◌≡◌, ◌<◌, ◌++◌, [], ◌∷◌, true, false, map, length, get_or, pos, ◌+ℤ◌, ◌≤ℤ◌, ◌<ℤ◌, ◌^◌, IfOk, OnOk};
ghost use Rattle.std.specs.List.{All, filter};
ghost use Rattle.interval_core.specs.Members.{HasEndsIn};
ghost use Rattle.cell_packing.specs.Packed.{no_cells};
ghost use Rattle.cell_core.specs.Boxes.{IsBox};
ghost use Rattle.cell_core.specs.Cells.{box_numbers, grid_box, grid_row, row_numbers};
ghost use Rattle.cell_core.specs.Numbering.{numbers_of, span_at};
ghost use Rattle.u_summarize.specs.PointCells.{LiesIn, counted_from, has_some};

use cell_core::{BoxRow, Sides};
use cell_sweep::CellBox;
use interval_core::Interval;
use point_core::{Memory, PointNumber};
use std::alloc::Global;
use value_core::Row;

// The numbers of an interval's ends.
fn span_of<T: PointNumber>(t: &T, interval: &Interval<T>) -> (i64, i64)
    requires { HasEndsIn T.IsPoint t.now interval.now }
    ensures numbers { result ≡ numbers_of T.number_of interval.now }
    ensures ordered { result.0 ≤ℤ result.1 }
    ensures low { T.first_number t.now ≤ℤ result.0 }
    ensures high { result.1 ≤ℤ T.last_number t.now }
{
    (t.number(interval.begin()), t.number(interval.end()))
}

// The numbers of the ends of a box of one side.
fn ends_of<T: PointNumber>(t: &T, sides: &Sides<T>) -> (i64, i64)
    requires { IsBox T.IsPoint (t.now ∷ []) sides.now }
    ensures numbers { box_numbers T.number_of sides.now ≡ result ∷ [] }
    ensures ordered { result.0 ≤ℤ result.1 }
    ensures low { T.first_number t.now ≤ℤ result.0 }
    ensures high { result.1 ≤ℤ T.last_number t.now }
{
    span_of(t, &sides.list[0])
}

/// The number of the least begin and that of the greatest end. Where there are no rows they are any that the type has.
pub(crate) fn reach<T: PointNumber>(t: &T, rows: &[BoxRow<T, Row>]) -> (i64, i64)
    requires { All (λ b. IsBox T.IsPoint (t.now ∷ []) b.1) rows.now }
    ensures each { All (λ b. LiesIn result (box_numbers T.number_of b.1)) rows.now }
    ensures low { T.first_number t.now ≤ℤ result.0 }
    ensures high { result.1 ≤ℤ T.last_number t.now }
{
    let mut least = t.number(t.last());
    let mut greatest = t.number(t.first());
    for row in rows {
        let ends = ends_of(t, &row.sides);
        least = least.min(ends.0);
        greatest = greatest.max(ends.1);
    }
    (least, greatest)
}

/// Whether the cells from the least begin up to after the greatest end can be counted.
pub(crate) fn can_count(all: (i64, i64)) -> bool
    ensures yes { result ≡ true → (all.1 +ℤ pos 1) <ℤ (all.0 +ℤ pos (2 ^ 64)) }
    ensures no { result ≡ false → (all.0 +ℤ pos (2 ^ 64)) ≤ℤ (all.1 +ℤ pos 1) }
{
    i128::from(all.1) - i128::from(all.0) < i128::from(u64::MAX)
}

// The cell of the begin, and the one after that of the end.
fn cells_between(first: i64, ends: (i64, i64)) -> (usize, usize)
    requires low { first ≤ℤ ends.0 }
    requires ordered { ends.0 ≤ℤ ends.1 }
    requires few { (ends.1 +ℤ pos 1) <ℤ (first +ℤ pos (2 ^ 64)) }
    ensures { span_at [] first result ≡ ends }
{
    let before = i128::from(first);
    let begin = i128::from(ends.0) - before;
    let end = i128::from(ends.1) + 1 - before;
    (begin as usize, end as usize)
}

// The cells of a box.
fn cells_of<T: PointNumber>(
    alloc: Global,
    t: &T,
    all: (i64, i64),
    sides: &Sides<T>,
) -> Result<Vec<(usize, usize)>, Memory>
    requires sides { IsBox T.IsPoint (t.now ∷ []) sides.now }
    requires within { LiesIn all (box_numbers T.number_of sides.now) }
    requires few { (all.1 +ℤ pos 1) <ℤ (all.0 +ℤ pos (2 ^ 64)) }
    ensures numbers { IfOk result (λ v. grid_box (counted_from all.0) v.items ≡ box_numbers T.number_of sides.now) }
    ensures one { IfOk result (λ v. length v.items ≡ 1) }
{
    let ends = ends_of(t, sides);
    let cells = cells_between(all.0, ends);
    let mut list = Vec::with_capacity(alloc, 1)?;
    list.push(cells)?;
    Ok(list)
}

/// The rows over the cells. Their labels are moved.
pub(crate) fn over_cells<T: PointNumber>(
    alloc: Global,
    t: &T,
    all: (i64, i64),
    rows: Vec<BoxRow<T, Row>>,
) -> Result<Vec<CellBox<Row>>, Memory>
    requires boxes { All (λ b. IsBox T.IsPoint (t.now ∷ []) b.1) rows.items }
    requires within { All (λ b. LiesIn all (box_numbers T.number_of b.1)) rows.items }
    requires few { (all.1 +ℤ pos 1) <ℤ (all.0 +ℤ pos (2 ^ 64)) }
    ensures rows { IfOk result (λ v. map (grid_row (counted_from all.0)) v.items ≡ map (row_numbers T.number_of) rows.items) }
    ensures one { IfOk result (λ v. All (λ x. length x.1 ≡ 1) v.items) }
{
    let mut out = Vec::with_capacity(alloc, rows.len())?;
    for row in rows {
        let cells = cells_of(alloc, t, all, &row.sides)?;
        out.push(CellBox {
            label: row.label,
            sides: cells,
        })?;
    }
    Ok(out)
}

// The numbers of the first and of the last cell.
fn numbers_at(all: (i64, i64), cells: (usize, usize)) -> (i64, i64)
    requires some { cells.0 < cells.1 }
    requires within { (all.0 +ℤ pos cells.1) ≤ℤ (all.1 +ℤ pos 1) }
    ensures { result ≡ span_at [] all.0 cells }
{
    let before = i128::from(all.0);
    let begin = before + cells.0 as i128;
    let end = before + cells.1 as i128 - 1;
    (begin as i64, end as i64)
}

// The interval of some cells.
fn interval_of<T: PointNumber>(t: &T, all: (i64, i64), cells: (usize, usize)) -> Interval<T>
    requires some { cells.0 < cells.1 }
    requires low { T.first_number t.now ≤ℤ all.0 }
    requires high { all.1 ≤ℤ T.last_number t.now }
    requires within { (all.0 +ℤ pos cells.1) ≤ℤ (all.1 +ℤ pos 1) }
    ensures numbers { numbers_of T.number_of result ≡ span_at [] all.0 cells }
    ensures points { HasEndsIn T.IsPoint t.now result }
{
    let ends = numbers_at(all, cells);
    Interval::of(t.point(ends.0).unwrap(), t.point(ends.1).unwrap())
}

// The row of the interval of some cells.
fn box_of<T: PointNumber>(
    alloc: Global,
    t: &T,
    all: (i64, i64),
    label: Row,
    cells: (usize, usize),
) -> Result<BoxRow<T, Row>, Memory>
    requires some { cells.0 < cells.1 }
    requires low { T.first_number t.now ≤ℤ all.0 }
    requires high { all.1 ≤ℤ T.last_number t.now }
    requires within { (all.0 +ℤ pos cells.1) ≤ℤ (all.1 +ℤ pos 1) }
    ensures row { IfOk result (λ v. row_numbers T.number_of v ≡ grid_row (counted_from all.0) (label, cells ∷ [])) }
    ensures sides { IfOk result (λ v. IsBox T.IsPoint (t.now ∷ []) v.1) }
{
    let mut list = Vec::with_capacity(alloc, 1)?;
    list.push(interval_of(t, all, cells))?;
    Ok(BoxRow {
        label,
        sides: Sides { list },
    })
}

// Adds the row of the row's interval, if it has a cell.
fn push_box<T: PointNumber>(
    alloc: Global,
    t: &T,
    all: (i64, i64),
    out: &mut Vec<BoxRow<T, Row>>,
    row: CellBox<Row>,
) -> Result<(), Memory>
    requires one { length row.1 ≡ 1 }
    requires low { T.first_number t.now ≤ℤ all.0 }
    requires high { all.1 ≤ℤ T.last_number t.now }
    requires within { (all.0 +ℤ pos (get_or row.1 0 no_cells).1) ≤ℤ (all.1 +ℤ pos 1) }
    ensures rows { OnOk result (map (row_numbers T.number_of) out.new.items ≡
        map (row_numbers T.number_of) out.old.items ++ map (grid_row (counted_from all.0)) (filter has_some (row ∷ []))) }
    ensures boxes { All (λ b. IsBox T.IsPoint (t.now ∷ []) b.1) out.old.items →
        OnOk result (All (λ b. IsBox T.IsPoint (t.now ∷ []) b.1) out.new.items) }
{
    let cells = row.sides[0];
    if cells.0 < cells.1 {
        out.push(box_of(alloc, t, all, row.label, cells)?)?;
    }
    Ok(())
}

/// The rows of intervals of those rows over the cells that have one.
pub(crate) fn over_points<T: PointNumber>(
    alloc: Global,
    t: &T,
    all: (i64, i64),
    rows: Vec<CellBox<Row>>,
) -> Result<Vec<BoxRow<T, Row>>, Memory>
    requires one { All (λ x. length x.1 ≡ 1) rows.items }
    requires low { T.first_number t.now ≤ℤ all.0 }
    requires high { all.1 ≤ℤ T.last_number t.now }
    requires within { All (λ x. (all.0 +ℤ pos (get_or x.1 0 no_cells).1) ≤ℤ (all.1 +ℤ pos 1)) rows.items }
    ensures rows { IfOk result (λ v. map (row_numbers T.number_of) v.items ≡ map (grid_row (counted_from all.0)) (filter has_some rows.items)) }
    ensures boxes { IfOk result (λ v. All (λ b. IsBox T.IsPoint (t.now ∷ []) b.1) v.items) }
{
    let mut out = Vec::with_capacity(alloc, rows.len())?;
    for row in rows {
        push_box(alloc, t, all, &mut out, row)?;
    }
    Ok(out)
}
