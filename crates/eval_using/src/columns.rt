// The numbers that aggregates count, sum and compare, a row each.
ghost use Rattle.std.specs.Prelude.{◌≡◌, ◌⊎◌, ℕ, ◌<◌, [], pos, map, length, get_or, Ok, IfOk, IfSome};
ghost use Rattle.point_core.specs.Points.{line, line_of, number};
ghost use Rattle.point_core.specs.declared.any_type.AnyPoint.{AnyPoint as PlainPoint};
ghost use Rattle.point_core.specs.declared.any_type.AnyType.TheVariants.{Integer as OfIntegers};
ghost use Rattle.value_core.specs.Values.{point, Row as PlainRow};
ghost use Rattle.scalar_core.specs.Expressions.{Expr, read};
ghost use Rattle.scalar_core.specs.Kinds.{IsTypedOver};
ghost use Rattle.scalar_core.specs.ScalarValues.{value};
ghost use Rattle.tree_core.specs.Trees.{read_aggregate, read_aggregate_form};
ghost use Rattle.meaning_core.specs.Scalars.{AllOver, AreSummedOver, IsSummedOver};
ghost use Rattle.u_summarize.specs.declared.values.Measure.TheVariants.{Sum as AskedSum};
ghost use Rattle.eval_using.specs.Columns.{HasPoint, HasPoints, IsColumn, AreColumns};

use point_core::{AnyPoint, AnyType, Memory, PointType, Stop};
use scalar_core::{Scalar, eval};
use std::alloc::Global;
use tree_core::{Aggregate, AggregateForm};
use u_summarize::{Column, Measure};
use value_core::{Row, Value};

// A type of points that stand on one line with the point: of an ordinal type's values the longest.
fn type_of(p: AnyPoint) -> AnyType
    ensures { line_of result ≡ line p }
{
    match p {
        AnyPoint::Integer(_) => AnyType::Integer,
        AnyPoint::Date(_) => AnyType::Date,
        AnyPoint::Ordinal { of, at: _ } => AnyType::Ordinal { of, last: u16::MAX },
        AnyPoint::Moment(_) => AnyType::Moment,
    }
}

// The point that is the expression's value on the row, if that is one.
fn point_on(alloc: Global, e: &Scalar, row: &Row) -> Result<Option<AnyPoint>, Memory>
    requires { IsTypedOver row.now (read e.now) }
    ensures { IfOk result (λ o. IfSome o (λ p. value (read e.now) row.now ≡ Ok (point (line p) (number p)))) }
{
    match eval(alloc, e, row) {
        Ok(Value::Point(p)) => Ok(Some(p)),
        Ok(_) => Ok(None),
        Err(Stop::Fault(_)) => Ok(None),
        Err(Stop::Memory) => Err(Memory),
    }
}

// A type that has the point of the expression's value on the first row; the integers where that is no point.
fn type_on_first(alloc: Global, e: &Scalar, rows: &[Row]) -> Result<AnyType, Memory>
    requires { AllOver rows.now (read e.now) }
    ensures { IfOk result (λ t. (t ≡ OfIntegers) ⊎ ((p : PlainPoint) × (value (read e.now) (get_or rows.now 0 []) ≡ Ok (point (line p) (number p))) × (line_of t ≡ line p))) }
{
    match rows.first() {
        Some(row) => match point_on(alloc, e, row)? {
            Some(p) => Ok(type_of(p)),
            None => Ok(AnyType::Integer),
        },
        None => Ok(AnyType::Integer),
    }
}

// The number of the point, if it is one of the type.
fn number_in(of: AnyType, p: AnyPoint) -> Option<i64>
    ensures { IfSome result (λ n. (row : PlainRow) (e : Expr) → value e row ≡ Ok (point (line p) (number p)) → HasPoint row e of n) }
{
    if of.is_point(p) {
        return Some(p.number());
    }
    None
}

// The number of the expression's value on the row, if that is a point of the type.
fn number_on(alloc: Global, e: &Scalar, of: AnyType, row: &Row) -> Result<Option<i64>, Memory>
    requires { IsTypedOver row.now (read e.now) }
    ensures { IfOk result (λ o. IfSome o (λ n. HasPoint row.now (read e.now) of n)) }
{
    match point_on(alloc, e, row)? {
        Some(p) => Ok(number_in(of, p)),
        None => Ok(None),
    }
}

// The numbers of the expression's values, if these are points of the type on all rows.
fn numbers(alloc: Global, e: &Scalar, of: AnyType, rows: &[Row]) -> Result<Option<Vec<i64>>, Memory>
    requires { AllOver rows.now (read e.now) }
    ensures { IfOk result (λ o. IfSome o (λ v. (length v.items ≡ length rows.now) × HasPoints rows.now (read e.now) of v.items)) }
{
    let mut numbers = Vec::new(alloc);
    for i in 0..rows.len() {
        let row = &rows[i];
        match number_on(alloc, e, of, row)? {
            Some(n) => numbers.push(n)?,
            None => return Ok(None),
        }
    }
    Ok(Some(numbers))
}

// The column of the expression's values and of what is asked of them, if these are points of the type on all rows.
fn asked(
    alloc: Global,
    measure: Measure,
    of: AnyType,
    e: &Scalar,
    rows: &[Row],
) -> Result<Option<Column>, Memory>
    requires { AllOver rows.now (read e.now) }
    ensures { IfOk result (λ o. IfSome o (λ c. (c.0 ≡ measure) × (c.1 ≡ of) × (length c.2 ≡ length rows.now) × HasPoints rows.now (read e.now) of c.2)) }
{
    match numbers(alloc, e, of, rows)? {
        Some(numbers) => Ok(Some(Column {
            measure,
            of,
            numbers,
        })),
        None => Ok(None),
    }
}

// The same of the type that has the value on the first row.
fn compared(
    alloc: Global,
    measure: Measure,
    e: &Scalar,
    rows: &[Row],
) -> Result<Option<Column>, Memory>
    requires { AllOver rows.now (read e.now) }
    ensures { IfOk result (λ o. IfSome o (λ c. (c.0 ≡ measure) × (length c.2 ≡ length rows.now) × HasPoints rows.now (read e.now) c.1 c.2)) }
{
    let of = type_on_first(alloc, e, rows)?;
    asked(alloc, measure, of, e, rows)
}

// A one for each row.
fn ones(alloc: Global, rows: usize) -> Result<Column, Memory>
    ensures asked { IfOk result (λ c. (c.0 ≡ AskedSum) × (c.1 ≡ OfIntegers)) }
    ensures count { IfOk result (λ c. length c.2 ≡ rows) }
    ensures ones { IfOk result (λ c. (r : ℕ) → r < rows → get_or c.2 r (pos 0) ≡ pos 1) }
{
    let numbers = vec![in alloc; 1; rows]?;
    Ok(Column {
        measure: Measure::Sum,
        of: AnyType::Integer,
        numbers,
    })
}

// What the aggregate counts, sums or compares, a row each; nothing where the expression has a fault on some row, or a value that is no
// point.
fn column(alloc: Global, aggregate: &Aggregate, rows: &[Row]) -> Result<Option<Column>, Memory>
    requires { IsSummedOver rows.now (read_aggregate_form aggregate.now.form) }
    ensures { IfOk result (λ o. IfSome o (λ c. (length c.2 ≡ length rows.now) × IsColumn rows.now (read_aggregate_form aggregate.now.form) c)) }
{
    match &aggregate.form {
        AggregateForm::Count => {
            let column = ones(alloc, rows.len())?;
            Ok(Some(column))
        }
        AggregateForm::Sum(e) => asked(alloc, Measure::Sum, AnyType::Integer, e, rows),
        AggregateForm::Min(e) => compared(alloc, Measure::Least, e, rows),
        AggregateForm::Max(e) => compared(alloc, Measure::Greatest, e, rows),
    }
}

/// What the aggregates count, sum and compare, a row each; nothing where one has a fault on some row, or compares values that are no
/// points.
pub(crate) fn columns(
    alloc: Global,
    aggregates: &[Aggregate],
    rows: &[Row],
) -> Result<Option<Vec<Column>>, Memory>
    requires { AreSummedOver rows.now (map read_aggregate aggregates.now) }
    ensures { IfOk result (λ o. IfSome o (λ v. AreColumns rows.now (map read_aggregate aggregates.now) v.items)) }
{
    let mut list = Vec::new(alloc);
    for i in 0..aggregates.len() {
        let aggregate = &aggregates[i];
        match column(alloc, aggregate, rows)? {
            Some(own) => list.push(own)?,
            None => return Ok(None),
        }
    }
    Ok(Some(list))
}
