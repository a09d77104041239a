// The values of aggregates over groups of rows.
ghost use Rattle.std.specs.Prelude.{◌≡◌, ◌<◌, ◌++◌, ℕ, [], ◌∷◌, Ok, Some, OnOk, IfOk, map, length, pos};
ghost use Rattle.std.specs.List.{All};
ghost use Rattle.base_core.specs.Outcomes.{then_give};
ghost use Rattle.point_core.specs.Faults.{OrFault};
ghost use Rattle.value_core.specs.Plain.{plain};
ghost use Rattle.point_core.specs.Points.{integers};
ghost use Rattle.value_core.specs.Values.{Value as PlainValue, point};
ghost use Rattle.scalar_core.specs.Answers.{Gives};
ghost use Rattle.scalar_core.specs.Expressions.{read};
ghost use Rattle.scalar_core.specs.Operations.{number_of, integer};
ghost use Rattle.point_core.specs.LeastFault.{lesser_of};
ghost use Rattle.relation_core.specs.Faults.{fault_of, values_of};
ghost use Rattle.relation_core.specs.Groups.{rows_at};
ghost use Rattle.tree_core.specs.Trees.{read_aggregate, read_aggregate_form};
ghost use Rattle.meaning_core.specs.Rows.{picked, values_over, aggregate_value, aggregates_on, extreme};
ghost use Rattle.meaning_core.specs.Scalars.{AllOver, AreSummedOver, IsSummedOver};
ghost use Rattle.u_summary.specs.Summaries.{total, is_before};

use crate::integers::{sum_over, value_on};
use point_core::{AnyPoint, Code, Fault, Memory, Place, Stop};
use scalar_core::{Scalar, point_number};
use std::alloc::Global;
use tree_core::{Aggregate, AggregateForm};
use u_summary::{greatest, least, sum};
use value_core::{Row, Value};

/// The values of the aggregates over the rows with the numbers, or their first fault.
pub(crate) fn aggregates_on(
    alloc: Global,
    aggregates: &[Aggregate],
    rows: &[Row],
    numbers: &[usize],
) -> Result<Vec<Value>, Stop>
    requires within { All (λ (i : ℕ). i < length rows.now) numbers.now }
    requires typed { AreSummedOver rows.now (map read_aggregate aggregates.now) }
    ensures { Gives (λ values. map plain values.items) result (aggregates_on (rows_at rows.now numbers.now) (map read_aggregate aggregates.now)) }
{
    let mut values = Vec::with_capacity(alloc, aggregates.len())?;
    for aggregate in aggregates {
        values.push(aggregate_value(alloc, aggregate, rows, numbers)?)?;
    }
    Ok(values)
}

/// The value of an aggregate over the rows with the numbers, or its fault.
fn aggregate_value(
    alloc: Global,
    aggregate: &Aggregate,
    rows: &[Row],
    numbers: &[usize],
) -> Result<Value, Stop>
    requires within { All (λ (i : ℕ). i < length rows.now) numbers.now }
    requires typed { IsSummedOver rows.now (read_aggregate_form aggregate.now.form) }
    ensures { Gives plain result (aggregate_value aggregate.now.place (read_aggregate_form aggregate.now.form) (rows_at rows.now numbers.now)) }
{
    match &aggregate.form {
        AggregateForm::Count => Ok(count_of(numbers)),
        AggregateForm::Sum(e) => sum_of(alloc, aggregate.place, e, rows, numbers),
        AggregateForm::Min(e) => least_of(alloc, e, rows, numbers),
        AggregateForm::Max(e) => greatest_of(alloc, e, rows, numbers),
    }
}

/// How many numbers there are.
fn count_of(numbers: &[usize]) -> Value
    ensures { plain result ≡ point integers (pos (length numbers.now)) }
{
    Value::Point(AnyPoint::Integer(numbers.len() as i64))
}

/// The sum of the expression's values, at most of 64 bits.
fn sum_of(
    alloc: Global,
    place: Place,
    e: &Scalar,
    rows: &[Row],
    numbers: &[usize],
) -> Result<Value, Stop>
    requires within { All (λ (i : ℕ). i < length rows.now) numbers.now }
    requires typed { AllOver rows.now (read e.now) }
    ensures { Gives plain result (then_give (values_over (read e.now) (rows_at rows.now numbers.now)) (λ vs. integer place (total (map number_of vs)))) }
{
    match sum_over(e, rows, numbers) {
        Some(sum) => Ok(Value::Point(AnyPoint::Integer(sum))),
        None => sum_of_values(alloc, place, e, rows, numbers),
    }
}

/// The sum of the expression's values, each of which is made first; or the least of their faults, or that of the sum.
fn sum_of_values(
    alloc: Global,
    place: Place,
    e: &Scalar,
    rows: &[Row],
    numbers: &[usize],
) -> Result<Value, Stop>
    requires within { All (λ (i : ℕ). i < length rows.now) numbers.now }
    requires typed { AllOver rows.now (read e.now) }
    ensures { Gives plain result (then_give (values_over (read e.now) (rows_at rows.now numbers.now)) (λ vs. integer place (total (map number_of vs)))) }
{
    let values = values_over(alloc, e, rows, numbers)?;
    let integers = integers(alloc, values.as_slice())?;
    summed(place, integers.as_slice())
}

/// The sum, or the fault at the place where it leaves 64 bits.
fn summed(place: Place, integers: &[i64]) -> Result<Value, Stop>
    ensures { Gives plain result (integer place (total integers.now)) }
{
    match sum(integers) {
        Some(total) => Ok(Value::Point(AnyPoint::Integer(total))),
        None => Err(Stop::Fault(Fault {
            place,
            code: Code::E30,
        })),
    }
}

/// The least of the expression's values. There is a row.
fn least_of(alloc: Global, e: &Scalar, rows: &[Row], numbers: &[usize]) -> Result<Value, Stop>
    requires within { All (λ (i : ℕ). i < length rows.now) numbers.now }
    requires typed { AllOver rows.now (read e.now) }
    ensures { Gives plain result (then_give (values_over (read e.now) (rows_at rows.now numbers.now)) (λ vs. Ok (extreme is_before vs))) }
{
    let values = values_over(alloc, e, rows, numbers)?;
    let best = least(values.as_slice());
    let value = chosen(alloc, values.as_slice(), best)?;
    Ok(value)
}

/// The greatest of the expression's values. There is a row.
fn greatest_of(alloc: Global, e: &Scalar, rows: &[Row], numbers: &[usize]) -> Result<Value, Stop>
    requires within { All (λ (i : ℕ). i < length rows.now) numbers.now }
    requires typed { AllOver rows.now (read e.now) }
    ensures { Gives plain result (then_give (values_over (read e.now) (rows_at rows.now numbers.now)) (λ vs. Ok (extreme (λ v w. is_before w v) vs))) }
{
    let values = values_over(alloc, e, rows, numbers)?;
    let best = greatest(values.as_slice());
    let value = chosen(alloc, values.as_slice(), best)?;
    Ok(value)
}

/// The value at the index; FALSE without one.
fn chosen(alloc: Global, values: &[Value], best: Option<usize>) -> Result<Value, Memory>
    ensures { IfOk result (λ v. plain v ≡ picked best (map plain values.now)) }
{
    match best {
        Some(at) => match values.get(at) {
            Some(value) => value.copy(alloc),
            None => Ok(Value::Truth(false)),
        },
        None => Ok(Value::Truth(false)),
    }
}

/// The numbers of the points among the values.
fn integers(alloc: Global, values: &[Value]) -> Result<Vec<i64>, Memory>
    ensures { IfOk result (λ list. list.items ≡ map number_of (map plain values.now)) }
{
    let mut list = Vec::with_capacity(alloc, values.len())?;
    for value in values {
        list.push(point_number(value))?;
    }
    Ok(list)
}

/// The values of the expression on the rows with the numbers, or their least fault.
fn values_over(
    alloc: Global,
    e: &Scalar,
    rows: &[Row],
    numbers: &[usize],
) -> Result<Vec<Value>, Stop>
    requires within { All (λ (i : ℕ). i < length rows.now) numbers.now }
    requires typed { AllOver rows.now (read e.now) }
    ensures { Gives (λ values. map plain values.items) result (values_over (read e.now) (rows_at rows.now numbers.now)) }
{
    let mut values = Vec::new(alloc);
    let mut least: Option<Fault> = None;
    for number in numbers {
        let answer = value_on(alloc, e, &rows[*number]);
        take_value(answer, &mut values, &mut least)?;
    }
    match least {
        Some(fault) => Err(Stop::Fault(fault)),
        None => Ok(values),
    }
}

/// Adds the value, or takes note of the fault.
fn take_value(
    answer: Result<Value, Stop>,
    values: &mut Vec<Value>,
    least: &mut Option<Fault>,
) -> Result<(), Memory>
    ensures rows { OnOk result ((m : OrFault PlainValue) → Gives plain answer m → map plain values.new.items ≡ map plain values.old.items ++ values_of (m ∷ [])) }
    ensures fault { OnOk result ((m : OrFault PlainValue) → Gives plain answer m → least.new ≡ lesser_of least.old (fault_of m)) }
{
    match answer {
        Ok(value) => {
            values.push(value)?;
            Ok(())
        }
        Err(Stop::Memory) => Err(Memory),
        Err(Stop::Fault(fault)) => {
            *least = Some(Fault::least_of(*least, fault));
            Ok(())
        }
    }
}
