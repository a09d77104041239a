// The labels of groups by figures of columns.
ghost use Rattle.std.specs.Prelude.{◌≡◌, ◌<◌, ◌≤◌, ◌⊎◌, ℕ, true, ◌++◌, map, length, get_or, Ok, Err, None, IfOk, IfSome};
ghost use Rattle.point_core.specs.Faults.{fault};
ghost use Rattle.point_core.specs.Points.{line, number};
ghost use Rattle.point_core.specs.declared.fault.Code.TheVariants.{E30 as CodeE30};
ghost use Rattle.point_core.specs.declared.fault.Place.{Place as AnyPlace};
ghost use Rattle.value_core.specs.Plain.{plain};
ghost use Rattle.value_core.specs.Values.{point};
ghost use Rattle.scalar_core.specs.Answers.{Gives};
ghost use Rattle.relation_core.specs.Agreement.{part_of};
ghost use Rattle.tree_core.specs.Trees.{read_aggregate};
ghost use Rattle.eval_using.specs.Columns.{point_at, figure_values};

use crate::rule::Summary;
use point_core::{AnyPoint, Code, Fault, Memory, Place, PointNumber, Stop};
use row_making::pick;
use std::alloc::Global;
use tree_core::Aggregate;
use u_summarize::{Figure, FigureRule};
use value_core::{Row, Value};

/// The rows of groups by the figures of columns, without the values at some positions of theirs: values at places among those of
/// the aggregates and then those of the part of the labels.
#[derive(Drop)]
pub(crate) struct FigureSummary<'a> {
    pub summary: Summary<'a>,
    pub places: Vec<usize>,
}

// The point that the figure is the number of, if there is one.
fn point_of(figure: Figure) -> Option<AnyPoint>
    ensures some { IfSome result (λ p. (place : AnyPlace) → point_at place figure ≡ Ok (point (line p) (number p))) }
    ensures none { result ≡ None → (place : AnyPlace) → point_at place figure ≡ Err (fault place CodeE30) }
{
    match i64::try_from(figure.number) {
        Ok(n) => figure.of.point(n),
        Err(_) => None,
    }
}

// The value that is the point of the figure, or the fault at the place where there is none: a sum that leaves 64 bits.
fn figure_value(place: Place, figure: Figure) -> Result<Value, Stop>
    ensures { Gives plain result (point_at place figure) }
{
    match point_of(figure) {
        Some(p) => Ok(Value::Point(p)),
        None => Err(Stop::Fault(Fault {
            place,
            code: Code::E30,
        })),
    }
}

// The lesser of two numbers.
fn shorter(one: usize, other: usize) -> usize
    ensures one { result ≤ one }
    ensures other { result ≤ other }
    ensures all { (one ≤ result) ⊎ (other ≤ result) }
{
    if one < other {
        return one;
    }
    other
}

// The figure with the number.
fn figure_at(figures: &[Figure], i: usize) -> Figure
    requires { i < length figures.now }
    ensures { result ≡ get_or figures.now i result }
{
    figures[i]
}

// The values of the aggregates by the figures of their columns, or the first fault.
fn figure_values(
    alloc: Global,
    aggregates: &[Aggregate],
    figures: &[Figure],
) -> Result<Vec<Value>, Stop>
    ensures { Gives (λ values. map plain values.items) result (figure_values (map read_aggregate aggregates.now) figures.now) }
{
    let mut values = Vec::new(alloc);
    let many = shorter(aggregates.len(), figures.len());
    for i in 0..many {
        let aggregate = &aggregates[i];
        let figure = figure_at(figures, i);
        let value = figure_value(aggregate.place, figure)?;
        values.push(value)?;
    }
    Ok(values)
}

// Whether the places are those from the first on, so many of them.
fn are_in_turn(places: &[usize], count: usize) -> bool
    ensures many { result ≡ true → length places.now ≡ count }
    ensures each { result ≡ true → (i : ℕ) → i < length places.now → get_or places.now i 0 ≡ i }
{
    let mut turn = 0;
    while turn < places.len() && places[turn] == turn {
        turn += 1;
    }
    turn == places.len() && turn == count
}

// The row of the values at the places: first the made ones, then those of the key. Where they are the made ones in turn, these
// are moved.
fn picked(alloc: Global, places: &[usize], made: Vec<Value>, key: &Row) -> Result<Row, Memory>
    ensures { IfOk result (λ r. r ≡ part_of places.now (map plain made.items ++ key.now)) }
{
    if are_in_turn(places, made.len()) {
        return Ok(Row::make(made));
    }
    let row = pick(alloc, places, made.as_slice(), key.values())?;
    Ok(row)
}

impl FigureRule for FigureSummary<'_> {
    ghost use Rattle.std.specs.Prelude.{◌≡◌, ◌≢◌, ℕ, Bool, List, [], map};
    ghost use Rattle.value_core.specs.Values.{Row as PlainRow};
    ghost use Rattle.tree_core.specs.Trees.{read_aggregate};
    ghost use Rattle.u_summarize.specs.Picked.{ArePicked};
    ghost use Rattle.u_summarize.specs.Figures.{figures_of};
    ghost use Rattle.eval_using.specs.Columns.{figures_label};
    ghost use Rattle.eval_using.specs.Labels.{group_label};

    ghost Fits = { λ t columns by labels. (key : PlainRow) (a : List ℕ) (f : List Bool) → a ≢ [] → ArePicked by labels key a f
        → group_label t.summary.to.now t.summary.making.at.now (map read_aggregate t.summary.making.aggregates.now) t.summary.making.rows.now a
        ≡ figures_label t.places.items (map read_aggregate t.summary.making.aggregates.now) key (figures_of columns f) };

    ghost means = { λ t a. group_label t.summary.to.now t.summary.making.at.now (map read_aggregate t.summary.making.aggregates.now) t.summary.making.rows.now a };

    ghost given = { λ t key figures. figures_label t.places.items (map read_aggregate t.summary.making.aggregates.now) key figures };

    fn label(&self, alloc: Global, key: &Row, figures: &[Figure]) -> Result<Row, Stop> {
        let made = figure_values(alloc, self.summary.making.aggregates, figures)?;
        let row = picked(alloc, self.places.as_slice(), made, key)?;
        Ok(row)
    }

    ghost agrees = { λ t columns by labels key a f fits long n p. fits key a f n p };
}
