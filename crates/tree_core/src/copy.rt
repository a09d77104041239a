// Copies of trees, and of the lists in them.
ghost use Rattle.std.specs.Prelude.{◌≡◌, IfOk, map};
ghost use Rattle.tree_core.specs.Trees.{read_tree, read_form, read_set, read_sets, read_aggregate, read_aggregate_form};

use crate::tree::{Aggregate, AggregateForm, Aggregates, RelForm, RelTree, Sets, Tuples};
use point_core::Memory;
use scalar_core::Scalar;
use std::alloc::Global;
use value_core::{ListOf, Name};

impl RelTree {
    /// The same expression.
    #[cycle(copy)]
    pub fn copy(&self, alloc: Global) -> Result<RelTree, Memory>
        ensures { IfOk result (λ t. read_tree t ≡ read_tree self.now) }
    {
        let heading = self.heading.copy(alloc)?;
        let form = copy_form(alloc, &self.form)?;
        Ok(RelTree {
            place: self.place,
            heading,
            form,
        })
    }
}

#[cycle(copy)]
fn copy_form(alloc: Global, form: &RelForm) -> Result<RelForm, Memory>
    ensures { IfOk result (λ r. (at : _) (h : _) → read_form at h r ≡ read_form at h form.now) }
{
    match form {
        RelForm::Named(name) => Ok(RelForm::Named(name.copy(alloc)?)),
        RelForm::Literal(tuples) => Ok(RelForm::Literal(copy_tuples(alloc, tuples)?)),
        RelForm::Infix(word, l, r) => Ok(RelForm::Infix(
            *word,
            copy_box(alloc, l)?,
            copy_box(alloc, r)?,
        )),
        RelForm::Project(kept, t) => Ok(RelForm::Project(kept.copy(alloc)?, copy_box(alloc, t)?)),
        RelForm::Rename(names, t) => Ok(RelForm::Rename(names.copy(alloc)?, copy_box(alloc, t)?)),
        RelForm::Restrict(c, t) => Ok(RelForm::Restrict(c.copy(alloc)?, copy_box(alloc, t)?)),
        RelForm::Extend(sets, t) => Ok(RelForm::Extend(
            copy_sets(alloc, sets)?,
            copy_box(alloc, t)?,
        )),
        RelForm::Summarize(by, aggregates, t) => Ok(RelForm::Summarize(
            by.copy(alloc)?,
            copy_aggregates(alloc, aggregates)?,
            copy_box(alloc, t)?,
        )),
        RelForm::Pack(commalist, t) => Ok(RelForm::Pack(
            commalist.copy(alloc)?,
            copy_box(alloc, t)?,
        )),
        RelForm::Unpack(commalist, t) => Ok(RelForm::Unpack(
            commalist.copy(alloc)?,
            copy_box(alloc, t)?,
        )),
        RelForm::Using(commalist, t) => Ok(RelForm::Using(
            commalist.copy(alloc)?,
            copy_box(alloc, t)?,
        )),
    }
}

#[cycle(copy)]
fn copy_box(alloc: Global, t: &RelTree) -> Result<Box<RelTree>, Memory>
    ensures { IfOk result (λ r. read_tree r.value ≡ read_tree t.now) }
{
    Ok(Box::new(alloc, t.copy(alloc)?)?)
}

/// The same names with the same expressions.
pub fn copy_sets(alloc: Global, sets: &Sets) -> Result<Sets, Memory>
    ensures { IfOk result (λ s. read_sets s ≡ read_sets sets.now) }
{
    let mut list = Vec::with_capacity(alloc, sets.list.len())?;
    for set in &sets.list {
        list.push(copy_set(alloc, set)?)?;
    }
    Ok(ListOf { list })
}

fn copy_set(alloc: Global, set: &(Name, Scalar)) -> Result<(Name, Scalar), Memory>
    ensures { IfOk result (λ s. read_set s ≡ read_set set.now) }
{
    let name = set.0.copy(alloc)?;
    let e = set.1.copy(alloc)?;
    Ok((name, e))
}

fn copy_tuples(alloc: Global, tuples: &Tuples) -> Result<Tuples, Memory>
    ensures { IfOk result (λ t. map read_sets t ≡ map read_sets tuples.now) }
{
    let mut list = Vec::with_capacity(alloc, tuples.list.len())?;
    for tuple in &tuples.list {
        list.push(copy_sets(alloc, tuple)?)?;
    }
    Ok(ListOf { list })
}

/// The same aggregates.
pub fn copy_aggregates(alloc: Global, aggregates: &Aggregates) -> Result<Aggregates, Memory>
    ensures { IfOk result (λ a. map read_aggregate a ≡ map read_aggregate aggregates.now) }
{
    let mut list = Vec::with_capacity(alloc, aggregates.list.len())?;
    for aggregate in &aggregates.list {
        list.push(copy_aggregate(alloc, aggregate)?)?;
    }
    Ok(ListOf { list })
}

fn copy_aggregate(alloc: Global, aggregate: &Aggregate) -> Result<Aggregate, Memory>
    ensures { IfOk result (λ a. read_aggregate a ≡ read_aggregate aggregate.now) }
{
    let name = aggregate.name.copy(alloc)?;
    let form = copy_aggregate_form(alloc, &aggregate.form)?;
    Ok(Aggregate {
        name,
        place: aggregate.place,
        form,
    })
}

fn copy_aggregate_form(alloc: Global, form: &AggregateForm) -> Result<AggregateForm, Memory>
    ensures { IfOk result (λ r. read_aggregate_form r ≡ read_aggregate_form form.now) }
{
    match form {
        AggregateForm::Count => Ok(AggregateForm::Count),
        AggregateForm::Sum(e) => Ok(AggregateForm::Sum(e.copy(alloc)?)),
        AggregateForm::Min(e) => Ok(AggregateForm::Min(e.copy(alloc)?)),
        AggregateForm::Max(e) => Ok(AggregateForm::Max(e.copy(alloc)?)),
    }
}
