// The groups and the aggregates of a SUMMARIZE.
ghost use Rattle.std.specs.Prelude.{◌≡◌, ◌<◌, ◌∷◌, [], ℕ, List, map, length, IfOk, IsTrue};
ghost use Rattle.std.specs.List.{All};
ghost use Rattle.std.specs.Ordering.{nat_cmp};
ghost use Rattle.base_core.specs.Sets.{is_set};
ghost use Rattle.utd_syntax.specs.Read as read;
ghost use Rattle.relation_core.specs.Parts.{attributes_at};
ghost use Rattle.scalar_core.specs.Answers.{Gives};
ghost use Rattle.scalar_core.specs.Expressions.{read as read_expression};
ghost use Rattle.scalar_typing.specs.Names.{AreOrdinals};
ghost use Rattle.tree_core.specs.Trees as trees;
ghost use Rattle.node_typing.specs.Summaries as rules;
ghost use Rattle.node_typing.specs.Summaries.{summed, summary};

use crate::headings::{heading_at, put_all};
use crate::positions::{check, kept, positions_typed};
use point_core::{Code, Memory, Place, Stop};
use relation_typing::{Attributes, few_attributes, new_name, put};
use scalar_core::Scalar;
use scalar_typing::{INTEGER, is_ordered, same_kind, type_scalar};
use std::alloc::Global;
use std::collections::BTreeMap;
use tree_core::{Aggregate, AggregateForm, Aggregates};
use utd_syntax as syntax;
use utd_syntax::AggregateWord;
use value_core::{Heading, Kind, OrdinalTypes, Positions};

/// Whether the word takes values of the kind.
fn takes(word: AggregateWord, kind: Kind) -> bool
    ensures { result ≡ rules.takes word kind }
{
    match word {
        AggregateWord::Sum => same_kind(kind, INTEGER),
        AggregateWord::Min => is_ordered(kind),
        AggregateWord::Max => is_ordered(kind),
    }
}

/// The aggregate of the word over an expression.
fn form_over(word: AggregateWord, e: Scalar) -> AggregateForm
    ensures { trees.read_aggregate_form result ≡ rules.form_over word (read_expression e) }
{
    match word {
        AggregateWord::Sum => AggregateForm::Sum(e),
        AggregateWord::Min => AggregateForm::Min(e),
        AggregateWord::Max => AggregateForm::Max(e),
    }
}

/// The place of the word.
fn form_place(form: &syntax::AggregateForm) -> Place
    ensures { result ≡ rules.form_place (read.read_aggregate_form form.now) }
{
    match form {
        syntax::AggregateForm::Count(place) => *place,
        syntax::AggregateForm::Of(place, _, _) => *place,
    }
}

/// What an aggregate counts over the heading, and the kind of its values.
fn form_typed(
    alloc: Global,
    types: &OrdinalTypes,
    from: &Heading,
    form: &syntax::AggregateForm,
) -> Result<(AggregateForm, Kind), Stop>
    requires { AreOrdinals types.now }
    ensures { Gives (λ f. (trees.read_aggregate_form f.0, f.1)) result (rules.form_typed types.now from.now (read.read_aggregate_form form.now)) }
{
    match form {
        syntax::AggregateForm::Count(_) => Ok((AggregateForm::Count, INTEGER)),
        syntax::AggregateForm::Of(place, word, scalar) => {
            let e = type_scalar(alloc, types, from, scalar)?;
            match check(*place, Code::E12, takes(*word, e.kind)) {
                Ok(()) => Ok((form_over(*word, e.scalar), e.kind)),
                Err(stop) => {
                    drop(e);
                    Err(stop)
                }
            }
        }
    }
}

/// Aggregates in the order of the text, and the attributes of the groups with those that they make.
#[derive(Drop)]
struct Summed {
    aggregates: Vec<Aggregate>,
    attributes: Attributes,
}

/// One aggregate more.
fn aggregate_typed(
    alloc: Global,
    types: &OrdinalTypes,
    from: &Heading,
    before: &mut Summed,
    aggregate: &syntax::Aggregate,
) -> Result<(), Stop>
    requires { AreOrdinals types.now }
    ensures { Gives (λ _. summed before.new) result (rules.aggregate_typed types.now from.now (summed before.old) (read.read_aggregate aggregate.now)) }
{
    let name = new_name(alloc, &before.attributes, &aggregate.name)?;
    let copy = name.copy(alloc)?;
    let place = form_place(&aggregate.form);
    let (form, kind) = form_typed(alloc, types, from, &aggregate.form)?;
    before.aggregates.push(Aggregate { name, place, form })?;
    put(&mut before.attributes, copy, kind)?;
    Ok(())
}

/// No aggregates yet, with the attributes of the groups.
fn none_summed(alloc: Global, groups: &Heading) -> Result<Summed, Memory>
    ensures { IfOk result (λ s. summed s ≡ ([], groups.now)) }
{
    let mut attributes: Attributes = BTreeMap::new(alloc);
    put_all(alloc, &mut attributes, groups.attributes())?;
    let aggregates = Vec::new(alloc);
    Ok(Summed {
        aggregates,
        attributes,
    })
}

/// The aggregates, and the attributes of the groups with those that they make.
fn aggregates_typed(
    alloc: Global,
    types: &OrdinalTypes,
    from: &Heading,
    groups: &Heading,
    first: &syntax::Aggregate,
    more: &[syntax::Aggregate],
) -> Result<Summed, Stop>
    requires { AreOrdinals types.now }
    ensures { Gives summed result (rules.aggregates_typed types.now from.now ([], groups.now) (read.read_aggregate first.now ∷ read.read_aggregate_list more.now)) }
{
    let mut before = none_summed(alloc, groups)?;
    aggregate_typed(alloc, types, from, &mut before, first)?;
    for aggregate in more {
        aggregate_typed(alloc, types, from, &mut before, aggregate)?;
    }
    Ok(before)
}

/// The positions of the attributes of BY, and the heading of these.
pub(crate) fn groups_typed(
    alloc: Global,
    from: &Heading,
    by: &syntax::Names,
) -> Result<(Positions, Heading), Stop>
    ensures positions { Gives (λ p. p.0) result (rules.groups_typed from.now (read.read_names by.now)) }
    ensures heading { IfOk result (λ p. p.1 ≡ attributes_at p.0 from.now) }
{
    let words = by.names.list.as_slice();
    let named = positions_typed(from.attributes(), Vec::new(alloc), words)?;
    let list = kept(alloc, true, named.as_slice(), from.attributes())?;
    let to = heading_at(alloc, from, list.as_slice())?;
    Ok((Positions { list }, to))
}

/// The aggregates of a SUMMARIZE, and the heading of its node.
#[derive(Drop)]
pub(crate) struct Summary {
    pub(crate) aggregates: Aggregates,
    pub(crate) heading: Heading,
}

/// The aggregates over the heading beside the attributes of the groups, and the heading of the node.
pub(crate) fn aggregates_made(
    alloc: Global,
    types: &OrdinalTypes,
    place: Place,
    from: &Heading,
    groups: &Heading,
    aggregates: &syntax::Aggregates,
) -> Result<Summary, Stop>
    requires { AreOrdinals types.now }
    ensures { (by : List ℕ) → groups.now ≡ attributes_at by from.now →
        Gives summary result (rules.aggregates_made types.now place from.now by (read.read_aggregates aggregates.now)) }
{
    let more = aggregates.more.list.as_slice();
    let made = aggregates_typed(alloc, types, from, groups, &aggregates.first, more)?;
    let aggregates = Aggregates {
        list: made.aggregates,
    };
    let heading = few_attributes(alloc, place, made.attributes)?;
    Ok(Summary {
        aggregates,
        heading,
    })
}
