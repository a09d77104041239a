// What USING asks of an operator behind the operator's own checks.
ghost use Rattle.std.specs.Prelude.{◌∷◌, map, not};
ghost use Rattle.utd_syntax.specs.Read.{read_name_list, read_set_item, read_set_item_list};
ghost use Rattle.scalar_core.specs.Answers.{Gives};
ghost use Rattle.scalar_core.specs.Expressions.{read};
ghost use Rattle.tree_core.specs.Trees as trees;
ghost use Rattle.point_core.specs.declared.fault.Code.TheVariants.{E18, E19};
ghost use Rattle.node_typing.specs.Lists.{named_in, names_of_words};
ghost use Rattle.node_typing.specs.Positions.{check};
ghost use Rattle.node_typing.specs.Sweeps as rules;

use crate::lists::named_in;
use crate::positions::{check, has_name};
use point_core::{Code, Fault, Place, Stop};
use scalar_core::{Scalar, first_named, sweep_fault};
use tree_core::{Aggregate, AggregateForm};
use utd_syntax::{SetItem, Word};
use value_core::{Kind, Name};

/// The refusal of the first listed name that is no attribute.
pub(crate) fn all_kept(list: &[(Name, Kind)], words: &[Word]) -> Result<(), Stop>
    ensures { Gives (λ _. tt) result (rules.all_kept list.now (read_name_list words.now)) }
{
    for word in words {
        let kept = has_name(list, word.bytes.list.as_slice());
        check(word.place, Code::E19, kept)?;
    }
    Ok(())
}

/// The refusal of an item that assigns a listed attribute.
fn not_assigned(words: &[Word], item: &SetItem) -> Result<(), Stop>
    ensures { Gives (λ _. tt) result (check item.now.name.place E19 (not (named_in (names_of_words (read_name_list words.now)) item.now.name.bytes.list.items))) }
{
    let word = &item.name;
    check(
        word.place,
        Code::E19,
        !named_in(words, word.bytes.list.as_slice()),
    )
}

/// The refusal of the first item that assigns a listed attribute.
pub fn none_assigned(words: &[Word], first: &SetItem, more: &[SetItem]) -> Result<(), Stop>
    ensures { Gives (λ _. tt) result (rules.none_assigned (names_of_words (read_name_list words.now)) (read_set_item first.now ∷ read_set_item_list more.now)) }
{
    not_assigned(words, first)?;
    for item in more {
        not_assigned(words, item)?;
    }
    Ok(())
}

/// The refusal at the place, where there is one.
fn refused_if(place: Option<Place>) -> Result<(), Stop>
    ensures { Gives (λ _. tt) result (rules.refused_if E18 place) }
{
    match place {
        None => Ok(()),
        Some(place) => Err(Stop::Fault(Fault {
            place,
            code: Code::E18,
        })),
    }
}

/// The refusal of an expression that is not sweepable.
pub fn swept(commalist: &[usize], e: &Scalar) -> Result<(), Stop>
    ensures { Gives (λ _. tt) result (rules.swept commalist.now (read e.now)) }
{
    refused_if(sweep_fault(e, commalist))
}

/// The refusal of the first item that is not sweepable.
pub fn sets_swept(commalist: &[usize], sets: &[(Name, Scalar)]) -> Result<(), Stop>
    ensures { Gives (λ _. tt) result (rules.sets_swept commalist.now (trees.read_sets sets.now)) }
{
    for set in sets {
        swept(commalist, &set.1)?;
    }
    Ok(())
}

/// The refusal of an aggregate that names a listed attribute.
fn form_names_no(commalist: &[usize], form: &AggregateForm) -> Result<(), Stop>
    ensures { Gives (λ _. tt) result (rules.form_names_no commalist.now (trees.read_aggregate_form form.now)) }
{
    match form {
        AggregateForm::Count => Ok(()),
        AggregateForm::Sum(e) => refused_if(first_named(e, commalist)),
        AggregateForm::Min(e) => refused_if(first_named(e, commalist)),
        AggregateForm::Max(e) => refused_if(first_named(e, commalist)),
    }
}

/// The refusal of the first aggregate that names a listed attribute.
pub(crate) fn aggregates_name_no(commalist: &[usize], aggregates: &[Aggregate]) -> Result<(), Stop>
    ensures { Gives (λ _. tt) result (rules.aggregates_name_no commalist.now (map trees.read_aggregate aggregates.now)) }
{
    for aggregate in aggregates {
        form_names_no(commalist, &aggregate.form)?;
    }
    Ok(())
}
