// Histories.
ghost use Rattle.std.specs.Prelude.{◌≡◌};
ghost use Rattle.scalar_core.specs.Answers.{Gives};
ghost use Rattle.scalar_typing.specs.Names.{AreOrdinals};
ghost use Rattle.utd_syntax.specs.Read.{read_heading, read_key, read_name, read_point};
ghost use Rattle.relation_typing.specs.Attributes as attributes;
ghost use Rattle.tree_core.specs.Relvars.{read_relvars};
ghost use Rattle.declaration_typing.specs.Histories as rules;

use crate::names::new_name;
use crate::references::names_typed;
use node_typing::check;
use point_core::{Code, Fault, Place, Stop};
use relation_typing::{heading_typed, name_typed};
use scalar_typing::point_type;
use std::alloc::Global;
use tree_core::{HistoryData, Relvars};
use utd_syntax as syntax;
use utd_syntax::{History, Key, Word};
use value_core::{Heading, MOST_ATTRIBUTES, MOST_RELVARS, Name, OrdinalTypes, Positions, has_name};

/// The names of the view, the since relvar and the during relvar, which nothing has, and which differ.
fn relvars_named(
    alloc: Global,
    view: &Word,
    since: &Word,
    during: &Word,
    relvars: &Relvars,
) -> Result<(Name, Name, Name), Stop>
    ensures { Gives (λ names. names) result (rules.relvars_named (read_relvars relvars.now) (read_name view.now) (read_name since.now) (read_name during.now)) }
{
    let first = new_name(alloc, view, relvars)?;
    let second = new_name(alloc, since, relvars)?;
    check(since.place, Code::E11, first != second)?;
    let third = new_name(alloc, during, relvars)?;
    let stood = first == third || second == third;
    check(during.place, Code::E11, !stood)?;
    Ok((first, second, third))
}

/// The heading of the facts, beside which there is room for two attributes, and the positions of the key in it.
fn facts_typed(
    alloc: Global,
    types: &OrdinalTypes,
    heading: &syntax::Heading,
    key: &Key,
) -> Result<(Heading, Positions), Stop>
    requires { AreOrdinals types.now }
    ensures { Gives (λ facts. facts) result (rules.facts_typed types.now (read_heading heading.now) (read_key key.now)) }
{
    let typed = heading_typed(alloc, types, heading)?;
    let room = typed.attributes().len() <= MOST_ATTRIBUTES - 2;
    check(heading.place, Code::E17, room)?;
    let positions = names_typed(alloc, &typed, &key.names)?;
    Ok((typed, positions))
}

/// The name of an attribute that the heading has not.
pub(crate) fn attribute_named(alloc: Global, heading: &Heading, word: &Word) -> Result<Name, Stop>
    ensures { Gives (λ n. n) result (attributes.new_name heading.now (read_name word.now)) }
{
    let name = name_typed(alloc, word)?;
    if has_name(heading.attributes(), &name) {
        return Err(Stop::Fault(Fault {
            place: word.place,
            code: Code::E15,
        }));
    }
    Ok(name)
}

/// The names of the attributes of the points and of the intervals, which the heading has not, and which differ.
fn attributes_named(
    alloc: Global,
    heading: &Heading,
    point: &Word,
    span: &Word,
) -> Result<(Name, Name), Stop>
    ensures { Gives (λ names. names) result (rules.attributes_named heading.now (read_name point.now) (read_name span.now)) }
{
    let first = attribute_named(alloc, heading, point)?;
    let second = attribute_named(alloc, heading, span)?;
    check(span.place, Code::E15, first != second)?;
    Ok((first, second))
}

/// The refusal of a history where there is no room for three relvars and views more.
fn room_for_three(relvars: &Relvars, place: Place) -> Result<(), Stop>
    ensures { Gives (λ _. tt) result (rules.room_for_three (read_relvars relvars.now) place) }
{
    check(place, Code::E22, relvars.list.len() <= MOST_RELVARS - 3)
}

/// What HISTORY declares where these are the relvars, views and ordinal types, or the first refusal.
#[tactic(auto, unfolding(crate::specs::Histories::history_declared))]
pub fn type_history(
    alloc: Global,
    history: &History,
    relvars: &Relvars,
) -> Result<HistoryData, Stop>
    requires { AreOrdinals (read_relvars relvars.now).ordinals }
    ensures { Gives (λ h. h) result (rules.history_declared (read_relvars relvars.now) history.now.place (read_name history.now.view) (read_heading history.now.heading) (read_key history.now.key)
        (read_name history.now.since) (read_name history.now.since_attribute) (read_name history.now.during) (read_name history.now.during_attribute) (read_point history.now.point)) }
{
    let (view, since, during) = relvars_named(
        alloc,
        &history.view,
        &history.since,
        &history.during,
        relvars,
    )?;
    let (heading, key) = facts_typed(alloc, &relvars.ordinals, &history.heading, &history.key)?;
    let over = point_type(&relvars.ordinals, &history.point)?;
    let (point, span) = attributes_named(
        alloc,
        &heading,
        &history.since_attribute,
        &history.during_attribute,
    )?;
    room_for_three(relvars, history.view.place)?;
    Ok(HistoryData {
        view,
        since,
        point,
        during,
        span,
        heading,
        key,
        over,
        place: history.place,
    })
}
