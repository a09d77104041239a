// TERMINATE: the view of a history, the point up to which its facts last, and the facts that end.
ghost use Rattle.std.specs.Prelude.{◌≡◌, option_map, Some};
ghost use Rattle.utd_syntax.specs.Read.{read_condition, read_name, read_scalar};
ghost use Rattle.relation_core.specs.Parts.{kind_at};
ghost use Rattle.scalar_core.specs.Answers.{Gives, seen};
ghost use Rattle.scalar_core.specs.Expressions.{read};
ghost use Rattle.scalar_typing.specs.Names.{AreOrdinals};
ghost use Rattle.scalar_typing.specs.Typings.{value_or};
ghost use Rattle.point_core.specs.declared.fault.Code.TheVariants.{E20};
ghost use Rattle.tree_core.specs.Items.{read_item, read_item_form};
ghost use Rattle.tree_core.specs.Relvars.{constraints_if, read_relvar, read_relvars, rule_among, history_if};
ghost use Rattle.meaning_core.specs.Endings.{rule_if};
ghost use Rattle.item_typing.specs.Endings as rules;

use crate::changes::condition_if;
use crate::targets::{Target, item_of, known_relvar};
use node_typing::check;
use point_core::{Code, Fault, Place, Stop};
use relation_typing::{empty_heading, name_typed};
use scalar_core::Scalar;
use scalar_typing::{same_kind, type_scalar};
use std::alloc::Global;
use tree_core::{Item, ItemForm, Relvar, Relvars, ViewKind, rule_if};
use utd_syntax as syntax;
use utd_syntax::{Condition, Word};
use value_core::{Heading, HistoryRule, Kind, Name, OrdinalTypes};

/// What is told of the facts of a history that still hold: their heading, and the kind of the points since when they do.
#[derive(Clone, Copy)]
struct Facts<'a> {
    heading: &'a Heading,
    point: Kind,
}

/// The since relvar and the during relvar of a history's view: E20 at what is none.
fn history_typed(place: Place, relvar: &Relvar) -> Result<&(Name, Name), Fault>
    ensures { seen (λ n. n.now) result ≡ value_or place E20 (history_if (Some (read_relvar relvar.now))) }
{
    match relvar {
        Relvar::View {
            tree: _,
            kind: ViewKind::OfHistory(names),
        } => Ok(names),
        _ => Err(Fault {
            place,
            code: Code::E20,
        }),
    }
}

/// The rule that stands with the during relvar of a history.
fn rule_typed<'a>(
    relvars: &'a Relvars,
    place: Place,
    names: &(Name, Name),
) -> Result<&'a HistoryRule, Fault>
    ensures { seen (λ r. r.now) result ≡ value_or place E20 (rule_if (read_relvars relvars.now).relvars (Some names.now)) }
{
    match rule_if(relvars.named(&names.1)) {
        Some(rule) => Ok(rule),
        None => Err(Fault {
            place,
            code: Code::E20,
        }),
    }
}

/// The heading of the since relvar of a history.
fn since_typed<'a>(relvars: &'a Relvars, place: Place, name: &Name) -> Result<&'a Heading, Fault>
    ensures { seen (λ h. h.now) result ≡ rules.since_typed (read_relvars relvars.now) place name.now }
{
    match relvars.named(name) {
        Some(relvar) => Ok(relvar.heading()),
        None => Err(Fault {
            place,
            code: Code::E20,
        }),
    }
}

/// The kind of the attribute at the position; BOOLEAN past the end.
fn kind_at(heading: &Heading, at: usize) -> Kind
    ensures { result ≡ kind_at heading.now at }
{
    match heading.attributes().get(at) {
        Some(attribute) => attribute.1,
        None => Kind::Truth,
    }
}

/// What is told of the facts of the history that the view is of: E20 at what is none.
fn facts_of<'a>(relvars: &'a Relvars, place: Place, relvar: &Relvar) -> Result<Facts<'a>, Fault>
    ensures { seen (λ f. (f.heading.now, f.point)) result ≡ rules.facts_of (read_relvars relvars.now) place (read_relvar relvar.now) }
{
    let names = history_typed(place, relvar)?;
    let rule = rule_typed(relvars, place, names)?;
    let heading = since_typed(relvars, place, &names.0)?;
    Ok(Facts {
        heading,
        point: kind_at(heading, rule.point_there),
    })
}

/// The point up to which facts last: a scalar over no attributes, and E12 at AT where it is of another kind.
fn point_typed(
    alloc: Global,
    types: &OrdinalTypes,
    point: Kind,
    at: Place,
    scalar: &syntax::Scalar,
) -> Result<Scalar, Stop>
    requires { AreOrdinals types.now }
    ensures { Gives read result (rules.point_typed types.now point at (read_scalar scalar.now)) }
{
    let none = empty_heading(alloc)?;
    let e = type_scalar(alloc, types, &none, scalar)?;
    match check(at, Code::E12, same_kind(e.kind, point)) {
        Ok(()) => Ok(e.scalar),
        Err(stop) => {
            drop(e);
            Err(stop)
        }
    }
}

/// What ends: the point, and the condition over the facts.
fn end_typed(
    alloc: Global,
    relvars: &Relvars,
    facts: Facts<'_>,
    at: Place,
    scalar: &syntax::Scalar,
    condition: &Condition,
) -> Result<ItemForm, Stop>
    requires { AreOrdinals (read_relvars relvars.now).ordinals }
    ensures { Gives read_item_form result (rules.end_typed (read_relvars relvars.now) (facts.entry.heading.now, facts.entry.point) at (read_scalar scalar.now) (read_condition condition.now)) }
{
    let e = point_typed(alloc, &relvars.ordinals, facts.point, at, scalar)?;
    match condition_if(alloc, &relvars.ordinals, facts.heading, condition) {
        Ok(condition) => Ok(ItemForm::Terminate {
            at: e,
            at_place: at,
            condition,
        }),
        Err(stop) => {
            drop(e);
            Err(stop)
        }
    }
}

/// What a TERMINATE says: the name of a view, the place of AT, the point up to which facts last, and the facts that end.
#[derive(Clone, Copy)]
pub(crate) struct Ending<'a> {
    pub(crate) word: &'a Word,
    pub(crate) at: Place,
    pub(crate) scalar: &'a syntax::Scalar,
    pub(crate) condition: &'a Condition,
}

/// `"TERMINATE" name "AT" scalar condition`.
pub(crate) fn type_ending(
    alloc: Global,
    place: Place,
    ending: Ending<'_>,
    relvars: &Relvars,
) -> Result<Item, Stop>
    requires { AreOrdinals (read_relvars relvars.now).ordinals }
    ensures { Gives read_item result (rules.ending_typed (read_relvars relvars.now) place (read_name ending.entry.word.now) ending.entry.at (read_scalar ending.entry.scalar.now) (read_condition ending.entry.condition.now)) }
{
    let word = ending.word;
    let name = name_typed(alloc, word)?;
    let relvar = known_relvar(relvars, &name, word.place)?;
    let facts = facts_of(relvars, word.place, relvar)?;
    let heading = relvar.heading().copy(alloc)?;
    let form = end_typed(
        alloc,
        relvars,
        facts,
        ending.at,
        ending.scalar,
        ending.condition,
    )?;
    Ok(item_of(place, Target { name, heading }, form))
}
