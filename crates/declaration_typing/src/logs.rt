// Logs, and what turns on one.
ghost use Rattle.std.specs.Prelude.{◌≡◌, map, IfOk};
ghost use Rattle.std.specs.List.{IsDistinct};
ghost use Rattle.std.specs.Str.{bytes_eq};
ghost use Rattle.indexmap.specs.IndexMap.{keys};
ghost use Rattle.scalar_core.specs.Answers.{Gives};
ghost use Rattle.utd_syntax.specs.Read.{read_name};
ghost use Rattle.tree_core.specs.Relvars.{read_relvar, read_relvars};
ghost use Rattle.tree_core.specs.Uses.{is_one_of};
ghost use Rattle.meaning_core.specs.Logs.{over_log};
ghost use Rattle.declaration_typing.specs.Logs as rules;

use crate::histories::attribute_named;
use crate::names::{new_name, room_for};
use crate::references::base_heading;
use node_typing::check;
use point_core::{Code, Memory, Place, Stop};
use relation_typing::name_typed;
use std::alloc::Global;
use tree_core::{LogData, Relvar, Relvars, names_any};
use tree_typing::relvar_of;
use utd_syntax::Word;
use value_core::{Heading, MOST_ATTRIBUTES, Name};

/// The refusal of a log where its relvar leaves no room for an attribute more, or there is no room for a log.
fn room_for_log(relvars: &Relvars, heading: &Heading, place: Place) -> Result<(), Stop>
    ensures { Gives (λ _. tt) result (rules.room_for_log (read_relvars relvars.now) heading.now place) }
{
    let room = heading.attributes().len() <= MOST_ATTRIBUTES - 1;
    check(place, Code::E17, room)?;
    room_for(relvars, place)
}

/// The log that LOG declares where these are the relvars, views and logs, or the first refusal.
#[tactic(auto, unfolding(crate::specs::Logs::log_declared))]
pub fn type_log(
    alloc: Global,
    log: &Word,
    source: &Word,
    attribute: &Word,
    relvars: &Relvars,
) -> Result<LogData, Stop>
    ensures { Gives (λ d. d) result (rules.log_declared (read_relvars relvars.now) (read_name log.now) (read_name source.now) (read_name attribute.now)) }
{
    let name = new_name(alloc, log, relvars)?;
    let of = name_typed(alloc, source)?;
    let heading = base_heading(source.place, relvar_of(relvars, &of))?;
    let attribute = attribute_named(alloc, heading, attribute)?;
    room_for_log(relvars, heading, log.place)?;
    Ok(LogData {
        name,
        of,
        attribute,
    })
}

/// Whether it is a log, or a view that names one of these.
fn is_over(relvar: &Relvar, names: &[&Name]) -> bool
    ensures { result ≡ rules.is_over (map (λ n. n.now) names.now) (read_relvar relvar.now) }
{
    match relvar {
        Relvar::Base {
            value: _,
            constraints: _,
        } => false,
        Relvar::View { tree, kind: _ } => names_any(tree, names),
        Relvar::Log { of: _, log: _ } => true,
    }
}

/// The relvars, views and logs have different names, as a look-up among them tells.
fn names_differ(relvars: &Relvars)
    ensures { IsDistinct bytes_eq (keys relvars.now.list) }
{
    match relvars.list.first() {
        Some((name, _)) => {
            let _ = relvars.list.get_index_of(name);
        }
        None => (),
    }
}

/// The names of the logs, and of the views that name one, themselves or through views.
pub(crate) fn over_logs(alloc: Global, relvars: &Relvars) -> Result<Vec<&Name>, Memory>
    ensures { IfOk result (λ v. is_one_of (map (λ n. n.now) v.items) ≡ over_log (read_relvars relvars.now).relvars) }
{
    names_differ(relvars);
    let mut names = Vec::new(alloc);
    for (name, relvar) in &relvars.list {
        if is_over(relvar, names.as_slice()) {
            names.push(name)?;
        }
    }
    Ok(names)
}
