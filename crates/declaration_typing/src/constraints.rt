// The constraints that are written with a relvar.
ghost use Rattle.std.specs.Prelude.{◌≡◌, []};
ghost use Rattle.utd_syntax.specs.Read.{read_key, read_list, read_foreign, read_constraint, read_used_constraint, read_constraint_list};
ghost use Rattle.scalar_core.specs.Answers.{Gives};
ghost use Rattle.tree_core.specs.Relvars.{read_relvars};
ghost use Rattle.declaration_typing.specs.Constraints as rules;

use crate::lists::{list_typed, listed_key};
use crate::references::{foreign_typed, names_typed, reference_typed};
use point_core::{Code, Fault, Place, Stop};
use std::alloc::Global;
use tree_core::Relvars;
use utd_syntax as syntax;
use utd_syntax::{Foreign, Key, NameList, UsedConstraint};
use value_core::{Constraint, Constraints, Heading, MOST_CONSTRAINTS, Name};

/// KEY.
fn key_typed(alloc: Global, heading: &Heading, key: &Key) -> Result<Constraint, Stop>
    ensures { Gives (λ c. c) result (rules.key_typed heading.now (read_key key.now)) }
{
    let positions = names_typed(alloc, heading, &key.names)?;
    Ok(Constraint::Key(positions))
}

/// PACKED ON.
fn packed_typed(alloc: Global, heading: &Heading, list: &NameList) -> Result<Constraint, Stop>
    ensures { Gives (λ c. c) result (rules.packed_typed heading.now (read_list list.now)) }
{
    let commalist = list_typed(alloc, heading, list)?;
    Ok(Constraint::Packed(commalist))
}

/// WHEN UNPACKED ON.
fn unpacked_typed(
    alloc: Global,
    heading: &Heading,
    list: &NameList,
    key: &Key,
) -> Result<Constraint, Stop>
    ensures { Gives (λ c. c) result (rules.unpacked_typed heading.now (read_list list.now) (read_key key.now)) }
{
    let (commalist, positions) = listed_key(alloc, heading, list, &key.names)?;
    Ok(Constraint::WhenUnpacked(commalist, positions))
}

/// KEY under USING.
fn used_key_typed(
    alloc: Global,
    heading: &Heading,
    list: &NameList,
    key: &Key,
) -> Result<Constraint, Stop>
    ensures { Gives (λ c. c) result (rules.used_key_typed heading.now (read_list list.now) (read_key key.now)) }
{
    let (commalist, positions) = listed_key(alloc, heading, list, &key.names)?;
    Ok(Constraint::UKey(commalist, positions))
}

/// FOREIGN KEY under USING.
fn used_foreign_typed(
    alloc: Global,
    relvars: &Relvars,
    own: &Name,
    heading: &Heading,
    list: &NameList,
    foreign: &Foreign,
) -> Result<Constraint, Stop>
    ensures { Gives (λ c. c) result (rules.used_foreign_typed (read_relvars relvars.now) own.now heading.now (read_list list.now) (read_foreign foreign.now)) }
{
    let key = listed_key(alloc, heading, list, &foreign.names)?;
    reference_typed(alloc, relvars, own, heading, key, foreign)
}

/// A constraint under USING.
fn used_typed(
    alloc: Global,
    relvars: &Relvars,
    own: &Name,
    heading: &Heading,
    list: &NameList,
    constraint: &UsedConstraint,
) -> Result<Constraint, Stop>
    ensures { Gives (λ c. c) result (rules.used_typed (read_relvars relvars.now) own.now heading.now (read_list list.now) (read_used_constraint constraint.now)) }
{
    match constraint {
        UsedConstraint::Key(key) => used_key_typed(alloc, heading, list, key),
        UsedConstraint::Foreign(foreign) => {
            used_foreign_typed(alloc, relvars, own, heading, list, foreign)
        }
    }
}

/// One constraint.
fn constraint_typed(
    alloc: Global,
    relvars: &Relvars,
    own: &Name,
    heading: &Heading,
    constraint: &syntax::Constraint,
) -> Result<Constraint, Stop>
    ensures { Gives (λ c. c) result (rules.constraint_typed (read_relvars relvars.now) own.now heading.now (read_constraint constraint.now)) }
{
    match constraint {
        syntax::Constraint::Key(key) => key_typed(alloc, heading, key),
        syntax::Constraint::Foreign(foreign) => foreign_typed(
            alloc, relvars, own, heading, foreign,
        ),
        syntax::Constraint::PackedOn(_, list) => packed_typed(alloc, heading, list),
        syntax::Constraint::WhenUnpacked(_, list, key) => {
            unpacked_typed(alloc, heading, list, key)
        }
        syntax::Constraint::Using(_, list, used) => {
            used_typed(alloc, relvars, own, heading, list, used)
        }
    }
}

/// The constraints in their order.
pub(crate) fn constraints_typed(
    alloc: Global,
    relvars: &Relvars,
    own: &Name,
    heading: &Heading,
    constraints: &[syntax::Constraint],
) -> Result<Constraints, Stop>
    ensures { Gives (λ c. c) result (rules.constraints_typed (read_relvars relvars.now) own.now heading.now [] (read_constraint_list constraints.now)) }
{
    let mut list = Vec::new(alloc);
    for constraint in constraints {
        let next = constraint_typed(alloc, relvars, own, heading, constraint)?;
        list.push(next)?;
    }
    Ok(Constraints { list })
}

/// Where a constraint begins.
fn place_of(constraint: &syntax::Constraint) -> Place
    ensures { result ≡ rules.place_of (read_constraint constraint.now) }
{
    match constraint {
        syntax::Constraint::Key(key) => key.place,
        syntax::Constraint::Foreign(foreign) => foreign.place,
        syntax::Constraint::PackedOn(place, _) => *place,
        syntax::Constraint::WhenUnpacked(place, _, _) => *place,
        syntax::Constraint::Using(place, _, _) => *place,
    }
}

/// The refusal of a constraint above the most.
pub(crate) fn few_constraints(constraints: &[syntax::Constraint]) -> Result<(), Stop>
    ensures { Gives (λ _. tt) result (rules.few_constraints (read_constraint_list constraints.now)) }
{
    match constraints.get(MOST_CONSTRAINTS) {
        Some(constraint) => Err(Stop::Fault(Fault {
            place: place_of(constraint),
            code: Code::E22,
        })),
        None => Ok(()),
    }
}
