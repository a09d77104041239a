// Foreign keys.
ghost use Rattle.std.specs.Prelude.{◌≡◌, [], is_some, option_map};
ghost use Rattle.utd_syntax.specs.Read.{read_name, read_name_list, read_names, read_foreign};
ghost use Rattle.scalar_core.specs.Answers.{Gives};
ghost use Rattle.tree_core.specs.Relvars.{read_relvar, read_relvars, relvar_named};
ghost use Rattle.declaration_typing.specs.Constraints as rules;

use node_typing::{check, kind_named, position_typed, positions_typed};
use point_core::{Code, Fault, Place, Stop};
use relation_typing::name_typed;
use scalar_typing::same_kind;
use std::alloc::Global;
use tree_core::{Relvar, Relvars};
use tree_typing::relvar_of;
use utd_syntax::{Foreign, Names, Word};
use value_core::{Constraint, Heading, Kind, Name, Positions};

/// Whether there is a relvar or view of the name.
pub(crate) fn is_known(relvars: &Relvars, name: &Name) -> bool
    ensures { result ≡ is_some (relvar_named (read_relvars relvars.now).relvars name.now) }
{
    relvar_of(relvars, name).is_some()
}

/// The heading of a base relvar.
pub(crate) fn base_heading<'a>(place: Place, found: Option<&'a Relvar>) -> Result<&'a Heading, Stop>
    ensures { Gives (λ h. h.now) result (rules.base_heading place (option_map (λ r. read_relvar r.now) found.entry)) }
{
    match found {
        Some(
            Relvar::Base {
                value,
                constraints: _,
            },
        ) => Ok(value.heading()),
        Some(Relvar::View { tree: _, kind: _ }) | Some(Relvar::Log { of: _, log: _ }) => Err(
            Stop::Fault(Fault {
                place,
                code: Code::E20,
            }),
        ),
        None => Err(Stop::Fault(Fault {
            place,
            code: Code::E10,
        })),
    }
}

/// The heading of the referenced relvar, which may be the one that is declared.
fn heading_there<'a>(
    relvars: &'a Relvars,
    own: &Name,
    heading: &'a Heading,
    place: Place,
    name: &Name,
) -> Result<&'a Heading, Stop>
    ensures { Gives (λ h. h.now) result (rules.heading_there (read_relvars relvars.now) own.now heading.now place name.now) }
{
    if *own == *name {
        return Ok(heading);
    }
    base_heading(place, relvar_of(relvars, name))
}

/// The position of a K name in the referenced heading.
fn position_there(
    heading: &[(Name, Kind)],
    there: &[(Name, Kind)],
    word: &Word,
) -> Result<usize, Stop>
    ensures { Gives (λ i. i) result (rules.position_there heading.now there.now (read_name word.now)) }
{
    let at = position_typed(there, word)?;
    let name = word.bytes.list.as_slice();
    let alike = same_kind(kind_named(heading, name), kind_named(there, name));
    check(word.place, Code::E12, alike)?;
    Ok(at)
}

/// The positions of the K names in the referenced heading.
fn positions_there(
    alloc: Global,
    heading: &[(Name, Kind)],
    there: &[(Name, Kind)],
    words: &[Word],
) -> Result<Vec<usize>, Stop>
    ensures { Gives (λ v. v.items) result (rules.positions_there heading.now there.now [] (read_name_list words.now)) }
{
    let mut positions = Vec::new(alloc);
    for word in words {
        let at = position_there(heading, there, word)?;
        positions.push(at)?;
    }
    Ok(positions)
}

/// The positions of different K names.
pub(crate) fn names_typed(
    alloc: Global,
    heading: &Heading,
    names: &Names,
) -> Result<Positions, Stop>
    ensures { Gives (λ p. p) result (rules.names_typed heading.now (read_names names.now)) }
{
    let words = names.names.list.as_slice();
    let list = positions_typed(heading.attributes(), Vec::new(alloc), words)?;
    Ok(Positions { list })
}

/// The foreign key of these positions: those of a list under USING, and those of the K names.
pub(crate) fn reference_typed(
    alloc: Global,
    relvars: &Relvars,
    own: &Name,
    heading: &Heading,
    key: (Positions, Positions),
    foreign: &Foreign,
) -> Result<Constraint, Stop>
    ensures { Gives (λ c. c) result (rules.reference_typed (read_relvars relvars.now) own.now heading.now key.0 key.1 (read_names foreign.now.names) (read_name foreign.now.relvar)) }
{
    let name = name_typed(alloc, &foreign.relvar)?;
    let there = heading_there(relvars, own, heading, foreign.relvar.place, &name)?;
    let words = foreign.names.names.list.as_slice();
    let list = positions_there(alloc, heading.attributes(), there.attributes(), words)?;
    Ok(Constraint::Foreign(key.0, key.1, name, Positions { list }))
}

/// FOREIGN KEY.
pub(crate) fn foreign_typed(
    alloc: Global,
    relvars: &Relvars,
    own: &Name,
    heading: &Heading,
    foreign: &Foreign,
) -> Result<Constraint, Stop>
    ensures { Gives (λ c. c) result (rules.foreign_typed (read_relvars relvars.now) own.now heading.now (read_foreign foreign.now)) }
{
    let key = names_typed(alloc, heading, &foreign.names)?;
    let commalist = Positions {
        list: Vec::new(alloc),
    };
    reference_typed(alloc, relvars, own, heading, (commalist, key), foreign)
}
