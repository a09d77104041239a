// What projections keep.
ghost use Rattle.std.specs.Prelude.{◌≡◌, [], ◌∷◌, IfOk};
ghost use Rattle.utd_syntax.specs.Read.{read_name, read_name_list, read_projection};
ghost use Rattle.relation_core.specs.Parts.{attributes_at};
ghost use Rattle.scalar_core.specs.Answers.{Gives};
ghost use Rattle.node_typing.specs.Positions as positions;
ghost use Rattle.node_typing.specs.Projections as rules;

use crate::headings::heading_at;
use crate::positions::{kept, new_position, positions_typed};
use point_core::{Place, Stop};
use std::alloc::Global;
use utd_syntax::{Projection, Word};
use value_core::{Heading, Kind, Name, Positions};

/// The place of the `{`.
pub(crate) fn projection_place(projection: &Projection) -> Place
    ensures { result ≡ rules.projection_place (read_projection projection.now) }
{
    match projection {
        Projection::Onto(place, _) => *place,
        Projection::AllBut(place, _, _) => *place,
    }
}

/// Whether the named attributes are kept.
fn keeps_named(projection: &Projection) -> bool
    ensures { result ≡ rules.keeps_named (read_projection projection.now) }
{
    match projection {
        Projection::Onto(_, _) => true,
        Projection::AllBut(_, _, _) => false,
    }
}

/// The positions of the first named attribute and of the others.
fn some_positions(
    alloc: Global,
    list: &[(Name, Kind)],
    first: &Word,
    more: &[Word],
) -> Result<Vec<usize>, Stop>
    ensures { Gives (λ v. v.items) result (positions.positions_typed list.now [] (read_name first.now ∷ read_name_list more.now)) }
{
    let mut before = Vec::new(alloc);
    before.push(new_position(list, &[], first)?)?;
    positions_typed(list, before, more)
}

/// The positions of the named attributes.
fn named_positions(
    alloc: Global,
    list: &[(Name, Kind)],
    projection: &Projection,
) -> Result<Vec<usize>, Stop>
    ensures { Gives (λ v. v.items) result (positions.positions_typed list.now [] (rules.projection_words (read_projection projection.now))) }
{
    match projection {
        Projection::Onto(_, words) => positions_typed(list, Vec::new(alloc), words.list.as_slice()),
        Projection::AllBut(_, first, more) => some_positions(
            alloc,
            list,
            first,
            more.list.as_slice(),
        ),
    }
}

/// The positions that a projection keeps, and the heading of its node.
pub(crate) fn projected(
    alloc: Global,
    heading: &Heading,
    projection: &Projection,
) -> Result<(Positions, Heading), Stop>
    ensures kept { Gives (λ p. p.0) result (rules.projection_kept (read_projection projection.now) heading.now) }
    ensures heading { IfOk result (λ p. p.1 ≡ attributes_at p.0 heading.now) }
{
    let named = named_positions(alloc, heading.attributes(), projection)?;
    let wanted = keeps_named(projection);
    let list = kept(alloc, wanted, named.as_slice(), heading.attributes())?;
    let to = heading_at(alloc, heading, list.as_slice())?;
    Ok((Positions { list }, to))
}
