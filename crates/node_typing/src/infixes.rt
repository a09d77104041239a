// The headings of operators between two relations.
ghost use Rattle.std.specs.Prelude.{◌≡◌};
ghost use Rattle.scalar_core.specs.Answers.{Gives};
ghost use Rattle.node_typing.specs.Infixes as rules;

use crate::headings::joined_heading;
use crate::positions::check;
use point_core::{Code, Place, Stop};
use relation_typing::same_heading;
use scalar_typing::same_kind;
use std::alloc::Global;
use tree_core::InfixWord;
use value_core::{Heading, Kind, Name};

/// Whether two attributes are of one kind, where they are of one name.
fn agrees_with(a: &(Name, Kind), b: &(Name, Kind)) -> bool
    ensures { result ≡ rules.agrees_with a.now b.now }
{
    a.0 != b.0 || same_kind(a.1, b.1)
}

/// Whether an attribute is of one kind with that of its name.
fn agrees_in(right: &[(Name, Kind)], a: &(Name, Kind)) -> bool
    ensures { result ≡ rules.agrees_in right.now a.now }
{
    right.iter().all(|b| agrees_with(a, b))
}

/// Whether attributes of one name are of one kind.
fn kinds_agree(left: &[(Name, Kind)], right: &[(Name, Kind)]) -> bool
    ensures { result ≡ rules.kinds_agree left.now right.now }
{
    left.iter().all(|a| agrees_in(right, a))
}

/// The heading of both, which are the same.
fn one_heading(
    alloc: Global,
    place: Place,
    left: &Heading,
    right: &Heading,
) -> Result<Heading, Stop>
    ensures { Gives (λ h. h) result (rules.one_heading place left.now right.now) }
{
    check(place, Code::E13, same_heading(left, right))?;
    let heading = left.copy(alloc)?;
    Ok(heading)
}

/// The left heading, whose common attributes have the same kinds in the right one.
fn agreeing_heading(
    alloc: Global,
    place: Place,
    left: &Heading,
    right: &Heading,
) -> Result<Heading, Stop>
    ensures { Gives (λ h. h) result (rules.agreeing_heading place left.now right.now) }
{
    check(
        place,
        Code::E12,
        kinds_agree(left.attributes(), right.attributes()),
    )?;
    let heading = left.copy(alloc)?;
    Ok(heading)
}

/// The heading of both, whose common attributes have the same kinds.
fn join_heading(
    alloc: Global,
    place: Place,
    left: &Heading,
    right: &Heading,
) -> Result<Heading, Stop>
    ensures { Gives (λ h. h) result (rules.join_heading place left.now right.now) }
{
    check(
        place,
        Code::E12,
        kinds_agree(left.attributes(), right.attributes()),
    )?;
    joined_heading(alloc, place, left, right)
}

/// The heading of an operator between two relations of these headings.
pub(crate) fn infix_heading(
    alloc: Global,
    place: Place,
    word: InfixWord,
    left: &Heading,
    right: &Heading,
) -> Result<Heading, Stop>
    ensures { Gives (λ h. h) result (rules.infix_heading place word left.now right.now) }
{
    match word {
        InfixWord::Union => one_heading(alloc, place, left, right),
        InfixWord::Intersect => one_heading(alloc, place, left, right),
        InfixWord::Minus => one_heading(alloc, place, left, right),
        InfixWord::Join => join_heading(alloc, place, left, right),
        InfixWord::Matching => agreeing_heading(alloc, place, left, right),
        InfixWord::NotMatching => agreeing_heading(alloc, place, left, right),
    }
}
