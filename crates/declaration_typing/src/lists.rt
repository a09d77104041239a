// The lists of interval attributes that constraints name.
ghost use Rattle.std.specs.Prelude.{◌≡◌};
ghost use Rattle.utd_syntax.specs.Read.{read_list, read_name_list, read_names};
ghost use Rattle.scalar_core.specs.Answers.{Gives};
ghost use Rattle.declaration_typing.specs.Constraints as rules;

use crate::references::names_typed;
use node_typing::{check, listed, position};
use point_core::{Code, Stop};
use scalar_core::among;
use std::alloc::Global;
use utd_syntax::{NameList, Names, Word};
use value_core::{Heading, Kind, Name, Positions};

/// The listed interval attributes.
pub(crate) fn list_typed(
    alloc: Global,
    heading: &Heading,
    list: &NameList,
) -> Result<Positions, Stop>
    ensures { Gives (λ p. p) result (rules.list_typed heading.now (read_list list.now)) }
{
    let positions = listed(alloc, heading, heading, list)?;
    Ok(positions)
}

/// The refusal of the first listed name that is not of the key.
fn kept_by(heading: &[(Name, Kind)], key: &[usize], words: &[Word]) -> Result<(), Stop>
    ensures { Gives (λ _. tt) result (rules.kept_by heading.now key.now (read_name_list words.now)) }
{
    for word in words {
        let at = position(heading, word.bytes.list.as_slice());
        check(word.place, Code::E19, among(key, at))?;
    }
    Ok(())
}

/// The listed attributes and those of the key, which has all that are listed.
pub(crate) fn listed_key(
    alloc: Global,
    heading: &Heading,
    list: &NameList,
    names: &Names,
) -> Result<(Positions, Positions), Stop>
    ensures { Gives (λ both. both) result (rules.listed_key heading.now (read_list list.now) (read_names names.now)) }
{
    let commalist = list_typed(alloc, heading, list)?;
    let key = names_typed(alloc, heading, names)?;
    kept_by(
        heading.attributes(),
        key.list.as_slice(),
        list.names.list.as_slice(),
    )?;
    Ok((commalist, key))
}
