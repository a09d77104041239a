// The names that a RENAME gives.
ghost use Rattle.std.specs.Prelude.{◌≡◌, ◌≤◌, [], ◌∷◌, IfOk, length, count_by};
ghost use Rattle.std.specs.Str.{bytes_eq};
ghost use Rattle.utd_syntax.specs.Read.{read_renaming, read_renaming_list, read_renamings};
ghost use Rattle.relation_core.specs.Parts.{renamed};
ghost use Rattle.scalar_core.specs.Answers.{Gives};
ghost use Rattle.node_typing.specs.Headings as headings;
ghost use Rattle.point_core.specs.declared.fault.Code.TheVariants.{E15};
ghost use Rattle.node_typing.specs.Positions.{check};
ghost use Rattle.node_typing.specs.Projections as rules;

use crate::headings::heading_of_list;
use crate::positions::{check, new_position};
use point_core::{Code, Memory, Stop};
use relation_core::renamed;
use relation_typing::name_typed;
use std::alloc::Global;
use utd_syntax::{Renaming, Renamings};
use value_core::{Heading, Kind, Name, Names};

/// The positions of the attributes that are renamed.
fn renamed_positions(alloc: Global, pairs: &[(usize, Name)]) -> Result<Vec<usize>, Memory>
    ensures { IfOk result (λ v. v.items ≡ rules.renamed_positions pairs.now) }
{
    let mut positions = Vec::with_capacity(alloc, pairs.len())?;
    for pair in pairs {
        positions.push(pair.0)?;
    }
    Ok(positions)
}

/// One attribute more with its new name.
fn renaming_typed(
    alloc: Global,
    list: &[(Name, Kind)],
    before: &mut Vec<(usize, Name)>,
    renaming: &Renaming,
) -> Result<(), Stop>
    ensures { Gives (λ _. before.new.items) result (rules.renaming_typed list.now before.old.items (read_renaming renaming.now)) }
{
    let known = renamed_positions(alloc, before.as_slice())?;
    let at = new_position(list, known.as_slice(), &renaming.old)?;
    let name = name_typed(alloc, &renaming.new)?;
    before.push((at, name))?;
    Ok(())
}

/// The renamed attributes with their new names.
fn renamings_typed(
    alloc: Global,
    list: &[(Name, Kind)],
    first: &Renaming,
    more: &[Renaming],
) -> Result<Vec<(usize, Name)>, Stop>
    ensures { Gives (λ v. v.items) result (rules.renamings_typed list.now [] (read_renaming first.now ∷ read_renaming_list more.now)) }
{
    let mut pairs = Vec::new(alloc);
    renaming_typed(alloc, list, &mut pairs, first)?;
    for renaming in more {
        renaming_typed(alloc, list, &mut pairs, renaming)?;
    }
    Ok(pairs)
}

/// The name behind the renamings of the attribute at the position.
fn name_behind<'a>(pairs: &'a [(usize, Name)], at: usize, name: &'a Name) -> &'a Name
    ensures { result.now ≡ rules.name_behind pairs.now at name.now }
{
    for pair in pairs {
        if pair.0 == at {
            return &pair.1;
        }
    }
    name
}

/// The names of all attributes behind the renamings.
fn names_behind(
    alloc: Global,
    pairs: &[(usize, Name)],
    list: &[(Name, Kind)],
) -> Result<Vec<Name>, Memory>
    ensures { IfOk result (λ v. v.items ≡ rules.names_from pairs.now 0 list.now) }
{
    let mut names = Vec::with_capacity(alloc, list.len())?;
    for (at, attribute) in list.iter().enumerate() {
        names.push(name_behind(pairs, at, &attribute.0).copy(alloc)?)?;
    }
    Ok(names)
}

/// How often the name stands among the names.
fn times(names: &[Name], name: &[u8]) -> usize
    ensures { result ≡ count_by (bytes_eq name.now) names.now }
{
    names
        .iter()
        .filter(|other| name == other.as_str().as_bytes())
        .count()
}

/// Whether the name stands at most once among the names.
fn stands_once(names: &[Name], name: &[u8]) -> bool
    ensures { result ≡ rules.stands_once names.now name.now }
{
    times(names, name) <= 1
}

/// The refusal of one new name among all names.
fn new_name_once(names: &[Name], renaming: &Renaming) -> Result<(), Stop>
    ensures { Gives (λ _. tt) result (check renaming.now.new.place E15 (rules.stands_once names.now renaming.now.new.bytes.list.items)) }
{
    let word = &renaming.new;
    check(
        word.place,
        Code::E15,
        stands_once(names, word.bytes.list.as_slice()),
    )
}

/// The refusals of the new names among all names.
fn new_names_once(names: &[Name], first: &Renaming, more: &[Renaming]) -> Result<(), Stop>
    ensures { Gives (λ _. names.now) result (rules.new_names_once names.now (read_renaming first.now ∷ read_renaming_list more.now)) }
{
    new_name_once(names, first)?;
    for renaming in more {
        new_name_once(names, renaming)?;
    }
    Ok(())
}

/// The names of all attributes behind a RENAME.
pub(crate) fn renaming_names(
    alloc: Global,
    heading: &Heading,
    renamings: &Renamings,
) -> Result<Names, Stop>
    ensures names { Gives (λ n. n) result (rules.renaming_names (read_renamings renamings.now) heading.now) }
    ensures one_each { IfOk result (λ n. length n ≡ length heading.now) }
{
    let more = renamings.more.list.as_slice();
    let pairs = renamings_typed(alloc, heading.attributes(), &renamings.first, more)?;
    let list = names_behind(alloc, pairs.as_slice(), heading.attributes())?;
    new_names_once(list.as_slice(), &renamings.first, more)?;
    Ok(Names { list })
}

/// The heading of the attributes with the new names.
pub(crate) fn renamed_heading(
    alloc: Global,
    names: &[Name],
    heading: &Heading,
) -> Result<Heading, Memory>
    requires { length names.now ≡ length heading.now }
    ensures { IfOk result (λ h. h ≡ headings.heading_of_list (renamed names.now heading.now)) }
{
    let list = renamed(alloc, names, heading.attributes())?;
    heading_of_list(alloc, list.as_slice())
}
