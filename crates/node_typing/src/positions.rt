// Attributes that are named, by their positions in a heading.
ghost use Rattle.std.specs.Prelude.{◌≡◌, ◌<◌, ℕ, List, IfOk, length, not, IsTrue};
ghost use Rattle.std.specs.List.{All};
ghost use Rattle.std.specs.Ordering.{nat_cmp};
ghost use Rattle.base_core.specs.Sets.{is_set};
ghost use Rattle.relation_core.specs.Parts.{kind_at};
ghost use Rattle.utd_syntax.specs.Read.{read_name, read_name_list};
ghost use Rattle.value_core.specs.Headings.{has_name};
ghost use Rattle.relation_core.specs.Agreement as agreement;
ghost use Rattle.scalar_core.specs.Answers.{Gives};
ghost use Rattle.node_typing.specs.Lists.{kind_named};
ghost use Rattle.node_typing.specs.Positions as rules;

use point_core::{Code, Fault, Memory, Place, Stop};
use relation_core::as_wanted;
use scalar_core::among;
use std::alloc::Global;
use utd_syntax::Word;
use value_core::{Kind, Name};

/// The refusal with the code at the place where it does not hold.
pub fn check(place: Place, code: Code, holds: bool) -> Result<(), Stop>
    ensures { Gives (λ _. tt) result (rules.check place code holds) }
{
    if holds {
        Ok(())
    } else {
        Err(Stop::Fault(Fault { place, code }))
    }
}

/// Whether one of the attributes has the name.
pub(crate) fn has_name(list: &[(Name, Kind)], name: &[u8]) -> bool
    ensures { result ≡ has_name list.now name.now }
{
    list.iter()
        .any(|attribute| attribute.0.as_str().as_bytes() == name)
}

/// Where the attribute of the name stands; past the end where there is none.
pub fn position(list: &[(Name, Kind)], name: &[u8]) -> usize
    ensures { result ≡ agreement.position_of list.now name.now }
{
    for (at, attribute) in list.iter().enumerate() {
        if attribute.0.as_str().as_bytes() == name {
            return at;
        }
    }
    list.len()
}

/// The position of the attribute of the name.
fn position_if(list: &[(Name, Kind)], name: &[u8]) -> Option<usize>
    ensures { result ≡ rules.position_if list.now name.now }
{
    if has_name(list, name) {
        Some(position(list, name))
    } else {
        None
    }
}

/// The kind at the position; BOOLEAN past the end.
fn kind_at(list: &[(Name, Kind)], at: usize) -> Kind
    ensures { result ≡ kind_at list.now at }
{
    match list.get(at) {
        Some(attribute) => attribute.1,
        None => Kind::Truth,
    }
}

/// The kind of the attribute of the name; BOOLEAN where there is none.
pub fn kind_named(list: &[(Name, Kind)], name: &[u8]) -> Kind
    ensures { result ≡ kind_named list.now name.now }
{
    kind_at(list, position(list, name))
}

/// The position of a named attribute.
pub fn position_typed(list: &[(Name, Kind)], word: &Word) -> Result<usize, Stop>
    ensures { Gives (λ i. i) result (rules.position_typed list.now (read_name word.now)) }
{
    match position_if(list, word.bytes.list.as_slice()) {
        Some(at) => Ok(at),
        None => Err(Stop::Fault(Fault {
            place: word.place,
            code: Code::E14,
        })),
    }
}

/// The position of a named attribute that was not named before.
pub(crate) fn new_position(
    list: &[(Name, Kind)],
    before: &[usize],
    word: &Word,
) -> Result<usize, Stop>
    ensures { Gives (λ i. i) result (rules.new_position list.now before.now (read_name word.now)) }
{
    let at = position_typed(list, word)?;
    check(word.place, Code::E15, !among(before, at))?;
    Ok(at)
}

/// The positions of different named attributes, in the order of the text, behind those so far.
pub fn positions_typed(
    list: &[(Name, Kind)],
    before: Vec<usize>,
    words: &[Word],
) -> Result<Vec<usize>, Stop>
    ensures { Gives (λ v. v.items) result (rules.positions_typed list.now before.items (read_name_list words.now)) }
{
    let mut positions = before;
    for word in words {
        let at = new_position(list, positions.as_slice(), word)?;
        positions.push(at)?;
    }
    Ok(positions)
}

/// The positions that are among the named ones, or those that are not, ascending.
pub(crate) fn kept(
    alloc: Global,
    wanted: bool,
    named: &[usize],
    list: &[(Name, Kind)],
) -> Result<Vec<usize>, Memory>
    ensures kept { IfOk result (λ v. v.items ≡ rules.kept wanted named.now list.now) }
    ensures ascending { IfOk result (λ v. IsTrue (is_set nat_cmp v.items)) }
    ensures within { IfOk result (λ v. All (λ (i : ℕ). i < length list.now) v.items) }
{
    let positions = kept_positions(alloc, wanted, named, list)?;
    Ok(positions)
}

fn kept_positions(
    alloc: Global,
    wanted: bool,
    named: &[usize],
    list: &[(Name, Kind)],
) -> Result<Vec<usize>, Memory>
    ensures { IfOk result (λ v. v.items ≡ rules.kept wanted named.now list.now) }
{
    let mut positions = Vec::new(alloc);
    for (at, _attribute) in list.iter().enumerate() {
        if as_wanted(wanted, among(named, at)) {
            positions.push(at)?;
        }
    }
    Ok(positions)
}
