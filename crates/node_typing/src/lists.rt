// Lists of interval attributes.
ghost use Rattle.std.specs.Prelude.{◌≡◌, [], IfOk, length, nat_le};
ghost use Rattle.utd_syntax.specs.Read.{read_list, read_name, read_name_list};
ghost use Rattle.value_core.specs.Limits.{most_listed};
ghost use Rattle.scalar_core.specs.Answers.{Gives};
ghost use Rattle.meaning_core.specs.Meanings.{positions_of};
ghost use Rattle.meaning_core.specs.Typing.{is_span};
ghost use Rattle.point_core.specs.declared.fault.Code.TheVariants.{E17};
ghost use Rattle.node_typing.specs.Lists as rules;
ghost use Rattle.node_typing.specs.Positions.{check};
ghost use Rattle.node_typing.specs.Lists.{names_of_words};

use crate::positions::{check, has_name, kind_named, position};
use point_core::{Code, Memory, Stop};
use scalar_typing::same_kind;
use std::alloc::Global;
use utd_syntax::{NameList, Word};
use value_core::{Heading, Kind, MOST_LISTED, Name, Positions};

/// Whether a word has the name.
pub(crate) fn named_in(words: &[Word], name: &[u8]) -> bool
    ensures { result ≡ rules.named_in (names_of_words (read_name_list words.now)) name.now }
{
    for word in words {
        if name == word.bytes.list.as_slice() {
            return true;
        }
    }
    false
}

/// Whether the kind is that of intervals.
pub fn is_span(kind: Kind) -> bool
    ensures { result ≡ is_span kind }
{
    match kind {
        Kind::Span(_) => true,
        _ => false,
    }
}

/// The refusals of one name of a list, which stands behind other names.
fn name_checked(
    left: &[(Name, Kind)],
    right: &[(Name, Kind)],
    before: &[Word],
    word: &Word,
) -> Result<(), Stop>
    ensures { Gives (λ _. tt) result (rules.name_checked left.now right.now (names_of_words (read_name_list before.now)) (read_name word.now)) }
{
    let name = word.bytes.list.as_slice();
    let place = word.place;
    check(
        place,
        Code::E14,
        has_name(left, name) && has_name(right, name),
    )?;
    check(place, Code::E15, !named_in(before, name))?;
    let kind = kind_named(left, name);
    check(place, Code::E16, is_span(kind))?;
    check(place, Code::E12, same_kind(kind, kind_named(right, name)))
}

/// The refusals of the names of a list.
fn names_checked(left: &[(Name, Kind)], right: &[(Name, Kind)], words: &[Word]) -> Result<(), Stop>
    ensures { Gives (λ _. names_of_words (read_name_list words.now)) result (rules.names_checked left.now right.now [] (read_name_list words.now)) }
{
    for (at, word) in words.iter().enumerate() {
        name_checked(left, right, words.split_at(at).0, word)?;
    }
    Ok(())
}

/// The refusal of a list of too many names.
fn few_names(list: &NameList) -> Result<(), Stop>
    ensures { Gives (λ _. tt) result (check list.now.place E17 (nat_le (length (names_of_words (read_name_list list.now.names.list.items))) most_listed)) }
{
    let words = list.names.list.as_slice();
    check(list.place, Code::E17, words.len() <= MOST_LISTED)
}

/// The refusals of a list over the headings of two operands, or twice that of one.
pub(crate) fn list_checked(left: &Heading, right: &Heading, list: &NameList) -> Result<(), Stop>
    ensures { Gives (λ _. rules.listed_names (read_list list.now)) result (rules.list_checked left.now right.now (read_list list.now)) }
{
    let words = list.names.list.as_slice();
    names_checked(left.attributes(), right.attributes(), words)?;
    few_names(list)?;
    Ok(())
}

/// The positions of the names of a list in the heading of the first operand, behind the refusals of the list.
pub fn listed(
    alloc: Global,
    left: &Heading,
    right: &Heading,
    list: &NameList,
) -> Result<Positions, Stop>
    ensures checked { Gives (λ _. rules.listed_names (read_list list.now)) result (rules.list_checked left.now right.now (read_list list.now)) }
    ensures positions { IfOk result (λ p. p ≡ positions_of left.now (rules.listed_names (read_list list.now))) }
{
    list_checked(left, right, list)?;
    let positions = positions_of(alloc, left, list)?;
    Ok(positions)
}

/// The positions of the listed names in the heading.
pub(crate) fn positions_of(
    alloc: Global,
    heading: &Heading,
    list: &NameList,
) -> Result<Positions, Memory>
    ensures { IfOk result (λ p. p ≡ positions_of heading.now (rules.listed_names (read_list list.now))) }
{
    let words = list.names.list.as_slice();
    let list = positions_of_words(alloc, heading.attributes(), words)?;
    Ok(Positions { list })
}

fn positions_of_words(
    alloc: Global,
    attributes: &[(Name, Kind)],
    words: &[Word],
) -> Result<Vec<usize>, Memory>
    ensures { IfOk result (λ v. v.items ≡ positions_of attributes.now (names_of_words (read_name_list words.now))) }
{
    let mut positions = Vec::with_capacity(alloc, words.len())?;
    for word in words {
        positions.push(position(attributes, word.bytes.list.as_slice()))?;
    }
    Ok(positions)
}
