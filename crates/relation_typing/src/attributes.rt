// Attributes by their names.
ghost use Rattle.std.specs.Prelude.{◌≡◌, ◌≤◌, Some, None, IfOk, OnOk, length, if◌then◌else◌};
ghost use Rattle.value_core.specs.Headings.{has_name};
ghost use Rattle.value_core.specs.Limits.{most_attributes};
ghost use Rattle.scalar_core.specs.Answers.{Gives};
ghost use Rattle.relation_typing.specs.Attributes as rules;
ghost use Rattle.utd_syntax.specs.Read.{read_name};

use point_core::{Code, Fault, Memory, Place, Stop};
use std::alloc::Global;
use std::collections::BTreeMap;
use std::str;
use utd_syntax::Word;
use value_core::{Heading, HeadingRefuse, Kind, MOST_ATTRIBUTES, Name};

/// The kinds of attributes by their names.
pub type Attributes = BTreeMap<Name, Kind>;

/// Whether an attribute has the name.
pub fn has_name(attributes: &Attributes, name: &Name) -> bool
    ensures { result ≡ has_name attributes.now.entries name.now }
{
    attributes.contains_key(name)
}

/// One attribute more; one of that name is replaced.
pub fn put(attributes: &mut Attributes, name: Name, kind: Kind) -> Result<(), Memory>
    ensures { OnOk result (attributes.new.entries ≡ rules.with_attribute attributes.old.entries name kind) }
{
    attributes.insert(name, kind)?;
    Ok(())
}

/// The name that is written.
pub fn name_typed(alloc: Global, word: &Word) -> Result<Name, Stop>
    ensures { Gives (λ n. n) result (rules.name_typed (read_name word.now)) }
{
    match name_of(alloc, word.bytes.list.as_slice())? {
        Some(name) => Ok(name),
        None => Err(Stop::Fault(Fault {
            place: word.place,
            code: Code::E06,
        })),
    }
}

/// The name of these bytes.
pub(crate) fn name_of(alloc: Global, bytes: &[u8]) -> Result<Option<Name>, Memory>
    ensures { IfOk result (λ n. n ≡ (if rules.is_name bytes.now then Some bytes.now else None)) }
{
    match str::from_utf8(bytes) {
        Ok(text) => Name::make(alloc, text),
        Err(_) => Ok(None),
    }
}

/// The name that is written, where no attribute has it.
pub fn new_name(alloc: Global, attributes: &Attributes, word: &Word) -> Result<Name, Stop>
    ensures { Gives (λ n. n) result (rules.new_name attributes.now.entries (read_name word.now)) }
{
    let name = name_typed(alloc, word)?;
    if has_name(attributes, &name) {
        return Err(Stop::Fault(Fault {
            place: word.place,
            code: Code::E15,
        }));
    }
    Ok(name)
}

/// The attributes as a list, in order.
pub fn listed(alloc: Global, attributes: Attributes) -> Result<Vec<(Name, Kind)>, Memory>
    ensures { IfOk result (λ list. list.items ≡ attributes.entries) }
{
    let mut rest = attributes;
    let mut list = Vec::with_capacity(alloc, rest.len())?;
    'rest: while let Some(attribute) = rest.pop_first() {
        list.push(attribute)?;
    }
    Ok(list)
}

/// The heading of the attributes; none where they are too many.
fn heading_if_few(alloc: Global, attributes: Attributes) -> Result<Option<Heading>, Memory>
    ensures { IfOk result (λ h. h ≡ rules.heading_if_few attributes.entries) }
{
    if attributes.len() > MOST_ATTRIBUTES {
        return Ok(None);
    }
    match Heading::make(alloc, listed(alloc, attributes)?) {
        Ok(heading) => Ok(Some(heading)),
        Err(HeadingRefuse::Memory) => Err(Memory),
        Err(HeadingRefuse::Repeated(_)) => unreachable!(),
        Err(HeadingRefuse::TooMany) => unreachable!(),
    }
}

/// The heading of the attributes, where they are few enough.
pub fn few_attributes(alloc: Global, place: Place, attributes: Attributes) -> Result<Heading, Stop>
    ensures { Gives (λ h. h) result (rules.few_attributes place attributes.entries) }
{
    match heading_if_few(alloc, attributes)? {
        Some(heading) => Ok(heading),
        None => Err(Stop::Fault(Fault {
            place,
            code: Code::E17,
        })),
    }
}

/// The heading of the attributes, which are few enough.
pub fn heading_of(alloc: Global, attributes: Attributes) -> Result<Heading, Memory>
    requires { length attributes.entries ≤ most_attributes }
    ensures { IfOk result (λ h. h ≡ attributes.entries) }
{
    match heading_if_few(alloc, attributes)? {
        Some(heading) => Ok(heading),
        None => unreachable!(),
    }
}
