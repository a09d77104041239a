// Headings of relations.
ghost use Rattle.std.specs.Prelude.{◌≡◌, ◌≤◌, IfOk, IsTrue, MatchResult, length};
ghost use Rattle.value_core.specs.Values.{is_heading};
ghost use Rattle.value_core.specs.Headings.{has_name, position_of, first_repeat, IsHeadingOf, IsHeadingRefusal};

use crate::kind::Kind;
use crate::limits::MOST_ATTRIBUTES;
use crate::name::Name;
use crate::refuse::HeadingRefuse;
use point_core::Memory;
use std::alloc::Global;
use std::marker::Model;

/// The attributes of a relation: at most 16, with different names, in the order of their names' bytes.
#[derive(Drop)]
pub struct Heading {
    attributes: Vec<(Name, Kind)>,
}

impl Model for Heading {
    ghost use Rattle.std.specs.Prelude.{IsTrue};
    ghost use Rattle.value_core.specs.Values.{Heading as PlainHeading, is_heading};

    ghost Value = { PlainHeading };

    ghost view = { λ h. h.attributes.items };

    ghost invariant = { λ h. IsTrue (is_heading h.attributes.items) };
}

impl Heading {
    /// The heading of these attributes.
    pub fn make(_alloc: Global, mut list: Vec<(Name, Kind)>) -> Result<Heading, HeadingRefuse>
        ensures { MatchResult result (IsHeadingOf list.items) (IsHeadingRefusal list.items) }
    {
        if let Some(at) = first_repeat(list.as_slice()) {
            return Err(HeadingRefuse::Repeated(at));
        }
        if list.len() > MOST_ATTRIBUTES {
            return Err(HeadingRefuse::TooMany);
        }
        list.sort_by(|a: &(Name, Kind), b: &(Name, Kind)| a.0.cmp(&b.0))?;
        Ok(Heading { attributes: list })
    }

    /// The attributes, in the order of their names' bytes.
    pub fn attributes(&self) -> &[(Name, Kind)]
        ensures list { result.now ≡ self.now }
        ensures heading { IsTrue (is_heading self.now) }
    {
        self.attributes.as_slice()
    }

    /// An equal heading.
    pub fn copy(&self, alloc: Global) -> Result<Heading, Memory>
        ensures { IfOk result (λ h. h ≡ self.now) }
    {
        let mut attributes = Vec::with_capacity(alloc, self.attributes.len())?;
        for attribute in &self.attributes {
            attributes.push((attribute.0.copy(alloc)?, attribute.1))?;
        }
        Ok(Heading { attributes })
    }
}

/// Whether one of the attributes has the name.
pub fn has_name(list: &[(Name, Kind)], name: &Name) -> bool
    ensures { result ≡ has_name list.now name.now }
{
    list.iter().any(|attribute| attribute.0 == *name)
}

/// Where the attribute of the name stands; past the end where there is none.
pub fn position(list: &[(Name, Kind)], name: &Name) -> usize
    ensures value { result ≡ position_of list.now name.now }
    ensures within { result ≤ length list.now }
{
    for (at, attribute) in list.iter().enumerate() {
        if attribute.0 == *name {
            return at;
        }
    }
    list.len()
}

/// The least index of an attribute whose name stands before it too.
fn first_repeat(list: &[(Name, Kind)]) -> Option<usize>
    ensures { result ≡ first_repeat list.now }
{
    for (at, attribute) in list.iter().enumerate() {
        if has_name(list.split_at(at).0, &attribute.0) {
            return Some(at);
        }
    }
    None
}
