// Constraints of relvars.
ghost use Rattle.std.specs.Prelude.{◌≡◌, IfOk};

use crate::list::Positions;
use crate::name::Name;
use point_core::Memory;
use std::alloc::Global;

/// A constraint of a relvar. Lists of positions are the attributes that are unpacked, and then those of the key.
#[derive(Drop)]
pub enum Constraint {
    /// No two different rows agree on these attributes.
    Key(Positions),
    /// The relvar is packed on these attributes.
    Packed(Positions),
    /// Unpacked on the first, no two different rows agree on the second.
    WhenUnpacked(Positions, Positions),
    /// Packed and keyed when unpacked, and then keyed as it is.
    UKey(Positions, Positions),
    /// Unpacked on the first, each row's part on the second is in the named relvar, unpacked alike, on its own positions.
    Foreign(Positions, Positions, Name, Positions),
    /// This during relvar belongs to a since relvar.
    History(HistoryRule),
}

/// What ties a during relvar to its since relvar: the positions of the key and of all shared attributes in the one and in the
/// other, of the since relvar's point, and of the during relvar's interval.
#[derive(Drop)]
pub struct HistoryRule {
    pub since: Name,
    pub key_here: Positions,
    pub key_there: Positions,
    pub all_here: Positions,
    pub all_there: Positions,
    pub point_there: usize,
    pub span_here: usize,
}

impl Constraint {
    /// An equal constraint.
    pub fn copy(&self, alloc: Global) -> Result<Constraint, Memory>
        ensures { IfOk result (λ c. c ≡ self.now) }
    {
        match self {
            Constraint::Key(key) => Ok(Constraint::Key(key.copy(alloc)?)),
            Constraint::Packed(commalist) => Ok(Constraint::Packed(commalist.copy(alloc)?)),
            Constraint::WhenUnpacked(commalist, key) => {
                let (commalist, key) = (commalist.copy(alloc)?, key.copy(alloc)?);
                Ok(Constraint::WhenUnpacked(commalist, key))
            }
            Constraint::UKey(commalist, key) => {
                let (commalist, key) = (commalist.copy(alloc)?, key.copy(alloc)?);
                Ok(Constraint::UKey(commalist, key))
            }
            Constraint::Foreign(commalist, key, relvar, there) => {
                let (commalist, key) = (commalist.copy(alloc)?, key.copy(alloc)?);
                let (relvar, there) = (relvar.copy(alloc)?, there.copy(alloc)?);
                Ok(Constraint::Foreign(commalist, key, relvar, there))
            }
            Constraint::History(rule) => Ok(Constraint::History(rule.copy(alloc)?)),
        }
    }
}

impl HistoryRule {
    /// An equal rule.
    pub fn copy(&self, alloc: Global) -> Result<HistoryRule, Memory>
        ensures { IfOk result (λ rule. rule ≡ self.now) }
    {
        Ok(HistoryRule {
            since: self.since.copy(alloc)?,
            key_here: self.key_here.copy(alloc)?,
            key_there: self.key_there.copy(alloc)?,
            all_here: self.all_here.copy(alloc)?,
            all_there: self.all_there.copy(alloc)?,
            point_there: self.point_there,
            span_here: self.span_here,
        })
    }
}
