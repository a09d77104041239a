// Lists of positions: whether all are listed, and those whose values tell which rows a new one is held against.
ghost use Rattle.std.specs.Prelude.{◌≡◌, ◌<◌, ℕ, true, IfOk};
ghost use Rattle.value_core.specs.Attributes.{among};
ghost use Rattle.u_constraints.specs.Growth.{outside_below, telling};

use point_core::Memory;
use std::alloc::Global;
use u_row::unlisted;
use u_set::is_listed;
use value_core::{Constraint, Positions};

/// Whether all of so many positions are among these.
pub fn are_all(positions: &[usize], many: usize) -> bool
    ensures { result ≡ true → (i : ℕ) → i < many → among positions.now i ≡ true }
{
    for i in 0..many {
        if !is_listed(positions, i) {
            return false;
        }
    }
    true
}

/// The positions below the number that are not unpacked.
fn outside_below(alloc: Global, commalist: &[usize], many: usize) -> Result<Vec<usize>, Memory>
    ensures { IfOk result (λ v. v.items ≡ outside_below commalist.now many) }
{
    let mut list = Vec::new(alloc);
    for i in 0..many {
        if !is_listed(commalist, i) {
            list.push(i)?;
        }
    }
    Ok(list)
}

/// Of a relvar with so many attributes, positions where rows have the same values that the constraint holds against one another. None where
/// it holds rows against those of another relvar.
pub(crate) fn telling(
    alloc: Global,
    c: &Constraint,
    many: usize,
) -> Result<Option<Positions>, Memory>
    ensures { IfOk result (λ p. p ≡ telling c.now many) }
{
    match c {
        Constraint::Key(key) => Ok(Some(key.copy(alloc)?)),
        Constraint::Packed(commalist) => {
            let list = outside_below(alloc, commalist.list.as_slice(), many)?;
            Ok(Some(Positions { list }))
        }
        Constraint::WhenUnpacked(commalist, key) => {
            let list = unlisted(alloc, commalist.list.as_slice(), key.list.as_slice())?;
            Ok(Some(Positions { list }))
        }
        Constraint::UKey(commalist, key) => {
            let list = unlisted(alloc, commalist.list.as_slice(), key.list.as_slice())?;
            Ok(Some(Positions { list }))
        }
        Constraint::Foreign(..) => Ok(None),
        Constraint::History(_) => Ok(None),
    }
}
