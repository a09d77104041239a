// Rows of stored views at their places beside the entries of a state.
ghost use Rattle.std.specs.Prelude.{◌≡◌, ◌≤◌, ◌-◌, ◌++◌, ◌∷◌, [], suc, drop, get_or, length, option_map, replicate, take, None, IfOk, OnErr, OnOk, Some};

use point_core::Memory;
use std::alloc::Global;
use value_core::Relation;

/// The relation at a place, if one is there.
pub(crate) fn there(list: &[Option<Relation>], at: usize) -> Option<&Relation>
    ensures { option_map (λ r. r.now) result ≡ get_or list.now at None }
{
    match list.get(at) {
        Some(place) => place.as_ref(),
        None => None,
    }
}

/// Puts the rows of a stored view at a place behind the list, with no rows between. For want of memory nothing changes.
pub fn put_rows(
    alloc: Global,
    stored: &mut Vec<Option<Relation>>,
    at: usize,
    rows: Relation,
) -> Result<(), Memory>
    requires { length stored.old.items ≤ at }
    ensures rows { OnOk result (stored.new.items ≡ stored.old.items ++ (replicate (at - length stored.old.items) None ++ Some rows ∷ [])) }
    ensures err { OnErr result (stored.new.items ≡ stored.old.items) }
{
    let mut more = places(alloc, at - stored.len())?;
    more.push(Some(rows))?;
    stored.append(&mut more)?;
    Ok(())
}

// So many places without rows.
fn places(alloc: Global, count: usize) -> Result<Vec<Option<Relation>>, Memory>
    ensures { IfOk result (λ v. v.items ≡ replicate count None) }
{
    let mut list = Vec::new(alloc);
    for _place in 0..count {
        list.push(None)?;
    }
    Ok(list)
}

/// Takes a place out, with its rows, if the list reaches it.
pub fn forget_rows(stored: &mut Vec<Option<Relation>>, at: usize)
    ensures { stored.new.items ≡ take at stored.old.items ++ drop (suc at) stored.old.items }
{
    if at < stored.len() {
        drop(stored.remove(at));
    }
}
