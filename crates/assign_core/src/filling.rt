// Hashes for the constraints of the relvar that changes.
ghost use Rattle.std.specs.Prelude.{◌≡◌, ◌<◌, ℕ, length, map, nat_lt, true};
ghost use Rattle.std.specs.List.{All, list_all};
ghost use Rattle.tree_core.specs.Relvars.{read_entry, read_relvar};
ghost use Rattle.assign_core.specs.Hashed.{AreHashed, AreHashesIn, IsHashesOf};

use crate::hashed::{Hashed, HashedRelvar, has_hashes, put_hashes, take_hashes};
use crate::marking::keep;
use crate::tuning::FEWEST_HASHED_ROWS;
use point_core::Memory;
use relation_core::{Hashes, hashes_of};
use std::alloc::Global;
use tree_core::{Assignment, Relvar, Relvars};
use u_row::unlisted;
use u_set::outside;
use value_core::{Constraint, Name, Relation};

/// Where the only target is a relvar that has hashes, hashes its rows for those of its constraints for which they are not hashed.
pub(crate) fn fill(
    alloc: Global,
    list: &[Assignment],
    relvars: &Relvars,
    hashed: &mut Hashed,
) -> Result<(), Memory>
    requires { AreHashed hashed.old (map read_entry relvars.now.list.entries) }
    ensures { AreHashed hashed.new (map read_entry relvars.now.list.entries) }
{
    let Some((assignment, rest)) = list.split_first() else {
        return Ok(());
    };
    if !rest.is_empty() {
        return Ok(());
    }
    fill_target(alloc, &assignment.target, relvars, hashed)
}

/// Hashes the rows of the relvar of the name, if it has hashes.
pub(crate) fn fill_target(
    alloc: Global,
    target: &Name,
    relvars: &Relvars,
    hashed: &mut Hashed,
) -> Result<(), Memory>
    requires { AreHashed hashed.old (map read_entry relvars.now.list.entries) }
    ensures { AreHashed hashed.new (map read_entry relvars.now.list.entries) }
{
    match relvars.list.get_full(target) {
        Some((at, _, relvar)) => {
            if !has_hashes(hashed, at) {
                return Ok(());
            }
            let mut list = take_hashes(hashed, alloc, at);
            let result = fill_relvar(alloc, relvar, &mut list);
            put_hashes(hashed, HashedRelvar { at, list });
            result
        }
        None => Ok(()),
    }
}

// Hashes the rows of a base relvar for those of its constraints for which they are not hashed.
fn fill_relvar(alloc: Global, relvar: &Relvar, hashes: &mut Vec<Hashes>) -> Result<(), Memory>
    requires { AreHashesIn hashes.old.items (read_relvar relvar.now) }
    ensures { AreHashesIn hashes.new.items (read_relvar relvar.now) }
{
    match relvar {
        Relvar::Base { value, constraints } => {
            fill_value(alloc, value, constraints.list.as_slice(), hashes)
        }
        Relvar::View { tree: _, kind: _ } => Ok(()),
        Relvar::Log { of: _, log: _ } => Ok(()),
    }
}

// Hashes the rows for those of the constraints for which they are not hashed, if they are many.
fn fill_value(
    alloc: Global,
    value: &Relation,
    constraints: &[Constraint],
    hashes: &mut Vec<Hashes>,
) -> Result<(), Memory>
    requires { All (IsHashesOf value.now.heading value.now.rows) hashes.old.items }
    ensures { All (IsHashesOf value.now.heading value.now.rows) hashes.new.items }
{
    if value.rows().len() < FEWEST_HASHED_ROWS {
        return Ok(());
    }
    for constraint in constraints {
        fill_one(alloc, value, constraint, hashes)?;
    }
    Ok(())
}

// Hashes the rows for a constraint.
fn fill_one(
    alloc: Global,
    value: &Relation,
    constraint: &Constraint,
    hashes: &mut Vec<Hashes>,
) -> Result<(), Memory>
    requires { All (IsHashesOf value.now.heading value.now.rows) hashes.old.items }
    ensures { All (IsHashesOf value.now.heading value.now.rows) hashes.new.items }
{
    match constraint {
        Constraint::Key(key) => add(alloc, value, key.list.as_slice(), hashes),
        Constraint::Packed(commalist) => add_packed(
            alloc,
            value,
            commalist.list.as_slice(),
            hashes,
        ),
        Constraint::WhenUnpacked(commalist, key) => {
            add_unpacked(
                alloc,
                value,
                commalist.list.as_slice(),
                key.list.as_slice(),
                hashes,
            )
        }
        Constraint::UKey(commalist, key) => {
            add_packed(alloc, value, commalist.list.as_slice(), hashes)?;
            add_unpacked(
                alloc,
                value,
                commalist.list.as_slice(),
                key.list.as_slice(),
                hashes,
            )
        }
        Constraint::Foreign(..) | Constraint::History(_) => Ok(()),
    }
}

// Hashes the rows for all positions but those of a list.
fn add_packed(
    alloc: Global,
    value: &Relation,
    commalist: &[usize],
    hashes: &mut Vec<Hashes>,
) -> Result<(), Memory>
    requires { All (IsHashesOf value.now.heading value.now.rows) hashes.old.items }
    ensures { All (IsHashesOf value.now.heading value.now.rows) hashes.new.items }
{
    let positions = outside(alloc, value.heading().attributes(), commalist)?;
    add(alloc, value, positions.as_slice(), hashes)
}

// Hashes the rows for the positions of a key that are not in a list.
fn add_unpacked(
    alloc: Global,
    value: &Relation,
    commalist: &[usize],
    key: &[usize],
    hashes: &mut Vec<Hashes>,
) -> Result<(), Memory>
    requires { All (IsHashesOf value.now.heading value.now.rows) hashes.old.items }
    ensures { All (IsHashesOf value.now.heading value.now.rows) hashes.new.items }
{
    let positions = unlisted(alloc, commalist, key)?;
    add(alloc, value, positions.as_slice(), hashes)
}

// Hashes the rows for the positions, unless they are hashed for them or can be found without: rows that have the same values at the first
// positions stand together.
fn add(
    alloc: Global,
    value: &Relation,
    positions: &[usize],
    hashes: &mut Vec<Hashes>,
) -> Result<(), Memory>
    requires { All (IsHashesOf value.now.heading value.now.rows) hashes.old.items }
    ensures { All (IsHashesOf value.now.heading value.now.rows) hashes.new.items }
{
    if !are_within(value, positions) {
        return Ok(());
    }
    if are_first(positions) || are_hashed(hashes.as_slice(), positions) {
        return Ok(());
    }
    add_hashes(alloc, value, positions, hashes)
}

// Hashes the rows for the positions.
fn add_hashes(
    alloc: Global,
    value: &Relation,
    positions: &[usize],
    hashes: &mut Vec<Hashes>,
) -> Result<(), Memory>
    requires within { All (λ (i : ℕ). i < length value.now.heading) positions.now }
    requires hashes { All (IsHashesOf value.now.heading value.now.rows) hashes.old.items }
    ensures { All (IsHashesOf value.now.heading value.now.rows) hashes.new.items }
{
    let own = hashes_of(alloc, value, positions)?;
    keep(hashes, own);
    Ok(())
}

// Whether the positions are the first ones of all, in order.
fn are_first(positions: &[usize]) -> bool {
    positions
        .iter()
        .enumerate()
        .all(|(i, position)| *position == i)
}

// Whether some of the hashes are for the positions.
fn are_hashed(hashes: &[Hashes], positions: &[usize]) -> bool {
    hashes.iter().any(|own| own.positions() == positions)
}

// Whether the positions are those of attributes.
fn are_within(value: &Relation, positions: &[usize]) -> bool
    ensures { result ≡ true → All (λ (i : ℕ). i < length value.now.heading) positions.now }
{
    let many = value.heading().attributes().len();
    are_below(positions, many)
}

// Whether the positions are below a number.
fn are_below(positions: &[usize], many: usize) -> bool
    ensures { result ≡ list_all (λ (i : ℕ). nat_lt i many) positions.now }
{
    positions.iter().all(|position| *position < many)
}
