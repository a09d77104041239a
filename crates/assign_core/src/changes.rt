// New values that stand ready for base relvars, one place for each relvar and view.
ghost use Rattle.std.specs.Prelude.{◌≡◌, ◌<◌, None, IfOk, length, slice_index_or, option_map, replicate};
ghost use Rattle.indexmap.specs.IndexMap.{index_map_len};
ghost use Rattle.value_core.specs.Values.{Name as PlainName};
ghost use Rattle.tree_core.specs.Relvars.{read_relvars, read_relvar, relvar_named, PlainRelvar};
ghost use Rattle.assign_core.specs.Breaches.{value_if, value_of};
ghost use Rattle.relvar_logs.specs.Changes.{AreChanges, changed, changed_relvar, newest};

use point_core::Memory;
use std::alloc::Global;
use tree_core::{Relvar, Relvars};
use value_core::{Name, Relation};

/// No new values yet.
pub(crate) fn none_yet(alloc: Global, relvars: &Relvars) -> Result<Vec<Option<Relation>>, Memory>
    ensures { IfOk result (λ v. v.items ≡ replicate (index_map_len relvars.now.list) None) }
{
    let count = relvars.list.len();
    let mut changes = Vec::with_capacity(alloc, count)?;
    for _turn in 0..count {
        changes.push(None)?;
    }
    Ok(changes)
}

/// The newest value of the base relvar of this name, if there is one.
pub(crate) fn current<'a>(
    relvars: &'a Relvars,
    changes: &'a [Option<Relation>],
    name: &Name,
) -> Option<&'a Relation>
    requires changes { AreChanges changes.now (read_relvars relvars.now).relvars }
    requires length { length changes.now ≡ length relvars.now.list.entries }
    ensures { option_map (λ v. v.now) result ≡ value_if (relvar_named (changed changes.now (read_relvars relvars.now).relvars) name.now) }
{
    match relvars.list.get_full(name) {
        Some((at, _, relvar)) => newest_of(&changes[at], relvar),
        None => None,
    }
}

/// The newest value of a base relvar; none of a view.
pub(crate) fn newest_of<'a>(
    change: &'a Option<Relation>,
    relvar: &'a Relvar,
) -> Option<&'a Relation>
    ensures { option_map (λ v. v.now) result ≡ value_of (changed_relvar change.now (read_relvar relvar.now)) }
{
    match relvar {
        Relvar::Base {
            value,
            constraints: _,
        } => Some(newer(change, value)),
        Relvar::View { tree: _, kind: _ } => None,
        Relvar::Log { of: _, log: _ } => None,
    }
}

/// The value of a base relvar; none of a view.
pub(crate) fn value_of(relvar: &Relvar) -> Option<&Relation>
    ensures { option_map (λ v. v.now) result ≡ value_of (read_relvar relvar.now) }
{
    match relvar {
        Relvar::Base {
            value,
            constraints: _,
        } => Some(value),
        Relvar::View { tree: _, kind: _ } => None,
        Relvar::Log { of: _, log: _ } => None,
    }
}

/// The new value, or the old one where there is none.
pub(crate) fn newer<'a>(change: &'a Option<Relation>, old: &'a Relation) -> &'a Relation
    ensures { result.now ≡ newest change.now old.now }
{
    match change {
        Some(value) => value,
        None => old,
    }
}

/// The newest value of the base relvar at a place; none of a view.
pub(crate) fn newest_at<'a>(
    relvars: &'a Relvars,
    changes: &'a [Option<Relation>],
    at: usize,
) -> Option<&'a Relation>
    requires within { at < length relvars.now.list.entries }
    requires length { length changes.now ≡ length relvars.now.list.entries }
    ensures { (d : PlainName × PlainRelvar) → option_map (λ v. v.now) result ≡ value_of (slice_index_or (changed changes.now (read_relvars relvars.now).relvars) at d).1 }
{
    match relvars.list.get_index(at) {
        Some((_, relvar)) => newest_of(&changes[at], relvar),
        None => unreachable!(),
    }
}
