// How many rows the base relvars have together.
ghost use Rattle.std.specs.Prelude.{◌≡◌, ◌<◌, ◌≤◌, length, nat_le, slice_index_or};
ghost use Rattle.value_core.specs.Values.{Name as PlainName};
ghost use Rattle.value_core.specs.Limits.{most_rows_in_all};
ghost use Rattle.tree_core.specs.Relvars.{read_relvar, read_relvars, PlainRelvar};
ghost use Rattle.assign_core.specs.Breaches.{count_of, rows_of_all};
ghost use Rattle.relvar_logs.specs.Changes.{changed};

use crate::changes::{newest_at, value_of};
use tree_core::{Relvar, Relvars};
use value_core::Relation;

/// Whether they have at most so many, with the new values.
pub(crate) fn are_few(relvars: &Relvars, changes: &[Option<Relation>], most: usize) -> bool
    requires { length changes.now ≡ length relvars.now.list.entries }
    ensures { result ≡ nat_le (rows_of_all (changed changes.now (read_relvars relvars.now).relvars)) most }
{
    let mut room = most;
    for at in 0..changes.len() {
        let count = count_at(relvars, changes, at);
        if count > room {
            return false;
        }
        room -= count;
    }
    true
}

/// How many rows they have together.
pub(crate) fn rows_of_bases(relvars: &Relvars) -> usize
    requires { rows_of_all (read_relvars relvars.now).relvars ≤ most_rows_in_all }
    ensures { result ≡ rows_of_all (read_relvars relvars.now).relvars }
{
    let mut count = 0;
    for (_, relvar) in &relvars.list {
        count += rows_of_base(relvar);
    }
    count
}

// How many rows a base relvar has; none of another one.
fn rows_of_base(relvar: &Relvar) -> usize
    ensures { (name : PlainName) → result ≡ count_of (name, read_relvar relvar.now) }
{
    match value_of(relvar) {
        Some(value) => value.rows().len(),
        None => 0,
    }
}

// How many rows the base relvar at a place has.
fn count_at(relvars: &Relvars, changes: &[Option<Relation>], at: usize) -> usize
    requires within { at < length relvars.now.list.entries }
    requires length { length changes.now ≡ length relvars.now.list.entries }
    ensures { (d : PlainName × PlainRelvar) → result ≡ count_of (slice_index_or (changed changes.now (read_relvars relvars.now).relvars) at d) }
{
    match newest_at(relvars, changes, at) {
        Some(value) => value.rows().len(),
        None => 0,
    }
}
