// The rows by which the only new value differs from the old one, and constraints asked of them alone.
ghost use Rattle.std.specs.Prelude.{◌≡◌, ◌+◌, ◌<◌, ◌≤◌, true, length, None, Some, IfSome, IfOk};
ghost use Rattle.value_core.specs.Values.{most_rows, IsRelation};
ghost use Rattle.relation_core.specs.Operators.{subtracted, united};
ghost use Rattle.tree_core.specs.Relvars.{read_relvar, read_relvars};
ghost use Rattle.assign_core.specs.Breaches.{first_broken};
ghost use Rattle.relvar_logs.specs.Changes.{AreChanges};
ghost use Rattle.assign_core.specs.Changes.{Tells};
ghost use Rattle.assign_core.specs.Checks.{after};
ghost use Rattle.assign_core.specs.Costs.{looked_at_all};
ghost use Rattle.assign_core.specs.Databases.{IsKept};
ghost use Rattle.assign_core.specs.Differences.{HasBoth, IsDifference, IsOnly, IsOnlyAt};

use crate::changes::value_of;
use crate::checking::{After, check};
use crate::tuning::SMALL_PART_DIVISOR;
use crate::turnover::{Known, Turnover, check_turnover, have_room};
use change_rows::Exchange;
use point_core::{Memory, Steps};
use relation_core::{Hashes, minus};
use std::alloc::Global;
use std::sync::ledger::Ledger;
use tree_core::Relvar;
use value_core::{Name, Refuse, Relation, RowsRefuse};

/// The base relvar that alone has a new value: its place and name, and both values.
#[derive(Clone, Copy)]
pub(crate) struct Only<'a> {
    pub at: usize,
    pub name: &'a Name,
    pub old: &'a Relation,
    pub new: &'a Relation,
}

/// Tells the first broken constraint, by relvars in order of declaration and by number. Where one relvar alone changes, and few rows come
/// to it, only what the rows touch that come and go is looked at.
pub(crate) fn check_changes<L: Ledger>(
    alloc: Global,
    new: After<'_>,
    steps: &mut Steps<L>,
) -> Result<(), Refuse>
    requires kept { IsKept (read_relvars new.relvars.now) }
    requires changes { AreChanges new.changes.now (read_relvars new.relvars.now).relvars }
    ensures told { Tells result (first_broken (after new.entry)) }
    ensures cost { steps.new ≤ steps.old + looked_at_all (after new.entry) (after new.entry) }
{
    match only_one(new) {
        Some(only) => check_only(alloc, new, only, steps),
        None => check(alloc, new, steps),
    }
}

// Tells the first broken constraint where one relvar alone changes.
fn check_only<'a, L: Ledger>(
    alloc: Global,
    new: After<'a>,
    only: Only<'a>,
    steps: &mut Steps<L>,
) -> Result<(), Refuse>
    requires kept { IsKept (read_relvars new.relvars.now) }
    requires changes { AreChanges new.changes.now (read_relvars new.relvars.now).relvars }
    requires only { IsOnly new only }
    ensures told { Tells result (first_broken (after new.entry)) }
    ensures cost { steps.new ≤ steps.old + looked_at_all (after new.entry) (after new.entry) }
{
    let rows = difference(alloc, only)?;
    if !is_small(only, &rows) {
        return check(alloc, new, steps);
    }
    let hashes = Vec::new(alloc);
    let turnover = turnover_of(new, only, &rows, hashes.as_slice());
    check_turnover(alloc, turnover, steps)
}

// The turnover that the rows are, with hashes of those before.
fn turnover_of<'a>(
    new: After<'a>,
    only: Only<'a>,
    rows: &'a Exchange,
    hashes: &'a [Hashes],
) -> Turnover<'a>
    ensures { result ≡ record {
      relvars = new.entry.relvars;
      at = only.entry.at;
      name = only.entry.name;
      value = only.entry.old;
      rows = rows.entry;
      new = Some only.entry.new;
      known = record { hashes = hashes.entry; packed = None };
    } }
{
    Turnover {
        relvars: new.relvars,
        at: only.at,
        name: only.name,
        value: only.old,
        rows,
        new: Some(only.new),
        known: Known {
            hashes,
            packed: None,
        },
    }
}

// The rows that come and those that go.
fn difference(alloc: Global, only: Only<'_>) -> Result<Exchange, Memory>
    requires { only.new.now.heading ≡ only.old.now.heading }
    ensures { IfOk result (λ x. IsDifference only.entry.old.now only.entry.new.now x) }
{
    let come = rest(alloc, only.new, only.old)?;
    let gone = rest(alloc, only.old, only.new)?;
    Ok(Exchange { come, gone })
}

// The rows of the left relation that are not of the right one.
fn rest(alloc: Global, left: &Relation, right: &Relation) -> Result<Relation, Memory>
    requires { left.now.heading ≡ right.now.heading }
    ensures rows { IfOk result (λ r. r ≡ record { heading = left.now.heading; rows = subtracted left.now.rows right.now.rows }) }
    ensures relation { IsRelation left.now }
{
    // A relation has few rows.
    let _rows = left.rows();
    match minus(alloc, left, right) {
        Ok(rows) => Ok(rows),
        Err(RowsRefuse::Memory) => Err(Memory),
        Err(RowsRefuse::TooMany) => unreachable!(),
    }
}

// Whether a small part of the new value's rows come, and there is room for them beside the old ones.
fn is_small(only: Only<'_>, rows: &Exchange) -> bool
    ensures { result ≡ true → length (united only.entry.old.now.rows rows.now.come.rows) ≤ most_rows }
{
    have_room(only.old, rows)
        && rows.come.rows().len() <= only.new.rows().len() / SMALL_PART_DIVISOR
}

// The base relvar with a new value, where no other one has one.
fn only_one(new: After<'_>) -> Option<Only<'_>>
    requires { length new.changes.now ≡ length new.relvars.now.list.entries }
    ensures { IfSome result (IsOnly new.entry) }
{
    let at = only_place(new.changes)?;
    match new.relvars.list.get_index(at) {
        Some((name, relvar)) => with_both(at, name, relvar, &new.changes[at]),
        None => None,
    }
}

// A relvar with its old value and its new one, where it has both.
fn with_both<'a>(
    at: usize,
    name: &'a Name,
    relvar: &'a Relvar,
    change: &'a Option<Relation>,
) -> Option<Only<'a>>
    ensures { IfSome result (λ o. HasBoth o at name.now (read_relvar relvar.now) change.now) }
{
    match (value_of(relvar), change) {
        (Some(old), Some(new)) => Some(Only { at, name, old, new }),
        _ => None,
    }
}

// The place of the only new value.
fn only_place(changes: &[Option<Relation>]) -> Option<usize>
    ensures within { IfSome result (λ at. at < length changes.now) }
    ensures alone { IfSome result (λ at. IsOnlyAt at changes.now) }
{
    let mut found = None;
    for (at, change) in changes.iter().enumerate() {
        if change.is_some() {
            if found.is_some() {
                return None;
            }
            found = Some(at);
        }
    }
    found
}
