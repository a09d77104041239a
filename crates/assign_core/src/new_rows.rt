// Rows that come to a base relvar as they are, and not as the value of an expression.
ghost use Rattle.std.specs.Prelude.{◌≡◌, ◌+◌, ◌≤◌, List, false, length, option_map, true, Ok, Err, IfErr, IfOk, IfSome};
ghost use Rattle.std.specs.List.{All};
ghost use Rattle.value_core.specs.declared.constraint.Constraint.{Constraint};
ghost use Rattle.value_core.specs.Values.{most_rows, IsRelation};
ghost use Rattle.relation_core.specs.Answers.{Answers};
ghost use Rattle.relation_core.specs.Hashes.{AreHashesOf};
ghost use Rattle.tree_core.specs.Relvars.{base, read_relvars, Entries};
ghost use Rattle.meaning_core.specs.Names.{IsFirstAt};
ghost use Rattle.meaning_core.specs.Typing.{IsListIf};
ghost use Rattle.stored_views.specs.Stored.{has_stored};
ghost use Rattle.assign_core.specs.Arrivals.{entries_then, way_of, IsBaseFor, IsOneAtMost, IsReadied};
ghost use Rattle.assign_core.specs.Assignments.{kept_or_refused, of_values, IsRefusedFor};
ghost use Rattle.assign_core.specs.Costs.{constraints_cost, constraints_cost_of};
ghost use Rattle.assign_core.specs.Databases.{IsKept};
ghost use Rattle.assign_core.specs.Hashed.{AreHashed};
ghost use Rattle.assign_core.specs.Insertions.{sum_in, united_cost};
ghost use Rattle.assign_core.specs.Logs.{KeepsLogs};
ghost use Rattle.assign_core.specs.NewRows.{joined_cost, rows_then, IsFoundIf, IsListFor, IsPaidFor, IsToldOf, StaysUnless, TakesNoneIf};
ghost use Rattle.assign_core.specs.Pendings.{IsPending};
ghost use Rattle.assign_core.specs.Targets.{entries_before, IsTarget};
ghost use Rattle.assign_core.specs.Exchanges.{with_ready, IsReady};

use crate::addition::{Addition, coming};
use crate::admitting::{admit_pending, admit_values};
use crate::by_condition::hashed_alone;
use crate::evaluating::pending_addition;
use crate::exchange::Ready;
use crate::filling::fill_target;
use crate::hashed::{Hashed, hashes_at};
use crate::pending::{Pending, alone};
use crate::settling::settle;
use crate::target::Target;
use point_core::{Memory, Place, Steps, Stop};
use relation_core::Hashes;
use row_removal::remove;
use std::alloc::Global;
use std::sync::ledger::Ledger;
use tree_core::{Relvar, Relvars};
use value_core::{MOST_ROWS, Name, Positions, Refuse, Relation};

/// The place of a fault that cannot come, since there is room for all rows.
const NOWHERE: Place = Place { line: 1, column: 1 };

/// How rows come: in place of the relvar's own, or to be added to them, under USING where there is a list.
#[derive(Clone, Copy)]
pub(crate) enum Coming<'a> {
    Set,
    Insert(Option<&'a Positions>),
}

/// Brings the rows to the base relvar of the name; or refuses, and changes nothing. They are left where no base relvar of the name has
/// their heading, where it might have too many rows, and where they come under a list of several attributes.
pub(crate) fn bring<L: Ledger>(
    alloc: Global,
    relvars: &mut Relvars,
    hashed: &mut Hashed,
    target: &Name,
    way: Coming<'_>,
    rows: Relation,
    steps: &mut Steps<L>,
) -> Result<bool, Refuse>
    requires kept { IsKept (read_relvars relvars.old) }
    requires unstored { has_stored (read_relvars relvars.old).relvars ≡ false }
    requires hashed { AreHashed hashed.old (read_relvars relvars.old).relvars }
    requires listed { IsListFor rows.heading (way_of way) }
    ensures brought { IsToldOf (way_of way.entry) result (read_relvars relvars.old) (read_relvars relvars.new) target.now rows }
    ensures found { IsFoundIf result (read_relvars relvars.old) target.now rows.heading }
    ensures stays { StaysUnless result (read_relvars relvars.old) (read_relvars relvars.new) }
    ensures none { TakesNoneIf result steps.old steps.new }
    ensures logs { KeepsLogs (read_relvars relvars.old) (read_relvars relvars.new) }
    ensures kept { IsKept (read_relvars relvars.new) }
    ensures hashed { AreHashed hashed.new (read_relvars relvars.new).relvars }
    ensures cost { IsPaidFor (way_of way.entry) (read_relvars relvars.old) target.now rows steps.old steps.new }
{
    let found = ready_rows(alloc, relvars, hashed, target, way, rows, steps)?;
    match found {
        Some(ready) => {
            settle(alloc, relvars, hashed, ready, steps)?;
            Ok(true)
        }
        None => Ok(false),
    }
}

// What stands ready where rows are brought to the base relvar of the name, or why that is refused; nothing where the rows are left.
fn ready_rows<L: Ledger>(
    alloc: Global,
    relvars: &Relvars,
    hashed: &mut Hashed,
    target: &Name,
    way: Coming<'_>,
    rows: Relation,
    steps: &mut Steps<L>,
) -> Result<Option<Ready>, Refuse>
    requires kept { IsKept (read_relvars relvars.now) }
    requires hashed { AreHashed hashed.old (read_relvars relvars.now).relvars }
    requires listed { IsListFor rows.heading (way_of way) }
    ensures readied { IsReadied result (read_relvars relvars.now) (way_of way.entry) target.now rows steps.old steps.new }
    ensures hashed { AreHashed hashed.new (read_relvars relvars.now).relvars }
{
    let Some((at, value)) = base_for(relvars, target, way, &rows) else {
        return Ok(None);
    };
    fill_for(alloc, way, target, relvars, hashed)?;
    let base = Target {
        relvars,
        name: target,
        place: NOWHERE,
        at,
        value,
    };
    let ready = ready_for(alloc, base, hashes_at(hashed, at), way, rows, steps)?;
    Ok(Some(ready))
}

/// The place and the value of the base relvar of the name, if there is one with the heading of the rows, and with room for them.
pub(crate) fn base_for<'a>(
    relvars: &'a Relvars,
    target: &Name,
    way: Coming<'_>,
    rows: &Relation,
) -> Option<(usize, &'a Relation)>
    requires { IsListFor rows.now.heading (way_of way) }
    ensures { IfSome result (λ r. IsBaseFor (read_relvars relvars.now).relvars target.now (way_of way.entry) rows.now r.0 r.1.now) }
{
    let (at, value) = base_of(relvars, target)?;
    if !has_heading_of(rows, value) {
        return None;
    }
    if !has_room(value, way, rows) {
        return None;
    }
    Some((at, value))
}

// The place and the value of the base relvar of the name, if there is one.
fn base_of<'a>(relvars: &'a Relvars, target: &Name) -> Option<(usize, &'a Relation)>
    ensures { IfSome result (λ r. (constraints : List Constraint) × IsFirstAt (read_relvars relvars.now).relvars target.now r.0 (base r.1.now constraints)) }
{
    match relvars.list.get_full(target) {
        Some(
            (
                at,
                _,
                Relvar::Base {
                    value,
                    constraints: _,
                },
            ),
        ) => Some((at, value)),
        _ => None,
    }
}

// Whether the rows have the heading of the value.
fn has_heading_of(rows: &Relation, value: &Relation) -> bool
    ensures { result ≡ true → rows.now.heading ≡ value.now.heading }
{
    rows.heading().attributes() == value.heading().attributes()
}

// Whether the rows of both are surely not too many: on one attribute they are packed to no more rows.
fn has_room(value: &Relation, way: Coming<'_>, rows: &Relation) -> bool
    ensures room { result ≡ true → rows.now.heading ≡ value.now.heading → IsListFor rows.now.heading (way_of way.entry) → length (rows_then (way_of way.entry) value.now.rows rows.now.rows) ≤ most_rows }
    ensures relation { IsRelation value.now }
    ensures few { length rows.now.rows ≤ most_rows }
{
    let together = value.rows().len() + rows.rows().len();
    match way {
        Coming::Set => true,
        Coming::Insert(commalist) => is_one_at_most(commalist) && together <= MOST_ROWS,
    }
}

// Whether there is no list, or one of one attribute.
fn is_one_at_most(commalist: Option<&Positions>) -> bool
    ensures { result ≡ true → IsOneAtMost (option_map (λ l. l.now) commalist.entry) }
{
    match commalist {
        Some(list) => list.list.as_slice().len() == 1,
        None => true,
    }
}

// Hashes the rows of the base relvar to which others are added, if it has hashes.
fn fill_for(
    alloc: Global,
    way: Coming<'_>,
    target: &Name,
    relvars: &Relvars,
    hashed: &mut Hashed,
) -> Result<(), Memory>
    requires { AreHashed hashed.old (read_relvars relvars.now).relvars }
    ensures { AreHashed hashed.new (read_relvars relvars.now).relvars }
{
    match way {
        Coming::Set => Ok(()),
        Coming::Insert(_) => fill_target(alloc, target, relvars, hashed),
    }
}

// What stands ready where rows come to a base relvar that has room for them, or why that is refused.
fn ready_for<L: Ledger>(
    alloc: Global,
    target: Target<'_>,
    hashes: &[Hashes],
    way: Coming<'_>,
    rows: Relation,
    steps: &mut Steps<L>,
) -> Result<Ready, Refuse>
    requires kept { IsKept (read_relvars target.relvars.now) }
    requires base { IsBaseFor (entries_before target) target.name.now (way_of way) rows target.at target.value.now }
    requires hashed { All (AreHashesOf target.value.now.rows) hashes.now }
    requires listed { IsListFor rows.heading (way_of way) }
    ensures ready { IfOk result (λ r. IsReady r (entries_before target.entry)) }
    ensures meant { IfOk result (λ r. kept_or_refused (entries_then (entries_before target.entry) (way_of way.entry) target.entry.name.now target.entry.value.now.rows rows) ≡ Ok (with_ready r (entries_before target.entry))) }
    ensures refused { IfErr result (λ refuse. IsRefusedFor refuse (kept_or_refused (entries_then (entries_before target.entry) (way_of way.entry) target.entry.name.now target.entry.value.now.rows rows))) }
    ensures cost { steps.new ≤ steps.old + (joined_cost (way_of way.entry) target.entry.value.now.rows rows.rows + constraints_cost (entries_then (entries_before target.entry) (way_of way.entry) target.entry.name.now target.entry.value.now.rows rows)) }
{
    match way {
        Coming::Set => {
            let changes = alone(alloc, target, rows)?;
            admit_values(alloc, target.relvars, changes, steps)
        }
        Coming::Insert(commalist) => join(alloc, target, hashes, commalist, rows, steps),
    }
}

// What stands ready where rows are added to those of a base relvar, or why that is refused.
fn join<L: Ledger>(
    alloc: Global,
    target: Target<'_>,
    hashes: &[Hashes],
    commalist: Option<&Positions>,
    rows: Relation,
    steps: &mut Steps<L>,
) -> Result<Ready, Refuse>
    requires kept { IsKept (read_relvars target.relvars.now) }
    requires target { IsTarget target }
    requires headed { rows.heading ≡ target.value.now.heading }
    requires relation { IsRelation target.value.now }
    requires hashed { All (AreHashesOf target.value.now.rows) hashes.now }
    requires listed { IsListIf rows.heading (option_map (λ l. l.now) commalist) }
    ensures ready { IfOk result (λ r. IsReady r (entries_before target.entry)) }
    ensures meant { let sum = sum_in target.entry (option_map (λ l. l.now) commalist.entry) rows.rows in
        IfOk result (λ r. of_values sum ≡ Ok (with_ready r (entries_before target.entry))) }
    ensures refused { let sum = sum_in target.entry (option_map (λ l. l.now) commalist.entry) rows.rows in
        IfErr result (λ refuse. IsRefusedFor refuse (of_values sum)) }
    ensures cost { let sum = sum_in target.entry (option_map (λ l. l.now) commalist.entry) rows.rows in
        steps.new ≤ steps.old + (united_cost (option_map (λ l. l.now) commalist.entry) (length target.entry.value.now.rows + length rows.rows) + constraints_cost_of sum) }
{
    let pending = pending_join(alloc, target, hashes, commalist, rows, steps)?;
    admit_pending(alloc, target.relvars, pending, steps)
}

// What a base relvar gets where rows are added to its own, or the fault of too many rows. Without a list none of these is copied.
fn pending_join<'a, L: Ledger>(
    alloc: Global,
    target: Target<'a>,
    hashes: &'a [Hashes],
    commalist: Option<&'a Positions>,
    rows: Relation,
    steps: &mut Steps<L>,
) -> Result<Pending<'a>, Stop>
    requires kept { IsKept (read_relvars target.relvars.now) }
    requires target { IsTarget target }
    requires headed { rows.heading ≡ target.value.now.heading }
    requires relation { IsRelation target.value.now }
    requires hashed { All (AreHashesOf target.value.now.rows) hashes.now }
    requires listed { IsListIf rows.heading (option_map (λ l. l.now) commalist) }
    ensures pending { IfOk result (IsPending target.entry.relvars.now (sum_in target.entry (option_map (λ l. l.now) commalist.entry) rows.rows)) }
    ensures refused { IfErr result (λ stop. Answers {A = Entries} (Err stop) (sum_in target.entry (option_map (λ l. l.now) commalist.entry) rows.rows)) }
    ensures cost { steps.new ≤ steps.old + united_cost (option_map (λ l. l.now) commalist.entry) (length target.entry.value.now.rows + length rows.rows) }
{
    match commalist {
        Some(_) => {
            let addition = Addition {
                target,
                commalist,
                hashes,
                operand: &rows,
            };
            pending_addition(alloc, addition, steps)
        }
        None => {
            let mut come = rows;
            remove(&mut come, alloc, target.value);
            let exchange = coming(alloc, target.value, come)?;
            let known = hashed_alone(hashes);
            Ok(Pending::Rows(target, exchange, known))
        }
    }
}
