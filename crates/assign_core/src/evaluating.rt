// What the sources of assignments give their targets, before any constraint is looked at.
ghost use Rattle.std.specs.Prelude.{◌≡◌, ◌≤◌, ◌+◌, [], ◌∷◌, map, Err, IfOk, IfErr};
ghost use Rattle.std.specs.List.{All};
ghost use Rattle.relation_core.specs.Answers.{Answers};
ghost use Rattle.relation_core.specs.Hashes.{AreHashesOf};
ghost use Rattle.scalar_core.specs.Answers.{Gives};
ghost use Rattle.tree_core.specs.Items.{read_assignment};
ghost use Rattle.tree_core.specs.Relvars.{read_relvars, Entries};
ghost use Rattle.meaning_core.specs.StoredRows.{AreStored};
ghost use Rattle.meaning_core.specs.Updates.{IsTypedAssignment};
ghost use Rattle.meaning_core.specs.WellMade.{IsWellMade};
ghost use Rattle.relvar_logs.specs.Changes.{AreChanges, changed};
ghost use Rattle.assign_core.specs.Assignments.{evaluated};
ghost use Rattle.assign_core.specs.Costs.{sources_cost};
ghost use Rattle.assign_core.specs.Databases.{IsKept};
ghost use Rattle.assign_core.specs.Hashed.{AreHashed};
ghost use Rattle.assign_core.specs.Insertions.{addition_cost, sum_of, IsAddition, IsInsertion, IsPackedOn, IsPlain};
ghost use Rattle.assign_core.specs.Pendings.{IsPending};

use crate::addition::{Addition, is_plain, known_of, new_rows, unite};
use crate::by_condition::evaluate_change;
use crate::changes::none_yet;
use crate::hashed::{Hashed, hashes_at};
use crate::insertion::{Insertion, evaluate_operand, find_insertion};
use crate::packing::{exchange_of, packed_list};
use crate::pending::{Pending, alone};
use crate::sources::evaluate;
use crate::target::Target;
use crate::tuning::ROWS_LOOKED_AT_FOR_ONE;
use point_core::{Memory, Steps, Stop};
use std::alloc::Global;
use std::sync::ledger::Ledger;
use tree_core::{Assignment, Relvars};
use value_core::{Positions, Relation};

/// What the sources give all targets, or the first fault. An insertion moves no row that is there already.
pub(crate) fn evaluate_list<'a, L: Ledger>(
    alloc: Global,
    list: &'a [Assignment],
    relvars: &'a Relvars,
    stored: &[Option<Relation>],
    hashed: &'a Hashed,
    steps: &mut Steps<L>,
) -> Result<Pending<'a>, Stop>
    requires kept { IsKept (read_relvars relvars.now) }
    requires stored { AreStored (read_relvars relvars.now).relvars stored.now }
    requires hashed { AreHashed hashed.now (read_relvars relvars.now).relvars }
    requires typed { All (λ a. IsTypedAssignment (read_relvars relvars.now) (read_assignment a)) list.now }
    ensures pending { IfOk result (IsPending relvars.now (evaluated (read_relvars relvars.now).relvars (read_relvars relvars.now).relvars (map read_assignment list.now))) }
    ensures refused { IfErr result (λ stop. Answers {A = Entries} (Err stop) (evaluated (read_relvars relvars.now).relvars (read_relvars relvars.now).relvars (map read_assignment list.now))) }
    ensures cost { steps.new ≤ steps.old + sources_cost (read_relvars relvars.now).relvars (read_relvars relvars.now).relvars (map read_assignment list.now) }
{
    match find_insertion(list) {
        Some(insertion) => evaluate_insertion(alloc, insertion, relvars, stored, hashed, steps),
        None => evaluate_change(alloc, list, relvars, stored, hashed, steps),
    }
}

/// The same, where the values are made whole.
pub(crate) fn evaluate_all<'a, L: Ledger>(
    alloc: Global,
    list: &[Assignment],
    relvars: &'a Relvars,
    stored: &[Option<Relation>],
    steps: &mut Steps<L>,
) -> Result<Pending<'a>, Stop>
    requires well_made { IsWellMade (read_relvars relvars.now) }
    requires stored { AreStored (read_relvars relvars.now).relvars stored.now }
    requires typed { All (λ a. IsTypedAssignment (read_relvars relvars.now) (read_assignment a)) list.now }
    ensures pending { IfOk result (IsPending relvars.now (evaluated (read_relvars relvars.now).relvars (read_relvars relvars.now).relvars (map read_assignment list.now))) }
    ensures refused { IfErr result (λ stop. Answers {A = Entries} (Err stop) (evaluated (read_relvars relvars.now).relvars (read_relvars relvars.now).relvars (map read_assignment list.now))) }
    ensures cost { steps.new ≤ steps.old + sources_cost (read_relvars relvars.now).relvars (read_relvars relvars.now).relvars (map read_assignment list.now) }
{
    let changes = new_values(alloc, list, relvars, stored, steps)?;
    Ok(Pending::Values(changes))
}

/// The new values of all targets, or the first fault.
pub(crate) fn new_values<L: Ledger>(
    alloc: Global,
    list: &[Assignment],
    relvars: &Relvars,
    stored: &[Option<Relation>],
    steps: &mut Steps<L>,
) -> Result<Vec<Option<Relation>>, Stop>
    requires well_made { IsWellMade (read_relvars relvars.now) }
    requires stored { AreStored (read_relvars relvars.now).relvars stored.now }
    requires typed { All (λ a. IsTypedAssignment (read_relvars relvars.now) (read_assignment a)) list.now }
    ensures changes { IfOk result (λ v. AreChanges v.items (read_relvars relvars.now).relvars) }
    ensures value { Gives (λ v. changed v.items (read_relvars relvars.now).relvars) result (evaluated (read_relvars relvars.now).relvars (read_relvars relvars.now).relvars (map read_assignment list.now)) }
    ensures cost { steps.new ≤ steps.old + sources_cost (read_relvars relvars.now).relvars (read_relvars relvars.now).relvars (map read_assignment list.now) }
{
    let mut changes = none_yet(alloc, relvars)?;
    evaluate(alloc, list, relvars, stored, &mut changes, steps)?;
    Ok(changes)
}

// What an insertion gives its target, or the fault that comes in its place.
fn evaluate_insertion<'a, L: Ledger>(
    alloc: Global,
    insertion: Insertion<'a>,
    relvars: &'a Relvars,
    stored: &[Option<Relation>],
    hashed: &'a Hashed,
    steps: &mut Steps<L>,
) -> Result<Pending<'a>, Stop>
    requires kept { IsKept (read_relvars relvars.now) }
    requires stored { AreStored (read_relvars relvars.now).relvars stored.now }
    requires hashed { AreHashed hashed.now (read_relvars relvars.now).relvars }
    requires insertion { IsInsertion insertion }
    requires typed { IsTypedAssignment (read_relvars relvars.now) (read_assignment insertion.assignment.now) }
    ensures pending { IfOk result (IsPending relvars.now (evaluated (read_relvars relvars.now).relvars (read_relvars relvars.now).relvars (read_assignment insertion.entry.assignment.now ∷ []))) }
    ensures refused { IfErr result (λ stop. Answers {A = Entries} (Err stop) (evaluated (read_relvars relvars.now).relvars (read_relvars relvars.now).relvars (read_assignment insertion.entry.assignment.now ∷ []))) }
    ensures cost { steps.new ≤ steps.old + sources_cost (read_relvars relvars.now).relvars (read_relvars relvars.now).relvars (read_assignment insertion.entry.assignment.now ∷ []) }
{
    let none = none_yet(alloc, relvars)?;
    let (at, value, operand) = evaluate_operand(
        alloc,
        insertion,
        relvars,
        stored,
        none.as_slice(),
        steps,
    )?;
    let target = Target {
        relvars,
        name: &insertion.assignment.target,
        place: insertion.assignment.tree.place,
        at,
        value,
    };
    let addition = Addition {
        target,
        commalist: insertion.list,
        hashes: hashes_at(hashed, at),
        operand: &operand,
    };
    pending_addition(alloc, addition, steps)
}

/// What a base relvar gets where rows are added to its own, or the fault of too many rows.
pub(crate) fn pending_addition<'a, L: Ledger>(
    alloc: Global,
    addition: Addition<'a, '_>,
    steps: &mut Steps<L>,
) -> Result<Pending<'a>, Stop>
    requires kept { IsKept (read_relvars addition.target.relvars.now) }
    requires addition { IsAddition addition }
    requires hashed { All (AreHashesOf addition.target.value.now.rows) addition.hashes.now }
    ensures pending { IfOk result (IsPending addition.entry.target.relvars.now (sum_of addition.entry)) }
    ensures refused { IfErr result (λ stop. Answers {A = Entries} (Err stop) (sum_of addition.entry)) }
    ensures cost { steps.new ≤ steps.old + addition_cost addition.entry }
{
    match packed_list(addition) {
        Some(commalist) => pending_packed(alloc, addition, commalist, steps),
        None => pending_any(alloc, addition, steps),
    }
}

// Whether the rows that come are so many that a look at all rows that are there is cheap beside reading them.
fn comes_in_bulk(addition: Addition<'_, '_>) -> bool {
    addition.operand.rows().len() > addition.target.value.rows().len() / ROWS_LOOKED_AT_FOR_ONE
}

// The same where the target is kept packed on the list: rows of the labels that come are exchanged. Many rows that come are first held
// against all others: where they have nothing to do with each other's points, no label is packed anew.
fn pending_packed<'a, L: Ledger>(
    alloc: Global,
    addition: Addition<'a, '_>,
    commalist: &Positions,
    steps: &mut Steps<L>,
) -> Result<Pending<'a>, Stop>
    requires addition { IsAddition addition }
    requires hashed { All (AreHashesOf addition.target.value.now.rows) addition.hashes.now }
    requires packed { IsPackedOn addition commalist.now }
    ensures pending { IfOk result (IsPending addition.entry.target.relvars.now (sum_of addition.entry)) }
    ensures refused { IfErr result (λ stop. Answers {A = Entries} (Err stop) (sum_of addition.entry)) }
    ensures cost { steps.new ≤ steps.old + addition_cost addition.entry }
{
    if comes_in_bulk(addition) && is_plain(alloc, addition)? {
        return Ok(pending_plain(alloc, addition)?);
    }
    let rows = exchange_of(alloc, addition, commalist, steps)?;
    let known = known_of(addition);
    Ok(Pending::Rows(addition.target, rows, known))
}

// The same where the target's rows may be any.
fn pending_any<'a, L: Ledger>(
    alloc: Global,
    addition: Addition<'a, '_>,
    steps: &mut Steps<L>,
) -> Result<Pending<'a>, Stop>
    requires kept { IsKept (read_relvars addition.target.relvars.now) }
    requires addition { IsAddition addition }
    requires hashed { All (AreHashesOf addition.target.value.now.rows) addition.hashes.now }
    ensures pending { IfOk result (IsPending addition.entry.target.relvars.now (sum_of addition.entry)) }
    ensures refused { IfErr result (λ stop. Answers {A = Entries} (Err stop) (sum_of addition.entry)) }
    ensures cost { steps.new ≤ steps.old + addition_cost addition.entry }
{
    if is_plain(alloc, addition)? {
        return Ok(pending_plain(alloc, addition)?);
    }
    let value = unite(alloc, addition, steps)?;
    let changes = alone(alloc, addition.target, value)?;
    Ok(Pending::Values(changes))
}

// The same where the rows of both stay as they are: those that come are put among those that are there.
fn pending_plain<'a>(alloc: Global, addition: Addition<'a, '_>) -> Result<Pending<'a>, Memory>
    requires addition { IsAddition addition }
    requires hashed { All (AreHashesOf addition.target.value.now.rows) addition.hashes.now }
    requires plain { IsPlain addition }
    ensures { IfOk result (IsPending addition.entry.target.relvars.now (sum_of addition.entry)) }
{
    let rows = new_rows(alloc, addition)?;
    let known = known_of(addition);
    Ok(Pending::Rows(addition.target, rows, known))
}
