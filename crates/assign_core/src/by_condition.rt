// What changes by a condition give their targets: where this affects few rows, only these are looked at.
ghost use Rattle.std.specs.Prelude.{◌≡◌, ◌≤◌, ◌+◌, [], ◌∷◌, map, Err, None, IfOk, IfErr};
ghost use Rattle.std.specs.List.{All};
ghost use Rattle.relation_core.specs.Answers.{Answers};
ghost use Rattle.relation_core.specs.Hashes.{AreHashesOf};
ghost use Rattle.tree_core.specs.Items.{read_assignment};
ghost use Rattle.tree_core.specs.Relvars.{read_relvars, Entries};
ghost use Rattle.meaning_core.specs.StoredRows.{AreStored};
ghost use Rattle.meaning_core.specs.Updates.{IsTypedAssignment};
ghost use Rattle.assign_core.specs.Assignments.{evaluated};
ghost use Rattle.assign_core.specs.Costs.{sources_cost};
ghost use Rattle.assign_core.specs.Databases.{IsKept};
ghost use Rattle.assign_core.specs.Hashed.{AreHashed};
ghost use Rattle.assign_core.specs.Pendings.{IsPending};
ghost use Rattle.assign_core.specs.PlainChanges.{IsAnyDeletion, IsAnyRevision};
ghost use Rattle.assign_core.specs.Reductions.{entries_reduced, IsReduction};
ghost use Rattle.assign_core.specs.Renewals.{entries_renewed, IsRenewal};

use crate::evaluating::evaluate_all;
use crate::finding::{find_deletion, find_revision, no_positions};
use crate::hashed::{Hashed, hashes_at};
use crate::pending::Pending;
use crate::portion::Deletion;
use crate::reduction::{Reduction, deleted, deleted_part, deletion_at};
use crate::renewal::{Renewal, revised, revised_part, revision_at};
use crate::revision::Revision;
use crate::target::Target;
use crate::turnover::Known;
use point_core::{Steps, Stop};
use relation_core::Hashes;
use std::alloc::Global;
use std::sync::ledger::Ledger;
use tree_core::{Assignment, Relvars};
use value_core::Relation;

/// What the sources give all targets, or the first fault. A deletion by a condition looks at the rows that this affects, where they are
/// few.
pub(crate) fn evaluate_change<'a, L: Ledger>(
    alloc: Global,
    list: &'a [Assignment],
    relvars: &'a Relvars,
    stored: &[Option<Relation>],
    hashed: &'a Hashed,
    steps: &mut Steps<L>,
) -> Result<Pending<'a>, Stop>
    requires kept { IsKept (read_relvars relvars.now) }
    requires stored { AreStored (read_relvars relvars.now).relvars stored.now }
    requires hashed { AreHashed hashed.now (read_relvars relvars.now).relvars }
    requires typed { All (λ a. IsTypedAssignment (read_relvars relvars.now) (read_assignment a)) list.now }
    ensures pending { IfOk result (IsPending relvars.now (evaluated (read_relvars relvars.now).relvars (read_relvars relvars.now).relvars (map read_assignment list.now))) }
    ensures refused { IfErr result (λ stop. Answers {A = Entries} (Err stop) (evaluated (read_relvars relvars.now).relvars (read_relvars relvars.now).relvars (map read_assignment list.now))) }
    ensures cost { steps.new ≤ steps.old + sources_cost (read_relvars relvars.now).relvars (read_relvars relvars.now).relvars (map read_assignment list.now) }
{
    let none = no_positions(alloc);
    match find_deletion(list, &none) {
        Some(deletion) => evaluate_deletion(alloc, deletion, list, relvars, stored, hashed, steps),
        None => evaluate_update(alloc, list, relvars, stored, hashed, steps),
    }
}

// What a deletion gives its target, or the fault that comes in its place.
fn evaluate_deletion<'a, L: Ledger>(
    alloc: Global,
    deletion: Deletion<'a, '_>,
    list: &[Assignment],
    relvars: &'a Relvars,
    stored: &[Option<Relation>],
    hashed: &'a Hashed,
    steps: &mut Steps<L>,
) -> Result<Pending<'a>, Stop>
    requires kept { IsKept (read_relvars relvars.now) }
    requires stored { AreStored (read_relvars relvars.now).relvars stored.now }
    requires hashed { AreHashed hashed.now (read_relvars relvars.now).relvars }
    requires deletion { IsAnyDeletion deletion }
    requires alone { map read_assignment list.now ≡ read_assignment deletion.assignment.now ∷ [] }
    requires typed { All (λ a. IsTypedAssignment (read_relvars relvars.now) (read_assignment a)) list.now }
    ensures pending { IfOk result (IsPending relvars.now (evaluated (read_relvars relvars.now).relvars (read_relvars relvars.now).relvars (map read_assignment list.now))) }
    ensures refused { IfErr result (λ stop. Answers {A = Entries} (Err stop) (evaluated (read_relvars relvars.now).relvars (read_relvars relvars.now).relvars (map read_assignment list.now))) }
    ensures cost { steps.new ≤ steps.old + sources_cost (read_relvars relvars.now).relvars (read_relvars relvars.now).relvars (map read_assignment list.now) }
{
    let (at, value) = deletion_at(relvars, deletion);
    let hashes = hashes_at(hashed, at);
    match deleted_part(alloc, relvars, deletion, at, value, hashes)? {
        Some(part) => {
            let reduction = Reduction {
                relvars,
                deletion,
                at,
                value,
                part: &part,
            };
            pending_reduction(alloc, reduction, hashes, steps)
        }
        None => evaluate_all(alloc, list, relvars, stored, steps),
    }
}

// What a deletion that affects few rows gives its target, or the fault that comes in its place.
fn pending_reduction<'a, L: Ledger>(
    alloc: Global,
    reduction: Reduction<'a, '_>,
    hashes: &'a [Hashes],
    steps: &mut Steps<L>,
) -> Result<Pending<'a>, Stop>
    requires reduction { IsReduction reduction }
    requires hashed { All (AreHashesOf reduction.value.now.rows) hashes.now }
    ensures pending { IfOk result (IsPending reduction.entry.relvars.now (evaluated (entries_reduced reduction.entry) (entries_reduced reduction.entry) (read_assignment reduction.entry.deletion.assignment.now ∷ []))) }
    ensures refused { IfErr result (λ stop. Answers {A = Entries} (Err stop) (evaluated (entries_reduced reduction.entry) (entries_reduced reduction.entry) (read_assignment reduction.entry.deletion.assignment.now ∷ []))) }
    ensures cost { steps.new ≤ steps.old + sources_cost (entries_reduced reduction.entry) (entries_reduced reduction.entry) (read_assignment reduction.entry.deletion.assignment.now ∷ []) }
{
    let rows = deleted(alloc, reduction, steps)?;
    let target = Target {
        relvars: reduction.relvars,
        name: &reduction.deletion.assignment.target,
        place: reduction.deletion.kept.place,
        at: reduction.at,
        value: reduction.value,
    };
    let known = hashed_alone(hashes);
    Ok(Pending::Rows(target, rows, known))
}

// What the sources give all targets, or the first fault. A revision by conditions looks at the rows that these affect, where they are few.
fn evaluate_update<'a, L: Ledger>(
    alloc: Global,
    list: &'a [Assignment],
    relvars: &'a Relvars,
    stored: &[Option<Relation>],
    hashed: &'a Hashed,
    steps: &mut Steps<L>,
) -> Result<Pending<'a>, Stop>
    requires kept { IsKept (read_relvars relvars.now) }
    requires stored { AreStored (read_relvars relvars.now).relvars stored.now }
    requires hashed { AreHashed hashed.now (read_relvars relvars.now).relvars }
    requires typed { All (λ a. IsTypedAssignment (read_relvars relvars.now) (read_assignment a)) list.now }
    ensures pending { IfOk result (IsPending relvars.now (evaluated (read_relvars relvars.now).relvars (read_relvars relvars.now).relvars (map read_assignment list.now))) }
    ensures refused { IfErr result (λ stop. Answers {A = Entries} (Err stop) (evaluated (read_relvars relvars.now).relvars (read_relvars relvars.now).relvars (map read_assignment list.now))) }
    ensures cost { steps.new ≤ steps.old + sources_cost (read_relvars relvars.now).relvars (read_relvars relvars.now).relvars (map read_assignment list.now) }
{
    let none = no_positions(alloc);
    match find_revision(list, &none) {
        Some(revision) => evaluate_revision(alloc, revision, list, relvars, stored, hashed, steps),
        None => evaluate_all(alloc, list, relvars, stored, steps),
    }
}

// What a revision gives its target, or the fault that comes in its place.
fn evaluate_revision<'a, L: Ledger>(
    alloc: Global,
    revision: Revision<'a, '_>,
    list: &[Assignment],
    relvars: &'a Relvars,
    stored: &[Option<Relation>],
    hashed: &'a Hashed,
    steps: &mut Steps<L>,
) -> Result<Pending<'a>, Stop>
    requires kept { IsKept (read_relvars relvars.now) }
    requires stored { AreStored (read_relvars relvars.now).relvars stored.now }
    requires hashed { AreHashed hashed.now (read_relvars relvars.now).relvars }
    requires revision { IsAnyRevision revision }
    requires alone { map read_assignment list.now ≡ read_assignment revision.assignment.now ∷ [] }
    requires typed { All (λ a. IsTypedAssignment (read_relvars relvars.now) (read_assignment a)) list.now }
    ensures pending { IfOk result (IsPending relvars.now (evaluated (read_relvars relvars.now).relvars (read_relvars relvars.now).relvars (map read_assignment list.now))) }
    ensures refused { IfErr result (λ stop. Answers {A = Entries} (Err stop) (evaluated (read_relvars relvars.now).relvars (read_relvars relvars.now).relvars (map read_assignment list.now))) }
    ensures cost { steps.new ≤ steps.old + sources_cost (read_relvars relvars.now).relvars (read_relvars relvars.now).relvars (map read_assignment list.now) }
{
    let (at, value) = revision_at(relvars, revision);
    let hashes = hashes_at(hashed, at);
    match revised_part(alloc, relvars, revision, at, value, hashes)? {
        Some(part) => {
            let renewal = Renewal {
                relvars,
                revision,
                at,
                value,
                hashes,
                part: &part,
            };
            pending_renewal(alloc, renewal, steps)
        }
        None => evaluate_all(alloc, list, relvars, stored, steps),
    }
}

// What a revision that affects few rows gives its target, or the fault that comes in its place.
fn pending_renewal<'a, L: Ledger>(
    alloc: Global,
    renewal: Renewal<'a, '_>,
    steps: &mut Steps<L>,
) -> Result<Pending<'a>, Stop>
    requires { IsRenewal renewal }
    ensures pending { IfOk result (IsPending renewal.entry.relvars.now (evaluated (entries_renewed renewal.entry) (entries_renewed renewal.entry) (read_assignment renewal.entry.revision.assignment.now ∷ []))) }
    ensures refused { IfErr result (λ stop. Answers {A = Entries} (Err stop) (evaluated (entries_renewed renewal.entry) (entries_renewed renewal.entry) (read_assignment renewal.entry.revision.assignment.now ∷ []))) }
    ensures cost { steps.new ≤ steps.old + sources_cost (entries_renewed renewal.entry) (entries_renewed renewal.entry) (read_assignment renewal.entry.revision.assignment.now ∷ []) }
{
    let rows = revised(alloc, renewal, steps)?;
    let target = Target {
        relvars: renewal.relvars,
        name: &renewal.revision.assignment.target,
        place: renewal.revision.assignment.tree.place,
        at: renewal.at,
        value: renewal.value,
    };
    let known = hashed_alone(renewal.hashes);
    Ok(Pending::Rows(target, rows, known))
}

/// The hashes of rows, where nothing is known of those that come after them.
pub(crate) fn hashed_alone(hashes: &[Hashes]) -> Known<'_>
    ensures { result ≡ record { hashes = hashes.entry; packed = None } }
{
    Known {
        hashes,
        packed: None,
    }
}
