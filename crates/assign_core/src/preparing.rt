// What stands ready before anything changes.
ghost use Rattle.std.specs.Prelude.{◌≡◌, ◌≤◌, ◌+◌, map, Ok, IfOk, IfErr};
ghost use Rattle.std.specs.List.{All};
ghost use Rattle.tree_core.specs.Items.{read_assignment};
ghost use Rattle.tree_core.specs.Relvars.{read_relvars};
ghost use Rattle.meaning_core.specs.StoredRows.{AreStored};
ghost use Rattle.meaning_core.specs.Updates.{IsTypedAssignment};
ghost use Rattle.assign_core.specs.Assignments.{after_assignments, IsRefusedFor};
ghost use Rattle.assign_core.specs.Costs.{assignments_cost};
ghost use Rattle.assign_core.specs.Databases.{IsKept};
ghost use Rattle.assign_core.specs.Exchanges.{with_ready, IsReady};
ghost use Rattle.assign_core.specs.Hashed.{AreHashed};

use crate::admitting::admit_pending;
use crate::evaluating::evaluate_list;
use crate::exchange::Ready;
use crate::hashed::Hashed;
use point_core::Steps;
use std::alloc::Global;
use std::sync::ledger::Ledger;
use tree_core::{Assignment, Relvars};
use value_core::{Refuse, Relation};

/// What stands ready for all targets, or why the assignments are refused.
pub(crate) fn prepare<L: Ledger>(
    alloc: Global,
    list: &[Assignment],
    relvars: &Relvars,
    stored: &[Option<Relation>],
    hashed: &Hashed,
    steps: &mut Steps<L>,
) -> Result<Ready, Refuse>
    requires kept { IsKept (read_relvars relvars.now) }
    requires stored { AreStored (read_relvars relvars.now).relvars stored.now }
    requires hashed { AreHashed hashed.now (read_relvars relvars.now).relvars }
    requires typed { All (λ a. IsTypedAssignment (read_relvars relvars.now) (read_assignment a)) list.now }
    ensures ready { IfOk result (λ r. IsReady r (read_relvars relvars.now).relvars) }
    ensures meant { IfOk result (λ r. after_assignments (read_relvars relvars.now).relvars (map read_assignment list.now) ≡ Ok (with_ready r (read_relvars relvars.now).relvars)) }
    ensures refused { IfErr result (λ refuse. IsRefusedFor refuse (after_assignments (read_relvars relvars.now).relvars (map read_assignment list.now))) }
    ensures cost { steps.new ≤ steps.old + assignments_cost (read_relvars relvars.now).relvars (map read_assignment list.now) }
{
    let pending = evaluate_list(alloc, list, relvars, stored, hashed, steps)?;
    admit_pending(alloc, relvars, pending, steps)
}
