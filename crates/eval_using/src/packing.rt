// PACK and UNPACK, with the limit of rows or_fault_at at their places.
ghost use Rattle.std.specs.Prelude.{◌≤◌, ◌+◌, length};
ghost use Rattle.value_core.specs.RowPacking.{packed, unpacked};
ghost use Rattle.relation_core.specs.Answers.{Answers, under};
ghost use Rattle.cell_core.specs.Costs.{bound};
ghost use Rattle.meaning_core.specs.Meanings.{limited};
ghost use Rattle.meaning_core.specs.Typing.{IsList};

use point_core::{Place, Steps, Stop};
use row_making::or_fault_at;
use std::alloc::Global;
use std::sync::ledger::Ledger;
use value_core::Relation;

/// The relation packed on the attributes at the positions, or the fault of too many rows at the place.
pub fn packed<L: Ledger>(
    alloc: Global,
    place: Place,
    commalist: &[usize],
    r: &Relation,
    steps: &mut Steps<L>,
) -> Result<Relation, Stop>
    requires { IsList r.now.heading commalist.now }
    ensures value { Answers result (under r.now.heading (limited place (packed commalist.now r.now.rows))) }
    ensures cost { steps.new ≤ steps.old + bound (length r.now.rows) (length commalist.now) }
{
    or_fault_at(place, u_set::packed(alloc, r, commalist, steps))
}

/// The relation unpacked on the attributes at the positions, or the fault of too many rows at the place.
pub fn unpacked<L: Ledger>(
    alloc: Global,
    place: Place,
    commalist: &[usize],
    r: &Relation,
    steps: &mut Steps<L>,
) -> Result<Relation, Stop>
    requires { IsList r.now.heading commalist.now }
    ensures value { Answers result (under r.now.heading (limited place (unpacked commalist.now r.now.rows))) }
    ensures cost { steps.new ≤ steps.old + bound (length r.now.rows) (length commalist.now) }
{
    or_fault_at(place, u_set::unpacked(alloc, r, commalist, steps))
}
