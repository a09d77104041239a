// The log that a stored one says.
ghost use Rattle.std.specs.Prelude.{◌≡◌, IfOk};
ghost use Rattle.log_times.specs.Logs.{closed, IsStored};
ghost use Rattle.log_times.specs.Turns.{IsLogHeading};

use crate::lists::closed_rows;
use point_core::Memory;
use std::alloc::Global;
use value_core::Relation;

/// The log after the statement of this number: the stored rows that stand end there.
pub fn closed(alloc: Global, log: &Relation, side: usize, number: i64) -> Result<Relation, Memory>
    requires heading { IsLogHeading side log.now.heading }
    requires stored { IsStored side number log.now.rows }
    ensures { IfOk result (λ r. (r.heading ≡ log.now.heading) × (r.rows ≡ closed side number log.now.rows)) }
{
    let rows = closed_rows(alloc, log.rows(), side, number)?;
    let heading = log.heading().copy(alloc)?;
    let relation = Relation::of_few(heading, rows)?;
    Ok(relation)
}
