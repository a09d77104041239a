// What a run leaves.
ghost use Rattle.std.specs.Prelude.{◌≡◌};
ghost use Rattle.assign_core.specs.Databases.{no_relvars};
ghost use Rattle.utd_session.specs.Databases.{state_of};

use assign_core::Database;
use std::alloc::Global;
use utd_session::{Ran, Status};

/// How a run ended: its status, and the database unless the words were refused.
///
/// The status is 0 where all statements are accepted, 1 where some are refused, 2 where the words are
/// refused, 3 where the input failed, 4 where the output failed, 5 for want of memory, 6 where the
/// input is too long, and 7 where the dump would be too long.
#[derive(Drop)]
pub struct Outcome {
    pub status: u8,
    pub database: Option<Database>,
}

// A run that wants memory before its first statement.
pub(crate) fn without_memory(alloc: Global) -> Ran
    ensures status { result.status ≡ Status.NoMemory }
    ensures empty { state_of result.database ≡ no_relvars }
{
    Ran {
        status: Status::NoMemory,
        database: Database::new(alloc),
        texts: None,
    }
}
