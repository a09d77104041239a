// The log at its first statement.
ghost use Rattle.std.specs.Prelude.{◌≡◌, ◌<◌, ◌<ℤ◌, false, IfOk, length};
ghost use Rattle.value_core.specs.Headings.{has_name, most_attributes};
ghost use Rattle.log_times.specs.Logs.{open_end};
ghost use Rattle.log_turns.specs.Turned.{IsBegun};

use log_times::{Log, opened};
use point_core::Memory;
use std::alloc::Global;
use value_core::{Name, Relation, position};

/// The log that begins with the value of a relvar after the statement of this number: an attribute of the name, which none of the
/// relvar's has, tells the statements.
pub fn begun(alloc: Global, now: &Relation, attribute: &Name, number: i64) -> Result<Log, Memory>
    requires few { length now.now.heading < most_attributes }
    requires new { has_name now.now.heading attribute.now ≡ false }
    requires number { number <ℤ open_end }
    ensures { IfOk result (IsBegun attribute.now number now.now) }
{
    let stored = opened(alloc, now, attribute, number)?;
    let side = position(stored.heading().attributes(), attribute);
    Ok(Log::make(side, number, stored))
}
