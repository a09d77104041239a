// The stored log at its first statement.
ghost use Rattle.std.specs.Prelude.{◌≡◌, ◌<◌, ◌<ℤ◌, false, IfOk, length};
ghost use Rattle.value_core.specs.Headings.{has_name, most_attributes};
ghost use Rattle.log_times.specs.Logs.{open_end};
ghost use Rattle.log_times.specs.Turns.{IsOpened};

use crate::headings::log_heading;
use crate::lists::add_begun;
use point_core::Memory;
use std::alloc::Global;
use value_core::{Name, Relation, position};

/// The stored log that begins with the value of a relvar after the statement of this number: an attribute of the name, which none of the
/// relvar's has, tells that each row stands from there on.
pub fn opened(
    alloc: Global,
    now: &Relation,
    attribute: &Name,
    number: i64,
) -> Result<Relation, Memory>
    requires few { length now.now.heading < most_attributes }
    requires new { has_name now.now.heading attribute.now ≡ false }
    requires number { number <ℤ open_end }
    ensures { IfOk result (IsOpened attribute.now number now.now) }
{
    let rows = now.rows();
    let heading = log_heading(alloc, now.heading(), attribute)?;
    let side = position(heading.attributes(), attribute);
    let mut list = Vec::new(alloc);
    add_begun(alloc, &mut list, rows, side, number)?;
    let relation = Relation::of_few(heading, list)?;
    Ok(relation)
}
