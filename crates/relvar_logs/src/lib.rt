//! The logs among the relvars of a state: brought to the next statement, and counted.
#![tactic(auto)]

mod changing;
mod counting;
mod entries;
mod next;
mod opening;
mod turning;

pub use changing::{bring_logs, change_log, count_change, room_for_change};
pub use counting::{has_log, room_beside};
pub use next::{change_of, next_logs};
pub use opening::{first_log, open_log};
pub use turning::count;
