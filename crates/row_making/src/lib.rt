//! Rows that nodes make: of the values of items on a row, and of aggregates over a group.
#![tactic(auto)]

mod aggregates;
mod faults;
mod groups;
mod integers;
mod items;
mod places;
mod plain_rows;

pub use faults::or_fault_at;
pub use groups::{Making, aggregate_places, group_row};
pub use items::{extended_row, holds, set_places};
pub use places::pick;
pub use plain_rows::{extended, restricted};
