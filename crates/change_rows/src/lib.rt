//! Rows that a change by a condition affects.
#![tactic(auto)]

mod exchange;
mod finding;
mod insertion;
mod replacement;
mod requirements;
mod row_filters;
mod safety;
mod telling;

pub use exchange::Exchange;
pub use finding::{affected, affected_by_both};
pub use insertion::inserted;
pub use replacement::{Replacement, replaced, replaced_and_inserted};
