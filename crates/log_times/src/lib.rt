//! Logs of relvars: in which states of a database each row stood in a relvar, by the numbers of its accepted statements.
#![tactic(auto)]

mod closing;
mod fronts;
mod headings;
mod lists;
mod log;
mod opening;
mod rows;
mod turning;

pub use closing::closed;
pub use log::Log;
pub use opening::opened;
pub use turning::{Turn, turned};
