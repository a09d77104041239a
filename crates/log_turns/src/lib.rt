//! Logs of relvars that begin with a relvar's value, and that are brought to its value after one statement more.
#![tactic(auto)]

mod beginning;
mod changing;
mod exchange;
mod standing;
mod turning;

pub use beginning::begun;
pub use changing::change;
pub use turning::turned;
