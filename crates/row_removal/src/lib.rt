//! Rows that go from a relation, in place.
#![tactic(auto)]

mod removal;

pub use removal::{Cut, are_behind, keep_run, place_behind, remove, take_out};
