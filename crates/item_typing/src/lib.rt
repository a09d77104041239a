//! The typing of the items of an assignment: typed items, or the first refusal with its place.
#![tactic(auto)]

mod changes;
mod endings;
mod items;
mod points;
mod portions;
mod sets;
mod targets;

pub use items::{type_item, type_items};
