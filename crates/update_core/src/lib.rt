//! Updates as assignments: the expression that an item gives its target.
#![tactic(auto)]

mod conditions;
mod items;
mod kinds;
mod rows;

pub use conditions::{condition, negated};
pub use items::expand;
pub use kinds::type_at;
