//! What typed relational expressions and tests mean in a state of relvars and views, and their evaluation.
#![tactic(auto)]

mod calls;
mod evaluation;
mod literal;
mod operand;
mod operators;
mod scope;
mod stored;
mod summary;
mod surrounded;
mod surrounding;

pub use calls::{eval, test};
