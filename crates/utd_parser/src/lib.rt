//! Whether a statement's tokens are a statement of the grammar, and else the first that refuses them.
#![tactic(auto)]

mod excess;
mod form;
mod limits;
mod listed;
mod operator_rows;
mod primary_rows;
mod relation_rows;
mod scalar_rows;
mod stack;
mod statement_rows;
mod table;
mod terminals;
mod whole;

pub use limits::is_bad_text;
pub use terminals::terminal_of;
pub use whole::{accept, parse};
