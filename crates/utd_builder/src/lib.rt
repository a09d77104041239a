//! The tree of a statement, from tokens that are known to be one.
#![tactic(auto)]

mod choices;
mod closing;
mod cursor;
mod lone;
mod parts;
mod relations;
mod scalars;
mod statements;

pub use closing::closes;
pub use cursor::{Cursor, Lexeme};
pub use statements::statement;
