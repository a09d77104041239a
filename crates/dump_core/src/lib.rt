//! The script that makes a database again: the texts of its statements, and the rows of its relvars.
#![tactic(auto)]

mod draft;
mod inserts;
mod refuse;
mod script;
mod texts;
mod tuples;
mod values;

pub use refuse::DumpRefuse;
pub use script::dump;
pub use texts::{TextKind, Texts};
