//! The generated script: a script of any size whose answers are known.
#![tactic(auto)]

mod script;

pub use script::{MOST_TUPLES, script_of};
