//! What is printed: refusal lines, truth values and tables.
#![tactic(auto)]

mod numbers;
mod refusal;
mod tables;
mod truth;
mod values;

pub use numbers::{put_day, put_integer, put_moment};
pub use refusal::refusal_line;
pub use tables::table;
pub use truth::{truth_line, truth_text};
pub use values::put_doubled;
