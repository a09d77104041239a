//! The typing of statements: what a statement does, typed, or the first refusal of its names, kinds and headings.
#![tactic(auto)]

mod checked;

pub use checked::{Checked, check};
