//! The words of the command line, read with `clap`.
#![tactic(auto)]

mod command;
mod words;

pub use words::{Asked, Script, read_words};
