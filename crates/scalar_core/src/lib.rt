//! Row expressions: their typed trees, what these mean as plain data, and their values over a row.
#![tactic(auto)]

mod arithmetic;
mod comparison;
mod copy;
mod cutting;
mod evaluation;
mod interval;
mod operand;
mod operators;
mod point_numbers;
mod sweeping;
mod text;
mod tree;

pub use cutting::cuts;
pub use evaluation::eval;
pub use point_numbers::point_number;
pub use sweeping::{among, first_named, is_sweepable, names_any, sweep_fault};
pub use tree::{AllenWord, CompareWord, Parts, Scalar, ScalarForm};
