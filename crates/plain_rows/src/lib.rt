//! The statement that brings data, from its bytes to rows in one walk: an insertion or a setting of a relvar by tuples of constants.
#![tactic(auto)]

mod arranged;
mod columns;
mod comments;
mod constants;
mod dates;
mod doubled;
mod headings;
mod heads;
mod numbers;
mod ordinals;
mod points;
mod quoted;
mod rows;
mod scan;
mod spans;
mod statement;
mod swaps;
mod tuples;

pub use statement::{PlainRows, Way, read};
