//! The typing of headings, tuples, literals and relational expressions.
#![tactic(auto)]

mod attributes;
mod headings;
mod items;
mod literals;
mod shapes;

pub use attributes::{Attributes, few_attributes, heading_of, listed, name_typed, new_name, put};
pub use headings::{heading_typed, kind_typed, same_heading};
pub use items::{Made, item_typed, none_made};
pub use literals::{empty_heading, type_literal};
pub use shapes::makes;
