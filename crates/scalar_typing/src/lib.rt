//! The typing of row expressions: the typed tree of an expression over a heading, or the first refusal with its place.
#![tactic(auto)]

mod kinds;
mod literals;
mod names;
mod operators;
mod scalars;
mod typed;

pub use kinds::{INTEGER, is_ordered, same_kind};
pub use names::{attribute_of, point_type};
pub use scalars::type_scalar;
pub use typed::Typed;
