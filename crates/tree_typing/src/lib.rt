//! The typing of relational expressions and tests: typed trees, or the first refusal with its place.
#![tactic(auto)]

mod comparisons;
mod kept;
mod relvars;
mod scopes;
mod trees;

pub use comparisons::{type_test, type_test_in};
pub use kept::type_kept;
pub use relvars::relvar_of;
pub use scopes::Scope;
pub use trees::type_tree;
