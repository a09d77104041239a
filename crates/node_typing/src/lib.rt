//! The typing of single relational nodes and tests over typed operands.
#![tactic(auto)]

mod comparisons;
mod headings;
mod infixes;
mod lists;
mod nodes;
mod positions;
mod projections;
mod renamings;
mod rows;
mod summaries;
mod sweeps;
mod trees;
mod usings;

pub use comparisons::{emptiness_test, relation_named, type_comparison, type_using_comparison};
pub use lists::{is_span, listed};
pub use nodes::{
    infix_named, type_extension, type_infix, type_packing, type_projection, type_renaming,
    type_restriction, type_summary,
};
pub use positions::{check, kind_named, position, position_typed, positions_typed};
pub use rows::condition_typed;
pub use sweeps::{none_assigned, sets_swept, swept};
pub use usings::{
    UsingList, type_using_extension, type_using_infix, type_using_projection,
    type_using_restriction, type_using_summary,
};
