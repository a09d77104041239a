//! Operators under USING, PACK and UNPACK, and comparisons under USING, on relations: each means what the plain operator gives of the
//! unpacked operands, packed again, and works on the ends of intervals alone.
#![tactic(auto, using(meaning_core::proofs::IntervalLemmas::intervals_of_list))]

mod boxes;
mod cell_rows;
mod columns;
mod combining;
mod comparing;
mod conditions;
mod extension;
mod faults;
mod figures;
mod group_cells;
mod in_place;
mod items;
mod joining;
mod listing;
mod moved;
mod node;
mod packing;
mod parts;
mod restriction;
mod row_extension;
mod rule;
mod rules;
mod runs;
mod spots;
mod summary;

pub use combining::{using_infix, using_projection};
pub use comparing::compared;
pub use listing::listed;
pub use node::Node;
pub use packing::{packed, unpacked};
pub use rules::{using_extension, using_restriction};
pub use summary::using_summary;
