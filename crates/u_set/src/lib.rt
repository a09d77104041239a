//! Relations as labelled boxes and back, and the operators point by point that keep the labels.
#![tactic(auto)]

mod apart;
mod boxes;
mod cells;
mod coalescing;
mod common;
mod comparison;
mod difference;
mod fewer;
mod in_time;
mod intervals;
mod kept;
mod labels;
mod packing;
mod positions;
mod refusals;
mod row_comparison;
mod rows;
mod strict;
mod union;

pub use apart::{Gap, are_apart, compare_at, value_or};
pub use boxes::{copied_boxes, to_boxes};
pub use cells::copied_cells;
pub use coalescing::{coalesced, coalesced_boxes};
pub use common::{intersected, u_intersect};
pub use comparison::{are_same, is_within, u_equal, u_subset};
pub use difference::{subtracted, u_minus};
pub use fewer::prepacked;
pub use intervals::interval_of;
pub use kept::{is_apart, outside, stay_apart};
pub use labels::{label_of, part_of_label, value_or_false};
pub use packing::{packed, unpacked};
pub use positions::{is_listed, types_at};
pub use refusals::{in_limit, refusal};
pub use rows::from_boxes;
pub use strict::{is_properly_within, u_proper_subset};
pub use union::{u_union, united};
