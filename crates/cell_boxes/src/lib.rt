//! Boxes of numbered cells that have keys: which of them meet, and what of them is outside the others. So an operator
//! over them goes key by key, and not by all the boxes that cover a place.
#![tactic(auto)]

mod apart;
mod by_cell;
mod by_key;
mod by_side;
mod cell_rule;
mod common;
mod covering;
mod grouping;
mod joining;
mod keeping;
mod keyed;
mod labelling;
mod later;
mod meeting;
mod numbering;
mod operators;
mod outside;
mod remaining;
mod search;
mod sharing;
mod tally;
mod tallying;
mod total;

pub use apart::are_apart;
pub use by_key::tallied;
pub use cell_rule::CellRule;
pub use grouping::grouped;
pub use joining::{PairRule, join, joined};
pub use keyed::{KeyedCellBox, keys_in_order, rows_in_order};
pub use meeting::{Meeting, overlaps};
pub use operators::{intersect, matching, minus, not_matching};
pub use remaining::rest;
pub use sharing::shared;
pub use tally::Tally;
pub use total::{Total, TotalRule, Totals};
