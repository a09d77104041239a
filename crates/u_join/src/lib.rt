//! Joins and matches point by point: boxes go together key by key, where the key is the common part of their labels.
#![tactic(auto)]

mod joining;
mod joins;
mod keys;
mod labels;
mod matches;
mod matching;
mod names;
mod needed;
mod packing;
mod pairing;
mod places;
mod rests;
mod row_joins;
mod row_matches;
mod row_pairs;
mod row_rests;
mod row_sets;
mod row_unmatched;
mod runs;
mod shared;
mod standing;
mod sweeping;
mod tuning;

pub use joining::u_join;
pub use joins::joined;
pub use matches::{matched, unmatched};
pub use matching::{u_matching, u_not_matching};
pub use row_sets::{intersected, subtracted};
