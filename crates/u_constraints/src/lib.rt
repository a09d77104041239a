//! Which constraints of a relvar hold.
#![tactic(auto)]

mod across;
mod apart;
mod beginning;
mod beside;
mod constraints;
mod growth;
mod hashes;
mod histories;
mod keys;
mod lines;
mod marks;
mod near;
mod packed;
mod parts;
mod pass;
mod positions;
mod prefixes;
mod references;
mod runs;
mod search;
mod tuning;
mod unpacked;

pub use across::holds_across;
pub use beginning::with_prefix;
pub use constraints::holds;
pub use growth::{Change, holds_beside, holds_with};
pub use near::rows_with_keys;
pub use positions::are_all;
pub use search::{touched_by, touched_with};
pub use tuning::ROWS_PASSED_FOR_ONE_SOUGHT;
