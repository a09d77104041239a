//! What the values of a group come to: their sum, and where the extreme ones stand.
#![tactic(auto)]

mod extremes;
mod sums;

pub use extremes::{greatest, least};
pub use sums::sum;
