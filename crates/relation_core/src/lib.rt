//! The plain operators of the relational algebra on relations.
#![tactic(auto)]

mod agreement;
mod answers;
mod attributes;
mod extension;
mod found;
mod growth;
mod headings;
mod joining;
mod keys;
mod list;
mod merging;
mod names;
mod numbers;
mod pairs;
mod parts;
mod projection;
mod renaming;
mod restriction;
mod sets;
mod summary;

pub use agreement::{as_wanted, matching, not_matching};
pub use answers::relation;
pub use extension::extend;
pub use found::touched_by_hashes;
pub use growth::{absent, selection, touched};
pub use headings::attributes_at;
pub use joining::join;
pub use list::{Hashes, hashes_of};
pub use merging::keep;
pub use names::common_positions;
pub use numbers::row_hash;
pub use parts::{contains, part, sorted_parts};
pub use projection::project;
pub use renaming::{rename, renamed};
pub use restriction::restrict;
pub use sets::{intersect, minus, union};
pub use summary::summarize;
