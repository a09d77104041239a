//! Views whose rows are stored, and brought up to date by the groups of rows that a change touches.
#![tactic(auto)]

mod differing;
mod group_moves;
mod groups;
mod headings;
mod keys;
mod making;
mod moving;
mod parting;
mod rule;
mod sorting;
mod touching;

pub use differing::{Differences, moved_by};
pub use group_moves::{Moved, group_moved};
pub use groups::group;
pub use headings::positions_beside;
pub use making::made;
pub use moving::moved;
pub use rule::{KeptOp, KeptRule, Operands};
pub use touching::touched;
