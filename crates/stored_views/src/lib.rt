//! The stored views among the relvars of a state: the rule of each, its rows, brought up to date where base relvars get new values or
//! gain and lose rows, and the room that all of them take.
#![tactic(auto)]

mod counting;
mod differences;
mod exchanging;
mod kinds;
mod moving;
mod next;
mod operands;
mod places;
mod rows;
mod rules;
mod touching;

pub use counting::{room_beside, room_with};
pub use exchanging::exchange_rows;
pub use kinds::has_stored;
pub use moving::view_moves;
pub use next::next_rows;
pub use places::{forget_rows, put_rows};
pub use rows::{rows_after, rows_now};
pub use rules::rule_of;
