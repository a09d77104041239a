//! One statement: what its text is read as, what is answered to it, and what it makes of the database.
#![tactic(auto)]

mod bringing;
mod changing;
mod keeping;
mod performing;
mod reading;
mod reply;

pub use reply::{Reply, answer_to_text, refusal};
