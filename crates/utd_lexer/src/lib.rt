//! A script's bytes into statements, and a statement's bytes into tokens.
#![tactic(auto)]

mod ascii;
mod cutter;
mod encoding;
mod gaps;
mod prefix;
mod reading;
mod space;
mod token;

pub use cutter::{Cut, Cutter};
pub use gaps::without_gaps;
pub use reading::{place_behind, tokens};
pub use space::is_space;
pub use token::{Token, TokenBytes, TokenKind, TokenList};
