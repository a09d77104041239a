//! The database: relvars that keep their constraints, changed all together or not at all.
#![tactic(auto)]

mod addition;
mod admitting;
mod appending;
mod assigning;
mod beside;
mod by_condition;
mod changes;
mod checking;
mod counting;
mod database;
mod differences;
mod dropping;
mod evaluating;
mod exchange;
mod filling;
mod finding;
mod gaining;
mod hashed;
mod in_place;
mod insertion;
mod keeping;
mod logs;
mod marking;
mod merging;
mod moving;
mod new_rows;
mod packing;
mod pending;
mod performing;
mod plain;
mod plain_rows;
mod portion;
mod preparing;
mod reduction;
mod renewal;
mod revision;
mod room;
mod rooms;
mod rules;
mod settling;
mod sources;
mod target;
mod tuning;
mod turnover;

pub use database::Database;
