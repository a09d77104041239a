//! What is done with groups of rows, at each point: a rule gives one label for the rows whose labels have one part.
#![tactic(auto)]

mod asking;
mod by_columns;
mod cells;
mod counting;
mod entries;
mod figures;
mod firsts;
mod keeping;
mod numbered;
mod ordered;
mod point_cells;
mod ranks;
mod rule;
mod summarize;
mod sums;
mod tally_cells;
mod tally_points;
mod tally_rule;
mod tally_summary;
mod values;

pub use by_columns::{Columns, FigureRule};
pub use rule::GroupRule;
pub use summarize::u_summarize;
pub use tally_points::u_tally_cells;
pub use tally_rule::GroupTally;
pub use tally_summary::u_tally;
pub use values::{Column, Figure, Measure};
