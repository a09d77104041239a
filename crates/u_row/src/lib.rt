//! What is done with each row for itself, at each point: projection, and rules that give a new label, none or a fault.
#![tactic(auto)]

mod all_rows;
mod cells;
mod cutting;
mod giving;
mod picked;
mod places;
mod positions;
mod project;
mod projection;
mod rows;
mod rule;

pub use all_rows::u_rule;
pub use picked::part_in_place;
pub use places::{beneath, inner};
pub use positions::unlisted;
pub use project::u_project;
pub use projection::projected;
pub use rule::RowRule;
