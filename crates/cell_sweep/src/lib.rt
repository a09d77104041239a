//! Packed rows over numbered cells, from the last side inward.
#![tactic(auto)]

mod arranged;
mod bare;
mod by_label;
mod cell_op;
mod cuts;
mod inward;
mod key;
mod live;
mod one_side;
mod parted;
mod runs;
mod two_sides;
mod united;

pub use arranged::{arrange_unordered, pack_arranged};
pub use by_label::pack_rows;
pub use cell_op::CellOp;
pub use cuts::cuts_at;
pub use inward::{IndexBox, slices, without_labels};
pub use key::{CellBox, put_cells};
pub use live::{Sweep, advance, sweep_of};
