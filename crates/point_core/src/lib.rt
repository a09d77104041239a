//! Point types: ordered, finite, and each point with a neighbour on either side but at the ends. With them stand the
//! counter of steps, want of memory, places, codes and faults, and what a label is.
#![tactic(auto)]

mod any_type;
mod date_type;
mod dates;
mod fault;
mod int_type;
mod label;
mod memory;
mod moment_type;
mod moments;
mod numbered;
mod ordinal_type;
mod point_type;
mod steps;

pub use any_type::{AnyPoint, AnyType};
pub use date_type::{DateType, Day};
pub use dates::{date_parts, read_date};
pub use fault::{Code, Fault, Place, Stop};
pub use int_type::IntType;
pub use label::Label;
pub use memory::Memory;
pub use moment_type::{MomentType, Second};
pub use moments::{moment_parts, read_moment};
pub use ordinal_type::OrdinalType;
pub use point_type::{PointNumber, PointType};
pub use steps::Steps;
