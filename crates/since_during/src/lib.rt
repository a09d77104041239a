//! Histories as declarations and assignments: what HISTORY declares, and what TERMINATE assigns.
#![tactic(auto)]

mod endings;
mod headings;
mod histories;
mod joining;
mod relvars;

pub use endings::terminate;
pub use histories::declare_history;
