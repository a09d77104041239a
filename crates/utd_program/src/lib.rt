//! The top call, and the program without its entry: reads the words, has the script performed that they ask for, and ends with the status.
#![tactic(auto)]

mod dumping;
mod outcome;
mod standard;
mod top;

pub use outcome::Outcome;
pub use standard::run_utd;
pub use top::run;
