//! One call of each operator over boxes that no statement of a script reaches, of each type of points, and of what is done with a log.
#![tactic(auto)]

#[cfg(test)]
mod boxes;
#[cfg(test)]
mod counts;
#[cfg(test)]
mod logs;
#[cfg(test)]
mod operators;
#[cfg(test)]
mod points;
#[cfg(test)]
mod tests;
