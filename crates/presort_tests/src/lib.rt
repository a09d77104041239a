//! Pseudo-random items arranged by their numbers.
#![tactic(auto)]

#[cfg(test)]
mod drawn;
#[cfg(test)]
mod tests;
