//! Definitions and lemmas that several crates cite: sets as ordered lists, and words for what a call answers.
#![tactic(auto)]
