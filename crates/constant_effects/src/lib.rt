//! What statements that insert constants make of a database: lemmas alone.
#![tactic(auto)]
