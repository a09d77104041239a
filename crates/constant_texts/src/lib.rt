//! The statements that a dump writes for rows are read as insertions of just these rows. Lemmas alone.
#![tactic(auto)]
