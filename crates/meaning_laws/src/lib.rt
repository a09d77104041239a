//! Typed trees whose places are moved, and states in which names stand for the same: what has no fault means the same there. Lemmas alone.
#![tactic(auto)]
