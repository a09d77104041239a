//! What typed relational expressions, tests, declarations and updates mean in a state of relvars and views, and which of them are typed
//! for it: definitions and lemmas alone, on which typing and evaluation stand.
#![tactic(auto)]
