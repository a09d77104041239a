//! Declarations are typed alike at other places, and in states in which what they name is alike. Lemmas alone.
#![tactic(auto)]
