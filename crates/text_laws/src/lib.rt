//! Texts of statements are read alike at other places, and behind and without gaps. Lemmas alone.
#![tactic(auto)]
