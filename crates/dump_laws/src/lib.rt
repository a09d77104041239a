//! A dumped script gives the database back: what the texts that a run keeps say of its state, its statements one by one, and all of
//! them in turn. Lemmas alone.
#![tactic(auto)]
