//! Parts of relvars that keep their constraints keep them too. Lemmas alone.
#![tactic(auto)]
