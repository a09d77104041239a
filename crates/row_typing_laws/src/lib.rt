//! Row expressions, headings and literals are typed alike at other places and beside more ordinal types. Lemmas alone.
#![tactic(auto)]
