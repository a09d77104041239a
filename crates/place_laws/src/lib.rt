//! Syntax trees whose places are moved: the same text elsewhere is written so, and judged alike. Lemmas alone.
#![tactic(auto)]
