//! Statements that insert constants: which rows a syntax tree writes, and the laws that it is typed so and means just their insertion.
#![tactic(auto)]
