//! Whether the names and literals of a syntax tree are in range: a definition and its law alone, on which the parser and typing
//! stand.
#![tactic(auto)]
