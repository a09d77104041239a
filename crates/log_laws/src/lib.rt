//! What the logs of a script's machine say of its past.
#![tactic(auto)]
