//! What the program does, and edits as values.
#![tactic(auto)]

pub mod program;
pub mod script;
