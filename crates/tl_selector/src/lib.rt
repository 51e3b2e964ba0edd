//! Selectors: as values, as texts, and where they hold.
#![tactic(auto)]

pub mod attr_value;
pub mod matches;
mod matching;
mod node_set;
pub mod parser;
pub mod selector;
mod table;
