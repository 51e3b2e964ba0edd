//! Laws of where selectors of CSS hold in a table of nodes.
#![tactic(auto)]

mod examples;
pub mod laws;
