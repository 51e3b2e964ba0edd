//! What the HTML standard's tree construction makes of tokens: the definitions that contracts cite,
//! and their laws.
#![tactic(auto)]

mod examples;
pub mod laws;
mod stay_examples;
mod table_examples;
