//! What the HTML standard's tokenizer reads of a page: the definitions that contracts cite, and
//! their laws.
#![tactic(auto)]

mod balanced_examples;
mod driven_examples;
mod examples;
pub mod laws;
mod piece_examples;
mod reference_examples;
