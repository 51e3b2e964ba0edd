//! Edits of a page in its own bytes: the definitions that contracts cite, and their laws.
#![tactic(auto)]

mod examples;
pub mod laws;
mod markup_examples;
mod patch_examples;
mod raw_text_examples;
mod seam_examples;
mod tail_examples;
mod together_examples;
