//! Trees of pages printed, as the HTML standard serializes them (13.3).
#![tactic(auto)]

mod again_examples;
mod attribute;
mod element;
mod escape;
mod examples;
mod laws;
mod names;
mod node;
mod pretty;
mod print;
mod rows;

pub use attribute::attribute_prefix;
pub use escape::write_escaped;
pub use pretty::write_pretty;
pub use print::{write_document, write_inner, write_outer};
