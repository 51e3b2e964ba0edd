//! What a doctype of a page says, as browsers read it.
#![tactic(auto)]

mod doctype_reader;

pub use doctype_reader::{DoctypePart, DoctypeReader, Identifier};
