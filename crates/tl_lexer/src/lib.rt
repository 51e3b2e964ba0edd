//! Reads tokens off a text: where each one stands, and nothing that takes memory.
#![tactic(auto)]

pub mod attribute;
mod cursor;
pub mod names;
pub mod runs;
pub mod span;
pub mod tag;
pub mod token;
