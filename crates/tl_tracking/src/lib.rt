//! What is tracked while a text is read: maps from ids and classes to the numbers of tags.
#![tactic(auto)]

mod hasher;
pub mod laws;
mod options;
mod postings;
mod tracking;

pub use hasher::NameKey;
pub use options::ParserOptions;
pub use tracking::TrackingOf;
