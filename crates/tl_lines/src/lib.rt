//! Lines and columns of places in a text.
#![tactic(auto)]

mod examples;
mod index;
mod position;

pub use index::LineIndex;
pub use position::{Position, position_of};
