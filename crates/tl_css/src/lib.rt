//! Selectors of CSS: what a selector text stands for, or where and why it is none.
#![tactic(auto)]

pub mod error;
mod examples;
pub mod laws;
pub mod selector;
pub mod text;

pub use crate::error::{Cause, SelectorError};
pub use crate::selector::Selector;
pub use crate::text::parse;
pub use crate::text::relative::parse_relative;
