//! Values made of old ones, as edits give them.
#![tactic(auto)]

mod absolute;
mod examples;
mod key;
mod names;
mod naming;
mod new_value;
mod parameters;
mod pattern;
mod replace;
mod replacing;
mod rewrite;
mod words;

pub use absolute::page_base;
pub use new_value::NewValue;
pub use pattern::Pattern;
pub use rewrite::Rewrite;
