//! The characters that texts and values with character references say, as the HTML standard has
//! them; and texts short enough to be pages.
#![tactic(auto)]

mod base;
mod names;
mod numbers;
mod page;
mod reference;
mod split;
mod unescape;

pub use page::Page;
pub use unescape::{unescape_text, unescape_value};
