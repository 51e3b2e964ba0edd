//! Pages, which are bytes: their text, their document, and why there is nothing of what was asked.
#![tactic(auto)]

mod error;
mod failure;
mod page;

pub use error::{Cause, PageError};
pub use failure::Failure;
pub use page::{read, text};
pub use tl_text::Page;

/// The version of the programs, of the C library and of a release of both.
pub const VERSION: &str = "0.1.0";
