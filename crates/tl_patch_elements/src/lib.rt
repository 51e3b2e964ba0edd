//! The elements of a page: at which token each begins, and at which it ends.
#![tactic(auto)]

mod finder;
mod found;
mod page;

pub use found::{Element, PageElements};
pub use page::elements;
