//! Where selectors of CSS hold in the tree of a page.
#![tactic(auto)]

mod any_case;
mod attribute;
mod columns;
mod compound;
mod element;
mod finder;
mod group;
mod kin;
pub mod laws;
mod letters;
mod links;
mod look;
mod page;
mod passing;
mod search;
mod stack;
mod term;
mod test;
mod twin;
mod value;

pub use search::{behind, below, closest, first, matches, select};
