//! The commands of `tl` and their options, as `clap` reads them, with their help.
#![tactic(auto)]

mod element;
mod flag;
mod help;
mod verb;
mod word;

pub use element::ElementVerb;
pub use verb::{Verb, program};
