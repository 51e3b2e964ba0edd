//! Which end tags a token of a page brings, over the names of the open tags.
//!
//! A name is looked up once, and gets a bit for each class that a rule asks for (`class`, `known`;
//! `proofs/Agreed`). The rules before a start tag are a table (`rule`, `proofs/Rules`, `Totals`).
//! An open tag also keeps the classes of it and of all around it together, so a search for a class
//! that no open tag has ends at once (`may_have`).
#![tactic(auto)]

mod balance;
mod class;
mod known;
mod open_tags;
mod remaining;
mod rule;
mod tag_name;

pub use balance::{Opening, PutIn};
pub use open_tags::OpenTags;
pub use tag_name::TagName;
