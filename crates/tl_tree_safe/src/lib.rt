//! Trees of pages made safe for a browser: what a policy lists is kept of them, and nothing else,
//! so that a browser builds just that.
#![tactic(auto)]

mod attributes;
mod classes;
mod clean;
mod fate;
mod fitted_rows;
mod fragment;
mod kept_rows;
mod known;
pub mod laws;
mod links;
mod list_changes;
mod lists;
mod names;
mod own_lists;
mod own_names;
mod page_rows;
mod place_rows;
mod policy;
mod policy_rows;
mod reasons;
mod refusal;
mod refused;
mod removal;
mod removal_form;
mod removed_lines;
mod removed_rows;
mod sanitizer;
mod shown_names;
mod start_tag;
mod telling;
mod texts;
mod told_walk;
mod value_kind;
mod values;
mod walk;
mod word_lists;
mod words;
mod writer;

pub use attributes::write_attributes;
pub use clean::write_cleaned;
pub use fragment::{
    ToldPage, print_telling, read_in_div, sanitize_fragment, sanitize_fragment_telling,
    without_mark,
};
pub use lists::Lists;
pub use policy::Policy;
pub use refusal::{PolicyError, Reason};
pub use removal::{Cause, Removal};
pub use removal_form::RemovalForm;
pub use sanitizer::{sanitize, sanitize_telling};
pub use word_lists::{ListTexts, WordLists, lines_of};
