//! What the program `tl` answers of the tree of a page.
#![tactic(auto)]

mod document;
mod edit;
mod edited;
mod error;
pub mod examples;
mod field;
mod left_out;
mod lines;
mod links;
mod meant;
mod objects;
mod output;
mod page;
mod partly;
mod places;
mod prints;
mod question;
mod records;
mod selection;
mod sources;
mod tables;
mod uncommented;

pub use edit::{Edit, Refusal};
pub use edited::{Edited, edited_page};
pub use error::AnswerError;
pub use field::{Field, Key};
pub use links::{Hosts, LinkBase, LinkQuery};
pub use meant::Meant;
pub use output::Output;
pub use page::answer_of_page;
pub use partly::{PartlyEdited, edited_partly};
pub use question::{Question, answer};
pub use records::Records;
pub use selection::{Listing, Query};
pub use tables::{TableForm, TableQuery};
pub use uncommented::{CommentRefusal, uncommented_page};
