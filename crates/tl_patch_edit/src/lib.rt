//! Pages with elements changed, each other byte as it is.
#![tactic(auto)]

mod ask;
mod comments;
mod compare;
mod edit;
mod element_name;
mod error;
pub mod examples;
mod extent;
pub mod laws;
mod left_open;
mod page;
mod part;
mod patched;
mod plan;
mod put;
mod raw_text;
mod reach;
mod ready;
mod refused;
mod seam;
mod several;
mod tag;
mod tail;
mod wanted;

pub use ask::{Content, ElementPatch, PlacedPatch};
pub use comments::{CommentError, without_comments};
pub use error::EditError;
pub use page::TokenizedPage;
pub use patched::unchanged;
pub use reach::{PageStretches, Stretch, stretches};
pub use refused::{refusals_at, unstarted_at};
