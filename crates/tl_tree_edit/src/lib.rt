//! Edits of a page by its tree: what the tree says afterwards, and whether one says that.
#![tactic(auto)]

mod attributes;
mod change;
mod contexts;
mod edited;
mod error;
mod events;
mod examples;
mod forms;
mod fragments;
mod made;
mod meets;
mod node;
mod operation;
mod position;
mod readings;
mod walk;

pub use change::{Change, Edit, Put};
pub use edited::is_edited;
pub use error::MadeError;
pub use made::is_made;
pub use operation::Operation;
pub use position::Position;
