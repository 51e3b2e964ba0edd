//! Edits as values, and the lines that spell them.
//!
//! The list of edits is there twice: `apply_change` for documents, where bytes count alone, and
//! `edited_table` for tables, where each piece is held in its way; the law `table_edits_are_edits`
//! says that one is the image of the other. `run` has clauses of both: `ok`, `err` for those who
//! print, `held` for those who ask what is borrowed.
mod edit;
pub mod laws;
mod parser;
mod step;
mod tag;

pub use edit::run;
pub use parser::steps;
pub use step::{Step, StepError};
