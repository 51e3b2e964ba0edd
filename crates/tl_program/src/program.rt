//! What the program does, over any reader and writer.
mod args;
mod commands;
mod entry;
mod execute;
mod failure;
mod flush_count;
mod lookup;
mod marked;
mod page;
mod runner;
mod status;
mod std_streams;
mod streams;

pub use args::command;
pub use commands::Command;
pub use entry::run_words;
pub use execute::edit_and_print;
pub use failure::Failure;
pub use marked::Marked;
pub use runner::{output, run};
pub use status::line;
pub use std_streams::{Reader, Writer};
pub use streams::{Fault, Input, Output};
