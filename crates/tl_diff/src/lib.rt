//! What changes between two texts, line by line.
#![tactic(auto)]

mod change;
mod diff;
mod gap;
mod hunk;
mod lines;
mod script;

pub use change::Change;
pub use diff::unified;
pub use lines::lines_of;
pub use script::changes;
