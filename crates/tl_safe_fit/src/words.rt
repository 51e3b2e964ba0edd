//! Lists of words to look up.
mod index;
mod row;
mod slot;

pub use index::WordIndex;
