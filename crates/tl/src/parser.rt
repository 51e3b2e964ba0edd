//! The table of nodes, and what reads a text into it.
pub(crate) mod base;
pub(crate) mod boundaries;
pub(crate) mod builder;
mod element;
pub(crate) mod tag;
mod tracking;
