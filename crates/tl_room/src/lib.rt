//! Room for many values, which is given back all at once.
#![tactic(auto)]

pub mod arena;
pub mod shared;
