//! Containers with room inline.
#![tactic(auto)]

pub mod inline;
