//! The attributes of a tag.
#![tactic(auto)]

pub mod attributes;
pub mod attributes_iter;
pub mod class_iter;
pub mod piece;
pub mod summary;
