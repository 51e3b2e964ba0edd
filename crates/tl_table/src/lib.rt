//! What is seen of a table of nodes, whatever their type: its nodes by their handles, lookups by a
//! scan, where the nodes that hang below a tag begin and end, and the parent and the next sibling
//! of each node. What fails answers a [`TreeError`](errors::TreeError).
#![tactic(auto)]

pub mod element;
pub mod errors;
pub mod examples;
pub mod handle;
mod last_descendant;
pub mod laws;
pub mod links;
pub mod lookup;
pub mod range;
pub mod table;
