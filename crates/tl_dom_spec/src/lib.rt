//! The HTML standard's tree construction, whole: definitions that contracts cite, their laws, and
//! worked rows.
#![tactic(auto)]

mod body;
mod foreign;
mod formatting;
mod head;
mod laws;
mod others;
mod proportion;
mod runs;
mod sources;
mod start;
mod tables;
