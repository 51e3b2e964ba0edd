//! Worked rows and vectors, over the public calls of `tl`; and pages as tests ask them, each read
//! twice, so that its document borrows it and keeps it, and edited.
#![tactic(auto)]

#[cfg(test)]
mod attributes;
#[cfg(test)]
mod edits;
#[cfg(test)]
mod errors;
#[cfg(test)]
mod lookups;
#[cfg(test)]
mod owned_pages;
pub mod page_edits;
pub mod pages;
#[cfg(test)]
mod prints;
#[cfg(test)]
mod reading;
#[cfg(test)]
mod show;
#[cfg(test)]
mod texts;
