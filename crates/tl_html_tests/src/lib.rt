//! Worked rows of pages as browsers read them: their tokens, their trees, and edits of a page in
//! its own bytes.
#![tactic(auto)]

#[cfg(test)]
mod answers;
#[cfg(test)]
mod asked;
#[cfg(test)]
mod balanced_tags;
#[cfg(test)]
mod characters;
#[cfg(test)]
mod closed_tags;
#[cfg(test)]
mod comments;
#[cfg(test)]
mod element_edits;
#[cfg(test)]
mod elements;
#[cfg(test)]
mod encodings;
#[cfg(test)]
mod errors;
#[cfg(test)]
mod fragments;
#[cfg(test)]
mod keys;
#[cfg(test)]
mod lower_names;
#[cfg(test)]
mod names;
#[cfg(test)]
mod page_edits;
#[cfg(test)]
mod positions;
#[cfg(test)]
mod printed;
#[cfg(test)]
mod raw_texts;
#[cfg(test)]
mod references;
#[cfg(test)]
mod refusals;
#[cfg(test)]
mod said_nodes;
#[cfg(test)]
mod selected;
#[cfg(test)]
mod splices;
#[cfg(test)]
mod tag_edits;
#[cfg(test)]
mod tag_parts;
#[cfg(test)]
mod tokens;
#[cfg(test)]
mod tree_sources;
#[cfg(test)]
mod trees;
