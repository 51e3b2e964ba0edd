//! Worked rows of selectors, those of `tl` and those of CSS: their texts, where they hold, and what
//! queries give; and of policies.
#![tactic(auto)]

#[cfg(test)]
mod chains;
#[cfg(test)]
mod documents;
#[cfg(test)]
mod edited;
#[cfg(test)]
mod errors;
#[cfg(test)]
mod pages;
#[cfg(test)]
mod paths;
#[cfg(test)]
mod policies;
#[cfg(test)]
mod queries;
#[cfg(test)]
mod refused;
#[cfg(test)]
mod selector_texts;
#[cfg(test)]
mod selectors;
#[cfg(test)]
mod walks;
