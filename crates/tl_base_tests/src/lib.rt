//! Worked rows and vectors, over the public calls of the crates that `tl` stands on.
#![tactic(auto)]

#[cfg(test)]
mod alike_keys;
#[cfg(test)]
mod arenas;
#[cfg(test)]
mod byte_strings;
#[cfg(test)]
mod containers;
#[cfg(test)]
mod lossy;
#[cfg(test)]
mod many_pairs;
#[cfg(test)]
mod searches;
#[cfg(test)]
mod tracking;
