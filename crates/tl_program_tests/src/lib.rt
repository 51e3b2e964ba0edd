//! Worked rows and vectors, over the public calls of `tl_program`.
#![tactic(auto)]

#[cfg(test)]
mod args;
#[cfg(test)]
mod marked;
#[cfg(test)]
mod program;
#[cfg(test)]
mod reprints;
#[cfg(test)]
mod scripts;
#[cfg(test)]
mod step_lines;
