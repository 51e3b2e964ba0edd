//! Byte strings and byte searches.
#![tactic(auto)]

pub mod ascii_case;
pub mod byte_class;
pub mod byte_string;
pub mod simd;
