//! Byte strings, containers with room inline, and byte searches: the ground that documents stand
//! on.
//!
//! This crate has no code. It gives again what `tl_bytes` and `tl_inline` hold, under the names
//! that users know.
#![tactic(auto)]

/// Byte strings.
pub mod bytes {
    pub use tl_bytes::byte_string::{Bytes, IntoOwnedBytes, SetBytesError, Shared, copied};
}

pub use tl_bytes::simd;
pub use tl_inline::inline;
