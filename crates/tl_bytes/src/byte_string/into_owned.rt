//! Byte strings that own their bytes, and the data that they are made of.
ghost use Rattle.std.specs.Prelude.{◌≡◌, ◌≤◌, ◌<◌, ◌↔◌, IsOk, IfOk, OnOk, OnErr, IsErrOf, length, string_bytes, List, ℕ};
ghost use Rattle.std.specs.Box.{boxed_slice_items};
ghost use Rattle.tl_bytes.specs.Held.{as_owned};
ghost use Rattle.tl_bytes.specs.Set.{set_or_refused, GivesBack};

use crate::byte_string::{Bytes, Repr};
use std::alloc::{AllocError, Global};
use std::boxed::BoxedSlice;
use std::mem;
use thiserror::Error;

const MAX_LEN: usize = u32::MAX as usize;

/// Why data could not be set as the bytes of a [`Bytes`], which is then unchanged.
#[derive(Debug, Clone, PartialEq, Eq, PartialOrd, Ord, Drop, Error)]
pub enum SetBytesError {
    /// The data is longer than 4294967295 bytes.
    #[error("The string length is too large to fit in a `u32`")]
    LengthOverflow,
    /// Memory for a copy of the data was refused.
    #[error("out of memory")]
    OutOfMemory,
}

mod private {
    pub trait Sealed {}
}

/// Data that can be set as the bytes of a [`Bytes`]. Vectors, strings and boxed slices are
/// moved, slices and `&str` are copied.
pub trait IntoOwnedBytes: private::Sealed + Drop + Sized {
    // The bytes of the data.
    ghost bytes: { Self → List ℕ };

    // Holds of data that is moved, so that no memory is taken.
    ghost is_moved: { Self → Type 0 };

    /// The number of bytes.
    fn byte_len(&self) -> usize
        ensures { result ≡ length (bytes self.now) };

    /// The bytes as a vector. `Err` means that memory for a copy was refused.
    fn into_bytes(self, alloc: Global) -> Result<Vec<u8>, AllocError>
        ensures ok { IfOk result (λ vec. vec.items ≡ bytes self) }
        ensures moved { is_moved self → IsOk result };
}

impl private::Sealed for BoxedSlice<u8> {}

impl private::Sealed for &[u8] {}

impl private::Sealed for Vec<u8> {}

impl private::Sealed for &str {}

impl private::Sealed for String {}

impl IntoOwnedBytes for Vec<u8> {
    ghost bytes = { λ v. v.items };

    ghost is_moved = { λ _. Unit {0} };

    fn byte_len(&self) -> usize {
        self.len()
    }

    fn into_bytes(self, _alloc: Global) -> Result<Vec<u8>, AllocError> {
        Ok(self)
    }
}

impl IntoOwnedBytes for String {
    ghost bytes = { string_bytes };

    ghost is_moved = { λ _. Unit {0} };

    fn byte_len(&self) -> usize {
        self.len()
    }

    fn into_bytes(self, _alloc: Global) -> Result<Vec<u8>, AllocError> {
        Ok(String::into_bytes(self))
    }
}

impl IntoOwnedBytes for BoxedSlice<u8> {
    ghost bytes = { boxed_slice_items };

    ghost is_moved = { λ _. Unit {0} };

    fn byte_len(&self) -> usize {
        self.len()
    }

    fn into_bytes(self, _alloc: Global) -> Result<Vec<u8>, AllocError> {
        Ok(self.into_vec())
    }
}

impl IntoOwnedBytes for &[u8] {
    ghost bytes = { λ s. s.now };

    ghost is_moved = { λ _. ⊥ };

    fn byte_len(&self) -> usize {
        self.len()
    }

    fn into_bytes(self, alloc: Global) -> Result<Vec<u8>, AllocError> {
        Vec::from_slice(alloc, self)
    }
}

impl IntoOwnedBytes for &str {
    ghost bytes = { λ s. s.now };

    ghost is_moved = { λ _. ⊥ };

    fn byte_len(&self) -> usize {
        self.as_bytes().len()
    }

    fn into_bytes(self, alloc: Global) -> Result<Vec<u8>, AllocError> {
        Vec::from_slice(alloc, self.as_bytes())
    }
}

/// The bytes of the string, moved. A string longer than 4294967295 bytes is refused.
impl TryFrom<String> for Bytes<'static> {
    type Error = SetBytesError;

    ghost try_from_gives = { λ text result. result ≡ set_or_refused (string_bytes text) };

    fn try_from(text: String) -> Result<Bytes<'static>, SetBytesError> {
        if text.len() > MAX_LEN {
            return Err(SetBytesError::LengthOverflow);
        }
        Ok(Bytes {
            repr: Repr::Owned(text.into_bytes()),
        })
    }
}

impl<'a> Bytes<'a> {
    /// Makes the data the bytes, owned. The old bytes come back if they were owned.
    pub fn set<B: IntoOwnedBytes>(
        &mut self,
        alloc: Global,
        value: B,
    ) -> Result<Option<Vec<u8>>, SetBytesError>
        ensures ok { OnOk result (self.new ≡ as_owned (B.bytes value)) }
        ensures old { IfOk result (λ old. GivesBack self.old old) }
        ensures err { OnErr result (self.new ≡ self.old) }
        ensures too_long { IsErrOf result SetBytesError.LengthOverflow
            ↔ (u32.MAX < length (B.bytes value)) }
        ensures moved { B.is_moved value → length (B.bytes value) ≤ u32.MAX → IsOk result }
    {
        if value.byte_len() > MAX_LEN {
            return Err(SetBytesError::LengthOverflow);
        }
        self.set_unchecked(alloc, value)
            .map_err(|_: AllocError| SetBytesError::OutOfMemory)
    }

    /// Makes the data, whose length the caller has looked at, the bytes, owned. The old bytes
    /// come back if they were owned. `Err` means that memory for a copy was refused.
    pub fn set_unchecked<B: IntoOwnedBytes>(
        &mut self,
        alloc: Global,
        value: B,
    ) -> Result<Option<Vec<u8>>, AllocError>
        requires { length (B.bytes value) ≤ u32.MAX }
        ensures ok { OnOk result (self.new ≡ as_owned (B.bytes value)) }
        ensures old { IfOk result (λ old. GivesBack self.old old) }
        ensures err { OnErr result (self.new ≡ self.old) }
        ensures moved { B.is_moved value → IsOk result }
    {
        let vec = value.into_bytes(alloc)?;
        match mem::replace(&mut self.repr, Repr::Owned(vec)) {
            Repr::Owned(old) => Ok(Some(old)),
            Repr::Borrowed(_) | Repr::Shared(_) => Ok(None),
        }
    }
}

/// A copy of the bytes, of any length, owned. `Err` means that memory for it was refused.
pub fn copied(alloc: Global, bytes: &[u8]) -> Result<Bytes<'static>, AllocError>
    ensures { IfOk result (λ copy. copy ≡ as_owned bytes.now) }
{
    Ok(Bytes {
        repr: Repr::Owned(Vec::from_slice(alloc, bytes)?),
    })
}
