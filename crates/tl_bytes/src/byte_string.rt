//! Lists of bytes that are borrowed, owned, or a share of a buffer.
ghost use Rattle.std.specs.Prelude.{◌≡◌, ◌↔◌, ◌≤◌, [], IsTrue, IsSome, IsOk, IfSome, IfOk, length, slice_range};
ghost use Rattle.std.specs.Str.{IsUtf8};
ghost use Rattle.std.specs.Str.Lossy.{utf8_lossy};
ghost use Rattle.std.specs.Cow.{cow_str_bytes};
ghost use Rattle.tl_bytes.specs.Held.{borrowed};

use bstr::ByteSlice;
use std::alloc::{AllocError, Global};
use std::borrow::CowStr;
use std::marker::Model;
use std::{fmt, str};

mod into_owned;
mod order;
mod shared_bytes;

pub use into_owned::{IntoOwnedBytes, SetBytesError, copied};
use shared_bytes::Share;
pub use shared_bytes::Shared;

// A share is a place in a text that is counted once for all, so that a `Bytes` is no larger than a
// vector and a tag.
#[derive(Drop)]
enum Repr<'a> {
    Borrowed(&'a [u8]),
    Owned(Vec<u8>),
    Shared(Share),
}

/// A list of bytes: a borrowed slice, an owned vector, or a share of a [`Shared`] buffer.
///
/// Equality, order and hash are those of the list, however it is held.
pub struct Bytes<'a> {
    repr: Repr<'a>,
}

impl<'a> Model for Bytes<'a> {
    ghost use Rattle.tl_bytes.specs.Held.{Kept};

    ghost Value = { Kept };

    ghost use Rattle.tl_bytes.specs.Bytes.{kept};

    ghost view = { λ b. kept b.repr };
}

// By hand, so that a caller's proof has one step for a drop, and not one for each form.
impl<'a> Drop for Bytes<'a> {
    fn drop(self) {
        let Bytes { repr: _ } = self;
    }
}

impl<'a> Bytes<'a> {
    /// The empty list, borrowed.
    pub fn new() -> Bytes<'a>
        ensures empty { result.list ≡ [] }
        ensures held { result.held ≡ borrowed }
    {
        Bytes {
            repr: Repr::Borrowed(&[]),
        }
    }

    /// The bytes, for as long as `self` is borrowed.
    pub fn as_bytes(&self) -> &[u8]
        ensures { result.now ≡ self.now.list }
    {
        match &self.repr {
            Repr::Borrowed(slice) => slice,
            Repr::Owned(vec) => vec.as_slice(),
            Repr::Shared(share) => share.as_slice(),
        }
    }

    /// The bytes for the whole of `'a`, which only borrowed ones are there for.
    pub fn as_bytes_borrowed(&self) -> Option<&'a [u8]>
        ensures some { IsSome result ↔ (self.now.held ≡ borrowed) }
        ensures list { IfSome result (λ slice. slice.now ≡ self.now.list) }
    {
        match &self.repr {
            Repr::Borrowed(slice) => Some(*slice),
            Repr::Owned(_) | Repr::Shared(_) => None,
        }
    }

    /// Whether the bytes are those of `text`.
    pub fn eq_str(&self, text: &str) -> bool
        ensures { IsTrue result ↔ (self.now.list ≡ text.now) }
    {
        self.as_bytes() == text.as_bytes()
    }

    /// Whether the bytes are `bytes`.
    pub fn eq_bytes(&self, bytes: &[u8]) -> bool
        ensures { IsTrue result ↔ (self.now.list ≡ bytes.now) }
    {
        self.as_bytes() == bytes
    }

    /// The bytes as text, `None` where they are not UTF-8.
    pub fn try_as_utf8_str(&self) -> Option<&str>
        ensures some { IsSome result ↔ IsUtf8 self.now.list }
        ensures text { IfSome result (λ text. text.now ≡ self.now.list) }
    {
        str::from_utf8(self.as_bytes()).ok()
    }

    /// The bytes as text, with one U+FFFD for each maximal part that is not UTF-8.
    ///
    /// Memory is taken only where there is such a part; `Err` means that it was refused.
    pub fn as_utf8_str(&self, alloc: Global) -> Result<CowStr<'_>, AllocError>
        ensures text { IfOk result (λ text. cow_str_bytes text ≡ utf8_lossy self.now.list) }
        ensures utf8 { IsUtf8 self.now.list → IsOk result }
    {
        self.as_bytes().to_str_lossy(alloc)
    }
}

/// The bytes from `start` up to `end` without `end`, held in the same way. A part of borrowed ones
/// takes no memory.
pub fn part<'a>(
    bytes: &Bytes<'a>,
    alloc: Global,
    start: usize,
    end: usize,
) -> Result<Bytes<'a>, AllocError>
    requires order { start ≤ end }
    requires within { end ≤ length bytes.now.list }
    ensures ok { IfOk result
        (λ part. part
        ≡ record { list = slice_range bytes.now.list start end; held = bytes.now.held }) }
    ensures succeeds { bytes.now.held ≡ borrowed → IsOk result }
{
    let repr = match &bytes.repr {
        Repr::Borrowed(slice) => Repr::Borrowed(&slice[start..end]),
        Repr::Owned(vec) => Repr::Owned(Vec::from_slice(alloc, &vec.as_slice()[start..end])?),
        Repr::Shared(share) => Repr::Shared(share.part(start, end)?),
    };
    Ok(Bytes { repr })
}

impl<'a> From<&'a [u8]> for Bytes<'a> {
    ghost from_gives = { λ slice b. b ≡ record { list = slice.now; held = borrowed } };

    fn from(slice: &'a [u8]) -> Bytes<'a> {
        Bytes {
            repr: Repr::Borrowed(slice),
        }
    }
}

impl<'a> From<&'a str> for Bytes<'a> {
    ghost from_gives = { λ text b. b ≡ record { list = text.now; held = borrowed } };

    fn from(text: &'a str) -> Bytes<'a> {
        Bytes::from(text.as_bytes())
    }
}

impl<'a> Default for Bytes<'a> {
    ghost is_default = { λ b. b ≡ record { list = []; held = borrowed } };

    fn default() -> Bytes<'a> {
        Bytes::new()
    }
}

/// A clone has the same bytes, held in the same way. A borrowed one takes no memory.
impl<'a> Clone for Bytes<'a> {
    ghost is_clone = { λ b copy. copy ≡ b };

    ghost is_infallible = { λ b. b.held ≡ borrowed };

    fn clone(&self) -> Result<Bytes<'a>, AllocError> {
        let repr = match &self.repr {
            Repr::Borrowed(slice) => Repr::Borrowed(*slice),
            Repr::Owned(vec) => Repr::Owned(vec.clone()?),
            Repr::Shared(share) => Repr::Shared(share.add_owner()?),
        };
        Ok(Bytes { repr })
    }
}

/// The text in quotes, or the list of numbers where the bytes are not UTF-8.
impl<'a> fmt::Debug for Bytes<'a> {
    fn fmt<W: fmt::Write>(&self, f: &mut fmt::Formatter<W>) -> fmt::Result {
        match self.try_as_utf8_str() {
            Some(text) => f.debug_tuple("Bytes").field(&text).finish(),
            None => f.debug_tuple("Bytes").field(&self.as_bytes()).finish(),
        }
    }
}
