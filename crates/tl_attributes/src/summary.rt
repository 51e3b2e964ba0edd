//! What is known of a tag's attributes without a look at them.
//!
//! That is 8 bytes, however values are held: of an id its length by 256 and its ends
//! (`Fingerprint`), of a class one bit of 32 for each member, of a class that is not UTF-8 too. It
//! is a type parameter of the tag (`SummaryOf`): as an associated type of the attributes it ends in
//! an internal error of the compiler.
ghost use Rattle.std.specs.Prelude.{◌≡◌, ◌↔◌, ◌<◌, IsTrue, Some};
ghost use Rattle.tl_attributes.specs.Summary.{fingerprint_of, bit_of, MayBeId, MayBeMember, AreClassBits, IsSummary};

use crate::attributes::Attributes;
use crate::class_iter::part_len;

/// What attributes of the type `A` are known to be, for a reader of many tags that would have to
/// fetch each one's attributes.
pub trait SummaryOf<A>: Copy {
    /// Whether nothing that it says of the attributes is wrong.
    ghost is_summary: { Self → A → Type 0 };

    /// All that it can say of the attributes.
    fn from_attributes(attributes: &A) -> Self
        ensures { is_summary result attributes.now };

    /// What is right of all attributes.
    fn unknown() -> Self
        ensures { (attributes : A) → is_summary result attributes };
}

/// The length and the ends of some bytes. Bytes of different fingerprints differ.
#[derive(Clone, Copy, PartialEq, Eq, Debug)]
pub struct Fingerprint {
    /// What is left of the length by 256.
    pub len: u8,
    /// The first byte, 0 where there is none.
    pub first: u8,
    /// The last byte, 0 where there is none.
    pub last: u8,
}

impl Fingerprint {
    /// The fingerprint of these bytes.
    #[inline]
    pub fn from_bytes(bytes: &[u8]) -> Fingerprint
        ensures { result ≡ fingerprint_of bytes.now }
    {
        Fingerprint {
            len: (bytes.len() % 256) as u8,
            first: bytes.first().copied().unwrap_or(0),
            last: bytes.last().copied().unwrap_or(0),
        }
    }

    // The number of its bit among the 32 of a class.
    #[inline]
    fn bit(self) -> u32
        ensures value { result ≡ bit_of self }
        ensures within { result < 32 }
    {
        (self.first as u32 + 3 * self.last as u32 + 5 * self.len as u32) % 32
    }
}

/// What is known of the value of `id`.
#[derive(Clone, Copy, PartialEq, Eq, Debug)]
pub enum IdSummary {
    /// Nothing.
    Unknown,
    /// There is none.
    Absent,
    /// There is one, of this fingerprint.
    Known(Fingerprint),
}

/// What is known of the values of `id` and `class`, however they are held, in 8 bytes.
#[derive(Clone, Copy, PartialEq, Eq, Debug)]
pub struct Summary {
    /// What is known of the value of `id`.
    pub id: IdSummary,
    /// One bit for each member of the class, that of its fingerprint. Where all are set nothing is
    /// known.
    pub classes: u32,
}

impl Summary {
    /// Whether bytes of this fingerprint may be the id.
    #[inline]
    pub fn may_be_id(self, mark: Fingerprint) -> bool
        ensures { IsTrue result ↔ MayBeId self.id mark }
    {
        match self.id {
            IdSummary::Unknown => true,
            IdSummary::Absent => false,
            IdSummary::Known(own) => own == mark,
        }
    }

    /// Whether bytes of this fingerprint may be a member of the class.
    #[inline]
    pub fn may_be_member(self, mark: Fingerprint) -> bool
        ensures { IsTrue result ↔ MayBeMember self.classes mark }
    {
        (self.classes >> mark.bit()) & 1 == 1
    }
}

// The bits of the parts between white space, be they members or the bytes no text.
#[inline]
fn class_bits(class: &[u8]) -> u32
    ensures { AreClassBits result (Some class.now) }
{
    let mut bits = 0;
    let mut at = 0;
    while at < class.len() {
        let end = at + part_len(&class[at..]);
        if at < end {
            bits |= 1 << Fingerprint::from_bytes(&class[at..end]).bit();
        }
        at = end + 1;
    }
    bits
}

impl<'a> SummaryOf<Attributes<'a>> for Summary {
    ghost use Rattle.tl_spec.specs.Lex.AttributeList.{Attributes};
    ghost use Rattle.tl_bytes.specs.Held.{Kept};

    ghost is_summary = { IsSummary };

    #[inline(always)]
    fn from_attributes(attributes: &Attributes<'a>) -> Summary
        ensures { IsSummary result attributes.now }
    {
        let id = match attributes.id() {
            Some(id) => IdSummary::Known(Fingerprint::from_bytes(id.as_bytes())),
            None => IdSummary::Absent,
        };
        let classes = match attributes.class() {
            Some(class) => class_bits(class.as_bytes()),
            None => 0,
        };
        Summary { id, classes }
    }

    fn unknown() -> Summary
        ensures { (attributes : Attributes Kept) → IsSummary result attributes }
    {
        Summary {
            id: IdSummary::Unknown,
            classes: u32::MAX,
        }
    }
}
