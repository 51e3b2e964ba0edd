//! Encodings, and which one a page is in.
ghost use Rattle.std.specs.Prelude.{◌≡◌};
ghost use Rattle.std.specs.Str.{is_utf8};
ghost use Rattle.tl_encoding.specs.Declaration.{label_declared};
ghost use Rattle.tl_encoding.specs.Encodings.{by_bytes, declared, encoding_by_bytes, encoding_declared, encoding_in, encoding_labelled, encoding_marked, encoding_meant, encoding_said, in_front, is_in_ascii, no_user_defined, no_utf_16, or_utf_8};

use crate::charset::charset_of;
use crate::declaration::{label_declared, utf_16_declared};
use crate::labels::{encoding_named, trimmed};
use crate::multi_byte::MultiByte;
use crate::single_byte::SingleByte;

/// Which of the two bytes of a code unit comes first.
#[derive(Clone, Copy, PartialEq, Eq, Debug)]
pub enum ByteOrder {
    BigEndian,
    LittleEndian,
}

/// How bytes stand for characters.
#[derive(Clone, Copy, PartialEq, Eq, Debug)]
pub enum Encoding {
    Utf8,
    Utf16(ByteOrder),
    SingleByte(SingleByte),
    MultiByte(MultiByte),
    Iso2022Jp,
    /// The standard's x-user-defined.
    UserDefined,
    /// Of pages whose bytes nothing should read: any stand for one U+FFFD.
    Replacement,
}

impl Encoding {
    /// The encoding of a label of the encoding standard, in any case.
    pub fn from_label(label: &[u8]) -> Option<Encoding>
        ensures { result ≡ encoding_labelled label.now }
    {
        encoding_named(trimmed(label))
    }

    // A page whose bytes can be read as ASCII is in no UTF-16: what says so means UTF-8.
    fn no_utf_16(self) -> Encoding
        ensures { result ≡ no_utf_16 self }
    {
        match self {
            Encoding::Utf16(_) => Encoding::Utf8,
            other => other,
        }
    }

    // In a tag `meta` x-user-defined means windows-1252.
    fn no_user_defined(self) -> Encoding
        ensures { result ≡ no_user_defined self }
    {
        match self {
            Encoding::UserDefined => Encoding::SingleByte(SingleByte::Windows1252),
            other => other,
        }
    }

    // Whether its bytes are ASCII whatever they stand for.
    fn is_in_ascii(self) -> bool
        ensures { result ≡ is_in_ascii self }
    {
        match self {
            Encoding::Iso2022Jp => true,
            _ => false,
        }
    }

    // The encoding that an XML declaration means.
    fn declared(label: &[u8]) -> Option<Encoding>
        ensures { result ≡ encoding_declared label.now }
    {
        Some(encoding_named(label)?.no_utf_16())
    }

    // The encoding that a tag `meta` means.
    fn meant(label: &[u8]) -> Option<Encoding>
        ensures { result ≡ encoding_meant label.now }
    {
        Some(Encoding::declared(label)?.no_user_defined())
    }
}

// An encoding, and UTF-8 if there is none.
fn or_utf_8(encoding: Option<Encoding>) -> Encoding
    ensures { result ≡ or_utf_8 encoding }
{
    match encoding {
        Some(known) => known,
        None => Encoding::Utf8,
    }
}

// The encoding that a page says in an XML declaration; else it has to be UTF-8.
fn encoding_declared(page: &[u8]) -> Encoding
    ensures { result ≡ declared (label_declared page.now) }
{
    match label_declared(page) {
        Some(label) => or_utf_8(Encoding::declared(label)),
        None => Encoding::Utf8,
    }
}

/// The encoding that a page says in itself, whatever its bytes are: a tag `meta` counts before an
/// XML declaration, and one that says nothing is in UTF-8.
pub fn encoding_said(page: &[u8]) -> Encoding
    ensures { result ≡ encoding_said page.now }
{
    match charset_of(page) {
        Some(label) => or_utf_8(Encoding::meant(label)),
        None => encoding_declared(page),
    }
}

/// The encoding of the byte-order mark that a page begins with. It counts before all that is said
/// of a page.
pub fn encoding_marked(page: &[u8]) -> Option<Encoding>
    ensures { result ≡ encoding_marked page.now }
{
    if page.starts_with(b"\xEF\xBB\xBF") {
        Some(Encoding::Utf8)
    } else if page.starts_with(b"\xFE\xFF") {
        Some(Encoding::Utf16(ByteOrder::BigEndian))
    } else if page.starts_with(b"\xFF\xFE") {
        Some(Encoding::Utf16(ByteOrder::LittleEndian))
    } else {
        None
    }
}

#[tactic(auto, using(crate::proofs::Said::is_text, crate::proofs::Said::is_no_text))]
fn is_utf_8(page: &[u8]) -> bool
    ensures { result ≡ is_utf8 page.now }
{
    match std::str::from_utf8(page) {
        Ok(_) => true,
        Err(_) => false,
    }
}

// UTF-8 if bytes are that; else what is said, and where they are that in any case.
fn by_bytes(said: Encoding, page: &[u8]) -> Encoding
    ensures { result ≡ by_bytes said page.now }
{
    if !said.is_in_ascii() && is_utf_8(page) {
        Encoding::Utf8
    } else {
        said
    }
}

// The encoding of what stands in front of a page: its byte-order mark, or a declaration in UTF-16.
fn in_front(page: &[u8]) -> Option<Encoding>
    ensures { result ≡ in_front page.now }
{
    if let Some(encoding) = encoding_marked(page) {
        return Some(encoding);
    }
    match utf_16_declared(page) {
        Some(order) => Some(Encoding::Utf16(order)),
        None => None,
    }
}

/// The encoding of a page, as browsers tell it: that of its byte-order mark or of a declaration in
/// UTF-16, else what it says among its first 1,024 bytes in a tag `meta` or, where none says
/// anything, in an XML declaration, and UTF-8 if it says nothing.
pub fn encoding_of(page: &[u8]) -> Encoding
    ensures { result ≡ encoding_in page.now }
{
    match in_front(page) {
        Some(front) => front,
        None => encoding_said(page),
    }
}

/// The encoding of a page by its bytes, which count before what it says: that of its byte-order
/// mark or of a declaration in UTF-16, else UTF-8 if it is that, else what it says. A page that
/// says ISO-2022-JP is in that, since its bytes are UTF-8 as well.
pub fn encoding_by_bytes(page: &[u8]) -> Encoding
    ensures { result ≡ encoding_by_bytes page.now }
{
    match in_front(page) {
        Some(encoding) => encoding,
        None => by_bytes(encoding_said(page), page),
    }
}
