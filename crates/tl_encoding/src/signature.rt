//! Bytes that hold no page, told by their first ones.
ghost use Rattle.std.specs.Prelude.{◌≡◌};
ghost use Rattle.tl_encoding.specs.Signatures.{is_webp, media_of};

use crate::run::without;

/// What is no page, and is often given as one.
#[derive(Clone, Copy, PartialEq, Eq, Debug)]
pub enum Media {
    Gif,
    Gzip,
    Jpeg,
    Pdf,
    Png,
    WebP,
    Zip,
}

// The four bytes between the two words are a length.
fn is_webp(bytes: &[u8]) -> bool
    ensures { result ≡ is_webp bytes.now }
{
    bytes.starts_with(b"RIFF") && without(8, bytes).starts_with(b"WEBPVP")
}

/// What bytes are by the first of them, where that is no page. None of these begins as markup or
/// as a byte-order mark, so a page is taken for one of them only where its text begins so.
pub fn media_of(bytes: &[u8]) -> Option<Media>
    ensures { result ≡ media_of bytes.now }
{
    if bytes.starts_with(b"GIF87a") || bytes.starts_with(b"GIF89a") {
        Some(Media::Gif)
    } else if is_webp(bytes) {
        Some(Media::WebP)
    } else if bytes.starts_with(b"\x89PNG\r\n\x1A\n") {
        Some(Media::Png)
    } else if bytes.starts_with(b"\xFF\xD8\xFF") {
        Some(Media::Jpeg)
    } else if bytes.starts_with(b"%PDF-") {
        Some(Media::Pdf)
    } else if bytes.starts_with(b"\x1F\x8B\x08") {
        Some(Media::Gzip)
    } else if bytes.starts_with(b"PK\x03\x04") {
        Some(Media::Zip)
    } else {
        None
    }
}
