//! The calls with a page of any encoding.
ghost use Rattle.std.specs.Prelude.{◌≡◌, ◌≢◌};
ghost use Rattle.tl_page.specs.Outcome.{Gives};
ghost use Rattle.tl_c.specs.EncodedPages.{name_told, text_told, told};
ghost use Rattle.tl_c.specs.Puts.{Puts};

use crate::copy_out::{copy_result, copy_value};
use std::alloc::Global;
use tl_encoding::{Encoding, decode, encoding_marked, encoding_of};
use tl_page::Failure;

// The encoding of a page: what is said, behind a byte-order mark, else what the page says.
fn told(label: &[u8], page: &[u8]) -> Option<Encoding>
    ensures { result ≡ told label.now page.now }
{
    if label.is_empty() {
        return Some(encoding_of(page));
    }
    let said = Encoding::from_label(label)?;
    match encoding_marked(page) {
        Some(marked) => Some(marked),
        None => Some(said),
    }
}

// The text of a page.
fn text_told(alloc: Global, label: &[u8], page: &[u8]) -> Result<Vec<u8>, Failure>
    ensures { Gives (λ text. text.items) (text_told label.now page.now) result }
{
    let Some(encoding) = told(label, page) else {
        return Err(Failure::Refused);
    };
    let own = Vec::from_slice(alloc, page)?;
    Ok(decode(alloc, own, encoding)?.into_bytes())
}

/// Writes the name of the encoding that a page is in: that of its byte-order mark, else of a label,
/// where that isn't empty, else what the page says, as browsers tell it. What is no label of an
/// encoding is refused. That takes no memory.
#[unsafe(no_mangle)]
pub extern "C" fn tl_encoding_of(
    label: &[u8],
    page: &[u8],
    out: &mut [u8],
    needed: &mut usize,
) -> u8
    ensures put { Puts (name_told label.now page.now) out.old out.new needed.new result }
    ensures memory { result ≢ 3 }
{
    match told(label, page) {
        Some(encoding) => copy_value(Some(encoding.name().as_bytes()), out, needed),
        None => copy_value(None, out, needed),
    }
}

/// Writes the text of a page in UTF-8, by the encoding that `tl_encoding_of` tells. U+FFFD stands
/// for bytes that are wrong, and a byte-order mark stays, as U+FEFF.
#[unsafe(no_mangle)]
pub extern "C" fn tl_decode_page(
    alloc: Global,
    label: &[u8],
    page: &[u8],
    out: &mut [u8],
    needed: &mut usize,
) -> u8
    ensures { Puts (text_told label.now page.now) out.old out.new needed.new result }
{
    copy_result(text_told(alloc, label, page), out, needed)
}
