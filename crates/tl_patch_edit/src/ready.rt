//! What is put, made ready.
ghost use Rattle.std.specs.Prelude.{◌≡◌, IfOk};
ghost use Rattle.tl_patch_edit.specs.Asks.{text_of, text_put};
ghost use Rattle.tl_patch_edit.specs.Found.{has_mark};
ghost use Rattle.tl_patch_edit.specs.View.{content_view};
ghost use Rattle.tl_patch_spec.specs.Markup.{text_markup};

use crate::ask::{Content, Put};
use std::alloc::{AllocError, Global};
use tl_patch::write_text;

// A text as it stands in markup.
fn escaped_text(alloc: Global, content: Content<'_>) -> Result<Vec<u8>, AllocError>
    ensures { IfOk result (λ text.
        text.items ≡ text_markup (text_of (content_view content.entry))) }
{
    let mut out = Vec::new(alloc);
    match content {
        Content::Text { text } => {
            write_text(text, &mut out)?;
            Ok(out)
        }
        Content::Markup { .. } => Ok(out),
    }
}

// The text that is put, as it stands in markup.
pub(crate) fn escaped_for(alloc: Global, put: Put<'_>) -> Result<Vec<u8>, AllocError>
    ensures { IfOk result (λ text. text.items ≡ text_markup (text_put put.entry)) }
{
    match put {
        Put::Content { content } => escaped_text(alloc, content),
        _ => Ok(Vec::new(alloc)),
    }
}

pub(crate) fn has_mark(page: &[u8]) -> bool
    ensures { result ≡ has_mark page.now }
{
    page.starts_with(b"\xEF\xBB\xBF")
}
