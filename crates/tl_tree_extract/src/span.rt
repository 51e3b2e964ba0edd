//! Parts of a value.
ghost use Rattle.std.specs.Prelude.{◌≡◌};
ghost use Rattle.tl_tree_extract.specs.Spans.{part_said, trimmed, up_to};

use crate::run::{Run, behind, length_without};

/// Bytes, and where in a value they stand.
#[derive(Clone, Copy)]
pub struct Part<'v> {
    pub start: usize,
    pub bytes: &'v [u8],
}

/// What is left of the front of a rest, up to where a later rest begins.
pub fn up_to<'v>(rest: &'v [u8], later: &[u8]) -> &'v [u8]
    ensures { result.now ≡ up_to rest.now later.now }
{
    &rest[..rest.len().saturating_sub(later.len())]
}

/// A URL without controls and spaces around it, which stands at the front of what is left of so
/// many bytes.
pub fn trimmed<'v>(whole: usize, rest: &[u8], url: &'v [u8]) -> Part<'v>
    ensures { part_said result ≡ trimmed whole rest.now url.now }
{
    let inner = behind(Run::Edge, url);
    let before = url.len().saturating_sub(inner.len());
    let left = rest.len().saturating_sub(before);
    Part {
        start: whole.saturating_sub(left),
        bytes: &inner[..length_without(Run::Edge, inner)],
    }
}
