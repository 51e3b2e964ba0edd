//! Reads a start tag.
//!
//! Its attributes are put into the tag as they are read, and a tag whose end is broken is dropped:
//! to make it after its end is less code, and takes 3 in 100 more instructions on pages of short
//! tags.
ghost use Rattle.std.specs.Prelude.{◌≡◌, ◌≤◌, ◌<◌, ◌^◌, [], length, drop, IfOk, OnOk};
ghost use Rattle.tl_spec.specs.Lex.Attribute.{attributes};
ghost use Rattle.tl_spec.specs.Lex.AttributeList.{no_attributes};
ghost use Rattle.tl_spec.specs.Tree.Document.{tag_node};
ghost use Rattle.tl_lexer.specs.Span.{bytes_at, IsIn};
ghost use Rattle.tl_lexer.specs.TokenMeaning.{ended, start_tag_of};
ghost use Rattle.tl_attributes.specs.AttributesView.{plain, attributes_view};
ghost use Rattle.tl_attributes.specs.HeldAttributes.{AreRead, AreHeldAttributes};
ghost use Rattle.tl.specs.Builder.{read_of, source_tag};
ghost use Rattle.tl.specs.View.{tag_view, IsHeldTag};

use crate::parser::builder::attribute::read_attributes;
use crate::parser::builder::source::Source;
use crate::parser::tag::{HTMLTag, TagOf};
use std::alloc::{AllocError, Global};
use tl_attributes::attributes::AttributesOf;
use tl_bytes::byte_string::Bytes;
use tl_lexer::span::Span;
use tl_lexer::tag::{TagEnd, tag_end};
use tl_room::arena::Arena;

// Reads the attributes from a place on into a tag without any, and answers the place that ends
// them.
fn read_into<'a, S: Source<'a>>(
    alloc: Global,
    source: &S,
    tag: &mut HTMLTag<'a>,
    at: usize,
) -> Result<usize, AllocError>
    requires within { at ≤ length (S.text source.now) }
    requires empty { plain tag.old.attributes ≡ no_attributes }
    requires read { AreRead S.held tag.old.attributes }
    ensures kept { tag.new ≡ record tag.old { attributes = tag.new.attributes } }
    ensures read { IfOk result (λ end. (
      attributes_view tag.new.attributes,
      drop end
          (S.text source.now),
    ) ≡ read_of (attributes (drop at (S.text source.now)))) }
    ensures held { OnOk result (AreHeldAttributes S.held tag.new.attributes) }
    ensures order { IfOk result (λ end. at ≤ end) }
    ensures within { IfOk result (λ end. end ≤ length (S.text source.now)) }
{
    let end = read_attributes(alloc, source, tag.attributes_mut(), at)?;
    tag.refresh_summary();
    Ok(end)
}

/// Reads a start tag of this name that begins at `start` and whose attributes stand from `at` on:
/// its tag, how it ends, and the place after it. Nothing comes of the tag where the end is broken.
/// Its parts lie in the arena.
pub(crate) fn read_start_tag<'a, S: Source<'a>>(
    alloc: Global,
    arena: &mut Arena,
    source: &S,
    start: usize,
    name: Span,
    at: usize,
) -> Result<(HTMLTag<'a>, TagEnd, usize), AllocError>
    requires order { start < at }
    requires small { length (S.text source.now) < 2 ^ 32 }
    requires within { at ≤ length (S.text source.now) }
    requires name { IsIn (S.text source.now) name }
    ensures tag { IfOk result (λ found. tag_view found.0
        ≡ tag_node (S.text source.now) (source_tag (S.text source.now) name at start found.2) []) }
    ensures end { IfOk result (λ found. (
      ended (bytes_at (S.text source.now) name)
          (attributes (drop at (S.text source.now))).0 found.1,
      drop found.2 (S.text source.now),
    )
        ≡ start_tag_of (bytes_at (S.text source.now) name) (drop at (S.text source.now))) }
    ensures held { IfOk result (λ found. IsHeldTag S.held found.0) }
    ensures order { IfOk result (λ found. start < found.2) }
    ensures within { IfOk result (λ found. found.2 ≤ length (S.text source.now)) }
{
    let name = source.piece(alloc, name)?;
    let mut tag: HTMLTag<'a> = TagOf::new(
        alloc,
        arena,
        name,
        AttributesOf::new(alloc),
        Bytes::new(),
        start as u32,
    )?;
    let after = read_into(alloc, source, &mut tag, at)?;
    let (kind, end) = tag_end(source.as_bytes(), after);
    let len = end - start;
    let raw = source.piece(alloc, Span { start, len })?;
    tag.set_raw(raw);
    Ok((tag, kind, end))
}
