//! Attributes of a start tag.
ghost use Rattle.std.specs.Prelude.{◌≡◌, ◌≤◌, length, drop, IfOk, OnOk, IfSome};
ghost use Rattle.tl_spec.specs.Lex.Attribute.{attributes as attributes_at};
ghost use Rattle.tl_spec.specs.Lex.AttributeList.{no_attributes, with_pair};
ghost use Rattle.tl_lexer.specs.Span.{optional_bytes_at, pair_at, IsIn, ArePairIn};
ghost use Rattle.tl_attributes.specs.AttributesView.{value_view, attributes_view, plain};
ghost use Rattle.tl_attributes.specs.HeldAttributes.{IsHeld, AreHeldAttributes, AreRead};
ghost use Rattle.tl.specs.Builder.{read_of};

use crate::parser::builder::source::Source;
use std::alloc::{AllocError, Global};
use tl_attributes::attributes::Attributes;
use tl_bytes::byte_string::Bytes;
use tl_lexer::attribute::next_attribute;
use tl_lexer::span::{AttributeSpan, Span};

// The bytes of a span, where there is one.
fn optional_piece<'a, S: Source<'a>>(
    alloc: Global,
    source: &S,
    span: Option<Span>,
) -> Result<Option<Bytes<'a>>, AllocError>
    requires { IfSome span (IsIn (S.text source.now)) }
    ensures list { IfOk result (λ value. value_view value
        ≡ optional_bytes_at (S.text source.now) span) }
    ensures held { IfOk result (λ value. IfSome value (IsHeld S.held)) }
{
    match span {
        Some(span) => Ok(Some(source.piece(alloc, span)?)),
        None => Ok(None),
    }
}

// Inserts the attribute that stands at a place.
fn insert_at<'a, S: Source<'a>>(
    alloc: Global,
    source: &S,
    attributes: &mut Attributes<'a>,
    place: AttributeSpan,
) -> Result<(), AllocError>
    requires place { ArePairIn (S.text source.now) place }
    requires read { AreRead S.held attributes.old }
    ensures pair { OnOk result (plain attributes.new
        ≡ with_pair (plain attributes.old) (pair_at (S.text source.now) place)) }
    ensures read { OnOk result (AreRead S.held attributes.new) }
{
    let key = source.piece(alloc, place.key)?;
    let value = optional_piece(alloc, source, place.value)?;
    attributes.insert(key, value)
}

/// Reads the attributes from a place on into attributes without a key, and answers the place that
/// ends them.
pub(crate) fn read_attributes<'a, S: Source<'a>>(
    alloc: Global,
    source: &S,
    attributes: &mut Attributes<'a>,
    at: usize,
) -> Result<usize, AllocError>
    requires within { at ≤ length (S.text source.now) }
    requires empty { plain attributes.old ≡ no_attributes }
    requires read { AreRead S.held attributes.old }
    ensures read { IfOk result (λ end. (
      attributes_view attributes.new,
      drop end
          (S.text source.now),
    ) ≡ read_of (attributes_at (drop at (S.text source.now)))) }
    ensures held { OnOk result (AreHeldAttributes S.held attributes.new) }
    ensures order { IfOk result (λ end. at ≤ end) }
    ensures within { IfOk result (λ end. end ≤ length (S.text source.now)) }
{
    let text = source.as_bytes();
    let mut end = at;
    while let Some((place, after)) = next_attribute(text, end) {
        insert_at(alloc, source, attributes, place)?;
        end = after;
    }
    Ok(end)
}
