//! Reads HTML into a table of nodes that borrow from the text, and prints it again.
#![tactic(auto)]

ghost use Rattle.std.specs.Prelude.{◌≡◌, ◌↔◌, ◌<◌, ◌≤◌, [], length, sum_by, string_bytes, IfOk, IsOk, IsErrOf, All};
ghost use Rattle.tl_spec.specs.Print.Clean.{IsTame, IsCleanTable};
ghost use Rattle.tl_spec.specs.Tree.Document.{document, node_and_attribute_count};
ghost use Rattle.tl_spec.specs.Tree.Forest.{forest, plain};
ghost use Rattle.tl_spec.specs.Tree.Order.{ChildrenFollowParents, DescendantsAreContiguous};
ghost use Rattle.tl_spec.specs.Walk.Range.{AreRangesOfDescendants};
ghost use Rattle.tl_spec.specs.Lex.Token.{tokens};
ghost use Rattle.tl_bytes.specs.Held.{borrowed, shared};
ghost use Rattle.tl.specs.View.{document_of, version_of, IsHeldNode};
ghost use Rattle.tl.specs.Tracked.{AreAsked, AnswerIds, AnswerClasses};
ghost use Rattle.tl.specs.declared.errors.ParseError.TheVariants.{InvalidLength};

pub mod errors;
pub mod laws;
mod parser;
pub mod queryselector;
mod vdom;
mod walk;

/// Byte strings.
pub mod bytes {
    pub use tl_bytes::byte_string::{Bytes, IntoOwnedBytes};
}

pub use errors::ParseError;
pub use parser::base::{ClassVec, HTMLVersion, Parser, ParserOf, Tree};
use parser::builder::source::Source;
pub use parser::tag::children::{Children, ChildrenOf};
pub use parser::tag::children_mut::{ChildrenMut, ChildrenMutOf};
pub use parser::tag::node::{Node, NodeOf};
pub use parser::tag::{HTMLTag, RawChildren, TagOf};
pub use queryselector::{QueryIterable, parse_query_selector};
use std::alloc::Global;
pub use tl_attributes::attributes::{Attributes, AttributesOf, RawAttributesMap};
pub use tl_attributes::attributes_iter::AttributesIter;
pub use tl_attributes::class_iter::ClassIter;
pub use tl_attributes::summary::{Fingerprint, IdSummary, Summary, SummaryOf};
use tl_bytes::byte_string::Shared;
pub use tl_bytes::byte_string::{Bytes, IntoOwnedBytes};
pub use tl_bytes::simd;
pub use tl_inline::inline;
pub use tl_table::element::Element;
pub use tl_table::handle::{InnerNodeHandle, NodeHandle};
pub use tl_tracking::ParserOptions;
pub use vdom::guard::{VDomGuard, VDomGuardOf};
pub use vdom::lookup::ElementsByClassName;
pub use vdom::{VDom, VDomOf};
pub use walk::WalkEvent;
pub use walk::preorder::Walk;

// Reads the text of a source into a document, and tracks what the options ask for.
fn read_document<'a, S: Source<'a>>(
    alloc: Global,
    source: &S,
    options: ParserOptions,
) -> Result<VDom<'a>, ParseError>
    ensures length { IsErrOf result InvalidLength ↔ (u32.MAX < length (S.text source.now)) }
    ensures empty { S.text source.now ≡ [] → IsOk result }
    ensures document { IfOk result (λ d. document_of d ≡ document (S.text source.now)) }
    ensures version { IfOk result (λ d. d.version
        ≡ version_of (document (S.text source.now)).is_html5) }
    ensures held { IfOk result (λ d. All (IsHeldNode S.held) d.nodes) }
    ensures above { IfOk result (λ d. ChildrenFollowParents (document_of d).nodes) }
    ensures interval { IfOk result (λ d. DescendantsAreContiguous (document_of d).nodes) }
    ensures ranges { IfOk result (λ d. AreRangesOfDescendants (document_of d).nodes) }
    ensures size { IfOk result (λ d. sum_by node_and_attribute_count (document_of d).nodes
        ≤ length (S.text source.now)) }
    ensures asked { IfOk result (λ d. AreAsked options d.tracking) }
    ensures ids { IfOk result (λ d. AnswerIds d.tracking (document (S.text source.now)).nodes) }
    ensures classes { IfOk result (λ d. AnswerClasses d.tracking
        (document (S.text source.now)).nodes) }
    ensures clean { IsTame (plain (forest (tokens (S.text source.now))))
        → IfOk result (λ d. IsCleanTable (document_of d).nodes (document_of d).top) }
{
    let mut parser = parser::builder::read(alloc, source)?;
    parser.track(alloc, options)?;
    Ok(VDom::from(parser))
}

/// Reads a text into a document whose pieces are slices of it.
///
/// Markup that is broken is dropped without a fault. A text longer than 4294967295 bytes is refused
/// before any memory is taken. The nodes stand in the order of the text: what hangs below a tag is
/// the nodes right after it, and these are the tag's range. The ids and classes that `options` ask
/// for are tracked in one pass over the nodes; no later edit changes what was tracked.
pub fn parse<'a>(
    alloc: Global,
    text: &'a str,
    options: ParserOptions,
) -> Result<VDom<'a>, ParseError>
    ensures length { IsErrOf result InvalidLength ↔ (u32.MAX < length text.now) }
    ensures document { IfOk result (λ d. document_of d ≡ document text.now) }

    // The document of the empty text takes no memory.
    ensures empty { text.now ≡ [] → IsOk result }
    ensures version { IfOk result (λ d. d.version ≡ version_of (document text.now).is_html5) }
    ensures borrowed { IfOk result (λ d. All (IsHeldNode borrowed) d.nodes) }

    // What callers go by who count nodes: their order, the ranges of tags, and that they and their
    // attributes are no more than the bytes.
    ensures above { IfOk result (λ d. ChildrenFollowParents (document_of d).nodes) }
    ensures interval { IfOk result (λ d. DescendantsAreContiguous (document_of d).nodes) }
    ensures ranges { IfOk result (λ d. AreRangesOfDescendants (document_of d).nodes) }
    ensures size { IfOk result (λ d. sum_by node_and_attribute_count (document_of d).nodes
        ≤ length text.now) }

    // What is tracked answers as a scan of the table that was read.
    ensures asked { IfOk result (λ d. AreAsked options d.tracking) }
    ensures ids { IfOk result (λ d. AnswerIds d.tracking (document text.now).nodes) }
    ensures classes { IfOk result (λ d. AnswerClasses d.tracking (document text.now).nodes) }

    // So what `outer_html` says of a clean table is said of a text with tame trees.
    ensures clean { IsTame (plain (forest (tokens text.now)))
        → IfOk result (λ d. IsCleanTable (document_of d).nodes (document_of d).top) }
{
    read_document(alloc, &text, options)
}

/// Reads a text into a document that keeps it: its pieces are shares of the one text, which is not
/// copied.
///
/// It reads, tracks and refuses as [`parse`] does. A text that is refused is given up.
pub fn parse_owned(
    alloc: Global,
    text: String,
    options: ParserOptions,
) -> Result<VDomGuard, ParseError>
    ensures length { IsErrOf result InvalidLength ↔ (u32.MAX < length (string_bytes text)) }
    ensures document { IfOk result (λ d. document_of d ≡ document (string_bytes text)) }
    ensures version { IfOk result (λ d. d.version
        ≡ version_of (document (string_bytes text)).is_html5) }
    ensures shared { IfOk result (λ d. All (IsHeldNode shared) d.nodes) }

    // What callers go by who count nodes: their order, the ranges of tags, and that they and their
    // attributes are no more than the bytes.
    ensures above { IfOk result (λ d. ChildrenFollowParents (document_of d).nodes) }
    ensures interval { IfOk result (λ d. DescendantsAreContiguous (document_of d).nodes) }
    ensures ranges { IfOk result (λ d. AreRangesOfDescendants (document_of d).nodes) }
    ensures size { IfOk result (λ d. sum_by node_and_attribute_count (document_of d).nodes
        ≤ length (string_bytes text)) }

    // What is tracked answers as a scan of the table that was read.
    ensures asked { IfOk result (λ d. AreAsked options d.tracking) }
    ensures ids { IfOk result (λ d. AnswerIds d.tracking (document (string_bytes text)).nodes) }
    ensures classes { IfOk result (λ d. AnswerClasses d.tracking
        (document (string_bytes text)).nodes) }

    // So what `outer_html` says of a clean table is said of a text with tame trees.
    ensures clean { IsTame (plain (forest (tokens (string_bytes text))))
        → IfOk result (λ d. IsCleanTable (document_of d).nodes (document_of d).top) }
{
    // Before the memory that the shares of the text are counted in.
    if text.len() > u32::MAX as usize {
        return Err(ParseError::InvalidLength);
    }
    let source = Shared::new(alloc, text)?;
    let document = read_document(alloc, &source, options)?;
    Ok(VDomGuard::new(document))
}
