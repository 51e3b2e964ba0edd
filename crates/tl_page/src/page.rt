//! Pages.
ghost use Rattle.std.specs.Prelude.{◌≡◌, ◌<◌, ◌≤◌, [], length, sum_by, All, Err, IfErr, IfOk, IsOk, IsUtf8, OnOk};
ghost use Rattle.std.specs.Str.Lossy.{utf8_valid_len};
ghost use Rattle.tl_bytes.specs.Held.{borrowed};
ghost use Rattle.tl_spec.specs.Print.Clean.{IsCleanTable, IsTame};
ghost use Rattle.tl_spec.specs.Tree.Document.{document, node_and_attribute_count};
ghost use Rattle.tl_spec.specs.Tree.Forest.{forest, plain};
ghost use Rattle.tl_spec.specs.Tree.Order.{ChildrenFollowParents, DescendantsAreContiguous};
ghost use Rattle.tl_spec.specs.Walk.Range.{AreRangesOfDescendants};
ghost use Rattle.tl_spec.specs.Lex.Token.{tokens};
ghost use Rattle.tl.specs.View.{IsHeldNode, document_of, version_of};
ghost use Rattle.tl.specs.Tracked.{AnswerClasses, AnswerIds, AreAsked};
ghost use Rattle.tl_page.specs.Error.{no_text_at, too_long};
ghost use Rattle.tl_page.specs.Outcome.{Gives};
ghost use Rattle.tl_page.specs.Page.{IsPage, document_in};
ghost use Rattle.tl_page.specs.declared.failure.Failure.TheVariants.{NotUnderstood, OutOfMemory};

use crate::error::PageError;
use crate::failure::Failure;
use std::alloc::Global;
use tl::{ParserOptions, VDom, parse};

/// The text of a page. A page of more than 4294967295 bytes is too long to be read, whatever they
/// are, and else one that is no UTF-8 is told by how much of it is.
pub fn text(page: &[u8]) -> Result<&str, PageError>
    ensures text { IfOk result (λ text. text.now ≡ page.now) }
    ensures page { OnOk result (IsPage page.now) }
    ensures reads { IsPage page.now → IsOk result }
    ensures failure { IfErr result (λ error. error.failure ≡ NotUnderstood) }
    ensures long { u32.MAX < length page.now → result ≡ Err too_long }
    ensures no_text { length page.now ≤ u32.MAX → ¬ (IsUtf8 page.now)
        → result ≡ Err (no_text_at (utf8_valid_len page.now)) }
{
    if page.len() > u32::MAX as usize {
        return Err(PageError::too_long());
    }
    match std::str::from_utf8(page) {
        Ok(text) => Ok(text),
        Err(error) => Err(PageError::no_text(error.valid_up_to())),
    }
}

/// Reads a page into a document whose pieces are slices of it, as [`tl::parse`] does with a text.
/// To say what is wrong with a page that is none, ask for its [`text`] and read that.
pub fn read<'p>(alloc: Global, page: &'p [u8], options: ParserOptions) -> Result<VDom<'p>, Failure>
    ensures gives { Gives document_of (document_in page.now) result }

    // No want of memory hides that a page is no text, or too long.
    ensures no_text { ¬ (IsUtf8 page.now) → result ≡ Err NotUnderstood }
    ensures long { u32.MAX < length page.now → result ≡ Err NotUnderstood }
    ensures memory { IsPage page.now → IfErr result (λ failure. failure ≡ OutOfMemory) }
    ensures empty { page.now ≡ [] → IsOk result }

    // All that is known of a document that was just read.
    ensures document { IfOk result (λ d. document_of d ≡ document page.now) }
    ensures version { IfOk result (λ d. d.version ≡ version_of (document page.now).is_html5) }
    ensures borrowed { IfOk result (λ d. All (IsHeldNode borrowed) d.nodes) }
    ensures above { IfOk result (λ d. ChildrenFollowParents (document_of d).nodes) }
    ensures interval { IfOk result (λ d. DescendantsAreContiguous (document_of d).nodes) }
    ensures ranges { IfOk result (λ d. AreRangesOfDescendants (document_of d).nodes) }
    ensures size { IfOk result (λ d. sum_by node_and_attribute_count (document_of d).nodes
        ≤ length page.now) }
    ensures asked { IfOk result (λ d. AreAsked options d.tracking) }
    ensures ids { IfOk result (λ d. AnswerIds d.tracking (document page.now).nodes) }
    ensures classes { IfOk result (λ d. AnswerClasses d.tracking (document page.now).nodes) }
    ensures clean { IsTame (plain (forest (tokens page.now)))
        → IfOk result (λ d. IsCleanTable (document_of d).nodes (document_of d).top) }
{
    let text = text(page)?;
    Ok(parse(alloc, text, options)?)
}
