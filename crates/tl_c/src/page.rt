//! What a policy keeps of a page.
ghost use Rattle.std.specs.Prelude.{◌≡◌, ◌<◌, length, Err, IfOk, IsUtf8};
ghost use Rattle.tl_html_spec.specs.HtmlTokenizer.{without_mark};
ghost use Rattle.tl_tree_safe.specs.OfPolicy.{lists_of};
ghost use Rattle.tl_page.specs.Outcome.{Gives};
ghost use Rattle.tl_page.specs.declared.failure.Failure.TheVariants.{NotUnderstood};
ghost use Rattle.tl_c.specs.SafePages.{IsSafe, failure_of, kept_page};

use std::alloc::Global;
use tl_page::{Failure, text};
use tl_tree::ReadError;
use tl_tree_safe::{Policy, sanitize_fragment, without_mark};

/// Why a text is not read.
pub(crate) fn failure_of(error: ReadError) -> Failure
    ensures { result ≡ failure_of error }
{
    match error {
        ReadError::OutOfMemory | ReadError::TooLarge => Failure::OutOfMemory,
        ReadError::OutOfProportion { .. } => Failure::NotUnderstood,
    }
}

/// What a policy keeps of a page, which is read as what a `div` holds, printed.
pub(crate) fn safe_page(alloc: Global, policy: &Policy<'_>, page: &[u8]) -> Result<Vec<u8>, Failure>
    ensures gives { let kept = kept_page (lists_of policy.now) page.now in
        Gives (λ safe. safe.items) kept result }
    ensures no_text { ¬ (IsUtf8 page.now) → result ≡ Err NotUnderstood }
    ensures long { u32.MAX < length page.now → result ≡ Err NotUnderstood }
    ensures safe { IfOk result (λ safe.
        IsSafe (lists_of policy.now) (without_mark page.now) safe.items) }
{
    let text = text(page)?;
    match sanitize_fragment(alloc, policy, without_mark(text.as_bytes())) {
        Ok(safe) => Ok(safe),
        Err(error) => Err(failure_of(error)),
    }
}
