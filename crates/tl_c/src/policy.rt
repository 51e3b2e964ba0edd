//! The policies that have a number in the header.
ghost use Rattle.std.specs.Prelude.{◌≡◌, ◌<◌, length, Err, IfOk, IsUtf8, None, Some};
ghost use Rattle.std.specs.Option.{option_map};
ghost use Rattle.tl_html_spec.specs.HtmlTokenizer.{without_mark};
ghost use Rattle.tl_tree_safe.specs.Lists.{ListedWords};
ghost use Rattle.tl_tree_safe.specs.OfPolicy.{lists_of};
ghost use Rattle.tl_page.specs.Outcome.{Gives};
ghost use Rattle.tl_page.specs.declared.failure.Failure.TheVariants.{NotUnderstood};
ghost use Rattle.tl_c.specs.Policies.{kept_by, lists_of_number};
ghost use Rattle.tl_c.specs.SafePages.{IsSafe};

use crate::page::safe_page;
use std::alloc::Global;
use tl_page::Failure;
use tl_tree_safe::Policy;

// The policy of a number, if it has one.
pub(crate) fn policy_of(number: u8) -> Option<Policy<'static>>
    ensures { option_map lists_of result ≡ lists_of_number number }
{
    match number {
        0 => Some(Policy::blog()),
        1 => Some(Policy::comments()),
        2 => Some(Policy::documents()),
        _ => None,
    }
}

/// What the policy of a number keeps of a page, printed. Another number is not understood.
pub(crate) fn safe_page_by(alloc: Global, number: u8, page: &[u8]) -> Result<Vec<u8>, Failure>
    ensures gives { Gives (λ safe. safe.items) (kept_by (lists_of_number number) page.now) result }
    ensures no_policy { lists_of_number number ≡ None → result ≡ Err NotUnderstood }
    ensures no_text { ¬ (IsUtf8 page.now) → result ≡ Err NotUnderstood }
    ensures long { u32.MAX < length page.now → result ≡ Err NotUnderstood }
    ensures safe { (p : ListedWords) → lists_of_number number ≡ Some p
        → IfOk result (λ safe. IsSafe p (without_mark page.now) safe.items) }
{
    match policy_of(number) {
        Some(policy) => safe_page(alloc, &policy, page),
        None => Err(Failure::NotUnderstood),
    }
}
