//! The calls with a page.
ghost use Rattle.std.specs.Prelude.{◌≡◌, ◌≢◌, ◌<◌, length, IsSome, None, Some, IsUtf8, take};
ghost use Rattle.tl_tree_safe.specs.Lists.{ListedWords};
ghost use Rattle.tl_tree_safe.specs.OwnLists.{blog_lists};
ghost use Rattle.tl_page.specs.Outcome.{success};
ghost use Rattle.tl_c.specs.Css.{IsTold, IsUnasked, wrong_in};
ghost use Rattle.tl_c.specs.Edits.{IsEditRefused, PutsEdited, patch_of_number};
ghost use Rattle.tl_c.specs.LentLists.{kept_with, lent_lists, lines_in, number_of_refusal, refusal_in, refused_word};
ghost use Rattle.tl_c.specs.Patches.{IsPatchRefused, PutsPatched, change_of_number};
ghost use Rattle.tl_c.specs.Policies.{kept_by, lists_of_number};
ghost use Rattle.tl_c.specs.Puts.{Puts};
ghost use Rattle.tl_c.specs.Removals.{AreRemovalsBy, PutsSome};
ghost use Rattle.tl_c.specs.SafePages.{IsSafe, kept_page};
ghost use Rattle.tl_html_spec.specs.HtmlTokenizer.{without_mark};

use crate::copy_out::{copy_items, copy_result};
use crate::element_edit::edit_elements;
use crate::lent_lists::LentLists;
use crate::own_policy::{lines_with, safe_page_with, word_refused};
use crate::page::safe_page;
use crate::patch::patch;
use crate::policy::safe_page_by;
use crate::removals::removals_with;
use std::alloc::Global;
use tl_page::VERSION;
use tl_tree_safe::Policy;

/// Prints what the policy for the text of a blog keeps of a page, which is read as browsers read
/// it: as what a `div` holds.
#[unsafe(no_mangle)]
pub extern "C" fn tl_sanitize_html(
    alloc: Global,
    page: &[u8],
    out: &mut [u8],
    needed: &mut usize,
) -> u8
    ensures put { Puts (kept_page blog_lists page.now) out.old out.new needed.new result }

    // As `sanitize_fragment` says of what it prints.
    ensures safe { result ≡ 0 →
        IsSafe blog_lists (without_mark page.now) (take needed.new out.new) }

    // No want of memory hides that a page is no text, or too long.
    ensures no_text { ¬ (IsUtf8 page.now) → result ≡ 2 }
    ensures long { u32.MAX < length page.now → result ≡ 2 }
{
    copy_result(safe_page(alloc, &Policy::blog(), page), out, needed)
}

/// Prints what the policy of a number keeps of a page: that for the text of a blog (0), for
/// comments of readers (1), or for documents (2). Another number is not understood.
#[unsafe(no_mangle)]
pub extern "C" fn tl_sanitize_html_by(
    alloc: Global,
    policy: u8,
    page: &[u8],
    out: &mut [u8],
    needed: &mut usize,
) -> u8
    ensures put { let kept = kept_by (lists_of_number policy) page.now in
        Puts kept out.old out.new needed.new result }

    // As `sanitize_fragment` says of what it prints.
    ensures safe { (p : ListedWords) → lists_of_number policy ≡ Some p → result ≡ 0
        → IsSafe p (without_mark page.now) (take needed.new out.new) }

    // No want of memory hides that there is no such policy, or that a page is no text, or too long.
    ensures no_policy { lists_of_number policy ≡ None → result ≡ 2 }
    ensures no_text { ¬ (IsUtf8 page.now) → result ≡ 2 }
    ensures long { u32.MAX < length page.now → result ≡ 2 }
{
    copy_result(safe_page_by(alloc, policy, page), out, needed)
}

/// Prints what a policy of lists that are lent keeps of a page. Lists that are no policy are
/// refused: `cause` is the number of why in `tl.h`, and else 0.
#[unsafe(no_mangle)]
pub extern "C" fn tl_sanitize_html_with(
    alloc: Global,
    lists: &LentLists<'_>,
    page: &[u8],
    out: &mut [u8],
    needed: &mut usize,
    cause: &mut u8,
) -> u8
    ensures put { Puts (kept_with lists.now page.now) out.old out.new needed.new result }

    // As `sanitize_fragment` says of what it prints.
    ensures safe { (p : ListedWords) → lent_lists lists.now ≡ success p → result ≡ 0
        → IsSafe p (without_mark page.now) (take needed.new out.new) }

    // Why the lists are no policy.
    ensures told { result ≡ 1
        → cause.new ≡ number_of_refusal (refusal_in (lent_lists lists.now)) }
    ensures lawful { result ≢ 1 → cause.new ≡ 0 }

    // No want of memory hides that a page is no text, or too long.
    ensures no_text { ¬ (IsUtf8 page.now) → result ≡ 2 }
    ensures long { u32.MAX < length page.now → result ≡ 2 }
{
    copy_result(safe_page_with(alloc, lists, page, cause), out, needed)
}

/// Writes what goes of a page by a policy of lists that are lent, in the order of the page: of each
/// element that goes, and of each attribute of one that stays, where its start tag begins and ends,
/// the number of why in `tl.h`, how many bytes its name and its key have, in 8 bytes each with the
/// lowest first, and both. Bytes are counted behind a byte order mark. Lists that are no policy are
/// refused: `cause` is the number of why in `tl.h`, and else 0.
#[unsafe(no_mangle)]
pub extern "C" fn tl_removed_html(
    alloc: Global,
    lists: &LentLists<'_>,
    page: &[u8],
    out: &mut [u8],
    needed: &mut usize,
    cause: &mut u8,
) -> u8
    ensures put { let lent = lent_lists lists.now in
        PutsSome (AreRemovalsBy lent (without_mark page.now)) (kept_with lists.now page.now)
        out.old out.new needed.new result }

    // Why the lists are no policy.
    ensures told { result ≡ 1
        → cause.new ≡ number_of_refusal (refusal_in (lent_lists lists.now)) }
    ensures lawful { result ≢ 1 → cause.new ≡ 0 }

    // No want of memory hides that a page is no text, or too long.
    ensures no_text { ¬ (IsUtf8 page.now) → result ≡ 2 }
    ensures long { u32.MAX < length page.now → result ≡ 2 }
{
    copy_result(removals_with(alloc, lists, page, cause), out, needed)
}

/// Writes the options of `tl sanitize` that say lists that are lent, one on each line, whether they
/// are a policy or not.
#[unsafe(no_mangle)]
pub extern "C" fn tl_list_options(
    alloc: Global,
    lists: &LentLists<'_>,
    out: &mut [u8],
    needed: &mut usize,
) -> u8
    ensures put { let lines = lines_in (lent_lists lists.now) in
        Puts lines out.old out.new needed.new result }
{
    copy_result(lines_with(alloc, lists), out, needed)
}

/// Writes the first word for which lists that are lent are no policy; `cause` is the number of why
/// in `tl.h`. Of lists that are a policy that is refused, and `cause` is 0.
#[unsafe(no_mangle)]
pub extern "C" fn tl_refused_word(
    alloc: Global,
    lists: &LentLists<'_>,
    out: &mut [u8],
    needed: &mut usize,
    cause: &mut u8,
) -> u8
    ensures put { let word = refused_word (lent_lists lists.now) in
        Puts word out.old out.new needed.new result }
    ensures told { result ≢ 3
        → cause.new ≡ number_of_refusal (refusal_in (lent_lists lists.now)) }
    ensures lost { result ≡ 3 → cause.new ≡ 0 }
{
    let word = word_refused(alloc, lists, cause);
    copy_result(word, out, needed)
}

/// Prints a page with a key set (0) or unset (1) in the start tag of each element where a selector
/// of CSS holds, and with each other byte as it was. Another number is not understood. A text that
/// is no selector is refused: `place` is its first byte that is wrong, and `cause` the number of
/// the cause in `tl.h`. Where a tag can't be changed so that the page is read as asked, that is
/// refused with its place in the page. Else both are 0.
#[unsafe(no_mangle)]
pub extern "C" fn tl_patch_css(
    alloc: Global,
    edit: u8,
    selector: &[u8],
    key: &[u8],
    value: &[u8],
    page: &[u8],
    out: &mut [u8],
    needed: &mut usize,
    place: &mut usize,
    cause: &mut u8,
) -> u8
    ensures patched { let change = change_of_number edit key.now value.now in
        PutsPatched selector.now change page.now out.old out.new needed.new result }
    ensures done { result ≡ 0 → (place.new ≡ 0) × (cause.new ≡ 0) }

    // Of what is no selector the first byte that is wrong, and why.
    ensures wrong { IsSome (wrong_in selector.now) → result ≢ 3
        → (result ≡ 1) × IsTold (wrong_in selector.now) place.new cause.new }

    // Of a selector, where and why nothing can be changed so.
    ensures refused { wrong_in selector.now ≡ None → result ≡ 1 →
        let change = change_of_number edit key.now value.now in
        IsPatchRefused selector.now change page.now place.new cause.new }

    // When nothing can be asked.
    ensures understood { result ≡ 2 →
        IsUnasked selector.now (change_of_number edit key.now value.now) page.now }
{
    let patched = patch(alloc, edit, selector, key, value, page, place, cause);
    copy_result(patched, out, needed)
}

/// Prints a page with each element changed where a selector of CSS holds, and with each other byte
/// as it was: it gets another name (0), goes (1), or its tags go (2); or content stands in its
/// place (3), in that of what is in it (4), first (5) or last (6) in it, before (7) or after it
/// (8). The content is a text (0), which is escaped, or markup (1). Other numbers are not
/// understood. A text that is no selector is refused: `place` is its first byte that is wrong, and
/// `cause` the number of the cause in `tl.h`. Where an element can't be changed so that the page is
/// read as asked, that is refused with its place in the page. Else both are 0.
#[unsafe(no_mangle)]
pub extern "C" fn tl_edit_css(
    alloc: Global,
    edit: u8,
    form: u8,
    selector: &[u8],
    content: &[u8],
    page: &[u8],
    out: &mut [u8],
    needed: &mut usize,
    place: &mut usize,
    cause: &mut u8,
) -> u8
    ensures edited { let patch = patch_of_number edit form content.now in
        PutsEdited selector.now patch page.now out.old out.new needed.new result }
    ensures done { result ≡ 0 → (place.new ≡ 0) × (cause.new ≡ 0) }

    // Of what is no selector the first byte that is wrong, and why.
    ensures wrong { IsSome (wrong_in selector.now) → result ≢ 3
        → (result ≡ 1) × IsTold (wrong_in selector.now) place.new cause.new }

    // Of a selector, where and why nothing can be changed so.
    ensures refused { wrong_in selector.now ≡ None → result ≡ 1 →
        let patch = patch_of_number edit form content.now in
        IsEditRefused selector.now patch page.now place.new cause.new }

    // When nothing can be asked.
    ensures understood { result ≡ 2 →
        IsUnasked selector.now (patch_of_number edit form content.now) page.now }
{
    let edited = edit_elements(alloc, edit, form, selector, content, page, place, cause);
    copy_result(edited, out, needed)
}

/// Writes the version. That takes no memory.
#[unsafe(no_mangle)]
pub extern "C" fn tl_version(out: &mut [u8], needed: &mut usize) -> u8
    ensures put { Puts (success VERSION.now) out.old out.new needed.new result }
    ensures memory { result ≢ 3 }
{
    copy_items(VERSION.as_bytes(), out, needed)
}
