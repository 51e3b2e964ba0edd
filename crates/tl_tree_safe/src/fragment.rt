//! Texts made safe for a browser.
ghost use Rattle.std.specs.Prelude.{Bool, IfErr, IfOk, List, None, false, true, ℕ, ◌++◌, ◌≡◌};
ghost use Rattle.tl_dom_spec.specs.HtmlForest.{HtmlForest};
ghost use Rattle.tl_dom_spec.specs.HtmlTree.{Context as ContextElement, context_of, html_fragment, standard};
ghost use Rattle.tl_dom_spec.specs.Partial.{is_flow_context, without_numbers};
ghost use Rattle.tl_html_print.specs.Again.{built_in};
ghost use Rattle.tl_html_print.specs.ReadAgain.{tokens_of_trees};
ghost use Rattle.tl_html_print.specs.Serialized.{serialized};
ghost use Rattle.tl_html_spec.specs.HtmlTokenizer.{data_state, without_mark};
ghost use Rattle.tl_html_spec.specs.Reader.{at, tokens_of};
ghost use Rattle.tl_tree.specs.Rows.{rows_of};
ghost use Rattle.tl_tree.specs.TreeView.{rows_in};
ghost use Rattle.tl_tree_safe.specs.InDiv.{IsUnreadInDiv, div, is_in_proportion_in_div, kept_in_div, safe_print};
ghost use Rattle.tl_tree_safe.specs.Joined.{texts_joined};
ghost use Rattle.tl_tree_safe.specs.KeptFitted.{kept_fitted};
ghost use Rattle.tl_tree_safe.specs.Listed.{are_listed};
ghost use Rattle.tl_tree.specs.Sources.{AreSourced, fragment_begin, source_at};
ghost use Rattle.tl_tree_safe.specs.OfPolicy.{lists_of};
ghost use Rattle.tl_tree_safe.specs.RemovalForms.{removals_written};
ghost use Rattle.tl_tree_safe.specs.Removed.{removed};
ghost use Rattle.tl_tree_safe.specs.RemovedLines.{TellRemoved, removed_lines};

use crate::policy::Policy;
use crate::removal_form::{RemovalForm, removals_in};
use crate::removed_lines::Lines;
use crate::sanitizer::{sanitize, sanitize_telling};
use std::alloc::{AllocError, Global};
use tl_lines::LineIndex;
use tl_tree::{Context, Flags, Namespace, ReadError, Tree};

/// A page without its byte order mark, which is no part of its text.
pub fn without_mark(page: &[u8]) -> &[u8]
    ensures { result.now ≡ without_mark page.now }
{
    if page.starts_with(b"\xEF\xBB\xBF") {
        &page[3..]
    } else {
        page
    }
}

/// Reads a text as what a `div` holds, of which `sanitize` and `sanitize_telling` print what a
/// policy keeps. It is refused as `sanitize_fragment` refuses it.
pub fn read_in_div(alloc: Global, text: &[u8]) -> Result<Tree<'_>, ReadError>
    ensures tree { IfOk result (λ tree. rows_in tree ≡ rows_of (html_fragment div text.now)) }
    ensures sources { IfOk result (λ tree.
        AreSourced text.now (fragment_begin standard (context_of div)) tree) }
    ensures in_proportion { IfOk result (λ tree. is_in_proportion_in_div text.now ≡ true) }
    ensures told { IfErr result (IsUnreadInDiv text.now) }
{
    let context = Context {
        namespace: Namespace::Html,
        name: b"div",
        attributes: &[],
        is_in_form: false,
        is_quirks: false,
    };
    let flags = Flags {
        is_scripting: false,
        counts_search: true,
    };
    Tree::read_fragment(alloc, text, context, flags)
}

// Prints what a policy keeps of a tree.
fn print_kept(alloc: Global, policy: &Policy<'_>, tree: &Tree<'_>) -> Result<Vec<u8>, AllocError>
    ensures { (trees : HtmlForest) → rows_in tree.now ≡ rows_of trees →
        IfOk result (λ page. page.items
        ≡ serialized false None (kept_fitted (lists_of policy.now) trees)) }
{
    let mut page = Vec::new(alloc);
    sanitize(alloc, policy, tree, &mut page)?;
    Ok(page)
}

/// Reads a text as what a `div` holds, and prints what a policy keeps of it.
///
/// It is refused where memory runs out, and where `Tree::read_fragment` refuses the text: it or its
/// trees are too large, or these are out of proportion to it.
pub fn sanitize_fragment(
    alloc: Global,
    policy: &Policy<'_>,
    text: &[u8],
) -> Result<Vec<u8>, ReadError>
    ensures print { IfOk result (λ page. page.items ≡ safe_print (lists_of policy.now) text.now) }

    // Also where other markup follows, the standard's tokenizer reads its tags and texts alone.
    ensures read { (rest : List ℕ) → IfOk result (λ page.
        tokens_of (at data_state) (page.items ++ rest)
        ≡ tokens_of_trees (kept_in_div (lists_of policy.now) text.now)
        ++ tokens_of (at data_state) rest) }

    // The standard's tree construction builds exactly its trees in each context element of flow
    // content, as `div`, `body`, `li` and `td`, in quirks mode and not.
    ensures built { (context : ContextElement) (counts_search : Bool) →
        is_flow_context context ≡ true → IfOk result (λ page.
        without_numbers (built_in context counts_search page.items)
        ≡ without_numbers (texts_joined (kept_in_div (lists_of policy.now) text.now))) }
    ensures listed { IfOk result (λ page.
        are_listed (lists_of policy.now) (tokens_of (at data_state) page.items) ≡ true) }

    // When it is refused.
    ensures in_proportion { IfOk result (λ page. is_in_proportion_in_div text.now ≡ true) }
    ensures told { IfErr result (IsUnreadInDiv text.now) }
{
    let tree = read_in_div(alloc, text)?;
    let Ok(page) = print_kept(alloc, policy, &tree) else {
        return Err(ReadError::OutOfMemory);
    };
    Ok(page)
}

/// What is printed of a text, and what is told of what went of it: lines, or another form.
#[derive(Drop)]
pub struct ToldPage {
    pub page: Vec<u8>,
    pub lines: Vec<u8>,
}

/// Prints what a policy keeps of a tree, and tells what goes in a form.
pub fn print_telling<F: RemovalForm>(
    alloc: Global,
    policy: &Policy<'_>,
    tree: &Tree<'_>,
    form: &F,
) -> Result<ToldPage, AllocError>
    ensures print { (trees : HtmlForest) → rows_in tree.now ≡ rows_of trees →
        IfOk result (λ told. told.page.items
        ≡ serialized false None (kept_fitted (lists_of policy.now) trees)) }
    ensures told { (trees : HtmlForest) → rows_in tree.now ≡ rows_of trees →
        IfOk result (λ told. told.lines.items ≡ removals_written (F.written form.now)
        (source_at tree.now) (rows_in tree.now) (removed (lists_of policy.now) trees)) }
{
    let mut page = Vec::new(alloc);
    let mut removals = Vec::new(alloc);
    sanitize_telling(alloc, policy, tree, &mut page, &mut removals)?;
    let lines = removals_in(alloc, form, tree, &removals)?;
    Ok(ToldPage { page, lines })
}

// Prints what a policy keeps of the tree of a text, and tells what goes in lines.
fn print_lines(
    alloc: Global,
    policy: &Policy<'_>,
    tree: &Tree<'_>,
    text: &[u8],
    file: &str,
) -> Result<ToldPage, AllocError>
    ensures print { (trees : HtmlForest) → rows_in tree.now ≡ rows_of trees →
        IfOk result (λ told. told.page.items
        ≡ serialized false None (kept_fitted (lists_of policy.now) trees)) }
    ensures told { (trees : HtmlForest) → rows_in tree.now ≡ rows_of trees →
        IfOk result (λ told. told.lines.items ≡ removed_lines file.now text.now
        (source_at tree.now) (rows_in tree.now) (removed (lists_of policy.now) trees)) }
{
    let index = LineIndex::new(alloc, text)?;
    print_telling(alloc, policy, tree, &Lines { alloc, index, file })
}

/// Prints what `sanitize_fragment` prints of a text, and tells what goes of what was written in it:
/// a line for each element and attribute, with the name of a file, and the line and the column of
/// the element's start tag, as `FILE:LINE:COLUMN: <NAME KEY>: WHY`.
pub fn sanitize_fragment_telling(
    alloc: Global,
    policy: &Policy<'_>,
    text: &[u8],
    file: &str,
) -> Result<ToldPage, ReadError>
    ensures print { IfOk result (λ told.
        told.page.items ≡ safe_print (lists_of policy.now) text.now) }
    ensures lines { IfOk result (λ told.
        TellRemoved (lists_of policy.now) file.now text.now told.lines.items) }

    // When it is refused.
    ensures in_proportion { IfOk result (λ told. is_in_proportion_in_div text.now ≡ true) }
    ensures told { IfErr result (IsUnreadInDiv text.now) }
{
    let tree = read_in_div(alloc, text)?;
    match print_lines(alloc, policy, &tree, text, file) {
        Ok(told) => Ok(told),
        Err(AllocError) => Err(ReadError::OutOfMemory),
    }
}
