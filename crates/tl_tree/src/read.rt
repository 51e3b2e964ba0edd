//! Pages and fragments are read into trees.
ghost use Rattle.std.specs.Prelude.{Err, IfOk, false, length, true, ◌<◌, ◌^◌, ◌≡◌, ℕ};
ghost use Rattle.tl_dom_spec.specs.HtmlTree.{fragment_read, html_fragment_by, html_tree_by, is_fragment_in_proportion_by, is_in_proportion_by};
ghost use Rattle.tl_tree.specs.Contexts.{context_of};
ghost use Rattle.tl_tree.specs.Inner.Builders.{flags_of};
ghost use Rattle.tl_tree.specs.Rows.{rows_of};
ghost use Rattle.tl_tree.specs.Sources.{AreSourced, IsOutOfProportionAt, fragment_begin, page_begin};
ghost use Rattle.tl_tree.specs.TreeView.{rows_in};

use crate::builder::Flags;
use crate::context::Context;
use crate::error::ReadError;
use crate::reader::Reader;
use crate::test::Test;
use crate::tree::Tree;
use std::alloc::Global;

impl<'p> Tree<'p> {
    /// The tree that the HTML standard builds of the bytes of a page, read once.
    ///
    /// A byte order mark is no part of it. It is refused where memory runs out, where the page or
    /// its tree is too large for numbers of 32 bits, and where the tree is out of proportion to the
    /// page: where more than four elements for each token, and 65,536 beside, were put in or opened
    /// again that no start tag stands for. Such a page is not read further, and the byte is that
    /// behind the piece of it (a token, a text) that was read last.
    pub fn read(alloc: Global, page: &'p [u8], flags: Flags) -> Result<Tree<'p>, ReadError>
        ensures tree { IfOk result (λ tree.
            rows_in tree ≡ rows_of (html_tree_by (flags_of flags) page.now).trees) }
        ensures quirks { IfOk result (λ tree.
            tree.is_quirks ≡ (html_tree_by (flags_of flags) page.now).is_quirks) }
        ensures sources { IfOk result (λ tree.
            AreSourced page.now (page_begin (flags_of flags) page.now) tree) }
        ensures in_proportion { IfOk result (λ tree.
            is_in_proportion_by (flags_of flags) page.now ≡ true) }
        ensures out_of_proportion { (at : ℕ) →
            result ≡ Err (ReadError.OutOfProportion at) →
            is_in_proportion_by (flags_of flags) page.now ≡ false }
        ensures place { (at : ℕ) → result ≡ Err (ReadError.OutOfProportion at) →
            IsOutOfProportionAt page.now (page_begin (flags_of flags) page.now) at }
        ensures short { IfOk result (λ _. length page.now < 2 ^ 32) }
    {
        let reader = Reader::new(alloc, page, flags)?;
        reader.into_tree(Test::Nothing)
    }

    /// The trees that the HTML standard builds of a text in a context element (13.4), read once:
    /// the children that the element has once the text is set as its inner HTML.
    ///
    /// What looks like a byte order mark is part of the text. A text is refused where
    /// `Tree::read` refuses a page.
    pub fn read_fragment(
        alloc: Global,
        text: &'p [u8],
        context: Context<'_>,
        flags: Flags,
    ) -> Result<Tree<'p>, ReadError>
        ensures tree { IfOk result (λ tree. rows_in tree
            ≡ rows_of (html_fragment_by (flags_of flags) (context_of context.entry) text.now)) }
        ensures quirks { IfOk result (λ tree. tree.is_quirks
            ≡ (fragment_read (flags_of flags) (context_of context.entry) text.now).is_quirks) }
        ensures sources { IfOk result (λ tree. AreSourced text.now
            (fragment_begin (flags_of flags) (context_of context.entry)) tree) }
        ensures in_proportion { IfOk result (λ tree.
            is_fragment_in_proportion_by (flags_of flags) (context_of context.entry) text.now
            ≡ true) }
        ensures out_of_proportion { (at : ℕ) →
            result ≡ Err (ReadError.OutOfProportion at) →
            is_fragment_in_proportion_by (flags_of flags) (context_of context.entry) text.now
            ≡ false }
        ensures place { (at : ℕ) → result ≡ Err (ReadError.OutOfProportion at) →
            IsOutOfProportionAt text.now
            (fragment_begin (flags_of flags) (context_of context.entry)) at }
        ensures short { IfOk result (λ _. length text.now < 2 ^ 32) }
    {
        let reader = Reader::for_fragment(alloc, text, context, flags)?;
        reader.into_tree(Test::Number(1))
    }
}
