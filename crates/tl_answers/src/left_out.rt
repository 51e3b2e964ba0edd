//! What is left out of texts.
ghost use Rattle.std.specs.Option.{option_copied};
ghost use Rattle.std.specs.Prelude.{IfOk, List, length, ℕ, ◌≡◌};
ghost use Rattle.tl_answers.specs.Inner.Within.{withins_before};
ghost use Rattle.tl_answers.specs.LeftOut.{AreLeftOut, is_within, marks_in};
ghost use Rattle.tl_tree.specs.TreeView.{rows_in};
ghost use Rattle.tl_tree_extract.specs.Boxes.{is_left_out};
ghost use Rattle.tl_tree_select.specs.Meaning.{AreFound};
ghost use Rattle.tl_tree_select.specs.Page.{page_of};

use std::alloc::{AllocError, Global};
use tl_css::Selector;
use tl_tree::Tree;
use tl_tree_extract::marks_of;
use tl_tree_select::select;

// A mark for each node of a page, of those where a selector holds; none where it holds nowhere.
fn marks_where(alloc: Global, tree: &Tree<'_>, selector: &Selector) -> Result<Vec<bool>, AllocError>
    ensures { (ns : List ℕ) → AreFound (page_of tree.now) selector.now ns →
        IfOk result (λ marks. marks.items ≡ marks_in (rows_in tree.now) ns) }
{
    let numbers = select(alloc, tree, selector)?;
    if numbers.is_empty() {
        return Ok(Vec::new(alloc));
    }
    marks_of(alloc, tree, &numbers)
}

/// A mark for each node of a page, of those that are left out; none where none is.
pub(crate) fn left_out(
    alloc: Global,
    tree: &Tree<'_>,
    selector: Option<&Selector>,
) -> Result<Vec<bool>, AllocError>
    ensures { (ns : List ℕ) → AreLeftOut (option_copied selector.entry) (page_of tree.now) ns →
        IfOk result (λ marks. marks.items ≡ marks_in (rows_in tree.now) ns) }
{
    match selector {
        Some(selector) => marks_where(alloc, tree, selector),
        None => Ok(Vec::new(alloc)),
    }
}

/// Whether a node has a mark.
pub(crate) fn has_mark(marks: &[bool], number: usize) -> bool
    ensures { result ≡ is_left_out marks.now number }
{
    number < marks.len() && marks[number]
}

/// Whether a node, or one that it is in, has a mark.
pub(crate) fn is_within(tree: &Tree<'_>, marks: &[bool], number: usize) -> bool
    ensures { result ≡ is_within marks.now (rows_in tree.now) number }
{
    if has_mark(marks, number) {
        return true;
    }
    for outer in tree.ancestors(number) {
        if has_mark(marks, outer) {
            return true;
        }
    }
    false
}

// Whether a node, or one that it is in, has a mark, by what is known of those before it.
#[tactic(auto, using(crate::proofs::Within::within_outer, crate::proofs::Within::within_none))]
fn is_within_by(tree: &Tree<'_>, marks: &[bool], known: &[bool], number: usize) -> bool
    requires { known.now ≡ withins_before marks.now (rows_in tree.now) number }
    ensures { result ≡ is_within marks.now (rows_in tree.now) number }
{
    let is_marked = has_mark(marks, number);
    match tree.parent(number) {
        Some(outer) => is_marked | has_mark(known, outer),
        None => is_marked,
    }
}

// A mark for each node that has one, or is in a node that has one.
fn spread(alloc: Global, tree: &Tree<'_>, marks: &[bool]) -> Result<Vec<bool>, AllocError>
    ensures { let rows = rows_in tree.now in
        IfOk result (λ all. all.items ≡ withins_before marks.now rows (length rows)) }
{
    let mut all = Vec::new(alloc);
    for number in 0..tree.len() {
        let own = is_within_by(tree, marks, all.as_slice(), number);
        all.push(own)?;
    }
    Ok(all)
}

/// A mark for each node where a selector holds, or that is in such a node.
pub(crate) fn within(
    alloc: Global,
    tree: &Tree<'_>,
    selector: &Selector,
) -> Result<Vec<bool>, AllocError>
    ensures { (ns : List ℕ) → AreFound (page_of tree.now) selector.now ns → IfOk result
        (λ marks. (n : ℕ) → is_left_out marks.items n
        ≡ is_within (marks_in (rows_in tree.now) ns) (rows_in tree.now) n) }
{
    let marks = marks_where(alloc, tree, selector)?;
    spread(alloc, tree, marks.as_slice())
}
