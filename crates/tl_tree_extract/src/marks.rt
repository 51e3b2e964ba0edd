//! Nodes of a list: those that are comments, and marks of those that are listed.
ghost use Rattle.std.specs.List.{list_any};
ghost use Rattle.std.specs.Prelude.{IfOk, OnOk, false, get_or, length, true, ℕ, ◌<◌, ◌==◌, ◌≡◌, ◌≤◌, ◌||◌};
ghost use Rattle.tl_tree.specs.TreeView.{rows_in};
ghost use Rattle.tl_tree_extract.specs.Marks.{comments_below, comments_between, comments_of, is_comment, marks_of};

use std::alloc::{AllocError, Global};
use tl_tree::{Kind, Tree};

// Whether a node is a comment.
fn is_comment(tree: &Tree<'_>, number: usize) -> bool
    ensures { result ≡ is_comment (rows_in tree.now) number }
{
    matches!(tree.kind(number), Some(Kind::Comment))
}

// The numbers of the comments from one node on up to another.
#[tactic(auto, using(crate::proofs::Marked::none_between))]
fn comments_between(
    alloc: Global,
    tree: &Tree<'_>,
    first: usize,
    end: usize,
) -> Result<Vec<usize>, AllocError>
    requires { first ≤ end }
    ensures { IfOk result
        (λ found. found.items ≡ comments_between (rows_in tree.now) first end) }
{
    let mut found = Vec::new(alloc);
    for number in first..end {
        if is_comment(tree, number) {
            found.push(number)?;
        }
    }
    Ok(found)
}

/// The numbers of the comments of a tree, in its order. What each says `Tree::text` answers.
pub fn comments(alloc: Global, tree: &Tree<'_>) -> Result<Vec<usize>, AllocError>
    ensures { IfOk result (λ found. found.items ≡ comments_of (rows_in tree.now)) }
{
    comments_between(alloc, tree, 0, tree.len())
}

/// The numbers of the comments below a node, in the order of the tree, also of those in contents of
/// templates.
#[tactic(auto, using(crate::proofs::Marked::none_between))]
pub fn comments_below(
    alloc: Global,
    tree: &Tree<'_>,
    number: usize,
) -> Result<Vec<usize>, AllocError>
    ensures { IfOk result (λ found. found.items ≡ comments_below (rows_in tree.now) number) }
{
    let end = tree.end(number).unwrap_or(0);
    if end <= number {
        return Ok(Vec::new(alloc));
    }
    comments_between(alloc, tree, number + 1, end)
}

// So many nodes without a mark.
fn no_marks(alloc: Global, count: usize) -> Result<Vec<bool>, AllocError>
    ensures count { IfOk result (λ marks. length marks.items ≡ count) }
    ensures none { IfOk result
        (λ marks. (n : ℕ) → n < count → get_or marks.items n false ≡ false) }
{
    let mut marks = Vec::new(alloc);
    for _ in 0..count {
        marks.push(false)?;
    }
    Ok(marks)
}

// Marks a node, if there is one of this number.
fn put_mark(marks: &mut [bool], number: usize)
    ensures count { length marks.new ≡ length marks.old }
    ensures marks { (n : ℕ) → n < length marks.old → get_or marks.new n false
        ≡ ((number == n) || get_or marks.old n false) }
{
    if number < marks.len() {
        marks[number] = true;
    }
}

/// A mark for each node of a tree: those of these numbers have one, as those that a selector found.
pub fn marks_of(alloc: Global, tree: &Tree<'_>, numbers: &[usize]) -> Result<Vec<bool>, AllocError>
    ensures { IfOk result
        (λ marks. marks.items ≡ marks_of numbers.now (length (rows_in tree.now))) }
{
    let mut marks = no_marks(alloc, tree.len())?;
    for number in numbers {
        put_mark(marks.as_mut_slice(), *number);
    }
    Ok(marks)
}
