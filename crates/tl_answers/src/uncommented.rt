//! A page without its comments, or some of them.
ghost use Rattle.regex.specs.Bytes.{matcher_pattern, regex_pattern};
ghost use Rattle.std.specs.Option.{option_copied};
ghost use Rattle.std.specs.Prelude.{[], IfErr, IfOk, OnOk, filter, if◌then◌else◌, ◌++◌, ◌∷◌, ◌≡◌};
ghost use Rattle.tl_answers.specs.Uncommented.{IsUncommentRefusal, IsUncommented, comments_meant, is_matched, refusal_of_comment, refusal_of_reading, said_at};
ghost use Rattle.tl_answers.specs.declared.uncommented.CommentRefusal.TheVariants.{OutOfMemory};
ghost use Rattle.tl_tree.specs.TreeView.{rows_in};

use crate::page::FLAGS;
use regex::bytes::{Matcher, Regex};
use std::alloc::{AllocError, Global};
use tl_patch_edit::CommentError;
use tl_patch_select::{Patched, uncomment_nodes};
use tl_tree::{ReadError, Tree};
use tl_tree_extract::comments;

/// Why a page keeps its comments.
#[derive(Drop)]
pub enum CommentRefusal {
    /// They can't be taken out.
    Comment(CommentError),
    /// The page isn't read.
    Unread(ReadError),
    OutOfMemory,
}

impl From<AllocError> for CommentRefusal {
    ghost from_gives = { λ _ why. why ≡ OutOfMemory };

    fn from(_: AllocError) -> Self {
        CommentRefusal::OutOfMemory
    }
}

impl From<ReadError> for CommentRefusal {
    ghost from_gives = { λ error why. why ≡ refusal_of_reading error };

    fn from(error: ReadError) -> Self {
        match error {
            ReadError::OutOfMemory => CommentRefusal::OutOfMemory,
            _ => CommentRefusal::Unread(error),
        }
    }
}

impl From<CommentError> for CommentRefusal {
    ghost from_gives = { λ error why. why ≡ refusal_of_comment error };

    fn from(error: CommentError) -> Self {
        match error {
            CommentError::OutOfMemory => CommentRefusal::OutOfMemory,
            _ => CommentRefusal::Comment(error),
        }
    }
}

// What a comment says.
fn said_at<'t>(tree: &'t Tree<'_>, number: usize) -> &'t [u8]
    ensures { result.now ≡ said_at (rows_in tree.now) number }
{
    tree.text(number).unwrap_or(&[])
}

// Whether a regular expression matches somewhere in what a comment says; this searches for it.
fn is_matched(_regex: &Regex, matcher: &mut Matcher<'_>, tree: &Tree<'_>, number: usize) -> bool
    requires { matcher_pattern matcher.old ≡ regex_pattern _regex.now }
    ensures found { result ≡ is_matched _regex.now (rows_in tree.now) number }
    ensures same { matcher_pattern matcher.new ≡ regex_pattern _regex.now }
{
    matcher.is_match(said_at(tree, number))
}

fn push_if(is_it: bool, number: usize, left: &mut Vec<usize>) -> Result<(), AllocError>
    ensures { OnOk result
        (left.new.items ≡ left.old.items ++ (if is_it then number ∷ [] else [])) }
{
    if is_it {
        left.push(number)?;
    }
    Ok(())
}

// Those of some comments that a regular expression matches.
fn matched(
    alloc: Global,
    regex: &Regex,
    tree: &Tree<'_>,
    numbers: &[usize],
) -> Result<Vec<usize>, AllocError>
    ensures { IfOk result (λ left.
        left.items ≡ filter (is_matched regex.now (rows_in tree.now)) numbers.now) }
{
    let mut matcher = regex.matcher(alloc)?;
    let mut left = Vec::new(alloc);
    for number in numbers {
        let is_meant = is_matched(regex, &mut matcher, tree, *number);
        push_if(is_meant, *number, &mut left)?;
    }
    Ok(left)
}

// The comments of a tree that are meant.
fn comments_meant(
    alloc: Global,
    regex: Option<&Regex>,
    tree: &Tree<'_>,
) -> Result<Vec<usize>, AllocError>
    ensures { IfOk result (λ numbers.
        numbers.items ≡ comments_meant (option_copied regex.entry) (rows_in tree.now)) }
{
    let numbers = comments(alloc, tree)?;
    match regex {
        Some(regex) => matched(alloc, regex, tree, numbers.as_slice()),
        None => Ok(numbers),
    }
}

/// The bytes of a page, which is read once, but those of its comments, or of the comments in whose
/// text a regular expression matches.
pub fn uncommented_page(
    alloc: Global,
    regex: Option<&Regex>,
    page: &[u8],
) -> Result<Patched, CommentRefusal>
    ensures gone { IfOk result (λ p.
        IsUncommented (option_copied regex.entry) page.now p.bytes.items p.places.items) }
    ensures told { IfErr result (IsUncommentRefusal (option_copied regex.entry) page.now) }
{
    let tree = Tree::read(alloc, page, FLAGS)?;
    let numbers = comments_meant(alloc, regex, &tree)?;
    let patched = uncomment_nodes(alloc, page, &tree, numbers.as_slice())?;
    Ok(patched)
}
