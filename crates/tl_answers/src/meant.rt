//! Whether the tree of what is written is the one that was meant.
ghost use Rattle.std.specs.Bool.{IsTrue};
ghost use Rattle.std.specs.Prelude.{IfErr, IfOk, map, ◌≡◌, ◌↔◌};
ghost use Rattle.std.specs.Option.{option_and_then};
ghost use Rattle.tl_answers.specs.Meant.{IsDoneIn, IsToldBy, IsUnknown, Tells, TellsIf, are_html, asks_key, is_asked, is_html_space, patch_operation, put_operation, steers, told_of, value_edit, value_edits};
ghost use Rattle.tl_answers.specs.declared.edit.Refusal.TheVariants.{OutOfMemory};
ghost use Rattle.tl_tree.specs.Asked.{namespace_of, node_at};
ghost use Rattle.tl_tree_select.specs.Page.{page_of};
ghost use Rattle.tl_tree.specs.TreeView.{rows_in};
ghost use Rattle.tl_patch_edit.specs.View.{content_view, patch_view};
ghost use Rattle.tl_tree_edit.specs.Changes.{Rename, Set, Unset, edited};
ghost use Rattle.tl_tree_edit.specs.Events.{events};
ghost use Rattle.tl_tree_edit.specs.Operations.{changes_each};
ghost use Rattle.tl_tree_edit.specs.View.{edits_of, operation_of as operation_in};
ghost use Rattle.tl_tree_edit.specs.declared.error.MadeError.TheVariants.{OutOfMemory as NoMemory};
ghost use Rattle.tl_values.specs.NewValues.{got};

use crate::edit::{Edit, Refusal};
use crate::page::FLAGS;
use std::alloc::{AllocError, Global};
use tl_css::Selector;
use tl_patch_edit::{Content, ElementPatch};
use tl_tree::{Namespace, ReadError, Tree};
use tl_tree_edit::{
    Change, Edit as TreeEdit, MadeError, Operation, Position, Put, is_edited, is_made,
};
use tl_tree_select::select;
use tl_values::{NewValue, Rewrite};

/// Whether the tree of what is written is the one that the operation of the DOM would have made.
#[derive(Clone, Copy, Debug)]
pub enum Meant {
    Yes,
    No,
    /// What is written isn't read.
    Unread(ReadError),
    /// What is put isn't read where it comes to stand.
    Unput(ReadError),
    /// It isn't asked of a key of elements of `svg` or `math` for which no rule asks.
    Unasked,
}

// Whether rules of the standard ask for a key.
fn steers(key: &[u8]) -> bool
    ensures { result ≡ steers key.now }
{
    key == b"color".as_slice()
        || key == b"encoding".as_slice()
        || key == b"face".as_slice()
        || key == b"size".as_slice()
        || key == b"type".as_slice()
}

// What is put there.
fn put_operation<'w>(position: Position, content: Content<'w>) -> Operation<'w, 'w>
    ensures { operation_in result ≡ put_operation position (content_view content.entry) }
{
    match content {
        Content::Text { text } => Operation::Each(position.change(Put::Text(text))),
        Content::Markup { markup } => Operation::Markup(position, markup),
    }
}

// What is done with an element.
fn patch_operation<'w>(patch: ElementPatch<'w>) -> Operation<'w, 'w>
    ensures { operation_in result ≡ patch_operation (patch_view patch.entry) }
{
    match patch {
        ElementPatch::Rename { name } => Operation::Each(Change::Rename(name)),
        ElementPatch::Remove => Operation::Each(Change::Remove),
        ElementPatch::Unwrap => Operation::Each(Change::Unwrap),
        ElementPatch::ReplaceWith { content } => put_operation(Position::Replace, content),
        ElementPatch::Fill { content } => put_operation(Position::Fill, content),
        ElementPatch::Prepend { content } => put_operation(Position::Prepend, content),
        ElementPatch::Append { content } => put_operation(Position::Append, content),
        ElementPatch::PutBefore { content } => put_operation(Position::Before, content),
        ElementPatch::PutAfter { content } => put_operation(Position::After, content),
    }
}

// A value at a key.
fn set_operation<'w>(key: &'w str, value: &'w str) -> Operation<'w, 'w>
    ensures { operation_in result ≡ changes_each (Set key.now value.now) }
{
    Operation::Each(Change::Set(key.as_bytes(), value.as_bytes()))
}

// No value at a key.
fn unset_operation<'w>(key: &'w str) -> Operation<'w, 'w>
    ensures { operation_in result ≡ changes_each (Unset key.now) }
{
    Operation::Each(Change::Unset(key.as_bytes()))
}

// Another name.
fn rename_operation<'w>(name: &'w str) -> Operation<'w, 'w>
    ensures { operation_in result ≡ changes_each (Rename name.now) }
{
    Operation::Each(Change::Rename(name.as_bytes()))
}

// Whether a node is an element of HTML.
fn is_html(tree: &Tree<'_>, number: usize) -> bool
    ensures { result
        ≡ is_html_space (option_and_then namespace_of (node_at (rows_in tree.now) number)) }
{
    matches!(tree.namespace(number), Some(Namespace::Html))
}

// Whether each of these nodes is.
fn are_html(tree: &Tree<'_>, numbers: &[usize]) -> bool
    ensures { result ≡ are_html (rows_in tree.now) numbers.now }
{
    numbers.iter().all(|number| is_html(tree, *number))
}

// Whether it is asked of a key of these elements.
fn asks_key(key: &[u8], tree: &Tree<'_>, numbers: &[usize]) -> bool
    ensures { result ≡ asks_key key.now (rows_in tree.now) numbers.now }
{
    steers(key) || are_html(tree, numbers)
}

// What is told of an answer.
fn told(answer: Result<bool, MadeError>) -> Result<Meant, Refusal>
    ensures { result ≡ told_of answer }
{
    match answer {
        Ok(true) => Ok(Meant::Yes),
        Ok(false) => Ok(Meant::No),
        Err(MadeError::OutOfMemory) => Err(Refusal::OutOfMemory),
        Err(MadeError::Unread(error)) => Ok(Meant::Unput(error)),
    }
}

// The edits by which nodes get their values.
fn value_edits<'a>(
    alloc: Global,
    key: &'a [u8],
    values: &'a [NewValue],
) -> Result<Vec<TreeEdit<'a, 'a>>, AllocError>
    ensures { IfOk result (λ edits. edits_of edits.items
        ≡ map (value_edit key.now) (map got values.now)) }
{
    let mut edits = Vec::with_capacity(alloc, values.len())?;
    for new in values {
        edits.push(TreeEdit {
            number: new.number,
            change: Change::Set(key, new.value.as_slice()),
        })?;
    }
    Ok(edits)
}

// Whether nodes have got values that are made of old ones.
fn has_values(
    alloc: Global,
    old: &Tree<'_>,
    numbers: &[usize],
    key: &[u8],
    rewrite: &Rewrite<'_>,
    new: &Tree<'_>,
) -> Result<bool, MadeError>
    ensures made { IfOk result (λ is. IsTrue is
        ↔ events (rows_in new.now)
        ≡ edited (value_edits rewrite.now key.now (rows_in old.now) numbers.now)
        (rows_in old.now)) }
    ensures unmade { IfErr result (λ why. why ≡ NoMemory) }
{
    let values = rewrite.values(alloc, old, numbers, key)?;
    let edits = value_edits(alloc, key, values.as_slice())?;
    Ok(is_edited(alloc, old, edits.as_slice(), new)?)
}

impl<'w> Edit<'w> {
    // Whether a tree is another one with this done with these elements.
    fn is_done_in(
        &self,
        alloc: Global,
        old: &Tree<'_>,
        numbers: &[usize],
        new: &Tree<'_>,
    ) -> Result<bool, MadeError>
        ensures made { IfOk result (λ is. IsTrue is
            ↔ IsDoneIn self.now (rows_in old.now) old.now.is_quirks numbers.now
            (rows_in new.now)) }
        ensures unmade { IfErr result
            (IsUnknown self.now (rows_in old.now) old.now.is_quirks numbers.now) }
    {
        match self {
            Edit::Set(key, value) => is_made(
                alloc,
                old,
                numbers,
                set_operation(key.as_str(), *value),
                new,
            ),
            Edit::Rewrite(key, rewrite) => {
                has_values(alloc, old, numbers, key.as_bytes(), rewrite, new)
            }
            Edit::Unset(key) => is_made(alloc, old, numbers, unset_operation(key.as_str()), new),
            Edit::Rename(name) => is_made(
                alloc,
                old,
                numbers,
                rename_operation(name.as_str()),
                new,
            ),
            Edit::Element(patch) => is_made(alloc, old, numbers, patch_operation(*patch), new),
        }
    }

    // Whether it is asked of these elements.
    fn is_asked(&self, tree: &Tree<'_>, numbers: &[usize]) -> bool
        ensures { result ≡ is_asked self.now (rows_in tree.now) numbers.now }
    {
        match self {
            Edit::Set(key, _) => asks_key(key.as_bytes(), tree, numbers),
            Edit::Rewrite(key, _) => asks_key(key.as_bytes(), tree, numbers),
            Edit::Unset(key) => asks_key(key.as_bytes(), tree, numbers),
            Edit::Rename(_) | Edit::Element(_) => true,
        }
    }

    // What is told of a text where a page stood: whether its tree is that of the page with this
    // done with these elements.
    fn told_of_text(
        &self,
        alloc: Global,
        old: &Tree<'_>,
        numbers: &[usize],
        text: &[u8],
    ) -> Result<Meant, Refusal>
        ensures told { IfOk result
            (Tells self.now (rows_in old.now) old.now.is_quirks numbers.now text.now) }
        ensures memory { IfErr result (λ why. why ≡ OutOfMemory) }
    {
        match Tree::read(alloc, text, FLAGS) {
            Ok(new) => told(self.is_done_in(alloc, old, numbers, &new)),
            Err(ReadError::OutOfMemory) => Err(Refusal::OutOfMemory),
            Err(error) => Ok(Meant::Unread(error)),
        }
    }

    /// Whether text is a page whose tree is the one that was meant, a tree with this done with
    /// these elements, if it is asked.
    pub(crate) fn meant_of(
        &self,
        alloc: Global,
        old: &Tree<'_>,
        numbers: &[usize],
        text: &[u8],
    ) -> Result<Meant, Refusal>
        ensures told { IfOk result (TellsIf (is_asked self.now (rows_in old.now) numbers.now)
            self.now (rows_in old.now) old.now.is_quirks numbers.now text.now) }
        ensures memory { IfErr result (λ why. why ≡ OutOfMemory) }
    {
        if !self.is_asked(old, numbers) {
            return Ok(Meant::Unasked);
        }
        self.told_of_text(alloc, old, numbers, text)
    }

    /// The same with this done where a selector holds.
    pub(crate) fn meant(
        &self,
        alloc: Global,
        old: &Tree<'_>,
        selector: &Selector,
        text: &[u8],
    ) -> Result<Meant, Refusal>
        ensures told { IfOk result (IsToldBy self.now selector.now (page_of old.now) text.now) }
        ensures memory { IfErr result (λ why. why ≡ OutOfMemory) }
    {
        let numbers = select(alloc, old, selector)?;
        self.meant_of(alloc, old, numbers.as_slice(), text)
    }
}
