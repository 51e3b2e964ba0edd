//! Which elements stand in a form.
ghost use Rattle.std.specs.Prelude.{length, ◌+◌, ◌<◌, ◌≡◌};
ghost use Rattle.tl_tree.specs.Asked.{node_at};
ghost use Rattle.tl_tree.specs.TreeView.{rows_in};
ghost use Rattle.tl_tree_edit.specs.Inner.Contexts.{AreFormsOf};
ghost use Rattle.tl_tree_edit.specs.Operations.{form_end, further, is_held_in_form, is_in_form, is_named};

use tl_tree::{Namespace, Tree};

/// How far the forms of a tree reach that begin before a row.
#[derive(Clone, Copy)]
pub(crate) struct Forms {
    next: usize,
    end: usize,
}

/// Whether a node is an element of HTML of this name.
pub(crate) fn is_named(tree: &Tree<'_>, number: usize, name: &[u8]) -> bool
    ensures { result ≡ is_named name.now (node_at (rows_in tree.now) number) }
{
    let Some(Namespace::Html) = tree.namespace(number) else {
        return false;
    };
    match tree.name(number) {
        Some(own) => name == own,
        None => false,
    }
}

// Up to which row a form reaches, or nothing.
fn form_end(tree: &Tree<'_>, number: usize) -> usize
    ensures { result ≡ form_end (rows_in tree.now) number }
{
    if is_named(tree, number, b"form") {
        return tree.end(number).unwrap_or(0);
    }
    0
}

fn further(one: usize, other: usize) -> usize
    ensures { result ≡ further one other }
{
    if one < other { other } else { one }
}

impl Forms {
    /// Of no row yet.
    pub(crate) fn new(tree: &Tree<'_>) -> Forms
        ensures next { result.next ≡ 0 }
        ensures forms { AreFormsOf (rows_in tree.now) result }
    {
        let _ = tree;
        Forms { next: 0, end: 0 }
    }

    // Goes on behind a row.
    fn pass(&mut self, tree: &Tree<'_>)
        requires next { self.old.next < length (rows_in tree.now) }
        requires forms { AreFormsOf (rows_in tree.now) self.old }
        ensures next { self.new.next ≡ self.old.next + 1 }
        ensures forms { AreFormsOf (rows_in tree.now) self.new }
    {
        let count = tree.len();
        prove!(self.next < count);
        self.end = further(self.end, form_end(tree, self.next));
        self.next += 1;
    }

    /// Whether a row is a form, or stands in one. Asked in the order of rows each row is passed
    /// once.
    pub(crate) fn is_inside(&mut self, tree: &Tree<'_>, number: usize) -> bool
        requires forms { AreFormsOf (rows_in tree.now) self.old }
        ensures is { result ≡ is_in_form (rows_in tree.now) number }
        ensures forms { AreFormsOf (rows_in tree.now) self.new }
    {
        if number >= tree.len() {
            return false;
        }
        if number + 1 < self.next {
            *self = Forms::new(tree);
        }
        while self.next <= number {
            self.pass(tree);
        }
        number < self.end
    }

    /// The same of the row that something stands in, if there is one.
    pub(crate) fn is_held(&mut self, tree: &Tree<'_>, holder: Option<usize>) -> bool
        requires forms { AreFormsOf (rows_in tree.now) self.old }
        ensures is { result ≡ is_held_in_form (rows_in tree.now) holder }
        ensures forms { AreFormsOf (rows_in tree.now) self.new }
    {
        match holder {
            Some(number) => self.is_inside(tree, number),
            None => false,
        }
    }
}
