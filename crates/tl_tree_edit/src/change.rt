//! What is done to elements of a tree.
ghost use Rattle.std.specs.Prelude.{◌≡◌};
ghost use Rattle.tl_tree_edit.specs.Changes.{back, before, behind, front, is_emptied, stays};
ghost use Rattle.tl_tree_edit.specs.Operations.{is_put_inside};
ghost use Rattle.tl_tree_edit.specs.View.{change_of, puts_of};

use tl_tree::Tree;

/// What is put in.
#[derive(Clone, Copy)]
pub enum Put<'c, 'p> {
    /// The trees of a fragment, as it is read where they come to stand.
    Trees(&'c Tree<'p>),
    /// A text.
    Text(&'c [u8]),
}

/// What is done to an element.
#[derive(Clone, Copy)]
pub enum Change<'c, 'p> {
    /// A key has a value, in the place of the one that stood there, or else in front.
    Set(&'c [u8], &'c [u8]),
    /// The element has another name.
    Rename(&'c [u8]),
    /// A key goes.
    Unset(&'c [u8]),
    /// It goes, with all that stands in it.
    Remove,
    /// It goes, and what stands in it stays.
    Unwrap,
    /// Something stands in its place.
    Replace(Put<'c, 'p>),
    /// Something stands in it, in the place of what stood there.
    Fill(Put<'c, 'p>),
    /// Something stands before it.
    Before(Put<'c, 'p>),
    /// Something stands first in it.
    Prepend(Put<'c, 'p>),
    /// Something stands last in it.
    Append(Put<'c, 'p>),
    /// Something stands behind it.
    After(Put<'c, 'p>),
}

/// A change of the element of a number. That of the contents of a template is the number of their
/// row.
#[derive(Clone, Copy)]
pub struct Edit<'c, 'p> {
    /// The number of the element.
    pub number: usize,
    /// What is done to it.
    pub change: Change<'c, 'p>,
}

impl<'c, 'p> Change<'c, 'p> {
    // What comes to stand before the element begins.
    pub(crate) fn before(self) -> Option<Put<'c, 'p>>
        ensures { puts_of result ≡ before (change_of self.entry) }
    {
        match self {
            Change::Before(put) | Change::Replace(put) => Some(put),
            _ => None,
        }
    }

    // Those right behind where it begins.
    pub(crate) fn front(self) -> Option<Put<'c, 'p>>
        ensures { puts_of result ≡ front (change_of self.entry) }
    {
        match self {
            Change::Prepend(put) | Change::Fill(put) => Some(put),
            _ => None,
        }
    }

    // Those right before its end.
    pub(crate) fn back(self) -> Option<Put<'c, 'p>>
        ensures { puts_of result ≡ back (change_of self.entry) }
    {
        match self {
            Change::Append(put) => Some(put),
            _ => None,
        }
    }

    // Those behind its end.
    pub(crate) fn behind(self) -> Option<Put<'c, 'p>>
        ensures { puts_of result ≡ behind (change_of self.entry) }
    {
        match self {
            Change::After(put) => Some(put),
            _ => None,
        }
    }

    // Whether the element itself stays.
    pub(crate) fn stays(self) -> bool
        ensures { result ≡ stays (change_of self.entry) }
    {
        !matches!(self, Change::Remove | Change::Unwrap | Change::Replace(_))
    }

    // Whether what stood in it goes.
    pub(crate) fn is_emptied(self) -> bool
        ensures { result ≡ is_emptied (change_of self.entry) }
    {
        matches!(self, Change::Remove | Change::Replace(_) | Change::Fill(_))
    }

    // Whether something is put into the element.
    pub(crate) fn is_put_inside(self) -> bool
        ensures { result ≡ is_put_inside (change_of self.entry) }
    {
        matches!(
            self,
            Change::Fill(_) | Change::Prepend(_) | Change::Append(_)
        )
    }
}
