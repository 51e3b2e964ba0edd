//! What is asked of a node of a tree, by its number.

use crate::entries::Namespace;
use crate::kind::Kind;
use crate::row::Held;
use crate::span::Span;
use crate::tree::Tree;
use tl_names::element_name::ElementName;

impl<'p> Tree<'p> {
    ghost use Rattle.std.specs.Bool.{IsTrue};
    ghost use Rattle.std.specs.Option.{option_and_then, option_copied, option_map};
    ghost use Rattle.std.specs.Prelude.{length, ◌==◌, ◌≡◌, ◌↔◌};
    ghost use Rattle.tl_names.specs.ElementNames.{name_of as element_name_of};
    ghost use Rattle.tl_tree.specs.Asked.{end_at, first_child_at, kind_of, name_of, namespace_of, next_sibling_at, node_at, parent_at, text_of};
    ghost use Rattle.tl_tree.specs.Below.{ends_at, previous_sibling_at};
    ghost use Rattle.tl_tree.specs.Inner.RowView.{bytes_in};
    ghost use Rattle.tl_tree.specs.Inner.Store.{is_span, text_of as text_of_store};
    ghost use Rattle.tl_tree.specs.Rows.{IsInRange};
    ghost use Rattle.tl_tree.specs.TreeView.{rows_in};

    /// How many nodes there are. The contents of a `template` are one of them.
    pub fn len(&self) -> usize
        ensures { result ≡ length (rows_in self.now) }
    {
        self.rows.len()
    }

    /// Whether there are no nodes.
    pub fn is_empty(&self) -> bool
        ensures { result ≡ (length (rows_in self.now) == 0) }
    {
        self.rows.is_empty()
    }

    /// Whether the document is in quirks mode.
    pub fn is_quirks(&self) -> bool
        ensures { result ≡ self.now.is_quirks }
    {
        self.is_quirks
    }

    /// What a node is.
    pub fn kind(&self, number: usize) -> Option<Kind>
        ensures { result ≡ option_map kind_of (node_at (rows_in self.now) number) }
    {
        let row = self.rows.get(number)?;
        Some(match row.held {
            Held::Element(_) => Kind::Element,
            Held::Contents => Kind::Contents,
            Held::Text(_) => Kind::Text,
            Held::Comment(_) => Kind::Comment,
            Held::Doctype {
                doctype: _,
                source: _,
            } => Kind::Doctype,
        })
    }

    /// The number of the node that a node stands in.
    pub fn parent(&self, number: usize) -> Option<usize>
        ensures { result ≡ parent_at (rows_in self.now) number }
    {
        let parent = self.rows.get(number)?.parent;
        if parent == 0 {
            return None;
        }
        Some(parent as usize - 1)
    }

    /// The number behind the last node below a node.
    pub fn end(&self, number: usize) -> Option<usize>
        ensures { result ≡ end_at (rows_in self.now) number }
    {
        Some(self.rows.get(number)?.end as usize)
    }

    /// The number of the first child of a node.
    pub fn first_child(&self, number: usize) -> Option<usize>
        ensures { result ≡ first_child_at (rows_in self.now) number }
    {
        let row = self.rows.get(number)?;
        let first = number + 1;
        if first < row.end as usize {
            Some(first)
        } else {
            None
        }
    }

    /// The number of the next child of the same node, or of the next node that stands in none.
    pub fn next_sibling(&self, number: usize) -> Option<usize>
        ensures { result ≡ next_sibling_at (rows_in self.now) number }
    {
        let end = self.end(number)?;
        let outer = match self.parent(number) {
            Some(parent) => self.end(parent)?,
            None => self.len(),
        };
        if end < outer { Some(end) } else { None }
    }

    /// The number of the previous child of the same node, or of the previous node that stands in
    /// none.
    pub fn previous_sibling(&self, number: usize) -> Option<usize>
        ensures { result ≡ previous_sibling_at (rows_in self.now) number }
    {
        self.end(number)?;
        let last = number.checked_sub(1)?;
        if !self.ends_at(last, number) {
            return None;
        }
        let mut found = last;
        for outer in self.ancestors(last) {
            if !self.ends_at(outer, number) {
                return Some(found);
            }
            found = outer;
        }
        Some(found)
    }

    // Whether a node ends at a number.
    fn ends_at(&self, number: usize, end: usize) -> bool
        ensures { result ≡ ends_at (rows_in self.now) number end }
    {
        match self.end(number) {
            Some(own) => own == end,
            None => false,
        }
    }

    /// Whether one node is below another: its child, or below one.
    pub fn is_below(&self, number: usize, outer: usize) -> bool
        ensures { IsTrue result ↔ IsInRange (rows_in self.now) outer number }
    {
        match self.end(outer) {
            Some(end) => outer < number && number < end,
            None => false,
        }
    }

    // The bytes of the text of the store.
    #[tactic(auto, unfolding(crate::specs::Inner::Store::bytes_of))]
    fn bytes(&self, span: Span) -> &[u8]
        requires { IsTrue (is_span self.now.store span) }
        ensures { result.now ≡ bytes_in (text_of_store self.now.store) span }
    {
        self.store.bytes(span)
    }

    /// The namespace of an element.
    pub fn namespace(&self, number: usize) -> Option<Namespace>
        ensures { result ≡ option_and_then namespace_of (node_at (rows_in self.now) number) }
    {
        let Held::Element(tag) = self.rows.get(number)?.held else {
            return None;
        };
        Some(self.store.tags[tag as usize].space)
    }

    /// The name of an element, as the tree has it: of an HTML element in lower case.
    pub fn name(&self, number: usize) -> Option<&[u8]>
        ensures { option_copied result
            ≡ option_and_then name_of (node_at (rows_in self.now) number) }
    {
        let Held::Element(tag) = self.rows.get(number)?.held else {
            return None;
        };
        Some(self.bytes(self.store.tags[tag as usize].name))
    }

    /// The number of the name of an element: of one name, one number.
    #[inline]
    pub fn element_name(&self, number: usize) -> Option<ElementName>
        ensures { result ≡ option_map element_name_of
            (option_and_then name_of (node_at (rows_in self.now) number)) }
    {
        let Held::Element(tag) = self.rows.get(number)?.held else {
            return None;
        };
        Some(self.store.tag(tag).known)
    }

    /// What a text or a comment says.
    pub fn text(&self, number: usize) -> Option<&[u8]>
        ensures { option_copied result
            ≡ option_and_then text_of (node_at (rows_in self.now) number) }
    {
        match self.rows.get(number)?.held {
            Held::Text(piece) | Held::Comment(piece) => Some(self.bytes(piece.span)),
            _ => None,
        }
    }
}
