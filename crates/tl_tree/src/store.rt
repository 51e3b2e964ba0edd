//! Nodes whose end is settled: what was put in is never touched again, the store only grows.
//!
//! Others may rely on this: what is in range in a store (`is_within` and its like in
//! `specs/Inner/Store`) stands for the same in each store that begins with it (`Grows`;
//! `proofs/Grown`), and each number that a store holds is in range (`Store`'s ghost fields).
ghost use Rattle.std.specs.Prelude.{IsTrue, drop, length, map, take, ◌+◌, ◌++◌, ◌<◌, ◌^◌, ◌≡◌};
ghost use Rattle.std.specs.List.{list_all};
ghost use Rattle.tl_tree.specs.Inner.Lists.{AreBothPlaced, in_list, many_in};
ghost use Rattle.tl_tree.specs.declared.entries.AttributeList.{AttributeList};
ghost use Rattle.tl_tree.specs.Inner.Within.{attribute_is_within, cells_are_within, doctype_is_within, key_in, known_in, known_of, number_of, numbered_in, span_is_within, tag_is_within};

use crate::attribute_lists::AttributeLists;
use crate::cell::{Cell, Node};
use crate::entries::{AttributeEntry, AttributeList, AttributeSpace, DoctypeEntry, TagEntry};
use crate::error::GrowError;
use crate::met_names::MetNames;
use crate::span::Span;
use std::alloc::{AllocError, Global};
use tl_names::element_name::ElementName;

/// What was read of a page and is settled.
pub(crate) struct Store<'a> {
    pub(crate) page: &'a [u8],
    /// Bytes that don't stand so in the page.
    pub(crate) side: Vec<u8>,
    pub(crate) attributes: AttributeLists,
    pub(crate) tags: Vec<TagEntry>,
    pub(crate) names: MetNames,
    pub(crate) doctypes: Vec<DoctypeEntry>,
    pub(crate) cells: Vec<Cell>,
    ghost short: { length page.now + length side.items < 2 ^ 32 },
    ghost attributes_within: { (list : AttributeList) → IsTrue
        (list_all
        (attribute_is_within (length page.now) (length side.items))
        (in_list attributes list)) },
    ghost keys_placed: { AreBothPlaced (key_in (page.now ++ side.items)) attributes },
    ghost tags_within: { IsTrue
        (list_all
        (tag_is_within (length page.now) (length side.items) (many_in attributes))
        tags.items) },
    ghost names_known: { map known_of tags.items
        ≡ map (known_in (page.now ++ side.items)) tags.items },
    ghost names_numbered: { map number_of tags.items
        ≡ map (numbered_in names (page.now ++ side.items)) tags.items },
    ghost doctypes_within: { IsTrue
        (list_all (doctype_is_within (length page.now) (length side.items)) doctypes.items) },
    ghost cells_within: { IsTrue
        (cells_are_within
        (record {
          page = length page.now;
          side = length side.items;
          tags = length tags.items;
          doctypes = length doctypes.items;
        })
        0
        cells.items) },
}

// By hand, so that a proof has one step for a drop.
impl Drop for Store<'_> {
    fn drop(self) {
        let Store {
            page: _,
            side: _,
            attributes: _,
            tags: _,
            names: _,
            doctypes: _,
            cells: _,
        } = self;
    }
}

impl<'p> Store<'p> {
    ghost use Rattle.std.specs.Prelude.{IfOk, []};
    ghost use Rattle.tl_tree.specs.Inner.Store.{text_of};

    /// A copy of the text: the page, and behind it the side buffer.
    pub(crate) fn copied_text(&self, alloc: Global) -> Result<Vec<u8>, AllocError>
        ensures { IfOk result (λ text. text.items ≡ text_of self.now) }
    {
        let mut text = Vec::with_capacity(alloc, self.page.len() + self.side.len())?;
        text.extend_from_slice(self.page)?;
        text.extend_from_slice(self.side.as_slice())?;
        Ok(text)
    }

    /// The store with all of its text in the side buffer, and without cells: each span says the
    /// same bytes as before.
    pub(crate) fn with_text(self, alloc: Global, text: Vec<u8>) -> Store<'static>
        requires { text.items ≡ text_of self }
        ensures text { text_of result ≡ text_of self.entry }
        ensures page { result.page.now ≡ [] }
        ensures tags { result.tags ≡ self.entry.tags }
        ensures attributes { result.attributes ≡ self.entry.attributes }
        ensures doctypes { result.doctypes ≡ self.entry.doctypes }
    {
        let Store {
            page: _,
            side: _,
            attributes,
            tags,
            names,
            doctypes,
            cells: _,
        } = self;
        Store {
            page: &[],
            side: text,
            attributes,
            tags,
            names,
            doctypes,
            cells: Vec::new(alloc),
        }
    }
}

// Bytes of a text that is a page, and behind it others.
fn bytes_at<'s>(page: &'s [u8], side: &'s [u8], span: Span) -> &'s [u8]
    requires short { length page.now + length side.now < 2 ^ 32 }
    requires within { IsTrue (span_is_within (length page.now) (length side.now) span) }
    ensures { result.now ≡ take span.len (drop span.start (page.now ++ side.now)) }
{
    let start = span.start as usize;
    let end = start + span.len as usize;
    let before = page.len();
    if end <= before {
        &page[start..end]
    } else {
        &side[start - before..end - before]
    }
}

impl<'a> Store<'a> {
    ghost use Rattle.std.specs.Prelude.{Err, IfOk, OnOk, [], ◌&&◌, ◌↔◌, ◌∷◌, ◌≤◌};
    ghost use Rattle.std.specs.Str.{bytes_eq};
    ghost use Rattle.tl_names.specs.ElementNames.{name_of};
    ghost use Rattle.tl_tree.specs.Asked.{has_no_space};
    ghost use Rattle.tl_dom_spec.specs.Path.{joined};
    ghost use Rattle.tl_tree.specs.Inner.MetNames.{number_in};
    ghost use Rattle.tl_tree.specs.Inner.NameNumbers.{number_at};
    ghost use Rattle.tl_tree.specs.Inner.Store.{Grows, IsAlike, attribute_of, bytes_of, doctype_at, doctype_of, is_attribute, is_doctype, is_doctype_number, is_node, is_row, is_span, is_tag, is_tag_number, list_in, node_of, nodes_of, tag_at, tag_of};

    /// Nothing yet.
    pub(crate) fn new(alloc: Global, page: &'a [u8]) -> Result<Store<'a>, GrowError>
        ensures page { IfOk result (λ store. store.page.now ≡ page.now) }
        ensures ok { IfOk result (λ store. length store.cells.items ≡ 0) }
        ensures err { result ≡ Err GrowError.TooLarge ↔ 2 ^ 32 ≤ length page.now }
    {
        if page.len() > u32::MAX as usize {
            return Err(GrowError::TooLarge);
        }
        let cells = Vec::with_capacity(alloc, page.len() / 16)?;
        let tags = Vec::with_capacity(alloc, page.len() / 32)?;
        let attributes = AttributeLists::new(alloc, page.len() / 64)?;
        Ok(Store {
            page,
            side: Vec::new(alloc),
            attributes,
            tags,
            names: MetNames::new(alloc),
            doctypes: Vec::new(alloc),
            cells,
        })
    }

    /// A row with a node behind it, which is a new row. Texts that meet there are one text.
    #[inline(always)]
    pub(crate) fn add(&mut self, before: u32, node: Node) -> Result<u32, GrowError>
        requires before { IsTrue (is_row self.old before) }
        requires node { IsTrue (is_node self.old node) }
        ensures stands { IfOk result (λ row. nodes_of self.new row
            ≡ joined (nodes_of self.old before) (node_of self.old node)) }
        ensures within { IfOk result (λ row. IsTrue (is_row self.new row)) }
        ensures grows { Grows self.old self.new }
        ensures too_large { result ≡ Err GrowError.TooLarge
            → 2 ^ 32 ≤ length self.old.cells.items + 1 }
    {
        if self.cells.len() >= u32::MAX as usize {
            return Err(GrowError::TooLarge);
        }
        self.cells.push(Cell { before, node })?;
        Ok(self.cells.len() as u32)
    }

    /// Keeps the first cells, and gives the others back.
    pub(crate) fn keep_cells(&mut self, count: usize)
        ensures cells { self.new.cells.items ≡ take count self.old.cells.items }
        ensures begins { Grows self.new self.old }
        ensures alike { IsAlike self.old self.new }
    {
        self.cells.truncate(count);
        self.cells.shrink_to_fit();
    }

    /// Two rows as one.
    pub(crate) fn join(&mut self, first: u32, second: u32) -> Result<u32, GrowError>
        requires first { IsTrue (is_row self.old first) }
        requires second { IsTrue (is_row self.old second) }
        ensures stands { IfOk result (λ row. nodes_of self.new row
            ≡ joined (nodes_of self.old first) (nodes_of self.old second)) }
        ensures within { IfOk result (λ row. IsTrue (is_row self.new row)) }
        ensures grows { Grows self.old self.new }
        ensures too_large { result ≡ Err GrowError.TooLarge
            → 2 ^ 32 ≤ length self.old.cells.items + 1 }
    {
        if second == 0 {
            return Ok(first);
        }
        self.add(first, Node::Joined(second))
    }

    /// Puts bytes behind the text.
    pub(crate) fn add_bytes(&mut self, bytes: &[u8]) -> Result<Span, GrowError>
        ensures stands { IfOk result (λ span. bytes_of self.new span ≡ bytes.now) }
        ensures appends { OnOk result (self.new.side.items ≡ self.old.side.items ++ bytes.now) }
        ensures attributes { self.new.attributes ≡ self.old.attributes }
        ensures within { IfOk result (λ span. IsTrue (is_span self.new span)) }
        ensures grows { Grows self.old self.new }
        ensures too_large { result ≡ Err GrowError.TooLarge
            → 2 ^ 32
            ≤ length self.old.page.now + length self.old.side.items + length bytes.now }
    {
        let start = self.page.len() + self.side.len();
        if bytes.len() > u32::MAX as usize - start {
            return Err(GrowError::TooLarge);
        }
        self.side.extend_from_slice(bytes)?;
        Ok(Span {
            start: start as u32,
            len: bytes.len() as u32,
        })
    }

    /// How many attributes are in a list, which is the number of the next one.
    pub(crate) fn attribute_count(&self, list: AttributeList) -> u32
        ensures { result ≡ length (list_in self.now list) }
    {
        self.attributes.count(list)
    }

    /// Puts an attribute behind those of a list.
    pub(crate) fn add_attribute(
        &mut self,
        list: AttributeList,
        attribute: AttributeEntry,
    ) -> Result<(), GrowError>
        requires { IsTrue (is_attribute self.old attribute) }
        ensures stands { OnOk result
            (list_in self.new list ≡ list_in self.old list ++ attribute ∷ []) }
        ensures grows { Grows self.old self.new }
        ensures too_large { result ≡ Err GrowError.TooLarge
            → 2 ^ 32 ≤ length (list_in self.old list) + 1 }
    {
        let alloc = *self.tags.allocator();
        let key = bytes_at(self.page, &self.side, attribute.key);
        self.attributes.add(alloc, list, attribute, key)
    }

    /// Puts a tag behind the others, and answers its number.
    #[inline(always)]
    pub(crate) fn add_tag(&mut self, tag: TagEntry) -> Result<u32, GrowError>
        requires { IsTrue (is_tag self.old tag) }
        ensures stands { IfOk result (λ number. tag_at self.new number ≡ tag_of self.old tag) }
        ensures within { IfOk result (λ number. IsTrue (is_tag_number self.new number)) }
        ensures grows { Grows self.old self.new }
        ensures too_large { result ≡ Err GrowError.TooLarge
            → 2 ^ 32 ≤ length self.old.tags.items + 1 }
    {
        let number = self.tags.len();
        if number >= u32::MAX as usize {
            return Err(GrowError::TooLarge);
        }
        let alloc = *self.tags.allocator();
        let name = bytes_at(self.page, &self.side, tag.name);
        let known = ElementName::of(name);
        let own = TagEntry {
            known,
            number: self.names.meet(alloc, known, name)?,
            ..tag
        };
        self.tags.push(own)?;
        Ok(number as u32)
    }

    /// Puts a doctype behind the others, and answers its number.
    pub(crate) fn add_doctype(&mut self, doctype: DoctypeEntry) -> Result<u32, GrowError>
        requires { IsTrue (is_doctype self.old doctype) }
        ensures stands { IfOk result
            (λ number. doctype_at self.new number ≡ doctype_of self.old doctype) }
        ensures within { IfOk result (λ number. IsTrue (is_doctype_number self.new number)) }
        ensures grows { Grows self.old self.new }
        ensures too_large { result ≡ Err GrowError.TooLarge
            → 2 ^ 32 ≤ length self.old.doctypes.items + 1 }
    {
        let number = self.doctypes.len();
        if number >= u32::MAX as usize {
            return Err(GrowError::TooLarge);
        }
        self.doctypes.push(doctype)?;
        Ok(number as u32)
    }

    /// The tag of a number.
    pub(crate) fn tag(&self, number: u32) -> TagEntry
        requires { IsTrue (is_tag_number self.now number) }
        ensures stands { tag_of self.now result ≡ tag_at self.now number }
        ensures within { IsTrue (is_tag self.now result) }
        ensures known { result.known ≡ name_of (bytes_of self.now result.name) }
        ensures number { result.number ≡ number_at self.now number }
    {
        self.tags[number as usize]
    }

    /// The doctype of a number.
    pub(crate) fn doctype(&self, number: u32) -> DoctypeEntry
        requires { IsTrue (is_doctype_number self.now number) }
        ensures stands { doctype_of self.now result ≡ doctype_at self.now number }
        ensures within { IsTrue (is_doctype self.now result) }
    {
        self.doctypes[number as usize]
    }

    /// Whether an attribute has a key and no namespace. Lengths are compared first.
    #[inline]
    pub(crate) fn is_plain_key(&self, entry: AttributeEntry, key: &[u8]) -> bool
        requires { IsTrue (is_attribute self.now entry) }
        ensures { result ≡ (let own = attribute_of self.now entry in
            has_no_space own.space && bytes_eq own.key key.now) }
    {
        if entry.key.len as usize != key.len() {
            return false;
        }
        entry.space == AttributeSpace::Plain && self.bytes(entry.key) == key
    }

    /// Bytes of the text.
    pub(crate) fn bytes(&self, span: Span) -> &[u8]
        requires { IsTrue (is_span self.now span) }
        ensures { result.now ≡ bytes_of self.now span }
    {
        bytes_at(self.page, &self.side, span)
    }

    /// The number of a name in any case, where a tag may have it.
    pub(crate) fn number(&self, name: &[u8]) -> Result<Option<u32>, AllocError>
        ensures { IfOk result (λ number. number ≡ number_in self.now.names name.now) }
    {
        self.names.number(*self.tags.allocator(), name)
    }
}
