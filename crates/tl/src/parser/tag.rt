//! Tags.
//!
//! What is known of an id and a class is an invariant of the tag. It goes when attributes are lent
//! for writing, since no call sees the end of a loan. A tag that is cloned has a block of its own,
//! since the tags of a block go back together.
ghost use Rattle.std.specs.Prelude.{◌≡◌, IfOk, OnOk, OnErr};

pub(crate) mod children;
pub(crate) mod children_mut;
pub(crate) mod node;
mod range;

use std::alloc::{AllocError, Global};
use std::marker::Model;
use tl_attributes::attributes::Attributes;
use tl_attributes::summary::{Summary, SummaryOf};
use tl_bytes::byte_string::Bytes;
use tl_inline::inline::vec::InlineVec;
use tl_room::arena::{Arena, Block};
use tl_table::handle::NodeHandle;

/// The handles of a tag's children, the first two inline.
pub type RawChildren = InlineVec<NodeHandle, 2>;

#[derive(Debug, Drop)]
struct Parts<A, B> {
    attributes: A,
    children: RawChildren,
    raw: B,
    // A text that is read has at most `u32::MAX` bytes.
    start: u32,
}

/// A tag of bytes of the type `B`, with attributes of the type `A`. What is asked of it most is at
/// hand, and the rest lies in a block of an arena, so that a table of nodes stays small.
#[derive(Debug)]
pub struct TagOf<A, B, O: SummaryOf<A>> {
    name: B,
    // What is known of the attributes without a look at them.
    summary: O,
    parts: Box<Parts<A, B>, Block>,
}

// By hand, so that a caller's proof has one step for a drop.
impl<A: Drop, B: Drop, O: SummaryOf<A> + Drop> Drop for TagOf<A, B, O> {
    fn drop(self) {
        let TagOf {
            name: _,
            summary: _,
            parts: _,
        } = self;
    }
}

/// A tag: its name, its attributes, the handles of its children, and where it stands in the text.
pub type HTMLTag<'a> = TagOf<Attributes<'a>, Bytes<'a>, Summary>;

impl<A, B, O: SummaryOf<A>> Model for TagOf<A, B, O> {
    ghost use Rattle.tl.specs.Tag.{Tag, tag_code};

    ghost Value = { Tag A B };

    ghost coded = { tag_code A.code B.code };

    ghost view = { λ t. record {
      name = t.name;
      attributes = t.parts.value.attributes;
      children = t.parts.value.children;
      raw = t.parts.value.raw;
      start = t.parts.value.start;
    } };

    ghost invariant = { λ t. O.is_summary t.summary t.parts.value.attributes };
}

impl<A: Drop, B: Drop, O: SummaryOf<A>> TagOf<A, B, O> {
    ghost use Rattle.tl.specs.Tag.{childless};

    // A tag without children, of whose attributes nothing is known but by a look at them.
    #[inline(always)]
    pub(crate) fn new(
        alloc: Global,
        arena: &mut Arena,
        name: B,
        attributes: A,
        raw: B,
        start: u32,
    ) -> Result<Self, AllocError>
        ensures { IfOk result (λ t. t ≡ childless name attributes raw start) }
    {
        let parts = Parts {
            attributes,
            children: InlineVec::new(alloc),
            raw,
            start,
        };
        Ok(TagOf {
            name,
            summary: O::unknown(),
            parts: arena.allocate(parts)?,
        })
    }

    // Makes `raw` the source of the tag.
    #[inline(always)]
    pub(crate) fn set_raw(&mut self, raw: B)
        ensures { self.new ≡ record self.old { raw = raw } }
    {
        self.parts.raw = raw;
    }
}

impl<A, B, O: SummaryOf<A>> TagOf<A, B, O> {
    ghost use Rattle.std.specs.Borrow.{sem};
    ghost use Rattle.tl_spec.specs.Tree.Inline.{room, with_last};
    ghost use Rattle.tl.specs.Inner.TagLends.{LendsName, LendsAttributes, LendsChildren};

    // Makes `child` the last child.
    pub(crate) fn push_child(&mut self, child: NodeHandle) -> Result<(), AllocError>
        ensures ok { OnOk result
            (self.new ≡ record self.old { children = with_last room self.old.children child }) }
        ensures err { OnErr result (self.new ≡ self.old) }
    {
        self.parts.children.push(child).map_err(|_| AllocError)
    }

    // Where the tag's `<` stands in the text.
    pub(crate) fn start(&self) -> u32
        ensures { result ≡ self.now.start }
    {
        self.parts.start
    }

    /// The name.
    pub fn name(&self) -> &B
        ensures { result.now ≡ self.now.name }
    {
        &self.name
    }

    /// The whole source of the tag: up to the end of its end tag where one closed it, else its
    /// start tag alone. No edit changes it.
    pub fn raw(&self) -> &B
        ensures { result.now ≡ self.now.raw }
    {
        &self.parts.raw
    }

    /// The attributes.
    pub fn attributes(&self) -> &A
        ensures { result.now ≡ self.now.attributes }
    {
        &self.parts.attributes
    }

    // What is known of the attributes without a look at them.
    pub(crate) fn summary(&self) -> O
        ensures { O.is_summary result self.now.attributes }
    {
        self.summary
    }

    // Makes the summary that of the attributes as they are.
    #[inline(always)]
    pub(crate) fn refresh_summary(&mut self)
        ensures { self.new ≡ self.old }
    {
        self.summary = O::from_attributes(&self.parts.attributes);
    }

    // The handles of the children.
    pub(crate) fn child_handles(&self) -> &RawChildren
        ensures { result.now ≡ self.now.children }
    {
        &self.parts.children
    }

    /// The name for writing. The raw keeps the name that was read.
    pub fn name_mut(&mut self) -> &mut B
        ensures* writes_back { sem 𝓛 (LendsName A.row B.row O.row O.SummaryOf self.entry result) }
        ensures value { result.now ≡ self.old.name }
    {
        &mut self.name
    }

    /// The attributes for writing.
    pub fn attributes_mut(&mut self) -> &mut A
        ensures* writes_back { sem 𝓛
            (LendsAttributes A.row B.row O.row O.SummaryOf self.entry result) }
        ensures value { result.now ≡ self.old.attributes }
    {
        self.summary = O::unknown();
        &mut self.parts.attributes
    }

    // The handles of the children for writing.
    pub(crate) fn child_handles_mut(&mut self) -> &mut RawChildren
        ensures* writes_back { sem 𝓛
            (LendsChildren A.row B.row O.row O.SummaryOf self.entry result) }
        ensures value { result.now ≡ self.old.children }
    {
        &mut self.parts.children
    }
}

// A name and a source, each held alike.
fn clone_texts<'a>(name: &Bytes<'a>, raw: &Bytes<'a>) -> Result<(Bytes<'a>, Bytes<'a>), AllocError>
    ensures name { IfOk result (λ p. p.0 ≡ name.now) }
    ensures raw { IfOk result (λ p. p.1 ≡ raw.now) }
{
    let name = name.clone()?;
    Ok((name, raw.clone()?))
}

// Attributes and handles of children, each held alike.
fn clone_lists<'a>(
    attributes: &Attributes<'a>,
    children: &RawChildren,
) -> Result<(Attributes<'a>, RawChildren), AllocError>
    ensures attributes { IfOk result (λ p. p.0 ≡ attributes.now) }
    ensures children { IfOk result (λ p. p.1 ≡ children.now) }
{
    let attributes = attributes.clone()?;
    Ok((attributes, children.clone()?))
}

impl<'a> HTMLTag<'a> {
    /// A tag with the same parts, each held alike, in a block of its own.
    pub fn clone(&self) -> Result<HTMLTag<'a>, AllocError>
        ensures { IfOk result (λ t. t ≡ self.now) }
    {
        let parts = &*self.parts;
        let alloc = Box::allocator(&self.parts).alloc();
        let (name, raw) = clone_texts(&self.name, &parts.raw)?;
        let (attributes, children) = clone_lists(&parts.attributes, &parts.children)?;
        let summary = Summary::from_attributes(&attributes);
        let copy = Parts {
            attributes,
            children,
            raw,
            start: parts.start,
        };
        Ok(TagOf {
            name,
            summary,
            parts: Arena::new(alloc, alloc).allocate(copy)?,
        })
    }
}
