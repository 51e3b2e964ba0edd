//! Nodes.
ghost use Rattle.std.specs.Prelude.{◌≡◌, IfOk, IfSome, IsOk};
ghost use Rattle.std.specs.Borrow.{sem};
ghost use Rattle.std.specs.Option.{option_copied, option_copied_mut};
ghost use Rattle.tl_bytes.specs.Held.{borrowed};
ghost use Rattle.tl.specs.Inner.Node.{tag_of, raw_of, comment_of};
ghost use Rattle.tl.specs.Inner.NodeLends.{LendsTag, LendsRaw, LendsComment};

use crate::parser::tag::TagOf;
use crate::parser::tag::children::ChildrenOf;
use std::alloc::AllocError;
use tl_attributes::attributes::Attributes;
use tl_attributes::summary::{Summary, SummaryOf};
use tl_bytes::byte_string::Bytes;

/// A node of bytes of the type `B`, whose tags have attributes of the type `A`.
#[derive(Debug, Drop)]
pub enum NodeOf<A, B, O: SummaryOf<A>> {
    /// A tag.
    Tag(TagOf<A, B, O>),
    /// A text.
    Raw(B),
    /// A comment, from its `<` to its `>`; one that never ends has no bytes.
    Comment(B),
}

/// A node of a table: a tag, a text or a comment.
pub type Node<'a> = NodeOf<Attributes<'a>, Bytes<'a>, Summary>;

impl<A, B, O: SummaryOf<A>> NodeOf<A, B, O> {
    /// The tag, if it is one.
    pub fn as_tag(&self) -> Option<&TagOf<A, B, O>>
        ensures { option_copied result ≡ tag_of self.now }
    {
        match self {
            NodeOf::Tag(tag) => Some(tag),
            _ => None,
        }
    }

    /// The bytes of the text, if it is one.
    pub fn as_raw(&self) -> Option<&B>
        ensures { option_copied result ≡ raw_of self.now }
    {
        match self {
            NodeOf::Raw(bytes) => Some(bytes),
            _ => None,
        }
    }

    /// The bytes of the comment, if it is one.
    pub fn as_comment(&self) -> Option<&B>
        ensures { option_copied result ≡ comment_of self.now }
    {
        match self {
            NodeOf::Comment(bytes) => Some(bytes),
            _ => None,
        }
    }

    /// The tag for writing, if it is one.
    pub fn as_tag_mut(&mut self) -> Option<&mut TagOf<A, B, O>>
        ensures* writes_back { sem 𝓛 (LendsTag A.row B.row O.row O.SummaryOf self.entry result) }
        ensures value { option_copied_mut result ≡ tag_of self.old }
    {
        match self {
            NodeOf::Tag(own) => Some(own),
            _ => None,
        }
    }

    /// The bytes of the text for writing, if it is one.
    pub fn as_raw_mut(&mut self) -> Option<&mut B>
        ensures* writes_back { sem 𝓛 (LendsRaw A.row B.row O.row O.SummaryOf self.entry result) }
        ensures value { option_copied_mut result ≡ raw_of self.old }
    {
        match self {
            NodeOf::Raw(text) => Some(text),
            _ => None,
        }
    }

    /// The bytes of the comment for writing, if it is one.
    pub fn as_comment_mut(&mut self) -> Option<&mut B>
        ensures* writes_back { sem 𝓛
            (LendsComment A.row B.row O.row O.SummaryOf self.entry result) }
        ensures value { option_copied_mut result ≡ comment_of self.old }
    {
        match self {
            NodeOf::Comment(comment) => Some(comment),
            _ => None,
        }
    }
}

impl<A, B, O: SummaryOf<A>> NodeOf<A, B, O> {
    /// The children, if it is a tag.
    pub fn children(&self) -> Option<ChildrenOf<'_, A, B, O>>
        ensures { result ≡ tag_of self.now }
    {
        match self {
            NodeOf::Tag(tag) => Some(tag.children()),
            _ => None,
        }
    }
}

impl<'a> Node<'a> {
    /// The same node, each of its parts held alike.
    pub fn clone(&self) -> Result<Node<'a>, AllocError>
        ensures value { IfOk result (λ n. n ≡ self.now) }

        // A text and a comment whose bytes are borrowed take no memory.
        ensures raw { IfSome (raw_of self.now) (λ bytes. bytes.held ≡ borrowed → IsOk result) }
        ensures comment { IfSome (comment_of self.now)
            (λ bytes. bytes.held ≡ borrowed → IsOk result) }
    {
        match self {
            Node::Tag(tag) => Ok(Node::Tag(tag.clone()?)),
            Node::Raw(bytes) => Ok(Node::Raw(bytes.clone()?)),
            Node::Comment(bytes) => Ok(Node::Comment(bytes.clone()?)),
        }
    }
}
