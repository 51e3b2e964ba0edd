//! The children of a tag.
ghost use Rattle.std.specs.Prelude.{◌≡◌, ⊤};

use crate::parser::tag::{RawChildren, TagOf};
use std::alloc::AllocError;
use std::marker::Model;
use tl_attributes::attributes::Attributes;
use tl_attributes::summary::{Summary, SummaryOf};
use tl_bytes::byte_string::Bytes;

/// The children of a tag for reading, seen as the tag.
#[derive(Debug, Drop)]
pub struct ChildrenOf<'b, A, B, O: SummaryOf<A>> {
    tag: &'b TagOf<A, B, O>,
}

/// The children of a tag of a table.
pub type Children<'a, 'b> = ChildrenOf<'b, Attributes<'a>, Bytes<'a>, Summary>;

impl<'b, A, B, O: SummaryOf<A>> Model for ChildrenOf<'b, A, B, O> {
    ghost use Rattle.tl.specs.Tag.{Tag, tag_code};

    ghost Value = { Tag A B };

    ghost coded = { tag_code A.code B.code };

    ghost view = { λ c. c.tag.now };
}

/// A clone has the same tag, and takes no memory.
impl<'b, A, B, O: SummaryOf<A>> Clone for ChildrenOf<'b, A, B, O> {
    ghost is_clone = { λ c copy. copy ≡ c };

    ghost is_infallible = { λ _. ⊤ };

    fn clone(&self) -> Result<Self, AllocError> {
        Ok(ChildrenOf { tag: self.tag })
    }
}

impl<'b, A, B, O: SummaryOf<A>> ChildrenOf<'b, A, B, O> {
    /// The handles of the children, in order.
    pub fn top(&self) -> &RawChildren
        ensures { result.now ≡ self.now.children }
    {
        self.tag.child_handles()
    }
}

impl<A, B, O: SummaryOf<A>> TagOf<A, B, O> {
    /// The children for reading.
    pub fn children(&self) -> ChildrenOf<'_, A, B, O>
        ensures { result ≡ self.now }
    {
        ChildrenOf { tag: self }
    }
}
