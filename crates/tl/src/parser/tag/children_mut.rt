//! The children of a tag for writing.
ghost use Rattle.std.specs.Prelude.{◌≡◌};
ghost use Rattle.std.specs.Borrow.{sem};
ghost use Rattle.tl.specs.ChildrenLends.{LendsTopHandles, lent_tag, lent_name};

use crate::parser::tag::{RawChildren, TagOf};
use tl_attributes::attributes::Attributes;
use tl_attributes::summary::{Summary, SummaryOf};
use tl_bytes::byte_string::Bytes;

/// The children of a tag for writing.
#[derive(Debug, Drop)]
pub struct ChildrenMutOf<'b, A, B, O: SummaryOf<A>> {
    tag: &'b mut TagOf<A, B, O>,
}

/// The children of a tag of a table for writing.
pub type ChildrenMut<'a, 'b> = ChildrenMutOf<'b, Attributes<'a>, Bytes<'a>, Summary>;

impl<'b, A, B, O: SummaryOf<A>> ChildrenMutOf<'b, A, B, O> {
    /// The handles of the children, in order. Nothing ties them to a table. A proof that needs what
    /// a write leaves calls this and `children_mut` in a function generic in `A`, `B` and `O`, on
    /// `&mut TagOf<A, B, O>`; a caller at a lifetime calls that one.
    pub fn top_mut<'s>(&'s mut self) -> &'s mut RawChildren
        ensures* writes_back { sem 𝓛
            (LendsTopHandles A.row B.row O.row O.SummaryOf self.entry result) }
        ensures value { result.now ≡ (lent_tag self.old).children }
    {
        let tag = &mut *self.tag;
        tag.child_handles_mut()
    }
}

impl<A, B, O: SummaryOf<A>> TagOf<A, B, O> {
    /// The children for writing. What a write through them leaves is a clause of `top_mut`, which
    /// says how a proof learns it.
    pub fn children_mut(&mut self) -> ChildrenMutOf<'_, A, B, O>
        ensures name { lent_name result ≡ self.entry.ghost_name }
        ensures value { lent_tag result ≡ self.old }
    {
        ChildrenMutOf { tag: self }
    }
}
