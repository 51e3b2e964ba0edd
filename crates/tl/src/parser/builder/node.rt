//! What the builder asks and changes of a node that is open.
ghost use Rattle.std.specs.Prelude.{◌≡◌, ◌≤◌, length, Some, OnOk};
ghost use Rattle.tl_bytes.specs.Held.{Held};
ghost use Rattle.tl_spec.specs.Tree.Forest.{closes};
ghost use Rattle.tl_spec.specs.Tree.Builder.{with_child, with_raw_to, name_if_tag};
ghost use Rattle.tl.specs.View.{node_view, IsHeldNode};

use crate::parser::builder::source::Source;
use crate::parser::tag::node::Node;
use std::alloc::{AllocError, Global};
use tl_lexer::span::Span;
use tl_table::handle::NodeHandle;

impl<'a> Node<'a> {
    // Whether it is a tag of this name.
    #[inline(always)]
    pub(crate) fn is_named(&self, name: &[u8]) -> bool
        ensures { result ≡ closes name.now (name_if_tag (Some (node_view self.now))) }
    {
        match self {
            Node::Tag(tag) => name == tag.name().as_bytes(),
            _ => false,
        }
    }

    // Makes `child` the last child, if it is a tag.
    #[inline(always)]
    pub(crate) fn push_child(&mut self, child: NodeHandle) -> Result<(), AllocError>
        ensures ok { OnOk result (node_view self.new ≡ with_child child (node_view self.old)) }
        ensures held { OnOk result ((held : Held) → IsHeldNode held self.old
            → IsHeldNode held self.new) }
    {
        if let Node::Tag(tag) = self {
            tag.push_child(child)?;
        }
        Ok(())
    }

    // Lets its raw end at the place `to` of the text, if it is a tag.
    #[inline(always)]
    pub(crate) fn set_raw<S: Source<'a>>(
        &mut self,
        alloc: Global,
        source: &S,
        to: usize,
    ) -> Result<(), AllocError>
        requires { to ≤ length (S.text source.now) }
        ensures ok { OnOk result (node_view self.new
            ≡ with_raw_to (S.text source.now) to (node_view self.old)) }
        ensures held { OnOk result (IsHeldNode S.held self.old → IsHeldNode S.held self.new) }
    {
        if let Node::Tag(tag) = self {
            let start = (tag.start() as usize).min(to);
            tag.set_raw(source.piece(
                alloc,
                Span {
                    start,
                    len: to - start,
                },
            )?);
        }
        Ok(())
    }
}
