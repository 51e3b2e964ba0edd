//! Documents.
ghost use Rattle.std.specs.Prelude.{◌≡◌, ◌<◌, ◌^◌, ℕ, [], length, Err, IfOk, string_bytes};
ghost use Rattle.std.specs.Borrow.{sem};
ghost use Rattle.tl_table.specs.Answer.{Answers};
ghost use Rattle.tl_table.specs.TreeFault.{FirstDangles};
ghost use Rattle.tl_spec.specs.Print.Clean.{IsCleanTable};
ghost use Rattle.tl_spec.specs.Print.Normal.{ReadsAs};
ghost use Rattle.tl_spec.specs.Print.{document_print};
ghost use Rattle.tl_spec.specs.Print.Text.{document_text};
ghost use Rattle.tl_spec.specs.Walk.{all_tags, trees, walk};
ghost use Rattle.tl.specs.View.{document_of};
ghost use Rattle.tl.specs.Inner.TableLends.{LendsParser, LendsNodes, LendsTop};

pub(crate) mod guard;
pub(crate) mod lookup;

use crate::errors::TreeError;
use crate::parser::base::{HTMLVersion, ParserOf, Tracking};
use crate::parser::tag::node::NodeOf;
use crate::walk::print::write_row;
use crate::walk::text::write_row_texts;
use std::alloc::Global;
use std::marker::Model;
use tl_attributes::attributes::Attributes;
use tl_attributes::summary::{Summary, SummaryOf};
use tl_bytes::byte_string::Bytes;
use tl_table::handle::NodeHandle;

/// A document: the table of its nodes, and which of them stand at its top.
#[derive(Debug)]
pub struct VDomOf<A, B, O: SummaryOf<A>, M> {
    parser: ParserOf<A, B, O, M>,
}

// By hand, so that a caller's proof has one step for a drop.
impl<A: Drop, B: Drop, O: SummaryOf<A> + Drop, M: Drop> Drop for VDomOf<A, B, O, M> {
    fn drop(self) {
        let VDomOf { parser: _ } = self;
    }
}

/// A document whose nodes borrow from a text.
pub type VDom<'a> = VDomOf<Attributes<'a>, Bytes<'a>, Summary, Tracking<'a>>;

impl<A, B, O: SummaryOf<A>, M> Model for VDomOf<A, B, O, M> {
    ghost use Rattle.tl.specs.Table.{Table};

    ghost Value = { Table A B O M };

    ghost view = { λ v. v.parser };
}

impl<A, B, O: SummaryOf<A>, M> From<ParserOf<A, B, O, M>> for VDomOf<A, B, O, M> {
    ghost from_gives = { λ p d. d ≡ p };

    fn from(parser: ParserOf<A, B, O, M>) -> Self {
        VDomOf { parser }
    }
}

impl<A, B, O: SummaryOf<A>, M> VDomOf<A, B, O, M> {
    /// The table.
    pub fn parser(&self) -> &ParserOf<A, B, O, M>
        ensures { result.now ≡ self.now }
    {
        &self.parser
    }

    /// All nodes, in the order of the text.
    pub fn nodes(&self) -> &[NodeOf<A, B, O>]
        ensures value { result.now ≡ self.now.nodes }

        // So the place of a node is a handle.
        ensures within { length self.now.nodes < 2 ^ 32 }
    {
        self.parser.nodes()
    }

    /// The handles of the top nodes.
    pub fn children(&self) -> &[NodeHandle]
        ensures { result.now ≡ self.now.top }
    {
        self.parser.top()
    }

    /// The version that a doctype of the text says; `HTML5` or none.
    pub fn version(&self) -> Option<HTMLVersion>
        ensures { result ≡ self.now.version }
    {
        self.parser.version()
    }

    /// The table for writing. A table put there brings all that it holds.
    pub fn parser_mut(&mut self) -> &mut ParserOf<A, B, O, M>
        ensures* writes_back { sem 𝓛
            (LendsParser A.row B.row O.row M.row O.SummaryOf self.entry result) }
        ensures value { result.now ≡ self.old }
    {
        &mut self.parser
    }

    /// All nodes for writing, in the order of the text. No node can be added or taken away.
    pub fn nodes_mut(&mut self) -> &mut [NodeOf<A, B, O>]
        ensures* writes_back { sem 𝓛
            (LendsNodes A.row B.row O.row M.row O.SummaryOf self.entry result) }
        ensures value { result.now ≡ self.old.nodes }
    {
        self.parser.nodes_mut()
    }

    /// The handles of the top nodes for writing. None can be added or taken away.
    pub fn children_mut(&mut self) -> &mut [NodeHandle]
        ensures* writes_back { sem 𝓛
            (LendsTop A.row B.row O.row M.row O.SummaryOf self.entry result) }
        ensures value { result.now ≡ self.old.top }
    {
        self.parser.top_mut()
    }
}

impl<'a> VDom<'a> {
    /// The document as markup: its top nodes in order, without a doctype. What is printed of a
    /// clean table is read as the normal form of its trees: adjacent texts are one, and empty ones
    /// are gone.
    pub fn outer_html(&self, alloc: Global) -> Result<String, TreeError>
        ensures answers { Answers string_bytes (document_print (document_of self.now)) result }
        ensures identity { let d = document_of self.now in
            IsCleanTable d.nodes d.top →
            IfOk result (λ s. ReadsAs (string_bytes s) (trees (walk all_tags d.nodes [] d.top))) }

        // A first top handle that dangles is answered before any memory is taken.
        ensures dangling { (h : ℕ) → FirstDangles self.now.nodes self.now.top h
            → result ≡ Err (TreeError.Dangling h) }
    {
        let mut out = String::new(alloc);
        write_row(alloc, self.nodes(), self.children(), &mut out)?;
        Ok(out)
    }

    /// The texts at or below the top nodes, in the order of the walk. Comments give none.
    pub fn inner_text(&self, alloc: Global) -> Result<String, TreeError>
        ensures answers { Answers string_bytes (document_text (document_of self.now)) result }

        // A first top handle that dangles is answered before any memory is taken.
        ensures dangling { (h : ℕ) → FirstDangles self.now.nodes self.now.top h
            → result ≡ Err (TreeError.Dangling h) }
    {
        let mut out = String::new(alloc);
        write_row_texts(alloc, self.parser(), self.children(), &mut out)?;
        Ok(out)
    }
}
