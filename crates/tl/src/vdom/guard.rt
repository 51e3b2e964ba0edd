//! Documents that keep their text.
ghost use Rattle.std.specs.Prelude.{◌≡◌};
ghost use Rattle.std.specs.Borrow.{sem};
ghost use Rattle.tl.specs.Inner.TableLends.{LendsDocument};

use crate::parser::base::Tracking;
use crate::vdom::VDomOf;
use std::marker::Model;
use tl_attributes::attributes::Attributes;
use tl_attributes::summary::{Summary, SummaryOf};
use tl_bytes::byte_string::Bytes;

/// Holds a document. Seen as that document.
#[derive(Debug, Drop)]
pub struct VDomGuardOf<A, B, O: SummaryOf<A>, M> {
    document: VDomOf<A, B, O, M>,
}

/// Holds a document whose pieces are shares of its text, so that it borrows nothing.
pub type VDomGuard = VDomGuardOf<Attributes<'static>, Bytes<'static>, Summary, Tracking<'static>>;

impl<A, B, O: SummaryOf<A>, M> Model for VDomGuardOf<A, B, O, M> {
    ghost use Rattle.tl.specs.Table.{Table};

    ghost Value = { Table A B O M };

    ghost view = { λ g. g.document };
}

impl<A, B, O: SummaryOf<A>, M> VDomGuardOf<A, B, O, M> {
    // Holds this document.
    pub(crate) fn new(document: VDomOf<A, B, O, M>) -> Self
        ensures { result ≡ document }
    {
        VDomGuardOf { document }
    }

    /// The document.
    pub fn get_ref(&self) -> &VDomOf<A, B, O, M>
        ensures { result.now ≡ self.now }
    {
        &self.document
    }

    /// The document for writing. What is put there is what it holds afterwards.
    pub fn get_mut_ref(&mut self) -> &mut VDomOf<A, B, O, M>
        ensures* writes_back { sem 𝓛
            (LendsDocument A.row B.row O.row M.row O.SummaryOf self.entry result) }
        ensures value { result.now ≡ self.old }
    {
        &mut self.document
    }
}
