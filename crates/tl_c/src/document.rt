//! Documents as C holds them.
ghost use Rattle.std.specs.Prelude.{◌≡◌, Option, Some, None, MatchOption, option_map};
ghost use Rattle.std.specs.Coded.{coded_option};
ghost use Rattle.tl_c.specs.declared.parsed_page.ParsedPage.{ParsedPage};
ghost use Rattle.tl_c.specs.Owned.{owned_at, parsed_code};

use crate::parsed_page::ParsedPage;
use crate::raw_box::RawBox;
use std::alloc::Global;
use std::marker::Model;
use std::mem;
use std::ptr::null_mut;

/// A page that was read, by its pointer, or null. A caller in C sees a struct of one pointer, and
/// holds nothing where it is null.
///
/// It isn't `Drop`, so nothing that is proved forgets what is held: `replace` hands it out.
#[repr(C)]
pub struct Document {
    at: *mut u8,
    alloc: Global,
    pub ghost held: { Option ParsedPage } by { coded_option parsed_code },
}

impl Model for Document {
    ghost also_owns = { λ d. owned_at d.alloc d.at d.held };
}

impl Document {
    // The document that holds nothing.
    fn none(alloc: Global) -> Document
        ensures { result.held ≡ None }
    {
        Document {
            at: null_mut(),
            alloc,
        }
    }

    // The document of a box.
    fn some(raw_box: RawBox<ParsedPage, Global>) -> Document
        ensures { result.held ≡ Some raw_box.value }
    {
        let RawBox { at, alloc } = raw_box;
        Document {
            at: at as *mut u8,
            alloc,
        }
    }

    // The box of a document.
    fn into_raw_box(self) -> Option<RawBox<ParsedPage, Global>>
        ensures { MatchOption result (self.held ≡ None)
            (λ raw_box. self.held ≡ Some raw_box.value) }
    {
        let Document { at, alloc } = self;
        if at.is_null() {
            None
        } else {
            Some(RawBox {
                at: at as *mut ParsedPage,
                alloc,
            })
        }
    }

    // The document of a box, if there is one.
    fn from_box(alloc: Global, parsed: Option<Box<ParsedPage>>) -> Document
        ensures { result.held ≡ option_map (λ own. own.value) parsed }
    {
        match parsed {
            Some(parsed) => Document::some(RawBox::from_box(parsed)),
            None => Document::none(alloc),
        }
    }

    // What a document holds, if it holds something.
    fn into_box(self) -> Option<Box<ParsedPage>>
        ensures { option_map (λ own. own.value) result ≡ self.held }
    {
        match self.into_raw_box() {
            Some(raw_box) => Some(raw_box.into_box()),
            None => None,
        }
    }

    /// Puts a page that was read into the document, or nothing, and hands out what it held.
    pub(crate) fn replace(
        &mut self,
        alloc: Global,
        parsed: Option<Box<ParsedPage>>,
    ) -> Option<Box<ParsedPage>>
        ensures held { self.new.held ≡ option_map (λ own. own.value) parsed }
        ensures replaced { option_map (λ own. own.value) result ≡ self.old.held }
    {
        mem::replace(self, Document::from_box(alloc, parsed)).into_box()
    }
}
