//! Compiled selectors as C holds them.
ghost use Rattle.std.specs.Prelude.{◌≡◌, Option, Some, None, MatchOption, option_map};
ghost use Rattle.std.specs.Coded.{coded_option};
ghost use Rattle.tl_c.specs.declared.parsed_selector.ParsedSelector.{ParsedSelector};
ghost use Rattle.tl_c.specs.Owned.{selector_owned_at, selector_code};

use crate::parsed_selector::ParsedSelector;
use crate::raw_box::RawBox;
use std::alloc::Global;
use std::marker::Model;
use std::mem;
use std::ptr::null_mut;

/// A selector that was read, by its pointer, or null. A caller in C sees a struct of one pointer,
/// and holds nothing where it is null.
///
/// It isn't `Drop`, so nothing that is proved forgets what is held: `replace` hands it out.
#[repr(C)]
pub struct Compiled {
    at: *mut u8,
    alloc: Global,
    pub ghost held: { Option ParsedSelector } by { coded_option selector_code },
}

impl Model for Compiled {
    ghost also_owns = { λ d. selector_owned_at d.alloc d.at d.held };
}

impl Compiled {
    // The one that holds nothing.
    fn none(alloc: Global) -> Compiled
        ensures { result.held ≡ None }
    {
        Compiled {
            at: null_mut(),
            alloc,
        }
    }

    // The one of a box.
    fn some(raw_box: RawBox<ParsedSelector, Global>) -> Compiled
        ensures { result.held ≡ Some raw_box.value }
    {
        let RawBox { at, alloc } = raw_box;
        Compiled {
            at: at as *mut u8,
            alloc,
        }
    }

    // Its box.
    fn into_raw_box(self) -> Option<RawBox<ParsedSelector, Global>>
        ensures { MatchOption result (self.held ≡ None)
            (λ raw_box. self.held ≡ Some raw_box.value) }
    {
        let Compiled { at, alloc } = self;
        if at.is_null() {
            None
        } else {
            Some(RawBox {
                at: at as *mut ParsedSelector,
                alloc,
            })
        }
    }

    // The one of a box, if there is one.
    fn from_box(alloc: Global, parsed: Option<Box<ParsedSelector>>) -> Compiled
        ensures { result.held ≡ option_map (λ own. own.value) parsed }
    {
        match parsed {
            Some(parsed) => Compiled::some(RawBox::from_box(parsed)),
            None => Compiled::none(alloc),
        }
    }

    // What it holds, if it holds something.
    fn into_box(self) -> Option<Box<ParsedSelector>>
        ensures { option_map (λ own. own.value) result ≡ self.held }
    {
        match self.into_raw_box() {
            Some(raw_box) => Some(raw_box.into_box()),
            None => None,
        }
    }

    /// Puts a selector that was read into it, or nothing, and hands out what it held.
    pub(crate) fn replace(
        &mut self,
        alloc: Global,
        parsed: Option<Box<ParsedSelector>>,
    ) -> Option<Box<ParsedSelector>>
        ensures held { self.new.held ≡ option_map (λ own. own.value) parsed }
        ensures replaced { option_map (λ own. own.value) result ≡ self.old.held }
    {
        mem::replace(self, Compiled::from_box(alloc, parsed)).into_box()
    }
}
