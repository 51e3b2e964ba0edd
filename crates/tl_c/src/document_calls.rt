//! The calls with a document.
ghost use Rattle.std.specs.Prelude.{◌≡◌, ◌≢◌, ◌<◌, false, length, IsUtf8, None};
ghost use Rattle.tl_c.specs.Queries.{AreTrees, is_quirks_held, one_if, outcome_of_some, rows_held};
ghost use Rattle.tl_c.specs.Puts.{Puts};
ghost use Rattle.tl_c.specs.Readings.{Reads};
ghost use Rattle.tl_dom_spec.specs.HtmlForest.{HtmlForest};
ghost use Rattle.tl_html_print.specs.Serialized.{serialized};
ghost use Rattle.tl_page.specs.Outcome.{success};

use crate::copy_out::copy_result;
use crate::document::Document;
use crate::held::{count, is_quirks, one_if};
use crate::markup::document_markup;
use crate::reading::read;
use std::alloc::Global;

/// Reads a copy of a page into a document, as browsers read it without scripts: the document holds
/// its tree. What the document held before is given back.
#[unsafe(no_mangle)]
pub extern "C" fn tl_parse_html(alloc: Global, page: &[u8], document: &mut Document) -> u8
    ensures reads { Reads page.now document.old.held document.new.held result }

    // No want of memory hides that a page is no text, or too long.
    ensures no_text { ¬ (IsUtf8 page.now) → result ≡ 2 }
    ensures long { u32.MAX < length page.now → result ≡ 2 }
{
    match read(alloc, page) {
        Ok(read) => {
            let _before = document.replace(alloc, Some(read));
            0
        }
        Err(failure) => failure as u8,
    }
}

/// Gives the memory of a document back. There is none from then on, so a second call does nothing.
#[unsafe(no_mangle)]
pub extern "C" fn tl_free(alloc: Global, document: &mut Document)
    ensures { document.new.held ≡ None }
{
    let _before = document.replace(alloc, None);
}

/// How many nodes a document has: none where there is no document.
#[unsafe(no_mangle)]
pub extern "C" fn tl_node_count(alloc: Global, document: &mut Document) -> u32
    ensures same { document.new.held ≡ document.old.held }
    ensures count { result ≡ length (rows_held document.old.held) }
{
    let held = document.replace(alloc, None);
    let count = count(&held);
    let _nothing = document.replace(alloc, held);
    count
}

/// 1 where a document is in quirks mode; 0 where it isn't, and where there is no document.
#[unsafe(no_mangle)]
pub extern "C" fn tl_is_quirks(alloc: Global, document: &mut Document) -> u8
    ensures same { document.new.held ≡ document.old.held }
    ensures quirks { result ≡ one_if (is_quirks_held document.old.held) }
{
    let held = document.replace(alloc, None);
    let is_quirks = one_if(is_quirks(&held));
    let _nothing = document.replace(alloc, held);
    is_quirks
}

/// The whole page as markup. It is refused where there is no document.
#[unsafe(no_mangle)]
pub extern "C" fn tl_document_html(
    alloc: Global,
    document: &mut Document,
    out: &mut [u8],
    needed: &mut usize,
) -> u8
    ensures same { document.new.held ≡ document.old.held }
    ensures put { (trees : HtmlForest) → AreTrees document.old.held trees →
        let print = success (serialized false None trees) in
        let outcome = outcome_of_some (λ _. print) document.old.held in
        Puts outcome out.old out.new needed.new result }

    // Without a document it takes no memory.
    ensures none { document.old.held ≡ None → result ≡ 1 }
{
    let held = document.replace(alloc, None);
    let written = document_markup(alloc, &held);
    let _nothing = document.replace(alloc, held);
    copy_result(written, out, needed)
}
