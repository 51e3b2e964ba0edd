//! Documents of pages, and what is asked of them.
use crate::page_edits::{Edit, edit_all};
use std::alloc::Global;
use std::mem;
use std::test::Fail;
use tl::{ParserOptions, VDom, VDomGuard, parse, parse_owned};

/// What is asked of a document.
pub trait Ask {
    /// Whether a document answers as it must.
    fn is_answered(&self, alloc: Global, document: &VDom<'_>) -> Result<bool, Fail>;
}

/// What is asked of two documents.
pub trait AskBoth {
    /// Whether they answer as they must.
    fn is_answered<'a>(
        &self,
        alloc: Global,
        first: &VDom<'a>,
        second: &VDom<'a>,
    ) -> Result<bool, Fail>;
}

/// A page, and how it is read.
pub type Page = (&'static str, ParserOptions);

/// A page that its document keeps.
pub fn owned_page(alloc: Global, page: &str, options: ParserOptions) -> Result<VDomGuard, Fail> {
    let text = String::from_str(alloc, page)?;
    Ok(parse_owned(alloc, text, options)?)
}

/// Whether a page, once its document was edited, answers as it must, whether its document borrows
/// it or keeps it.
pub fn answers<A: Ask>(
    alloc: Global,
    page: &'static str,
    options: ParserOptions,
    edits: &[Edit],
    asked: &A,
) -> Result<bool, Fail> {
    let mut document = parse(alloc, page, options)?;
    edit_all(&mut document, edits)?;
    if !asked.is_answered(alloc, &document)? {
        return Ok(false);
    }
    let mut guard = owned_page(alloc, page, options)?;
    edit_all(guard.get_mut_ref(), edits)?;
    asked.is_answered(alloc, guard.get_ref())
}

// The document of a page, which keeps it or borrows it.
fn read(
    alloc: Global,
    text: &'static str,
    options: ParserOptions,
    keeps: bool,
) -> Result<VDom<'static>, Fail> {
    let mut document = parse(alloc, text, options)?;
    if keeps {
        let mut guard = owned_page(alloc, text, options)?;
        mem::swap(document.parser_mut(), guard.get_mut_ref().parser_mut());
    }
    Ok(document)
}

/// Whether the documents of two pages answer as they must, whether both borrow their pages or keep
/// them.
pub fn both_answer<A: AskBoth>(
    alloc: Global,
    first: &Page,
    second: &Page,
    asked: &A,
) -> Result<bool, Fail> {
    for keeps in [false, true] {
        let document = read(alloc, first.0, first.1, keeps)?;
        let other = read(alloc, second.0, second.1, keeps)?;
        if !asked.is_answered(alloc, &document, &other)? {
            return Ok(false);
        }
    }
    Ok(true)
}
