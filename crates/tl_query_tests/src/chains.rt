//! Selectors of some hundred parts: what queries by them and by their clones give.
use std::alloc::Global;
use std::fmt::Write;
use std::test::Fail;
use tl::queryselector::{QuerySelectorIterator, Selector};
use tl::{ParserOptions, VDom, parse, parse_query_selector};

// What is repeated, and how often.
type Repeated = (&'static str, u32);

// The parts of a text, what stands after them, the page, and the nodes that are found, `none` where
// the text is no selector.
type Row = (Repeated, &'static str, Repeated, &'static str);

const PAGE: Repeated = ("<p class=a></p><b></b>", 2);

// Of these tags, each below the one before it, the last has 299 ancestors.
const TOWER: Repeated = ("<a>", 300);

#[rattlefmt::skip]
static ROWS: [Row; 14] = [
    ((".a", 300), "", PAGE, "0 2 "),
    ((".a", 300), "b", PAGE, ""),
    (("p", 1), ".a.a.a.a", PAGE, "0 2 "),
    (("* ", 300), "", TOWER, "299 "),
    (("* ", 301), "", TOWER, ""),
    (("* > ", 299), "*", TOWER, "299 "),
    (("* > ", 300), "*", TOWER, ""),
    (("i, ", 299), "b", PAGE, "1 3 "),
    (("i i.a > i, ", 99), "b", PAGE, "1 3 "),
    (("q ", 300), "a", TOWER, ""),
    ((".a", 300), ",", PAGE, "none"),
    (("* ", 300), "!", PAGE, "none"),
    (("* > ", 300), "", PAGE, "none"),
    (("i, ", 300), "", PAGE, "none"),
];

fn repeat(alloc: Global, repeated: &Repeated, end: &str) -> Result<String, Fail> {
    let (part, times) = *repeated;
    let mut text = String::new(alloc);
    for _ in 0..times {
        text.push_str(part)?;
    }
    text.push_str(end)?;
    Ok(text)
}

// Writes the numbers of the nodes where it holds.
fn show_found<'b>(document: &'b VDom<'_>, selector: Selector<'b>, out: &mut String) -> bool {
    match QuerySelectorIterator::new(selector, document.parser(), document) {
        Ok(found) => {
            for handle in found {
                if write!(out, "{} ", handle.get_inner()).is_err() {
                    return false;
                }
            }
            true
        }
        Err(_) => false,
    }
}

// Whether a selector and its clone, which have one debug text, give these nodes.
fn are_found<'b>(
    alloc: Global,
    document: &'b VDom<'_>,
    selector: Selector<'b>,
    wanted: &str,
) -> Result<bool, Fail> {
    let twin = selector.clone()?;
    let shown = format!(in alloc; "{selector:?}")?;
    let twin_shown = format!(in alloc; "{twin:?}")?;
    let mut found = String::new(alloc);
    let mut twin_found = String::new(alloc);
    Ok(
        show_found(document, selector, &mut found)
            && show_found(document, twin, &mut twin_found)
            && shown.as_str() == twin_shown.as_str()
            && found.as_str() == wanted
            && twin_found.as_str() == wanted,
    )
}

fn row_is_found(alloc: Global, row: &Row) -> Result<bool, Fail> {
    let (parts, end, page, wanted) = row;
    let text = repeat(alloc, parts, end)?;
    let page = repeat(alloc, page, "")?;
    let document = parse(alloc, page.as_str(), ParserOptions::new())?;
    match parse_query_selector(alloc, text.as_str())? {
        Some(selector) => are_found(alloc, &document, selector, wanted),
        None => Ok(*wanted == "none"),
    }
}

#[test]
fn chains_are_found(rt: HostRuntime) -> Result<(), Fail> {
    for row in &ROWS {
        let (parts, end, _, _) = row;
        let is_found = row_is_found(rt.alloc(), row)?;
        assert!(rt; is_found, "{parts:?} {end:?}");
    }
    Ok(())
}
