//! What callers write over the library, proved: each module is one of them, with a contract that
//! follows from the public clauses.
//!
//! | Words | What is written of the page on standard input |
//! |---|---|
//! | `uses values SELECTOR KEY` | the values at a key of the elements where a selector holds, each on a line |
//! | `uses elements SELECTOR` | the markup of these elements, each behind the other |
//! | `uses links URL` | where the links of the page lead from this URL, each on a line |
//! | `uses titles` | its title and its headings, each on a line |
//! | `uses text` | its text, line by line |
//! | `uses fill NAME=VALUE ..` | the page with the escaped value in the place of each `{NAME}` in its texts and values |
//!
//! `fill` reads the page by the grammar of `tl`, the others into the tree that browsers build of
//! it. It ends with 0, or with 1 and a line on standard error that says why not.
#![tactic(auto)]

mod elements;
mod field;
mod fill;
mod links;
mod readable_text;
mod titles;
mod values;

use anyhow::{Result, bail};
use elements::elements;
use field::Field;
use fill::fill;
use links::links;
use readable_text::readable_text;
use std::alloc::Global;
use std::env;
use std::io::{Read, Write};
use titles::titles;
use tl_css::parse;
use tl_page::text;
use tl_tree::{Flags, Tree};
use url::Url;
use values::values;

const USAGE: &str =
    "usage: uses values SELECTOR KEY | elements SELECTOR | links URL | titles | text | fill NAME=VALUE .. < page";

// Pages are read by the HTML standard, without scripts.
const FLAGS: Flags = Flags {
    is_scripting: false,
    counts_search: true,
};

fn main(rt: HostRuntime) -> Result<()> {
    let mut words = Vec::new(rt.alloc());
    for word in env::args(&rt)?.skip(1) {
        words.push(word)?;
    }
    let mut page = Vec::new(rt.alloc());
    rt.stdin().read_to_end(&mut page)?;
    let answer = answer(rt.alloc(), words.as_slice(), page.as_slice())?;
    let mut out = rt.stdout();
    out.write_all(answer.as_slice())?;
    out.flush()?;
    Ok(())
}

// What the words ask for.
fn answer(alloc: Global, words: &[String], page: &[u8]) -> Result<Vec<u8>> {
    match words {
        [word, fields @ ..] if word.as_str() == "fill" => {
            let fields = fields_of(alloc, fields)?;
            let filled = fill(alloc, fields.as_slice(), text(page)?)?;
            Ok(filled.into_bytes())
        }
        _ => {
            let tree = Tree::read(alloc, page, FLAGS)?;
            ask(alloc, words, &tree)
        }
    }
}

// What they ask of the tree of a page.
fn ask(alloc: Global, words: &[String], tree: &Tree<'_>) -> Result<Vec<u8>> {
    match words {
        [word, selector, key] if word.as_str() == "values" => {
            let selector = parse(alloc, selector.as_str())?;
            Ok(values(alloc, tree, &selector, key.as_str())?)
        }
        [word, selector] if word.as_str() == "elements" => {
            let selector = parse(alloc, selector.as_str())?;
            Ok(elements(alloc, tree, &selector)?)
        }
        [word, own] if word.as_str() == "links" => {
            let own = Url::parse(alloc, own.as_str())?;
            Ok(links(alloc, &own, tree)?)
        }
        [word] if word.as_str() == "titles" => titles(alloc, tree),
        [word] if word.as_str() == "text" => Ok(readable_text(alloc, tree)?),
        _ => bail!(USAGE),
    }
}

// The fields that words say.
fn fields_of<'w>(alloc: Global, words: &'w [String]) -> Result<Vec<Field<'w>>> {
    let mut fields = Vec::new(alloc);
    for word in words {
        match word.as_str().split_once('=') {
            Some((name, value)) => fields.push(Field { name, value })?,
            None => bail!("a field is NAME=VALUE"),
        }
    }
    Ok(fields)
}
