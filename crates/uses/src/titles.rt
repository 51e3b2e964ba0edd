//! The titles of a page.
ghost use Rattle.std.specs.Prelude.{IfOk, List, Ok, ℕ, ◌≡◌};
ghost use Rattle.tl_css.specs.Reading.{css_at};
ghost use Rattle.tl_css.specs.Selector.{Css};
ghost use Rattle.tl_tree.specs.TreeView.{rows_in};
ghost use Rattle.tl_tree_select.specs.Meaning.{AreFound};
ghost use Rattle.tl_tree_select.specs.Page.{page_of};
ghost use Rattle.uses.specs.Titles.{title_lines, title_selector};

use anyhow::Result as AnyResult;
use std::alloc::Global;
use tl_css::parse;
use tl_tree::Tree;
use tl_tree_extract::{Columns, Field, write_fields};
use tl_tree_select::select;

/// The title of a page and its headings, in their order, each on a line, where a `\` is two.
pub fn titles(alloc: Global, tree: &Tree<'_>) -> AnyResult<Vec<u8>>
    ensures { IfOk result (λ lines. (e : Css) × (ns : List ℕ) × (css_at title_selector ≡ Ok e)
        × AreFound (page_of tree.now) e ns
        × (lines.items ≡ title_lines (rows_in tree.now) ns)) }
{
    let selector = parse(alloc, "title, h1, h2, h3, h4, h5, h6")?;
    let numbers = select(alloc, tree, &selector)?;
    let mut lines = Vec::new(alloc);
    write_fields(
        alloc,
        tree,
        &numbers,
        &[Field::Text],
        Columns::Tabs,
        &mut lines,
    )?;
    Ok(lines)
}
