//! The rows of what is settled: nodes of a store, in the order of the page.
//!
//! A cell knows what stands before it, so nodes are walked from the last to the first, with a stack
//! of what follows, and no recursion. A row is written once all below it is, so that its end is
//! known; the rows are then turned round, and `seat` finds which row each one stands in.
ghost use Rattle.std.specs.Bool.{IsTrue};
ghost use Rattle.std.specs.List.{list_all};
ghost use Rattle.std.specs.Option.{MatchOption};
ghost use Rattle.std.specs.Prelude.{IfOk, IfSome, OnOk, [], length, ◌+◌, ◌++◌, ◌<◌, ◌≡◌, ◌^◌, ◌≤◌};
ghost use Rattle.tl_dom_spec.specs.HtmlForest.{before, has_contents, no_trees};
ghost use Rattle.tl_dom_spec.specs.Marks.{marked};
ghost use Rattle.tl_dom_spec.specs.Path.{and_element, joined, no_nodes};
ghost use Rattle.tl_tree.specs.Inner.Gathering.{closed, gathered, flushed, only_rows, put, with_piece};
ghost use Rattle.tl_tree.specs.Inner.RowView.{held_in, held_is_within};
ghost use Rattle.tl_tree.specs.Inner.Settling.{AreRowsOf, Copies, Cuts, Ends, Goes, Pushes, Sound, Turns, Writes, comes_to, flats_of, held_weight, sizes_with, state_of, text_of_pieces, weight_of};
ghost use Rattle.tl_tree.specs.Inner.Store.{bytes_of, is_node, is_row, is_span, is_tag_number, node_of, sizes_of, nodes_of, tag_at, text_of};
ghost use Rattle.tl_tree.specs.Rows.{rows_of};
ghost use Rattle.tl_tree.specs.Sources.{bounds_in};
ghost use Rattle.tl_tree.specs.TreeView.{rows_in};

use crate::cell::{Cell, Node};
use crate::entries::Namespace;
use crate::error::GrowError;
use crate::places::Places;
use crate::row::{Held, Row};
use crate::seat::seat;
use crate::settling::{Opened, Settled, Settling};
use crate::span::{Piece, Span};
use crate::store::Store;
use crate::tree::Tree;
use std::alloc::Global;
use tl_names::element_name::ElementName;

impl<'p> Settling<'p> {
    /// A row, before those that are written.
    fn push(&mut self, held: Held, behind: u32) -> Result<(), GrowError>
        requires sound { Sound self.old }
        requires within { IsTrue
            (held_is_within (sizes_with self.old.store self.old.copied.items) held) }
        ensures { OnOk result (Pushes self.old self.new held behind) }
    {
        if self.rows.len() >= u32::MAX as usize {
            return Err(GrowError::TooLarge);
        }
        self.rows.push(Row {
            held,
            parent: 0,
            end: behind,
        })?;
        Ok(())
    }

    /// How many rows are written.
    fn written(&self) -> u32
        requires { Sound self.now }
        ensures { result ≡ length (flats_of self.now) }
    {
        self.rows.len() as u32
    }

    /// The pieces that wait, as one span.
    fn whole(&mut self) -> Result<Span, GrowError>
        requires sound { Sound self.old }
        requires some { 0 < length self.old.pieces.items }
        ensures { IfOk result (Copies self.old self.new) }
    {
        if self.pieces.len() == 1 {
            return Ok(self.pieces[0]);
        }
        let start = self.store.page.len() + (self.store.side.len() + self.copied.len());
        copy(&self.store, self.pieces.as_slice(), &mut self.copied)?;
        let end = self.store.page.len() + (self.store.side.len() + self.copied.len());
        Ok(Span {
            start: start as u32,
            len: (end - start) as u32,
        })
    }

    /// The text that waits is whole.
    #[inline(always)]
    fn flush(&mut self) -> Result<(), GrowError>
        requires { Sound self.old }
        ensures { OnOk result
            (Turns self.old self.new (only_rows (flushed (state_of self.old)))) }
    {
        if self.pieces.is_empty() {
            return Ok(());
        }
        let span = self.whole()?;
        let source = self.source;
        self.pieces.clear();
        self.push(Held::Text(Piece { span, source }), self.written())
    }

    /// A piece of a text, before what is written.
    fn add_piece(&mut self, piece: Span, source: u32) -> Result<(), GrowError>
        requires sound { Sound self.old }
        requires within { IsTrue (is_span self.old.store piece) }
        ensures { OnOk result (Turns self.old self.new
            (with_piece (marked source (bytes_of self.old.store piece)) (state_of self.old))) }
    {
        self.source = source;
        let Some(next) = self.pieces.pop() else {
            self.pieces.push(piece)?;
            return Ok(());
        };
        if let Some(both) = beside(&self.store, piece, next) {
            self.pieces.push(both)?;
            return Ok(());
        }
        self.pieces.push(next)?;
        self.pieces.push(piece)?;
        Ok(())
    }

    /// A comment or a doctype, before what is written.
    fn add(&mut self, held: Held) -> Result<(), GrowError>
        requires sound { Sound self.old }
        requires within { IsTrue (held_is_within (sizes_of self.old.store) held) }
        ensures { OnOk result (Turns self.old self.new
            (put (held_in self.old.store (text_of self.old.store) held)
            (state_of self.old))) }
    {
        self.flush()?;
        self.push(held, self.written())
    }

    /// An element, before what is below it.
    fn close(&mut self, tag: u32, behind: u32) -> Result<(), GrowError>
        requires sound { Sound self.old }
        requires within { IsTrue (is_tag_number self.old.store tag) }
        ensures { OnOk result (Turns self.old self.new
            (closed (tag_at self.old.store tag) behind (state_of self.old))) }
    {
        self.flush()?;
        if is_template(&self.store, tag) {
            self.push(Held::Contents, behind)?;
        }
        self.push(Held::Element(tag), behind)
    }

    /// The node of a cell. The answer is the row that is written next.
    fn step(&mut self, cell: Cell) -> Result<u32, GrowError>
        requires sound { Sound self.old }
        requires before { IsTrue (is_row self.old.store cell.before) }
        requires node { IsTrue (is_node self.old.store cell.node) }
        ensures { IfOk result (Goes self.old self.new
            (joined (nodes_of self.old.store cell.before)
            (node_of self.old.store cell.node))
            (1 + weight_of self.old.store cell.before
            + held_weight self.old.store cell.node)) }
    {
        match cell.node {
            Node::Text(piece) => self.add_piece(piece.span, piece.source)?,
            Node::Comment(piece) => self.add(Held::Comment(piece))?,
            Node::Doctype { doctype, source } => self.add(Held::Doctype { doctype, source })?,
            Node::Element { tag, below } => return self.open(tag, below, cell.before),
            Node::Joined(second) => {
                self.stack.push(Opened::Row(cell.before))?;
                return Ok(second);
            }
        }
        Ok(cell.before)
    }

    /// An element, what is below which is written next.
    fn open(&mut self, tag: u32, below: u32, before: u32) -> Result<u32, GrowError>
        requires sound { Sound self.old }
        requires before { IsTrue (is_row self.old.store before) }
        requires tag { IsTrue (is_tag_number self.old.store tag) }
        requires below { IsTrue (is_row self.old.store below) }
        ensures { IfOk result (Goes self.old self.new
            (and_element (nodes_of self.old.store before) (tag_at self.old.store tag)
            (nodes_of self.old.store below))
            (1 + weight_of self.old.store before
            + (1 + weight_of self.old.store below))) }
    {
        self.flush()?;
        let behind = self.written();
        self.stack.push(Opened::Element {
            tag,
            before,
            behind,
        })?;
        Ok(below)
    }

    /// A row is written. The answer is the row that is written next, if there is one.
    fn resume(&mut self) -> Result<Option<u32>, GrowError>
        requires { Sound self.old }
        ensures { IfOk result (λ next. MatchOption next
            (Ends self.old self.new no_nodes)
            (Goes self.old self.new no_nodes 0)) }
    {
        match self.stack.pop() {
            None => Ok(None),
            Some(Opened::Row(before)) => Ok(Some(before)),
            Some(
                Opened::Element {
                    tag,
                    before,
                    behind,
                },
            ) => {
                self.close(tag, behind)?;
                Ok(Some(before))
            }
        }
    }

    /// The node that a row ends with, or what follows the row.
    fn go(&mut self, row: u32) -> Result<Option<u32>, GrowError>
        requires sound { Sound self.old }
        requires within { IsTrue (is_row self.old.store row) }
        ensures { IfOk result (λ next. MatchOption next
            (Ends self.old self.new (nodes_of self.old.store row))
            (Goes self.old self.new (nodes_of self.old.store row)
            (weight_of self.old.store row))) }
    {
        if row == 0 {
            return self.resume();
        }
        let cell = self.store.cells[row as usize - 1];
        Ok(Some(self.step(cell)?))
    }

    /// A number of cells that all come to which are still to be written.
    fn needed(&self, row: u32) -> u32
        requires sound { Sound self.now }
        requires within { IsTrue (is_row self.now.store row) }
        ensures row { row ≤ result }
        ensures within { IsTrue (is_row self.now.store result) }
        ensures all { IsTrue (list_all (comes_to result) self.now.stack.items) }
    {
        let mut needed = row;
        let mut left = self.stack.len();
        while left > 0 {
            left -= 1;
            let before = self.stack[left].before();
            if needed < before {
                needed = before;
            }
        }
        needed
    }

    /// Gives the cells back that nothing comes to any more, where a row is written next.
    #[cold]
    #[inline(never)]
    fn cut(&mut self, row: u32)
        requires sound { Sound self.old }
        requires within { IsTrue (is_row self.old.store row) }
        ensures { Cuts self.old self.new row }
    {
        let needed = self.needed(row);
        self.store.keep_cells(needed as usize);
    }

    /// All rows of a row of nodes.
    pub(crate) fn run(&mut self, row: u32) -> Result<(), GrowError>
        requires sound { Sound self.old }
        requires within { IsTrue (is_row self.old.store row) }
        requires alone { self.old.stack.items ≡ [] }
        ensures { OnOk result (Writes self.old self.new (only_rows
            (flushed (gathered (nodes_of self.old.store row) (state_of self.old))))) }
    {
        // Cells are mostly come to from the last to the first. So whenever a part of them is done
        // with it is given back; the row 0 has no cell, and says nothing of how many are.
        let many = row / 16 + 4096;
        let mut mark = row.saturating_sub(many);
        let mut next = Some(row);
        while let Some(current) = next {
            if current < mark && current > 0 {
                self.cut(current);
                mark = current.saturating_sub(many);
            }
            next = self.go(current)?;
        }
        self.flush()
    }
}

/// Copies the pieces of a text, which are listed from the last to the first.
#[cold]
#[inline(never)]
fn copy(store: &Store<'_>, pieces: &[Span], copied: &mut Vec<u8>) -> Result<(), GrowError>
    requires short { length store.now.page.now
        + (length store.now.side.items + length copied.old.items) < 2 ^ 32 }
    requires within { IsTrue (list_all (is_span store.now) pieces.now) }
    ensures copied { OnOk result
        (copied.new.items ≡ copied.old.items ++ text_of_pieces store.now pieces.now) }
    ensures short { OnOk result
        (length store.now.page.now
        + (length store.now.side.items + length copied.new.items) < 2 ^ 32) }
{
    let mut left = pieces.len();
    while left > 0 {
        left -= 1;
        let bytes = store.bytes(pieces[left]);
        let len = store.page.len() + (store.side.len() + copied.len());
        if bytes.len() > u32::MAX as usize - len {
            return Err(GrowError::TooLarge);
        }
        copied.extend_from_slice(bytes)?;
    }
    Ok(())
}

/// Whether an element is a `template`, below which its contents stand.
fn is_template(store: &Store<'_>, tag: u32) -> bool
    requires { IsTrue (is_tag_number store.now tag) }
    ensures { result ≡ has_contents (tag_at store.now tag) }
{
    let entry = store.tag(tag);
    match entry.space {
        Namespace::Html => entry.known == ElementName::TEMPLATE,
        _ => false,
    }
}

/// Two pieces as one, where the second follows the first in the page, or in the side buffer.
fn beside(store: &Store<'_>, first: Span, second: Span) -> Option<Span>
    requires first { IsTrue (is_span store.now first) }
    requires second { IsTrue (is_span store.now second) }
    ensures { IfSome result (λ span. IsTrue (is_span store.now span)
        × (bytes_of store.now span ≡ bytes_of store.now first ++ bytes_of store.now second)) }
{
    let start = second.start as usize;
    if first.start as usize + first.len as usize != start || start == store.page.len() {
        return None;
    }
    Some(Span {
        start: first.start,
        len: first.len + second.len,
    })
}

/// The rows of a row of nodes.
pub(crate) fn settle<'p>(
    alloc: Global,
    store: Store<'p>,
    row: u32,
) -> Result<Settled<'p>, GrowError>
    requires { IsTrue (is_row store row) }
    ensures rows { IfOk result (AreRowsOf (before (nodes_of store.entry row) no_trees)) }
    ensures page { IfOk result (λ made. made.store.page.now ≡ store.entry.page.now) }
{
    let rows = Vec::with_capacity(alloc, store.cells.len())?;
    let mut settling = Settling {
        store,
        copied: Vec::new(alloc),
        rows,
        pieces: Vec::new(alloc),
        source: 0,
        stack: Vec::new(alloc),
    };
    settling.run(row)?;
    let Settling {
        store,
        copied,
        mut rows,
        pieces: _,
        source: _,
        stack: _,
    } = settling;
    rows.reverse();
    seat(rows.as_mut_slice());
    Ok(Settled {
        store,
        rows,
        copied,
    })
}

/// The tree of a row of nodes, with the places of the marks. Nothing but this row is left of
/// the store's cells.
pub(crate) fn tree_of<'p>(
    alloc: Global,
    store: Store<'p>,
    row: u32,
    sources: Places,
    is_quirks: bool,
) -> Result<Tree<'p>, GrowError>
    requires { IsTrue (is_row store row) }
    ensures rows { IfOk result (λ tree.
        rows_in tree ≡ rows_of (before (nodes_of store.entry row) no_trees)) }
    ensures sources { IfOk result (λ tree. bounds_in tree.sources ≡ bounds_in sources) }
    ensures end { IfOk result (λ tree. tree.page_end ≡ length store.entry.page.now) }
    ensures quirks { IfOk result (λ tree. tree.is_quirks ≡ is_quirks) }
{
    let page_end = store.page.len();
    let made = settle(alloc, store, row)?;
    let mut store = made.store;
    store.add_bytes(made.copied.as_slice())?;
    store.cells = Vec::new(alloc);
    Ok(Tree {
        store,
        rows: made.rows,
        sources,
        is_quirks,
        page_end,
    })
}
