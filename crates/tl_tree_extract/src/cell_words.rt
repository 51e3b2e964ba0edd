//! The words of cells, each taken once.
ghost use Rattle.std.specs.Prelude.{List, OnOk, [], ◌≡◌};
ghost use Rattle.tl_tree.specs.Rows.{Row};
ghost use Rattle.tl_tree.specs.TreeView.{rows_in};
ghost use Rattle.tl_tree_extract.specs.Inner.Kept.{AreKept};
ghost use Rattle.tl_tree_extract.specs.Readable.{one_line, readable_below};

use crate::text::write_one_line;
use std::alloc::{AllocError, Global};
use std::collections::BTreeMap;
use tl_tree::Tree;

/// The words of a slot, and those of the cells so far: a cell that spans many slots is read once.
#[derive(Drop)]
pub(crate) struct CellWords {
    alloc: Global,
    /// Room for a text.
    text: Vec<u8>,
    pub(crate) line: Vec<u8>,
    /// By the number of the cell's node.
    known: BTreeMap<usize, Vec<u8>>,
}

impl CellWords {
    /// Takes no memory.
    pub(crate) fn new(alloc: Global) -> CellWords
        ensures { (rows : List Row) → AreKept rows result }
    {
        CellWords {
            alloc,
            text: Vec::new(alloc),
            line: Vec::new(alloc),
            known: BTreeMap::new(alloc),
        }
    }

    /// Takes the words of a node for the line.
    pub(crate) fn take(&mut self, tree: &Tree<'_>, node: usize) -> Result<(), AllocError>
        requires { AreKept (rows_in tree.now) self.old }
        ensures line { OnOk result (self.new.line.items
            ≡ one_line (readable_below [] (rows_in tree.now) node)) }
        ensures kept { OnOk result (AreKept (rows_in tree.now) self.new) }
    {
        self.line.clear();
        if let Some(words) = self.known.get(&node) {
            return self.line.extend_from_slice(words.as_slice());
        }
        write_one_line(tree, node, &mut self.text, &mut self.line)?;
        let words = Vec::from_slice(self.alloc, self.line.as_slice())?;
        self.known.insert(node, words)?;
        Ok(())
    }
}
