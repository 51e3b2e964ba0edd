//! What a walk over a tree knows of where it has come to.
ghost use Rattle.std.specs.Option.{option_map, unwrap_or};
ghost use Rattle.std.specs.Prelude.{IfOk, OnOk, [], map, ◌++◌, ◌≡◌};
ghost use Rattle.tl_tree.specs.TreeView.{rows_in};
ghost use Rattle.tl_tree_safe.specs.Inner.Walk.{begin, behind_element, behind_row, behind_text, end_or_none, end_written, ended, ends_before, ends_written, fate_written, innermost_end, inside, is_passed_at, outside_one, row_written, spot_of, start_at, text_at, text_written};
ghost use Rattle.tl_tree_safe.specs.Inner.Telling.{row_told};
ghost use Rattle.tl_tree_safe.specs.Policies.{listed_words};
ghost use Rattle.tl_tree_safe.specs.Removed.{gone_of};
ghost use Rattle.tl_tree_safe.specs.declared.fate.Fate.TheVariants.{Stays};

use crate::fate::{Fate, fate_of};
use crate::known::Known;
use crate::removal::Removal;
use crate::start_tag::write_start;
use crate::telling::tell_element;
use crate::texts::write_text;
use std::alloc::{AllocError, Global};
use tl_safe_fit::{
    Kind, Level, Parts, is_preformatted, is_void_kind, level_inside, outermost_level,
};
use tl_tree::{Kind as NodeKind, Tree};

// No part of a table is added where one is missing.
const NO_PARTS: Parts = Parts {
    column_group: false,
    table_body: false,
    row: false,
};

/// An element that was written, and whose end tag is due.
#[derive(Clone, Copy)]
pub(crate) struct Open {
    /// Its number in the tree.
    number: usize,
    /// The number behind what is below it.
    end: usize,
    /// The level outside of it.
    outer: Level,
}

/// Where a walk over a tree has come to.
#[derive(Drop)]
pub(crate) struct Writer {
    /// What there is room for.
    level: Level,
    /// Whether the innermost open element drops a line feed first, and has nothing in it yet.
    fresh: bool,
    /// The open elements, the innermost last.
    opens: Vec<Open>,
}

/// The number behind what is below a node, or 0 where there is no such node.
pub(crate) fn end_of(tree: &Tree<'_>, number: usize) -> usize
    ensures { result ≡ end_or_none (rows_in tree.now) number }
{
    tree.end(number).unwrap_or(0)
}

// Writes the end tag of an element.
fn write_end(tree: &Tree<'_>, number: usize, out: &mut Vec<u8>) -> Result<(), AllocError>
    ensures { OnOk result (out.new.items
        ≡ out.old.items ++ end_written (rows_in tree.now) number) }
{
    let Some(name) = tree.name(number) else {
        return Ok(());
    };
    out.extend_from_slice(b"</")?;
    out.extend_from_slice(name)?;
    out.push(b'>')?;
    Ok(())
}

impl Writer {
    /// Nothing is open.
    pub(crate) fn new(alloc: Global) -> Writer
        ensures { spot_of result ≡ begin }
    {
        Writer {
            level: outermost_level(NO_PARTS),
            fresh: false,
            opens: Vec::new(alloc),
        }
    }

    // Whether the innermost open element ends before a node.
    fn ends_before(&self, number: usize) -> bool
        ensures { result ≡ ends_before number (spot_of self.now).opens }
    {
        match self.opens.last() {
            Some(open) => open.end <= number,
            None => false,
        }
    }

    // Ends the innermost open element.
    fn end_innermost(&mut self, tree: &Tree<'_>, out: &mut Vec<u8>) -> Result<(), AllocError>
        ensures text { OnOk result (out.new.items ≡ out.old.items
            ++ innermost_end (rows_in tree.now) (spot_of self.old).opens) }
        ensures spot { OnOk result (spot_of self.new
            ≡ outside_one self.old.level (spot_of self.old).opens) }
    {
        self.fresh = false;
        let Some(open) = self.opens.pop() else {
            return Ok(());
        };
        self.level = open.outer;
        write_end(tree, open.number, out)
    }

    /// Ends the open elements that end before a node.
    pub(crate) fn end_before(
        &mut self,
        tree: &Tree<'_>,
        number: usize,
        out: &mut Vec<u8>,
    ) -> Result<(), AllocError>
        ensures text { OnOk result (out.new.items ≡ out.old.items
            ++ ends_written (rows_in tree.now) number (spot_of self.old).opens) }
        ensures spot { OnOk result (spot_of self.new ≡ ended number (spot_of self.old)) }
    {
        while self.ends_before(number) {
            self.end_innermost(tree, out)?;
        }
        Ok(())
    }

    // What comes stands in an element of a kind.
    fn enter(&mut self, number: usize, end: usize, kind: Kind) -> Result<(), AllocError>
        ensures { OnOk result (spot_of self.new ≡ inside number end kind (spot_of self.old)) }
    {
        let outer = self.level;
        self.opens.push(Open { number, end, outer })?;
        self.level = level_inside(NO_PARTS, &outer, kind);
        self.fresh = is_preformatted(kind);
        Ok(())
    }

    // What comes stands behind the start tag of an element of a kind.
    fn stand_behind(&mut self, number: usize, end: usize, kind: Kind) -> Result<(), AllocError>
        ensures { OnOk result (spot_of self.new
            ≡ behind_element number end (Stays kind) (spot_of self.old)) }
    {
        if is_void_kind(kind) {
            self.fresh = false;
            return Ok(());
        }
        self.enter(number, end, kind)
    }

    // Writes the start tag of an element that stays.
    fn put_element(
        &mut self,
        alloc: Global,
        known: &Known<'_>,
        tree: &Tree<'_>,
        number: usize,
        fate: Fate,
        out: &mut Vec<u8>,
    ) -> Result<(), AllocError>
        ensures text { OnOk result (out.new.items ≡ out.old.items
            ++ fate_written
            (start_at (listed_words known.now.lists) (rows_in tree.now) number) fate) }
        ensures spot { OnOk result (spot_of self.new ≡ behind_element number
            (end_or_none (rows_in tree.now) number) fate (spot_of self.old)) }
    {
        let Fate::Stays(kind) = fate else {
            return Ok(());
        };
        write_start(alloc, &known.lists, tree, number, out)?;
        self.stand_behind(number, end_of(tree, number), kind)
    }

    // Writes what stays of a text.
    fn put_text(
        &mut self,
        alloc: Global,
        tree: &Tree<'_>,
        number: usize,
        out: &mut Vec<u8>,
    ) -> Result<(), AllocError>
        ensures text { OnOk result (out.new.items ≡ out.old.items ++ unwrap_or
            (option_map (text_written (spot_of self.old)) (text_at (rows_in tree.now) number)) []) }
        ensures spot { OnOk result (spot_of self.new ≡ unwrap_or
            (option_map (behind_text (spot_of self.old)) (text_at (rows_in tree.now) number))
            (spot_of self.old)) }
    {
        let Some(text) = tree.text(number) else {
            return Ok(());
        };
        self.fresh = write_text(alloc, self.level.path.flow, self.fresh, text, out)?;
        Ok(())
    }

    /// Tells what goes of a node, where this comes next.
    pub(crate) fn tell<'t>(
        &self,
        alloc: Global,
        known: &Known<'_>,
        tree: &'t Tree<'_>,
        number: usize,
        told: &mut Vec<Removal<'t>>,
    ) -> Result<(), AllocError>
        ensures { OnOk result (map gone_of told.new.items ≡ map gone_of told.old.items
            ++ row_told
            (listed_words known.now.lists) (rows_in tree.now) (spot_of self.now) number) }
    {
        let Some(kind) = tree.kind(number) else {
            return Ok(());
        };
        match kind {
            NodeKind::Element => {
                let fate = fate_of(known, &self.level, tree, number);
                tell_element(alloc, &known.lists, tree, number, fate, told)
            }
            _ => Ok(()),
        }
    }

    /// Writes what stays of a node, and says whether what is below it is passed.
    pub(crate) fn put(
        &mut self,
        alloc: Global,
        known: &Known<'_>,
        tree: &Tree<'_>,
        number: usize,
        out: &mut Vec<u8>,
    ) -> Result<bool, AllocError>
        ensures text { OnOk result (out.new.items ≡ out.old.items ++ row_written
            (listed_words known.now.lists) (rows_in tree.now) (spot_of self.old) number) }
        ensures spot { OnOk result (spot_of self.new ≡ behind_row
            (listed_words known.now.lists) (rows_in tree.now) (spot_of self.old) number) }
        ensures passed { IfOk result (λ passed. passed ≡ is_passed_at
            (listed_words known.now.lists) (rows_in tree.now) (spot_of self.old) number) }
    {
        let Some(kind) = tree.kind(number) else {
            return Ok(false);
        };
        match kind {
            NodeKind::Element => {
                let fate = fate_of(known, &self.level, tree, number);
                self.put_element(alloc, known, tree, number, fate, out)?;
                Ok(fate.is_passed())
            }
            NodeKind::Text => {
                self.put_text(alloc, tree, number, out)?;
                Ok(false)
            }
            _ => Ok(false),
        }
    }
}
