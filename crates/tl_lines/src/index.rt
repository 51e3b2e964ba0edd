//! The lines and columns of many places.

use crate::position::{Position, START, position_of};
use std::alloc::{AllocError, Global};
use std::marker::Model;

// So many bytes lie between two positions that are kept: a question looks at fewer, however long a
// line is.
const STEP: usize = 1024;

/// A text of which lines and columns are asked for, seen as the text.
///
/// It takes 16 bytes for each 1024 bytes of the text, and a question looks at fewer than 1024.
#[derive(Drop)]
pub struct LineIndex<'t> {
    text: &'t [u8],
    marks: Vec<Position>,
}

impl<'t> Model for LineIndex<'t> {
    ghost use Rattle.std.specs.Prelude.{List, ℕ};
    ghost use Rattle.tl_lines.specs.Inner.Marks.{AreMarks};

    ghost Value = { List ℕ };

    ghost view = { λ index. index.text.now };

    ghost invariant = { λ index. AreMarks 1024 index.text.now index.marks.items };
}

impl<'t> LineIndex<'t> {
    ghost use Rattle.std.specs.Prelude.{IfOk, ◌≡◌};
    ghost use Rattle.tl_lines.specs.Lines.{column_at, line_at};

    /// The index of a text, in one walk over it.
    pub fn new(alloc: Global, text: &'t [u8]) -> Result<LineIndex<'t>, AllocError>
        ensures { IfOk result (λ index. index ≡ text.now) }
    {
        let marks = marks_of(alloc, text)?;
        Ok(LineIndex { text, marks })
    }

    /// The line and the column of the byte at a place. A place behind the text is its end.
    pub fn position(&self, offset: usize) -> Position
        ensures line { result.line ≡ line_at self.now offset }
        ensures column { result.column ≡ column_at self.now offset }
    {
        position_from(self.text, self.marks.as_slice(), offset)
    }
}

ghost use Rattle.std.specs.Prelude.{IfOk, ◌≡◌};
ghost use Rattle.tl_lines.specs.Inner.Marks.{AreMarks};
ghost use Rattle.tl_lines.specs.Lines.{column_at, line_at};

// The positions of every so many bytes.
fn marks_of(alloc: Global, text: &[u8]) -> Result<Vec<Position>, AllocError>
    ensures { IfOk result (λ marks. AreMarks 1024 text.now marks.items) }
{
    let mut marks = Vec::new(alloc);
    let mut position = START;
    let mut rest = text;
    marks.push(position)?;
    while rest.len() >= STEP {
        let (front, behind) = rest.split_at(STEP);
        position = position.behind(front);
        marks.push(position)?;
        rest = behind;
    }
    Ok(marks)
}

// The position of a place, from the last one before it that is kept.
fn position_from(text: &[u8], marks: &[Position], offset: usize) -> Position
    requires { AreMarks 1024 text.now marks.now }
    ensures line { result.line ≡ line_at text.now offset }
    ensures column { result.column ≡ column_at text.now offset }
{
    let end = offset.min(text.len());
    let number = end / STEP;
    let Some(mark) = marks.get(number) else {
        return position_of(text, offset);
    };
    let start = number * STEP;
    let (_, behind) = text.split_at(start);
    let (part, _) = behind.split_at(end - start);
    mark.behind(part)
}
