//! What is written of texts and boxes, one after the other.
ghost use Rattle.std.specs.List.{list_all, prefix_len};
ghost use Rattle.std.specs.Prelude.{IfOk, OnOk, drop, false, get_or, length, not, take, true, ◌+◌, ◌++◌, ◌-◌, ◌<◌, ◌==◌, ◌≡◌, ◌≤◌};
ghost use Rattle.tl_tree_extract.specs.Flowing.{a_space, after_begin, after_end, after_item, after_items, ahead, at_begin, at_edge, begun, is_break, is_white, item_of, item_written, lines_written, stop, stopped, text_items, with_blank, with_line, written};
ghost use Rattle.tl_tree_extract.specs.Inner.Runs.{AreSmooth, after_run, has_idle_space, is_plain, is_rough, past_white, run_written};

use crate::text::display::Display;
use memchr::{memchr, memchr3};
use std::alloc::AllocError;

/// How many line feeds the required line breaks come to that weren't written yet.
#[derive(Clone, Copy)]
pub(crate) enum Lines {
    /// Nothing was written, and none are before the first string.
    Unbegun,
    NoLine,
    OneLine,
    TwoLines,
}

/// Whether a space stands before what is written next in the line.
#[derive(Clone, Copy)]
pub(crate) enum Gap {
    /// A line begins, where white space is nothing.
    LineStart,
    /// What was written stands right before.
    Behind,
    /// White space was there.
    Apart,
}

/// What ended last of a table.
#[derive(Clone, Copy)]
pub(crate) enum Seam {
    NoSeam,
    CellEnded,
    RowEnded,
}

/// What goes before that which is written next.
#[derive(Clone, Copy)]
pub(crate) struct Flow {
    pub(crate) lines: Lines,
    pub(crate) gap: Gap,
    pub(crate) seam: Seam,
}

impl Lines {
    fn with_line(self) -> Lines
        ensures { result ≡ with_line self }
    {
        match self {
            Lines::Unbegun => Lines::Unbegun,
            Lines::NoLine | Lines::OneLine => Lines::OneLine,
            Lines::TwoLines => Lines::TwoLines,
        }
    }

    fn with_blank(self) -> Lines
        ensures { result ≡ with_blank self }
    {
        match self {
            Lines::Unbegun => Lines::Unbegun,
            _ => Lines::TwoLines,
        }
    }
}

impl Flow {
    /// Before anything is written.
    pub(crate) fn new() -> Flow
        ensures { result ≡ at_begin }
    {
        Flow {
            lines: Lines::Unbegun,
            gap: Gap::LineStart,
            seam: Seam::NoSeam,
        }
    }

    // Writes the line feeds that are due.
    fn put_lines(self, out: &mut Vec<u8>) -> Result<(), AllocError>
        ensures { OnOk result (out.new.items ≡ out.old.items ++ lines_written self.lines) }
    {
        match self.lines {
            Lines::Unbegun | Lines::NoLine => Ok(()),
            Lines::OneLine => out.extend_from_slice(b"\n"),
            Lines::TwoLines => out.extend_from_slice(b"\n\n"),
        }
    }

    // Writes what goes before a byte in the line.
    fn put_ahead(self, out: &mut Vec<u8>) -> Result<(), AllocError>
        ensures { OnOk result (out.new.items ≡ out.old.items ++ ahead self) }
    {
        self.put_lines(out)?;
        match self.gap {
            Gap::LineStart | Gap::Behind => Ok(()),
            Gap::Apart => out.extend_from_slice(b" "),
        }
    }

    // Writes a byte that ends a line or a cell.
    fn put_stop(self, byte: u8, seam: Seam, out: &mut Vec<u8>) -> Result<Flow, AllocError>
        ensures text { OnOk result (out.new.items ≡ out.old.items ++ stop self byte) }
        ensures flow { IfOk result (λ flow. flow ≡ stopped self seam) }
    {
        self.put_lines(out)?;
        out.push(byte)?;
        Ok(Flow {
            lines: Lines::NoLine,
            gap: Gap::LineStart,
            seam,
        })
    }

    // A box on lines of its own begins or ends.
    fn at_edge(lines: Lines, seam: Seam) -> Flow
        ensures { result ≡ at_edge lines seam }
    {
        Flow {
            lines,
            gap: Gap::LineStart,
            seam,
        }
    }

    /// Writes what an element has before what is in it.
    pub(crate) fn begin(self, display: Display, out: &mut Vec<u8>) -> Result<Flow, AllocError>
        ensures text { OnOk result (out.new.items ≡ out.old.items ++ begun self display) }
        ensures flow { IfOk result (λ flow. flow ≡ after_begin self display) }
    {
        match display {
            Display::Hidden | Display::Inline => Ok(self),
            Display::LineBreak => self.put_stop(b'\n', self.seam, out),
            Display::Paragraph => Ok(Flow::at_edge(self.lines.with_blank(), self.seam)),
            Display::Block | Display::Preformatted => {
                Ok(Flow::at_edge(self.lines.with_line(), self.seam))
            }
            Display::TableBox => Ok(Flow::at_edge(self.lines.with_line(), Seam::NoSeam)),
            Display::TableRow => match self.seam {
                Seam::RowEnded => self.put_stop(b'\n', Seam::NoSeam, out),
                Seam::NoSeam | Seam::CellEnded => Ok(Flow::at_edge(self.lines, Seam::NoSeam)),
            },
            Display::TableCell => match self.seam {
                Seam::CellEnded => self.put_stop(b'\t', Seam::NoSeam, out),
                Seam::NoSeam | Seam::RowEnded => Ok(Flow::at_edge(self.lines, Seam::NoSeam)),
            },
        }
    }

    /// What follows an element.
    pub(crate) fn end(self, display: Display) -> Flow
        ensures { result ≡ after_end self display }
    {
        match display {
            Display::Hidden | Display::Inline | Display::LineBreak => self,
            Display::Paragraph => Flow::at_edge(self.lines.with_blank(), self.seam),
            Display::Block | Display::Preformatted => {
                Flow::at_edge(self.lines.with_line(), self.seam)
            }
            Display::TableBox => Flow::at_edge(self.lines.with_line(), Seam::NoSeam),
            Display::TableRow => Flow::at_edge(self.lines, Seam::RowEnded),
            Display::TableCell => Flow::at_edge(self.lines, Seam::CellEnded),
        }
    }

    // Writes bytes of a line.
    #[inline(always)]
    fn put_run(self, run: &[u8], out: &mut Vec<u8>) -> Result<Flow, AllocError>
        ensures text { OnOk result (out.new.items ≡ out.old.items ++ run_written self run.now) }
        ensures flow { IfOk result (λ flow. flow ≡ after_run self run.now) }
    {
        if run.is_empty() {
            return Ok(self);
        }
        self.put_ahead(out)?;
        out.extend_from_slice(run)?;
        Ok(Flow {
            lines: Lines::NoLine,
            gap: Gap::Behind,
            seam: self.seam,
        })
    }

    // White space comes that may be collapsed.
    fn apart(self) -> Flow
        ensures { result ≡ after_item self a_space }
    {
        let gap = match self.gap {
            Gap::LineStart => Gap::LineStart,
            Gap::Behind | Gap::Apart => Gap::Apart,
        };
        Flow {
            lines: self.lines,
            gap,
            seam: self.seam,
        }
    }

    // White space was there, or none.
    fn past(self, white: &[u8]) -> Flow
        ensures { result ≡ past_white self white.now }
    {
        if white.is_empty() { self } else { self.apart() }
    }

    // Writes a line feed that stands as it is, or takes white space.
    fn put_mark(self, is_kept: bool, mark: u8, out: &mut Vec<u8>) -> Result<Flow, AllocError>
        requires { is_plain is_kept mark ≡ false }
        ensures text { OnOk result (out.new.items
            ≡ out.old.items ++ item_written self (item_of is_kept mark)) }
        ensures flow { IfOk result (λ flow. flow ≡ after_item self (item_of is_kept mark)) }
    {
        if is_kept {
            return self.put_stop(mark, self.seam, out);
        }
        Ok(self.apart())
    }

    // Writes a text run by run.
    #[inline(never)]
    fn put_runs(self, is_kept: bool, text: &[u8], out: &mut Vec<u8>) -> Result<Flow, AllocError>
        ensures text { OnOk result (out.new.items
            ≡ out.old.items ++ written self (text_items is_kept text.now)) }
        ensures flow { IfOk result
            (λ flow. flow ≡ after_items self (text_items is_kept text.now)) }
    {
        let mut flow = self;
        let mut rest = text;
        loop {
            let (run, marked) = rest.split_at(plain_len(is_kept, rest));
            flow = flow.put_run(run, out)?;
            let [mark, behind @ ..] = marked else {
                return Ok(flow);
            };
            flow = flow.put_mark(is_kept, *mark, out)?;
            rest = behind;
        }
    }

    // Writes a part of a line that begins with no white space.
    fn put_part(self, part: &[u8], out: &mut Vec<u8>) -> Result<Flow, AllocError>
        requires within { list_all (λ b. not (is_break b)) part.now ≡ true }
        requires begins { is_white (get_or part.now 0 32) ≡ false }
        ensures text { OnOk result (out.new.items
            ≡ out.old.items ++ written self (text_items false part.now)) }
        ensures flow { IfOk result (λ flow. flow ≡ after_items self (text_items false part.now)) }
    {
        if has_idle_space(part) {
            return self.put_runs(false, part, out);
        }
        self.put_run(part, out)
    }

    // Writes a text whose white space is collapsed: what stands in a line and has one space between
    // two words at once.
    #[inline(never)]
    fn put_collapsed(self, text: &[u8], out: &mut Vec<u8>) -> Result<Flow, AllocError>
        ensures text { OnOk result (out.new.items
            ≡ out.old.items ++ written self (text_items false text.now)) }
        ensures flow { IfOk result (λ flow. flow ≡ after_items self (text_items false text.now)) }
    {
        let mut flow = self;
        let mut rest = text;
        loop {
            let (white, words) = rest.split_at(white_len(rest));
            flow = flow.past(white);
            if words.is_empty() {
                return Ok(flow);
            }
            let (part, behind) = words.split_at(part_len(words));
            flow = flow.put_part(part, out)?;
            rest = behind;
        }
    }

    // Writes a text whose white space is collapsed. Most stand as they are but for white space
    // before them and a space behind them, or are white space alone.
    #[inline(never)]
    fn put_spaced(self, text: &[u8], out: &mut Vec<u8>) -> Result<Flow, AllocError>
        ensures text { OnOk result (out.new.items
            ≡ out.old.items ++ written self (text_items false text.now)) }
        ensures flow { IfOk result (λ flow. flow ≡ after_items self (text_items false text.now)) }
    {
        let (white, words) = text.split_at(white_len(text));
        let flow = self.past(white);
        if words.is_empty() {
            return Ok(flow);
        }
        let (line, space) = words.split_at(spaceless_len(words));
        if is_smooth(line) {
            let behind = flow.put_run(line, out)?;
            return Ok(behind.past(space));
        }
        flow.put_collapsed(words, out)
    }

    /// Writes a text, whose white space stands as it is or is collapsed.
    #[inline(always)]
    pub(crate) fn put_text(
        self,
        is_kept: bool,
        text: &[u8],
        out: &mut Vec<u8>,
    ) -> Result<Flow, AllocError>
        ensures text { OnOk result (out.new.items
            ≡ out.old.items ++ written self (text_items is_kept text.now)) }
        ensures flow { IfOk result
            (λ flow. flow ≡ after_items self (text_items is_kept text.now)) }
    {
        if is_kept {
            return self.put_runs(true, text, out);
        }
        if is_smooth(text) {
            return self.put_run(text, out);
        }
        self.put_spaced(text, out)
    }
}

// Whether a byte is white space that may be collapsed.
#[inline(always)]
fn is_white(byte: u8) -> bool
    ensures { result ≡ is_white byte }
{
    byte == b' ' || byte == b'\n' || byte == b'\t' || byte == b'\r'
}

// How many bytes of white space a text begins with.
fn white_len(text: &[u8]) -> usize
    ensures { result ≡ prefix_len is_white text.now }
{
    for (len, byte) in text.iter().enumerate() {
        if !is_white(*byte) {
            return len;
        }
    }
    text.len()
}

// How many bytes stand before a space at the end.
#[inline(always)]
#[tactic(auto, using(crate::proofs::Spaced::space_behind, crate::proofs::Spaced::none_behind))]
fn spaceless_len(text: &[u8]) -> usize
    ensures within { result ≤ length text.now }
    ensures space { list_all is_white (drop result text.now) ≡ true }
{
    let [.., last] = text else {
        return 0;
    };
    if *last == b' ' {
        text.len() - 1
    } else {
        text.len()
    }
}

// How many bytes stand before the first white space that is no space, without a space right before
// that.
fn part_len(text: &[u8]) -> usize
    requires { is_white (get_or text.now 0 32) ≡ false }
    ensures some { 0 < result }
    ensures within { result ≤ length text.now }
    ensures plain { list_all (λ b. not (is_break b)) (take result text.now) ≡ true }
{
    let len = memchr3(b'\n', b'\t', b'\r', text).unwrap_or(text.len());
    if len > 1 && text[len - 1] == b' ' {
        len - 1
    } else {
        len
    }
}

// Whether two spaces stand side by side, or one at the end: no branch, so that many bytes are
// looked at together.
fn has_idle_space(text: &[u8]) -> bool
    ensures { result ≡ has_idle_space text.now }
{
    let [.., last] = text else {
        return false;
    };
    let mut found = false;
    for place in 1..text.len() {
        found |= (text[place - 1] == b' ') & (text[place] == b' ');
    }
    found | (*last == b' ')
}

// Whether a byte is white space and stands behind a space, or is no space.
#[inline(always)]
fn is_rough(before: u8, byte: u8) -> bool
    ensures { result ≡ is_rough before byte }
{
    ((before == b' ') & (byte == b' ')) | (byte == b'\n') | (byte == b'\t') | (byte == b'\r')
}

// Whether one of N bytes from a place on is rough: no branch, so that they are looked at together.
#[inline(always)]
#[tactic(auto, using(crate::proofs::Smooth::one_more))]
fn has_rough<const N: usize>(text: &[u8], start: usize) -> bool
    requires some { 0 < start }
    requires within { start + N ≤ length text.now }
    ensures { result ≡ false → AreSmooth text.now start (start + N) }
{
    let mut found = false;
    for place in 0..N {
        found |= is_rough(text[start + place - 1], text[start + place]);
    }
    found
}

// Whether no byte behind the first is rough, by N bytes at once.
#[inline(always)]
#[tactic(auto, using(crate::proofs::Smooth::joined))]
fn is_smooth_by<const N: usize>(text: &[u8]) -> bool
    requires some { 0 < N }
    requires long { N < length text.now }
    ensures { result ≡ true → AreSmooth text.now 1 (length text.now) }
{
    let mut start = 1;
    while N < text.len() - start {
        if has_rough::<N>(text, start) {
            return false;
        }
        start += N;
    }
    !has_rough::<N>(text, text.len() - N)
}

/// Whether a text is written as it is where its white space is collapsed, as most are.
#[inline(always)]
pub(crate) fn is_smooth(text: &[u8]) -> bool
    ensures begins { result ≡ true → is_white (get_or text.now 0 32) ≡ false }
    ensures ends { result ≡ true → (get_or text.now (length text.now - 1) 32 == 32) ≡ false }
    ensures smooth { result ≡ true → AreSmooth text.now 1 (length text.now) }
{
    let [first, .., last] = text else {
        return false;
    };
    if is_white(*first) || *last == b' ' {
        return false;
    }
    match text.len() {
        0..=8 => is_smooth_by::<1>(text),
        9..=16 => is_smooth_by::<8>(text),
        _ => is_smooth_by::<16>(text),
    }
}

/// How many bytes stand before the first line feed.
pub(crate) fn line_len(text: &[u8]) -> usize
    ensures { result ≡ prefix_len (is_plain true) text.now }
{
    memchr(b'\n', text).unwrap_or(text.len())
}

// How many bytes stand before the first white space.
fn word_len(text: &[u8]) -> usize
    ensures { result ≡ prefix_len (is_plain false) text.now }
{
    for (len, byte) in text.iter().enumerate() {
        if is_white(*byte) {
            return len;
        }
    }
    text.len()
}

// How many bytes stand before the first white space that may be collapsed, or before the first line
// feed.
fn plain_len(is_kept: bool, text: &[u8]) -> usize
    ensures { result ≡ prefix_len (is_plain is_kept) text.now }
{
    if is_kept {
        line_len(text)
    } else {
        word_len(text)
    }
}
