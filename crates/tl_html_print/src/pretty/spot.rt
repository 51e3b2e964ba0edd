//! Places of a print, by what stands before them.
ghost use Rattle.std.specs.Prelude.{OnOk, [], if◌then◌else◌, ◌+◌, ◌++◌, ◌-◌, ◌<◌, ◌^◌, ◌≡◌};
ghost use Rattle.tl_html_print.specs.Inner.Lines.{behind, begin, inside, line_if, outside};
ghost use Rattle.tl_html_print.specs.Pretty.{after, after_lines, begins_line, ends_line, line};

use crate::pretty::stand::Stand;
use std::alloc::AllocError;

/// What stands before a place, in what it stands in.
#[derive(Clone, Copy)]
pub(crate) enum Before {
    /// Nothing was written.
    Begin,
    /// The start tag of what it stands in.
    Edge,
    /// What stands on lines of its own, or is not shown behind it.
    Fresh,
    /// What stands in a line that begins with no text.
    Run,
    /// What stands in a line that begins with a text, or right behind a start tag.
    Joined,
    /// A text: no line begins here.
    Tight,
}

/// A place of a print, and how many elements around it are broken over lines.
#[derive(Clone, Copy)]
pub(crate) struct Spot {
    pub(crate) depth: usize,
    pub(crate) before: Before,
}

// The elements around that are indented by.
const DEEPEST: usize = 40;

// A line feed, and two spaces for each of these.
static LINE: [u8; 81] =
    *b"\n                                                                                ";

// Begins a line within so many elements.
fn put_line(depth: usize, out: &mut Vec<u8>) -> Result<(), AllocError>
    ensures { OnOk result (out.new.items ≡ out.old.items ++ line depth) }
{
    let level = depth.min(DEEPEST);
    out.extend_from_slice(&LINE[..1 + 2 * level])
}

impl Before {
    // Whether a line begins before what stands so.
    fn begins_line(self, stand: Stand) -> bool
        ensures { result ≡ begins_line self stand }
    {
        match (self, stand) {
            (Before::Fresh, Stand::Alone | Stand::Late | Stand::Unseen | Stand::Inside) => true,
            (Before::Edge, Stand::Alone | Stand::Late | Stand::Unseen) => true,
            (Before::Run | Before::Joined, Stand::Alone | Stand::Late) => true,
            _ => false,
        }
    }

    // Whether one begins before the end tag.
    fn ends_line(self) -> bool
        ensures { result ≡ ends_line self }
    {
        match self {
            Before::Fresh | Before::Run => true,
            _ => false,
        }
    }

    // What stands before a place behind what stands so.
    fn after(self, stand: Stand) -> Before
        ensures { result ≡ after self stand }
    {
        match (stand, self) {
            (Stand::Alone, _) => Before::Fresh,
            (Stand::Unseen, Before::Begin | Before::Edge | Before::Fresh) => Before::Fresh,
            (Stand::Inside, Before::Fresh) => Before::Run,
            (Stand::Unseen | Stand::Inside, Before::Run) => Before::Run,
            (Stand::Unseen | Stand::Inside, _) => Before::Joined,
            (Stand::Words | Stand::Late, _) => Before::Tight,
        }
    }

    // What stands before a place behind an element that is broken over lines.
    fn after_lines(self, is_late: bool) -> Before
        ensures { result ≡ after_lines is_late self }
    {
        if is_late && !self.ends_line() {
            Before::Tight
        } else {
            Before::Fresh
        }
    }
}

impl Spot {
    /// The begin of a print.
    pub(crate) fn new() -> Spot
        ensures { result ≡ begin }
    {
        Spot {
            depth: 0,
            before: Before::Begin,
        }
    }

    /// Whether a line begins before what stands so.
    pub(crate) fn begins_line(self, stand: Stand) -> bool
        ensures { result ≡ begins_line self.before stand }
    {
        self.before.begins_line(stand)
    }

    /// Whether one begins before the end tag.
    pub(crate) fn ends_line(self) -> bool
        ensures { result ≡ ends_line self.before }
    {
        self.before.ends_line()
    }

    /// Begins a line before what stands so, where one begins.
    pub(crate) fn put_line(self, stand: Stand, out: &mut Vec<u8>) -> Result<(), AllocError>
        ensures { OnOk result (out.new.items
            ≡ out.old.items ++ line_if (begins_line self.before stand) self.depth) }
    {
        if !self.before.begins_line(stand) {
            return Ok(());
        }
        put_line(self.depth, out)
    }

    /// Begins a line before the end tag, where one begins.
    pub(crate) fn put_last_line(self, out: &mut Vec<u8>) -> Result<(), AllocError>
        ensures { OnOk result (out.new.items
            ≡ out.old.items ++ line_if (ends_line self.before) (self.depth - 1)) }
    {
        if !self.before.ends_line() {
            return Ok(());
        }
        put_line(self.depth.saturating_sub(1), out)
    }

    /// The place behind what stands so.
    pub(crate) fn behind(self, stand: Stand) -> Spot
        ensures { result ≡ behind self stand }
    {
        Spot {
            depth: self.depth,
            before: self.before.after(stand),
        }
    }

    /// The place behind the start tag of an element that is broken over lines.
    pub(crate) fn inside(self) -> Spot
        requires { self.depth + 1 < 2 ^ 64 }
        ensures { result ≡ inside self }
    {
        Spot {
            depth: self.depth + 1,
            before: Before::Edge,
        }
    }

    /// The place behind the end tag of one.
    pub(crate) fn outside(self, is_late: bool) -> Spot
        ensures { result ≡ outside is_late self }
    {
        Spot {
            depth: self.depth.saturating_sub(1),
            before: self.before.after_lines(is_late),
        }
    }
}
