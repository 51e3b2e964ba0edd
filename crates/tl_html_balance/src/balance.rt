//! What a token of a page closes, and what becomes of it.
ghost use Rattle.std.specs.Prelude.{◌≡◌, ◌≤◌, ◌||◌, length, not};
ghost use Rattle.tl_names.specs.Elements.{head_parts, is_among};
ghost use Rattle.tl_html_spec.specs.Balanced.{before_start, closed_by, closing, is_dropped, is_foreign, is_head, leading, put_in, when};
ghost use Rattle.tl_html_balance.specs.Inner.Rules.{end_reach, same_name_stops};
ghost use Rattle.tl_html_balance.specs.Tokens.{Opens, is_closed_at_once, is_misplaced, tokens_put_in};
ghost use Rattle.tl_html_balance.specs.View.{name_of, names_left, open_names};

use crate::class;
use crate::open_tags::OpenTags;
use crate::remaining::Remaining;
use crate::rule::{BEFORE_START, Reach, count_all};
use crate::tag_name::TagName;

/// What an end tag puts in.
#[derive(Clone, Copy, PartialEq, Eq, Debug)]
pub enum PutIn {
    Nothing,
    /// A start tag of its name, which is `br`.
    LineBreak,
    /// A start and an end tag of its name, which is `p`.
    Paragraph,
}

/// What becomes of a start tag that stays.
#[derive(Clone, Copy, PartialEq, Eq, Debug)]
pub enum Opening {
    /// It has no end tag.
    Void,
    /// Its end tag follows.
    ClosedAtOnce,
    Open,
}

impl OpenTags {
    fn all(&self) -> Remaining<'_>
        ensures { names_left result ≡ open_names self.now }
    {
        Remaining {
            tags: self,
            closed: 0,
        }
    }

    /// Whether what comes next is inside `svg` or `math`, but not in `foreignobject`.
    pub fn is_foreign(&self) -> bool
        ensures { result ≡ is_foreign (open_names self.now) }
    {
        self.all().is_foreign()
    }

    /// Whether a start tag is dropped.
    pub fn is_dropped(&self, name: &TagName<'_>) -> bool
        ensures { result ≡ is_dropped (name_of name.now) (open_names self.now) }
    {
        if self.is_misplaced(name) {
            return !self.is_foreign();
        }
        false
    }

    // Whether what a start tag asks for is not there, or what it may not repeat is.
    fn is_misplaced(&self, name: &TagName<'_>) -> bool
        ensures { result ≡ is_misplaced (name_of name.now) (open_names self.now) }
    {
        if name.is(class::HTML) {
            self.all().has_other(0)
        } else if name.is(class::HEAD) {
            self.all().has_other(class::HTML)
        } else if name.is(class::BODY) {
            self.all().has_other(class::HTML_OR_HEAD)
        } else if name.is(class::FORM) {
            self.all().depth(class::FORM, class::TEMPLATE).is_some()
        } else if name.is(class::TABLE_PART) {
            self.all().depth(class::TABLE_BOUND, 0).is_none()
        } else {
            false
        }
    }

    /// How many of the innermost tags a start tag closes that is not dropped.
    pub fn closed_before_start(&self, name: &TagName<'_>) -> usize
        ensures value { closing result (open_names self.now)
            ≡ before_start (name_of name.now) (open_names self.now) }
        ensures within { result ≤ length (open_names self.now) }
    {
        let head = self.head_before(name);
        let left = self.all().skip(head);
        if left.is_foreign() {
            return head;
        }
        head + count_all(&BEFORE_START, &left, name)
    }

    // How many heads on top a start tag closes.
    fn head_before(&self, name: &TagName<'_>) -> usize
        ensures value { result
            ≡ when (not (is_among head_parts (name_of name.now) || is_head (name_of name.now)))
            (leading is_head) (open_names self.now) }
        ensures within { result ≤ length (open_names self.now) }
    {
        self.closed_before_text(name.is(class::IN_HEAD))
    }

    /// How many of the innermost tags are closed before characters, which are white space or none
    /// of them is.
    pub fn closed_before_text(&self, is_white: bool) -> usize
        ensures value { result ≡ when (not is_white) (leading is_head) (open_names self.now) }
        ensures within { result ≤ length (open_names self.now) }
    {
        if is_white {
            0
        } else {
            self.all().leading(class::HEAD)
        }
    }

    /// What becomes of a start tag that stays, after what it closes. `closes` says that it ends
    /// with `/>`.
    pub fn opening(&self, name: &TagName<'_>, closes: bool) -> Opening
        ensures { Opens result (name_of name.now) closes (open_names self.now) }
    {
        if name.is(class::VOID) {
            return Opening::Void;
        }
        if self.is_closed_at_once(name, closes) {
            return Opening::ClosedAtOnce;
        }
        Opening::Open
    }

    fn is_closed_at_once(&self, name: &TagName<'_>, closes: bool) -> bool
        ensures { result ≡ is_closed_at_once (name_of name.now) closes (open_names self.now) }
    {
        if name.is(class::CLOSED_AT_ONCE) {
            return true;
        }
        if !closes {
            return false;
        }
        if name.is(class::RAW) {
            return false;
        }
        if name.is(class::FOREIGN) {
            return true;
        }
        self.is_foreign()
    }

    /// How many of the innermost tags an end tag closes.
    pub fn closed_by_end(&self, name: &TagName<'_>) -> usize
        ensures value { result ≡ closed_by (name_of name.now) (open_names self.now) }
        ensures within { result ≤ length (open_names self.now) }
    {
        end_reach(name).count(&self.all(), name)
    }

    /// What an end tag puts in, behind what it closes.
    pub fn put_in(&self, name: &TagName<'_>) -> PutIn
        ensures { put_in (name_of name.now) (open_names self.now)
            ≡ tokens_put_in result (name_of name.now) }
    {
        if name.is(class::BR) {
            return PutIn::LineBreak;
        }
        if !name.is(class::P) {
            return PutIn::Nothing;
        }
        if self.is_foreign() {
            return PutIn::Nothing;
        }
        match self.all().depth(class::P, class::BUTTON_SCOPE) {
            Some(_) => PutIn::Nothing,
            None => PutIn::Paragraph,
        }
    }
}

// How far an end tag closes.
fn end_reach(name: &TagName<'_>) -> Reach
    ensures { result ≡ end_reach (name_of name.now) }
{
    if name.is(class::NO_END) {
        return Reach::Nothing;
    }
    if name.is(class::P) {
        return Reach::Nearest {
            found: class::P,
            stops: class::BUTTON_SCOPE,
        };
    }
    if name.is(class::LI) {
        return Reach::Nearest {
            found: class::LI,
            stops: class::LIST_SCOPE,
        };
    }
    if name.is(class::HEADING) {
        return Reach::Nearest {
            found: class::HEADING,
            stops: class::SCOPE,
        };
    }
    Reach::SameName {
        stops: same_name_stops(name),
    }
}

// What an end tag that looks for its own name stops before.
fn same_name_stops(name: &TagName<'_>) -> u64
    ensures { result ≡ same_name_stops (name_of name.now) }
{
    if name.is(class::SCOPED_END) {
        class::SCOPE
    } else if name.is(class::TABLE_NAME) {
        class::TABLE_SCOPE
    } else if name.is(class::FOUND_ANYWHERE) {
        0
    } else {
        class::SPECIAL
    }
}
