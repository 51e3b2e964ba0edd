//! The rules by which tags close others.
ghost use Rattle.std.specs.Prelude.{◌≡◌, ◌≤◌, length};
ghost use Rattle.tl_html_balance.specs.Inner.Rules.{rule_of, rules_for, total};
ghost use Rattle.tl_html_balance.specs.View.{name_of, names_left};

use crate::class::*;
use crate::remaining::Remaining;
use crate::tag_name::TagName;

/// How far a rule closes.
#[derive(Clone, Copy)]
pub(crate) enum Reach {
    /// The nearest that is found and all inside it, where none that stops is nearer.
    Nearest { found: u64, stops: u64 },
    /// The same for one of the tag's own name.
    SameName { stops: u64 },
    /// All inside the nearest that is found.
    Inside { found: u64 },
    /// The innermost, if it has one of these classes.
    Innermost { wanted: u64 },
    /// Those on top that have one of these classes, in a ruby.
    InRuby { wanted: u64 },
    Nothing,
}

/// What a start tag of a class closes (13.2.6.4.7, .9 to .15), one after the other.
#[rattlefmt::skip]
pub(crate) static BEFORE_START: [(u64, Reach); 15] = [
    (LI, Reach::Nearest { found: LI, stops: ITEM_BOUND }),
    (DESCRIPTION, Reach::Nearest { found: DESCRIPTION, stops: ITEM_BOUND }),
    (PARAGRAPH_END, Reach::Nearest { found: P, stops: BUTTON_SCOPE }),
    (HEADING, Reach::Innermost { wanted: HEADING }),
    (OPTION_LIKE, Reach::Innermost { wanted: OPTION }),
    (GROUP_LIKE, Reach::Innermost { wanted: OPTGROUP }),
    (BUTTON, Reach::Nearest { found: BUTTON, stops: SCOPE }),
    (A, Reach::SameName { stops: SPECIAL }),
    (RUBY_BASE, Reach::InRuby { wanted: IMPLIED_END }),
    (RT, Reach::InRuby { wanted: TEXT_END }),
    (TR, Reach::Inside { found: ROW_BOUND }),
    (CELL, Reach::Inside { found: IN_ROW_BOUND }),
    (COL, Reach::Inside { found: COLUMN_BOUND }),
    (TABLE_CHILD, Reach::Inside { found: TABLE_BOUND }),
    (TABLE, Reach::Nearest { found: TABLE, stops: CELL_BOUND }),
];

impl Reach {
    /// How many are closed for a tag of this name.
    pub(crate) fn count(self, left: &Remaining<'_>, name: &TagName<'_>) -> usize
        ensures value { result ≡ rule_of self (name_of name.now) (names_left left.now) }
        ensures within { result ≤ length (names_left left.now) }
    {
        match self {
            Reach::Nearest { found, stops } => left.nearest(found, stops),
            Reach::SameName { stops } => left.nearest_of(name, stops),
            Reach::Inside { found } => left.inside(found),
            Reach::Innermost { wanted } => left.innermost(wanted),
            Reach::InRuby { wanted } => left.in_ruby(wanted),
            Reach::Nothing => 0,
        }
    }
}

/// How many are closed by the rules for this name, one after the other.
pub(crate) fn count_all(rules: &[(u64, Reach)], left: &Remaining<'_>, name: &TagName<'_>) -> usize
    ensures value { result
        ≡ total (rules_for rules.now (name_of name.now)) (names_left left.now) }
    ensures within { result ≤ length (names_left left.now) }
{
    let mut closed = 0;
    for (names, reach) in rules {
        if name.is(*names) {
            closed += reach.count(&left.skip(closed), name);
        }
    }
    closed
}
