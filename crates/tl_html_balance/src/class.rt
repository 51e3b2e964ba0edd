//! The classes of names that the rules ask for, a bit each.
//!
//! Where nothing else is said, a class is the one name that it is called by.
ghost use Rattle.std.specs.Prelude.{◌≡◌};
ghost use Rattle.tl_html_balance.specs.Classes.{has};

/// Whether one of the wanted classes is among these.
pub(crate) fn has(classes: u64, wanted: u64) -> bool
    ensures { result ≡ has wanted classes }
{
    classes & wanted != 0
}

/// No end tag.
pub(crate) const VOID: u64 = 1 << 0;
/// Put in and closed at once.
pub(crate) const CLOSED_AT_ONCE: u64 = 1 << 1;
/// A text and no markup.
pub(crate) const RAW: u64 = 1 << 2;
/// A line feed after the start tag is dropped.
pub(crate) const FEED_DROPPER: u64 = 1 << 3;
/// May stand in a head.
pub(crate) const HEAD_PART: u64 = 1 << 4;
/// The special elements.
pub(crate) const SPECIAL: u64 = 1 << 5;
/// The special ones but `address`, `div` and `p`.
pub(crate) const ITEM_BOUND: u64 = 1 << 6;
/// Whose start tags end a paragraph.
pub(crate) const PARAGRAPH_END: u64 = 1 << 7;
/// Whose end tags look for their start tag in its scope.
pub(crate) const SCOPED_END: u64 = 1 << 8;
/// `a`, `nobr`.
pub(crate) const A: u64 = 1 << 9;

pub(crate) const HTML: u64 = 1 << 10;

pub(crate) const HEAD: u64 = 1 << 11;

pub(crate) const BODY: u64 = 1 << 12;

pub(crate) const P: u64 = 1 << 13;

pub(crate) const LI: u64 = 1 << 14;
/// `ol`, `ul`.
pub(crate) const LIST: u64 = 1 << 15;
/// `dd`, `dt`.
pub(crate) const DESCRIPTION: u64 = 1 << 16;

pub(crate) const HEADING: u64 = 1 << 17;

pub(crate) const OPTION: u64 = 1 << 18;

pub(crate) const OPTGROUP: u64 = 1 << 19;

pub(crate) const HR: u64 = 1 << 20;

pub(crate) const BR: u64 = 1 << 21;

pub(crate) const BUTTON: u64 = 1 << 22;

pub(crate) const FORM: u64 = 1 << 23;

pub(crate) const SELECT: u64 = 1 << 24;

pub(crate) const TEMPLATE: u64 = 1 << 25;

pub(crate) const TABLE: u64 = 1 << 26;
/// `tbody`, `thead`, `tfoot`.
pub(crate) const SECTION: u64 = 1 << 27;

pub(crate) const TR: u64 = 1 << 28;
/// `td`, `th`.
pub(crate) const CELL: u64 = 1 << 29;

pub(crate) const CAPTION: u64 = 1 << 30;

pub(crate) const COL: u64 = 1 << 31;

pub(crate) const COLGROUP: u64 = 1 << 32;

pub(crate) const RUBY: u64 = 1 << 33;

pub(crate) const RB: u64 = 1 << 34;

pub(crate) const RTC: u64 = 1 << 35;
/// `rt`, `rp`.
pub(crate) const RT: u64 = 1 << 36;
/// `svg`, `math`.
pub(crate) const FOREIGN: u64 = 1 << 37;

pub(crate) const FOREIGN_OBJECT: u64 = 1 << 38;
/// `applet`, `marquee`, `object`.
pub(crate) const OBJECT: u64 = 1 << 39;

// Several at once.

pub(crate) const OPTION_LIKE: u64 = OPTION | OPTGROUP | HR;

pub(crate) const GROUP_LIKE: u64 = OPTGROUP | HR;

pub(crate) const RUBY_BASE: u64 = RB | RTC;

pub(crate) const HTML_OR_HEAD: u64 = HTML | HEAD;

pub(crate) const HTML_OR_BODY: u64 = HTML | BODY;

pub(crate) const IN_HEAD: u64 = HEAD_PART | HEAD;
/// What stands in a table itself.
pub(crate) const TABLE_CHILD: u64 = SECTION | CAPTION | COLGROUP;
/// What stands in a table alone.
pub(crate) const TABLE_PART: u64 = TABLE_CHILD | TR | CELL | COL;

pub(crate) const TABLE_NAME: u64 = TABLE | TABLE_PART;
/// Whose end tags close nothing.
pub(crate) const NO_END: u64 = VOID | HTML_OR_BODY;
/// Whose end tags look for their start tag in all that is open.
pub(crate) const FOUND_ANYWHERE: u64 = TEMPLATE | SELECT | HEAD;

// What a rule stops before, looks for or closes.

/// What bounds a scope (13.2.4.2).
pub(crate) const SCOPE: u64 = OBJECT | CAPTION | HTML | TABLE | CELL | TEMPLATE | FOREIGN;

pub(crate) const BUTTON_SCOPE: u64 = SCOPE | BUTTON;

pub(crate) const LIST_SCOPE: u64 = SCOPE | LIST;

pub(crate) const TABLE_BOUND: u64 = TABLE | TEMPLATE;

pub(crate) const TABLE_SCOPE: u64 = TABLE_BOUND | HTML;

pub(crate) const ROW_BOUND: u64 = TABLE_BOUND | SECTION;

pub(crate) const IN_ROW_BOUND: u64 = ROW_BOUND | TR;

pub(crate) const COLUMN_BOUND: u64 = TABLE_BOUND | COLGROUP;

pub(crate) const CELL_BOUND: u64 = CELL | CAPTION | TEMPLATE;

pub(crate) const FOREIGN_BOUND: u64 = FOREIGN | FOREIGN_OBJECT;
/// Whose end tags a text of a ruby generates, which may stand in an `rtc`.
pub(crate) const TEXT_END: u64 = DESCRIPTION | LI | OPTGROUP | OPTION | P | RB | RT;
/// Whose end tags are generated (13.2.6.3).
pub(crate) const IMPLIED_END: u64 = TEXT_END | RTC;
