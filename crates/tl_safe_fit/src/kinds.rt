//! The kinds of elements: what the tree builder of the HTML standard tells apart of the names that
//! a policy may list.
ghost use Rattle.std.specs.Prelude.{◌≡◌};
ghost use Rattle.tl_safe_fit.specs.Kinds.{is_preformatted, is_void_kind, kind_among, kind_of, named, rows_of};

/// The kinds. A name of no other kind is `Other`.
#[derive(Clone, Copy)]
pub enum Kind {
    /// `p`
    Paragraph,
    /// A block that bounds the search for an open item.
    Block,
    /// A block that doesn't.
    LooseBlock,
    /// `h1` to `h6`
    Heading,
    /// `pre`, `listing`
    Preformatted,
    /// `li`
    Item,
    /// `dd`, `dt`
    Description,
    /// `a`
    Anchor,
    /// `nobr`
    Nobr,
    /// Void elements that may stand anywhere.
    Void,
    /// `hr`
    Rule,
    /// `rb`
    RubyBase,
    /// `rtc`
    RubyTextContainer,
    /// `rp`, `rt`
    RubyText,
    /// `ruby`
    Ruby,
    /// `table`
    Table,
    /// `caption`
    Caption,
    /// `colgroup`
    ColumnGroup,
    /// `col`
    Column,
    /// `tbody`, `tfoot`, `thead`
    TableBody,
    /// `tr`
    Row,
    /// `td`, `th`
    Cell,
    /// A name that no rule speaks of.
    Other,
}

// The names of each length, those that pages have most first.
static NAMES_OF_1: [(&str, Kind); 2] = [("p", Kind::Paragraph), ("a", Kind::Anchor)];

#[rattlefmt::skip]
static NAMES_OF_2: [(&str, Kind); 20] = [
    ("li", Kind::Item), ("td", Kind::Cell), ("tr", Kind::Row), ("br", Kind::Void),
    ("ul", Kind::Block), ("h2", Kind::Heading), ("h3", Kind::Heading), ("dd", Kind::Description),
    ("dt", Kind::Description), ("th", Kind::Cell), ("h1", Kind::Heading), ("ol", Kind::Block),
    ("h4", Kind::Heading), ("hr", Kind::Rule), ("dl", Kind::Block), ("h5", Kind::Heading),
    ("h6", Kind::Heading), ("rt", Kind::RubyText), ("rp", Kind::RubyText),
    ("rb", Kind::RubyBase),
];

#[rattlefmt::skip]
static NAMES_OF_3: [(&str, Kind); 8] = [
    ("div", Kind::LooseBlock), ("img", Kind::Void), ("pre", Kind::Preformatted),
    ("nav", Kind::Block), ("col", Kind::Column), ("wbr", Kind::Void), ("dir", Kind::Block),
    ("rtc", Kind::RubyTextContainer),
];

#[rattlefmt::skip]
static NAMES_OF_4: [(&str, Kind); 5] = [
    ("main", Kind::Block), ("menu", Kind::Block), ("area", Kind::Void), ("ruby", Kind::Ruby),
    ("nobr", Kind::Nobr),
];

#[rattlefmt::skip]
static NAMES_OF_5: [(&str, Kind); 6] = [
    ("table", Kind::Table), ("tbody", Kind::TableBody), ("thead", Kind::TableBody),
    ("tfoot", Kind::TableBody), ("aside", Kind::Block), ("track", Kind::Void),
];

#[rattlefmt::skip]
static NAMES_OF_6: [(&str, Kind); 8] = [
    ("figure", Kind::Block), ("header", Kind::Block), ("footer", Kind::Block),
    ("center", Kind::Block), ("source", Kind::Void), ("hgroup", Kind::Block),
    ("dialog", Kind::LooseBlock), ("search", Kind::LooseBlock),
];

#[rattlefmt::skip]
static NAMES_OF_7: [(&str, Kind); 7] = [
    ("section", Kind::Block), ("article", Kind::Block), ("caption", Kind::Caption),
    ("details", Kind::Block), ("summary", Kind::Block), ("address", Kind::LooseBlock),
    ("listing", Kind::Preformatted),
];

static NAMES_OF_8: [(&str, Kind); 2] = [("fieldset", Kind::Block), ("colgroup", Kind::ColumnGroup)];

static NAMES_OF_10: [(&str, Kind); 2] = [("blockquote", Kind::Block), ("figcaption", Kind::Block)];

// The names of a length, with their kinds.
fn rows_of(len: usize) -> &'static [(&'static str, Kind)]
    ensures { named result.now ≡ rows_of len }
{
    match len {
        1 => &NAMES_OF_1,
        2 => &NAMES_OF_2,
        3 => &NAMES_OF_3,
        4 => &NAMES_OF_4,
        5 => &NAMES_OF_5,
        6 => &NAMES_OF_6,
        7 => &NAMES_OF_7,
        8 => &NAMES_OF_8,
        10 => &NAMES_OF_10,
        _ => &[],
    }
}

// The kind of a name among these.
fn kind_among(rows: &[(&str, Kind)], name: &[u8]) -> Kind
    ensures { result ≡ kind_among (named rows.now) name.now }
{
    for (own, kind) in rows {
        if name == own.as_bytes() {
            return *kind;
        }
    }
    Kind::Other
}

/// The kind of an element of a name that a policy may list.
pub fn kind_of(name: &[u8]) -> Kind
    ensures { result ≡ kind_of name.now }
{
    kind_among(rows_of(name.len()), name)
}

/// Whether a line feed is dropped at the front of an element of a kind.
pub fn is_preformatted(kind: Kind) -> bool
    ensures { result ≡ is_preformatted kind }
{
    matches!(kind, Kind::Preformatted)
}

/// Whether an element of a kind has no end tag.
pub fn is_void_kind(kind: Kind) -> bool
    ensures { result ≡ is_void_kind kind }
{
    matches!(kind, Kind::Void | Kind::Rule | Kind::Column)
}
