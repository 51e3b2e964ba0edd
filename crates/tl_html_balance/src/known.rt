//! The names that have a class, by their first letters.
ghost use Rattle.std.specs.Prelude.{◌≡◌, map};
ghost use Rattle.tl_html_balance.specs.Classes.{classes_in, classes_of, group_at, plain, rows_at};

use crate::class::*;

/// The classes of a name.
pub(crate) fn classes_of(name: &[u8]) -> u64
    ensures { result ≡ classes_of name.now }
{
    match name.first() {
        Some(letter) => classes_among(rows_at(*letter), name),
        None => 0,
    }
}

fn rows_at(letter: u8) -> &'static [(&'static str, u64)]
    ensures { plain result.now ≡ rows_at letter }
{
    if letter.is_ascii_lowercase() {
        rows_of(&ROWS, usize::from(letter - b'a'))
    } else {
        &[]
    }
}

fn rows_of(
    groups: &'static [&'static [(&'static str, u64)]],
    place: usize,
) -> &'static [(&'static str, u64)]
    ensures { plain result.now ≡ group_at (map (λ rows. plain rows.now) groups.now) place }
{
    let Some(rows) = groups.get(place) else {
        return &[];
    };
    rows
}

fn classes_among(rows: &[(&str, u64)], name: &[u8]) -> u64
    ensures { result ≡ classes_in (plain rows.now) name.now }
{
    for (own, classes) in rows {
        if name == own.as_bytes() {
            return *classes;
        }
    }
    0
}

/// The names of each first letter from `a` on, each with its classes.
#[rattlefmt::skip]
pub(crate) static ROWS: [&[(&str, u64)]; 26] = [
    &[
        ("a", A),
        ("address", SPECIAL | PARAGRAPH_END | SCOPED_END),
        ("applet", SPECIAL | ITEM_BOUND | SCOPED_END | OBJECT),
        ("area", VOID | SPECIAL | ITEM_BOUND),
        ("article", SPECIAL | ITEM_BOUND | PARAGRAPH_END | SCOPED_END),
        ("aside", SPECIAL | ITEM_BOUND | PARAGRAPH_END | SCOPED_END),
    ],
    &[
        ("base", VOID | HEAD_PART | SPECIAL | ITEM_BOUND),
        ("basefont", CLOSED_AT_ONCE | HEAD_PART | SPECIAL | ITEM_BOUND),
        ("bgsound", CLOSED_AT_ONCE | HEAD_PART | SPECIAL | ITEM_BOUND),
        ("blockquote", SPECIAL | ITEM_BOUND | PARAGRAPH_END | SCOPED_END),
        ("body", SPECIAL | ITEM_BOUND | BODY),
        ("br", VOID | SPECIAL | ITEM_BOUND | BR),
        ("button", SPECIAL | ITEM_BOUND | SCOPED_END | BUTTON),
    ],
    &[
        ("caption", SPECIAL | ITEM_BOUND | CAPTION),
        ("center", SPECIAL | ITEM_BOUND | PARAGRAPH_END | SCOPED_END),
        ("col", VOID | SPECIAL | ITEM_BOUND | COL),
        ("colgroup", SPECIAL | ITEM_BOUND | COLGROUP),
    ],
    &[
        ("dd", SPECIAL | ITEM_BOUND | PARAGRAPH_END | SCOPED_END | DESCRIPTION),
        ("details", SPECIAL | ITEM_BOUND | PARAGRAPH_END | SCOPED_END),
        ("dialog", PARAGRAPH_END | SCOPED_END),
        ("dir", SPECIAL | ITEM_BOUND | PARAGRAPH_END | SCOPED_END),
        ("div", SPECIAL | PARAGRAPH_END | SCOPED_END),
        ("dl", SPECIAL | ITEM_BOUND | PARAGRAPH_END | SCOPED_END),
        ("dt", SPECIAL | ITEM_BOUND | PARAGRAPH_END | SCOPED_END | DESCRIPTION),
    ],
    &[
        ("embed", VOID | SPECIAL | ITEM_BOUND),
    ],
    &[
        ("fieldset", SPECIAL | ITEM_BOUND | PARAGRAPH_END | SCOPED_END),
        ("figcaption", SPECIAL | ITEM_BOUND | PARAGRAPH_END | SCOPED_END),
        ("figure", SPECIAL | ITEM_BOUND | PARAGRAPH_END | SCOPED_END),
        ("footer", SPECIAL | ITEM_BOUND | PARAGRAPH_END | SCOPED_END),
        ("foreignobject", FOREIGN_OBJECT),
        ("form", SPECIAL | ITEM_BOUND | PARAGRAPH_END | SCOPED_END | FORM),
        ("frame", CLOSED_AT_ONCE | SPECIAL | ITEM_BOUND),
        ("frameset", SPECIAL | ITEM_BOUND),
    ],
    &[],
    &[
        ("h1", SPECIAL | ITEM_BOUND | PARAGRAPH_END | HEADING),
        ("h2", SPECIAL | ITEM_BOUND | PARAGRAPH_END | HEADING),
        ("h3", SPECIAL | ITEM_BOUND | PARAGRAPH_END | HEADING),
        ("h4", SPECIAL | ITEM_BOUND | PARAGRAPH_END | HEADING),
        ("h5", SPECIAL | ITEM_BOUND | PARAGRAPH_END | HEADING),
        ("h6", SPECIAL | ITEM_BOUND | PARAGRAPH_END | HEADING),
        ("head", SPECIAL | ITEM_BOUND | HEAD),
        ("header", SPECIAL | ITEM_BOUND | PARAGRAPH_END | SCOPED_END),
        ("hgroup", SPECIAL | ITEM_BOUND | PARAGRAPH_END | SCOPED_END),
        ("hr", VOID | SPECIAL | ITEM_BOUND | PARAGRAPH_END | HR),
        ("html", SPECIAL | ITEM_BOUND | HTML),
    ],
    &[
        ("iframe", RAW | SPECIAL | ITEM_BOUND),
        ("img", VOID | SPECIAL | ITEM_BOUND),
        ("input", VOID | SPECIAL | ITEM_BOUND),
    ],
    &[],
    &[
        ("keygen", VOID | SPECIAL | ITEM_BOUND),
    ],
    &[
        ("li", SPECIAL | ITEM_BOUND | PARAGRAPH_END | LI),
        ("link", VOID | HEAD_PART | SPECIAL | ITEM_BOUND),
        ("listing", FEED_DROPPER | SPECIAL | ITEM_BOUND | PARAGRAPH_END | SCOPED_END),
    ],
    &[
        ("main", SPECIAL | ITEM_BOUND | PARAGRAPH_END | SCOPED_END),
        ("marquee", SPECIAL | ITEM_BOUND | SCOPED_END | OBJECT),
        ("math", FOREIGN),
        ("menu", SPECIAL | ITEM_BOUND | PARAGRAPH_END | SCOPED_END),
        ("meta", VOID | HEAD_PART | SPECIAL | ITEM_BOUND),
    ],
    &[
        ("nav", SPECIAL | ITEM_BOUND | PARAGRAPH_END | SCOPED_END),
        ("nobr", A),
        ("noembed", RAW | SPECIAL | ITEM_BOUND),
        ("noframes", RAW | HEAD_PART | SPECIAL | ITEM_BOUND),
        ("noscript", HEAD_PART | SPECIAL | ITEM_BOUND),
    ],
    &[
        ("object", SPECIAL | ITEM_BOUND | SCOPED_END | OBJECT),
        ("ol", SPECIAL | ITEM_BOUND | PARAGRAPH_END | SCOPED_END | LIST),
        ("optgroup", OPTGROUP),
        ("option", OPTION),
    ],
    &[
        ("p", SPECIAL | PARAGRAPH_END | P),
        ("param", VOID | SPECIAL | ITEM_BOUND),
        ("plaintext", RAW | SPECIAL | ITEM_BOUND | PARAGRAPH_END),
        ("pre", FEED_DROPPER | SPECIAL | ITEM_BOUND | PARAGRAPH_END | SCOPED_END),
    ],
    &[],
    &[
        ("rb", RB),
        ("rp", RT),
        ("rt", RT),
        ("rtc", RTC),
        ("ruby", RUBY),
    ],
    &[
        ("script", RAW | HEAD_PART | SPECIAL | ITEM_BOUND),
        ("search", SPECIAL | ITEM_BOUND | PARAGRAPH_END | SCOPED_END),
        ("section", SPECIAL | ITEM_BOUND | PARAGRAPH_END | SCOPED_END),
        ("select", SPECIAL | ITEM_BOUND | SELECT),
        ("source", VOID | SPECIAL | ITEM_BOUND),
        ("style", RAW | HEAD_PART | SPECIAL | ITEM_BOUND),
        ("summary", SPECIAL | ITEM_BOUND | PARAGRAPH_END | SCOPED_END),
        ("svg", FOREIGN),
    ],
    &[
        ("table", SPECIAL | ITEM_BOUND | PARAGRAPH_END | TABLE),
        ("tbody", SPECIAL | ITEM_BOUND | SECTION),
        ("td", SPECIAL | ITEM_BOUND | CELL),
        ("template", HEAD_PART | SPECIAL | ITEM_BOUND | TEMPLATE),
        ("textarea", RAW | FEED_DROPPER | SPECIAL | ITEM_BOUND),
        ("tfoot", SPECIAL | ITEM_BOUND | SECTION),
        ("th", SPECIAL | ITEM_BOUND | CELL),
        ("thead", SPECIAL | ITEM_BOUND | SECTION),
        ("title", RAW | HEAD_PART | SPECIAL | ITEM_BOUND),
        ("tr", SPECIAL | ITEM_BOUND | TR),
        ("track", VOID | SPECIAL | ITEM_BOUND),
    ],
    &[
        ("ul", SPECIAL | ITEM_BOUND | PARAGRAPH_END | SCOPED_END | LIST),
    ],
    &[],
    &[
        ("wbr", VOID | SPECIAL | ITEM_BOUND),
    ],
    &[
        ("xmp", RAW | SPECIAL | ITEM_BOUND | PARAGRAPH_END),
    ],
    &[],
    &[],
];
