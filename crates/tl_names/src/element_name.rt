//! Names of elements as numbers: looked up once for each tag.

ghost use Rattle.std.specs.Prelude.{◌≡◌, ◌≢◌, ◌<◌, [], get_or, slice_get};
ghost use Rattle.std.specs.Option.{option_copied};
ghost use Rattle.tl_names.specs.ElementNames.{name_of, number_of, slot_of, text_of};
ghost use Rattle.tl_names.specs.Elements.{words_of};
ghost use Rattle.tl_names.specs.TagSets.{is_of};
ghost use Rattle.tl_names.specs.declared.element_tables.TheConstants.{SLOTS};

use crate::class::Class;
use crate::element_tables::{CLASSES, NAMES, SLOTS};

/// A name that the rules of tree construction tell from others, or [`ElementName::OTHER`] for all
/// other names.
#[derive(Clone, Copy, PartialEq, Eq, Debug)]
pub struct ElementName {
    number: u8,
}

#[rattlefmt::skip]
impl ElementName {
    /// Each name that no rule speaks of.
    pub const OTHER: ElementName = ElementName { number: 159 };
    pub const A: ElementName = ElementName { number: 0 };
    pub const ADDRESS: ElementName = ElementName { number: 1 };
    pub const ANNOTATION_XML: ElementName = ElementName { number: 8 };
    pub const APPLET: ElementName = ElementName { number: 9 };
    pub const AREA: ElementName = ElementName { number: 10 };
    pub const ARTICLE: ElementName = ElementName { number: 11 };
    pub const ASIDE: ElementName = ElementName { number: 12 };
    pub const B: ElementName = ElementName { number: 13 };
    pub const BASE: ElementName = ElementName { number: 14 };
    pub const BASEFONT: ElementName = ElementName { number: 15 };
    pub const BGSOUND: ElementName = ElementName { number: 16 };
    pub const BIG: ElementName = ElementName { number: 17 };
    pub const BLOCKQUOTE: ElementName = ElementName { number: 18 };
    pub const BODY: ElementName = ElementName { number: 19 };
    pub const BR: ElementName = ElementName { number: 20 };
    pub const BUTTON: ElementName = ElementName { number: 21 };
    pub const CAPTION: ElementName = ElementName { number: 22 };
    pub const CENTER: ElementName = ElementName { number: 23 };
    pub const CODE: ElementName = ElementName { number: 25 };
    pub const COL: ElementName = ElementName { number: 26 };
    pub const COLGROUP: ElementName = ElementName { number: 27 };
    pub const DD: ElementName = ElementName { number: 28 };
    pub const DESC: ElementName = ElementName { number: 29 };
    pub const DETAILS: ElementName = ElementName { number: 30 };
    pub const DIALOG: ElementName = ElementName { number: 31 };
    pub const DIR: ElementName = ElementName { number: 32 };
    pub const DIV: ElementName = ElementName { number: 33 };
    pub const DL: ElementName = ElementName { number: 34 };
    pub const DT: ElementName = ElementName { number: 35 };
    pub const EM: ElementName = ElementName { number: 36 };
    pub const EMBED: ElementName = ElementName { number: 37 };
    pub const FIELDSET: ElementName = ElementName { number: 63 };
    pub const FIGCAPTION: ElementName = ElementName { number: 64 };
    pub const FIGURE: ElementName = ElementName { number: 65 };
    pub const FONT: ElementName = ElementName { number: 66 };
    pub const FOOTER: ElementName = ElementName { number: 67 };
    pub const FOREIGN_OBJECT: ElementName = ElementName { number: 68 };
    pub const FORM: ElementName = ElementName { number: 70 };
    pub const FRAME: ElementName = ElementName { number: 71 };
    pub const FRAMESET: ElementName = ElementName { number: 72 };
    pub const H1: ElementName = ElementName { number: 74 };
    pub const H2: ElementName = ElementName { number: 75 };
    pub const H3: ElementName = ElementName { number: 76 };
    pub const H4: ElementName = ElementName { number: 77 };
    pub const H5: ElementName = ElementName { number: 78 };
    pub const H6: ElementName = ElementName { number: 79 };
    pub const HEAD: ElementName = ElementName { number: 80 };
    pub const HEADER: ElementName = ElementName { number: 81 };
    pub const HGROUP: ElementName = ElementName { number: 82 };
    pub const HR: ElementName = ElementName { number: 83 };
    pub const HTML: ElementName = ElementName { number: 84 };
    pub const I: ElementName = ElementName { number: 85 };
    pub const IFRAME: ElementName = ElementName { number: 86 };
    pub const IMAGE: ElementName = ElementName { number: 87 };
    pub const IMG: ElementName = ElementName { number: 88 };
    pub const INPUT: ElementName = ElementName { number: 89 };
    pub const KEYGEN: ElementName = ElementName { number: 90 };
    pub const LI: ElementName = ElementName { number: 91 };
    pub const LINK: ElementName = ElementName { number: 93 };
    pub const LISTING: ElementName = ElementName { number: 94 };
    pub const MAIN: ElementName = ElementName { number: 95 };
    pub const MALIGNMARK: ElementName = ElementName { number: 96 };
    pub const MARQUEE: ElementName = ElementName { number: 97 };
    pub const MATH: ElementName = ElementName { number: 98 };
    pub const MENU: ElementName = ElementName { number: 99 };
    pub const META: ElementName = ElementName { number: 100 };
    pub const MGLYPH: ElementName = ElementName { number: 101 };
    pub const MI: ElementName = ElementName { number: 102 };
    pub const MN: ElementName = ElementName { number: 103 };
    pub const MO: ElementName = ElementName { number: 104 };
    pub const MS: ElementName = ElementName { number: 105 };
    pub const MTEXT: ElementName = ElementName { number: 106 };
    pub const NAV: ElementName = ElementName { number: 107 };
    pub const NOBR: ElementName = ElementName { number: 108 };
    pub const NOEMBED: ElementName = ElementName { number: 109 };
    pub const NOFRAMES: ElementName = ElementName { number: 110 };
    pub const NOSCRIPT: ElementName = ElementName { number: 111 };
    pub const OBJECT: ElementName = ElementName { number: 112 };
    pub const OL: ElementName = ElementName { number: 113 };
    pub const OPTGROUP: ElementName = ElementName { number: 114 };
    pub const OPTION: ElementName = ElementName { number: 115 };
    pub const P: ElementName = ElementName { number: 116 };
    pub const PARAM: ElementName = ElementName { number: 117 };
    pub const PLAINTEXT: ElementName = ElementName { number: 118 };
    pub const PRE: ElementName = ElementName { number: 119 };
    pub const RB: ElementName = ElementName { number: 121 };
    pub const RP: ElementName = ElementName { number: 122 };
    pub const RT: ElementName = ElementName { number: 123 };
    pub const RTC: ElementName = ElementName { number: 124 };
    pub const RUBY: ElementName = ElementName { number: 125 };
    pub const S: ElementName = ElementName { number: 126 };
    pub const SCRIPT: ElementName = ElementName { number: 127 };
    pub const SEARCH: ElementName = ElementName { number: 128 };
    pub const SECTION: ElementName = ElementName { number: 129 };
    pub const SELECT: ElementName = ElementName { number: 130 };
    pub const SMALL: ElementName = ElementName { number: 131 };
    pub const SOURCE: ElementName = ElementName { number: 132 };
    pub const SPAN: ElementName = ElementName { number: 133 };
    pub const STRIKE: ElementName = ElementName { number: 134 };
    pub const STRONG: ElementName = ElementName { number: 135 };
    pub const STYLE: ElementName = ElementName { number: 136 };
    pub const SUB: ElementName = ElementName { number: 137 };
    pub const SUMMARY: ElementName = ElementName { number: 138 };
    pub const SUP: ElementName = ElementName { number: 139 };
    pub const SVG: ElementName = ElementName { number: 140 };
    pub const TABLE: ElementName = ElementName { number: 141 };
    pub const TBODY: ElementName = ElementName { number: 142 };
    pub const TD: ElementName = ElementName { number: 143 };
    pub const TEMPLATE: ElementName = ElementName { number: 144 };
    pub const TEXTAREA: ElementName = ElementName { number: 145 };
    pub const TFOOT: ElementName = ElementName { number: 147 };
    pub const TH: ElementName = ElementName { number: 148 };
    pub const THEAD: ElementName = ElementName { number: 149 };
    pub const TITLE: ElementName = ElementName { number: 150 };
    pub const TR: ElementName = ElementName { number: 151 };
    pub const TRACK: ElementName = ElementName { number: 152 };
    pub const TT: ElementName = ElementName { number: 153 };
    pub const U: ElementName = ElementName { number: 154 };
    pub const UL: ElementName = ElementName { number: 155 };
    pub const VAR: ElementName = ElementName { number: 156 };
    pub const WBR: ElementName = ElementName { number: 157 };
    pub const XMP: ElementName = ElementName { number: 158 };
}

impl ElementName {
    /// The name of these bytes, in exact case: one look at a table, and one comparison.
    pub fn of(name: &[u8]) -> ElementName
        ensures { result ≡ name_of name.now }
    {
        if name.is_empty() {
            return ElementName::OTHER;
        }
        let found = ElementName {
            number: number_at(slot_of(name)),
        };
        match found.text() {
            Some(own) if own.as_bytes() == name => found,
            _ => ElementName::OTHER,
        }
    }

    /// The bytes of the name, unless it is one of the others.
    pub fn text(self) -> Option<&'static str>
        ensures { option_copied result ≡ text_of self }
    {
        text_in(&NAMES, self.number as usize)
    }

    /// Its number, for tables that have a row for each name.
    #[inline]
    pub fn number(self) -> u8
        ensures { result ≡ number_of self }
    {
        self.number
    }

    /// Whether it is of a class. No other name is of any.
    #[inline]
    pub fn is(self, class: Class) -> bool
        ensures { result ≡ is_of class self }
    {
        CLASSES[self.number as usize] >> class as u32 & 1 == 1
    }
}

/// The name at a place in a list.
fn text_in(names: &[&'static str], place: usize) -> Option<&'static str>
    ensures { option_copied result ≡ slice_get (words_of names.now) place }
{
    names.get(place).copied()
}

/// The number in a slot.
fn number_at(slot: usize) -> u8
    requires { slot < 1024 }
    ensures { result ≡ get_or SLOTS slot 0 }
{
    SLOTS[slot]
}

/// The slot of a name in `SLOTS`. With these factors, which were searched for, no two of the names
/// have one.
fn slot_of(name: &[u8]) -> usize
    requires { name.now ≢ [] }
    ensures { result ≡ slot_of name.now }
{
    let length = name.len();
    let first = name[0] as usize;
    let early = name[length / 4] as usize;
    let late = name[length / 2 + length / 7] as usize;
    let last = name[length - 1] as usize;
    (first * 409 + early * 664 + late * 312 + last * 929) % 1024
}
