//! The tables of [`ElementName`](crate::element_name::ElementName).

use crate::class::Class;

const SPECIAL: u32 = 1 << Class::Special as u32;

const SCOPE: u32 = 1 << Class::Scope as u32;

const LIST_SCOPE: u32 = 1 << Class::ListScope as u32;

const BUTTON_SCOPE: u32 = 1 << Class::ButtonScope as u32;

const TABLE_SCOPE: u32 = 1 << Class::TableScope as u32;

const ADDRESS_DIV_PARAGRAPH: u32 = 1 << Class::AddressDivParagraph as u32;

const IMPLIED: u32 = 1 << Class::Implied as u32;

const IMPLIED_THOROUGHLY: u32 = 1 << Class::ImpliedThoroughly as u32;

const HEADING: u32 = 1 << Class::Heading as u32;

const FOSTER_TARGET: u32 = 1 << Class::FosterTarget as u32;

const VOID: u32 = 1 << Class::Void as u32;

const RCDATA: u32 = 1 << Class::Rcdata as u32;

const RAW_TEXT: u32 = 1 << Class::RawText as u32;

const VERBATIM: u32 = 1 << Class::Verbatim as u32;

const TABLE_SECTION: u32 = 1 << Class::TableSection as u32;

const TABLE_PART: u32 = 1 << Class::TablePart as u32;

const TABLE_BODY_CONTEXT: u32 = 1 << Class::TableBodyContext as u32;

const TABLE_ROW_CONTEXT: u32 = 1 << Class::TableRowContext as u32;

const CELL: u32 = 1 << Class::Cell as u32;

const DESCRIPTION: u32 = 1 << Class::Description as u32;

const MATH_TEXT: u32 = 1 << Class::MathText as u32;

const MATH_MARK: u32 = 1 << Class::MathMark as u32;

const MATH_GLYPH: u32 = 1 << Class::MathGlyph as u32;

const SVG_MARK: u32 = 1 << Class::SvgMark as u32;

const SVG_CASED: u32 = 1 << Class::SvgCased as u32;

const BREAKOUT: u32 = 1 << Class::Breakout as u32;

const DECISIVE: u32 = 1 << Class::Decisive as u32;

/// Names that have a rule, in the order of their bytes; those of SVG that are put into another case
/// as a tag has them.
#[rattlefmt::skip]
pub(crate) static NAMES: [&str; 159] = [
    "a", "address", "altglyph", "altglyphdef", "altglyphitem", "animatecolor", "animatemotion",
    "animatetransform", "annotation-xml", "applet", "area", "article", "aside", "b", "base",
    "basefont", "bgsound", "big", "blockquote", "body", "br", "button", "caption", "center",
    "clippath", "code", "col", "colgroup", "dd", "desc", "details", "dialog", "dir", "div", "dl",
    "dt", "em", "embed", "feblend", "fecolormatrix", "fecomponenttransfer", "fecomposite",
    "feconvolvematrix", "fediffuselighting", "fedisplacementmap", "fedistantlight", "fedropshadow",
    "feflood", "fefunca", "fefuncb", "fefuncg", "fefuncr", "fegaussianblur", "feimage", "femerge",
    "femergenode", "femorphology", "feoffset", "fepointlight", "fespecularlighting", "fespotlight",
    "fetile", "feturbulence", "fieldset", "figcaption", "figure", "font", "footer", "foreignObject",
    "foreignobject", "form", "frame", "frameset", "glyphref", "h1", "h2", "h3", "h4", "h5", "h6",
    "head", "header", "hgroup", "hr", "html", "i", "iframe", "image", "img", "input", "keygen",
    "li", "lineargradient", "link", "listing", "main", "malignmark", "marquee", "math", "menu",
    "meta", "mglyph", "mi", "mn", "mo", "ms", "mtext", "nav", "nobr", "noembed", "noframes",
    "noscript", "object", "ol", "optgroup", "option", "p", "param", "plaintext", "pre",
    "radialgradient", "rb", "rp", "rt", "rtc", "ruby", "s", "script", "search", "section", "select",
    "small", "source", "span", "strike", "strong", "style", "sub", "summary", "sup", "svg", "table",
    "tbody", "td", "template", "textarea", "textpath", "tfoot", "th", "thead", "title", "tr",
    "track", "tt", "u", "ul", "var", "wbr", "xmp",
];

/// The classes of each name, a bit each. What is no number of a name is of none.
#[rattlefmt::skip]
pub(crate) static CLASSES: [u32; 256] = [
    0, // a
    SPECIAL | ADDRESS_DIV_PARAGRAPH, // address
    SVG_CASED, // altglyph
    SVG_CASED, // altglyphdef
    SVG_CASED, // altglyphitem
    SVG_CASED, // animatecolor
    SVG_CASED, // animatemotion
    SVG_CASED, // animatetransform
    MATH_MARK, // annotation-xml
    SPECIAL | SCOPE | LIST_SCOPE | BUTTON_SCOPE, // applet
    SPECIAL | VOID, // area
    SPECIAL, // article
    SPECIAL, // aside
    BREAKOUT, // b
    SPECIAL | VOID, // base
    SPECIAL, // basefont
    SPECIAL, // bgsound
    BREAKOUT, // big
    SPECIAL | BREAKOUT, // blockquote
    SPECIAL | BREAKOUT | DECISIVE, // body
    SPECIAL | VOID | BREAKOUT, // br
    SPECIAL | BUTTON_SCOPE, // button
    // caption
    SPECIAL | SCOPE | LIST_SCOPE | BUTTON_SCOPE | IMPLIED_THOROUGHLY | TABLE_PART | DECISIVE,
    SPECIAL | BREAKOUT, // center
    SVG_CASED, // clippath
    BREAKOUT, // code
    SPECIAL | VOID | TABLE_PART, // col
    SPECIAL | IMPLIED_THOROUGHLY | TABLE_PART | DECISIVE, // colgroup
    SPECIAL | IMPLIED | IMPLIED_THOROUGHLY | DESCRIPTION | BREAKOUT, // dd
    SVG_MARK, // desc
    SPECIAL, // details
    0, // dialog
    SPECIAL, // dir
    SPECIAL | ADDRESS_DIV_PARAGRAPH | BREAKOUT, // div
    SPECIAL | BREAKOUT, // dl
    SPECIAL | IMPLIED | IMPLIED_THOROUGHLY | DESCRIPTION | BREAKOUT, // dt
    BREAKOUT, // em
    SPECIAL | VOID | BREAKOUT, // embed
    SVG_CASED, // feblend
    SVG_CASED, // fecolormatrix
    SVG_CASED, // fecomponenttransfer
    SVG_CASED, // fecomposite
    SVG_CASED, // feconvolvematrix
    SVG_CASED, // fediffuselighting
    SVG_CASED, // fedisplacementmap
    SVG_CASED, // fedistantlight
    SVG_CASED, // fedropshadow
    SVG_CASED, // feflood
    SVG_CASED, // fefunca
    SVG_CASED, // fefuncb
    SVG_CASED, // fefuncg
    SVG_CASED, // fefuncr
    SVG_CASED, // fegaussianblur
    SVG_CASED, // feimage
    SVG_CASED, // femerge
    SVG_CASED, // femergenode
    SVG_CASED, // femorphology
    SVG_CASED, // feoffset
    SVG_CASED, // fepointlight
    SVG_CASED, // fespecularlighting
    SVG_CASED, // fespotlight
    SVG_CASED, // fetile
    SVG_CASED, // feturbulence
    SPECIAL, // fieldset
    SPECIAL, // figcaption
    SPECIAL, // figure
    0, // font
    SPECIAL, // footer
    SVG_MARK, // foreignObject
    SVG_CASED, // foreignobject
    SPECIAL, // form
    SPECIAL, // frame
    SPECIAL | DECISIVE, // frameset
    SVG_CASED, // glyphref
    SPECIAL | HEADING | BREAKOUT, // h1
    SPECIAL | HEADING | BREAKOUT, // h2
    SPECIAL | HEADING | BREAKOUT, // h3
    SPECIAL | HEADING | BREAKOUT, // h4
    SPECIAL | HEADING | BREAKOUT, // h5
    SPECIAL | HEADING | BREAKOUT, // h6
    SPECIAL | BREAKOUT | DECISIVE, // head
    SPECIAL, // header
    SPECIAL, // hgroup
    SPECIAL | VOID | BREAKOUT, // hr
    // html
    SPECIAL | SCOPE | LIST_SCOPE | BUTTON_SCOPE | TABLE_SCOPE | TABLE_BODY_CONTEXT
        | TABLE_ROW_CONTEXT | DECISIVE,
    BREAKOUT, // i
    SPECIAL | RAW_TEXT | VERBATIM, // iframe
    0, // image
    SPECIAL | VOID | BREAKOUT, // img
    SPECIAL | VOID, // input
    SPECIAL | VOID, // keygen
    SPECIAL | IMPLIED | IMPLIED_THOROUGHLY | BREAKOUT, // li
    SVG_CASED, // lineargradient
    SPECIAL | VOID, // link
    SPECIAL | BREAKOUT, // listing
    SPECIAL, // main
    MATH_GLYPH, // malignmark
    SPECIAL | SCOPE | LIST_SCOPE | BUTTON_SCOPE, // marquee
    0, // math
    SPECIAL | BREAKOUT, // menu
    SPECIAL | VOID | BREAKOUT, // meta
    MATH_GLYPH, // mglyph
    MATH_TEXT | MATH_MARK, // mi
    MATH_TEXT | MATH_MARK, // mn
    MATH_TEXT | MATH_MARK, // mo
    MATH_TEXT | MATH_MARK, // ms
    MATH_TEXT | MATH_MARK, // mtext
    SPECIAL, // nav
    BREAKOUT, // nobr
    SPECIAL | RAW_TEXT | VERBATIM, // noembed
    SPECIAL | RAW_TEXT | VERBATIM, // noframes
    SPECIAL, // noscript
    SPECIAL | SCOPE | LIST_SCOPE | BUTTON_SCOPE, // object
    SPECIAL | LIST_SCOPE | BREAKOUT, // ol
    IMPLIED | IMPLIED_THOROUGHLY, // optgroup
    IMPLIED | IMPLIED_THOROUGHLY, // option
    SPECIAL | ADDRESS_DIV_PARAGRAPH | IMPLIED | IMPLIED_THOROUGHLY | BREAKOUT, // p
    SPECIAL | VOID, // param
    SPECIAL | VERBATIM, // plaintext
    SPECIAL | BREAKOUT, // pre
    SVG_CASED, // radialgradient
    IMPLIED | IMPLIED_THOROUGHLY, // rb
    IMPLIED | IMPLIED_THOROUGHLY, // rp
    IMPLIED | IMPLIED_THOROUGHLY, // rt
    IMPLIED | IMPLIED_THOROUGHLY, // rtc
    BREAKOUT, // ruby
    BREAKOUT, // s
    SPECIAL | VERBATIM, // script
    SPECIAL, // search
    SPECIAL, // section
    SPECIAL | SCOPE | LIST_SCOPE | BUTTON_SCOPE, // select
    BREAKOUT, // small
    SPECIAL | VOID, // source
    BREAKOUT, // span
    BREAKOUT, // strike
    BREAKOUT, // strong
    SPECIAL | RAW_TEXT | VERBATIM, // style
    BREAKOUT, // sub
    SPECIAL, // summary
    BREAKOUT, // sup
    0, // svg
    // table
    SPECIAL | SCOPE | LIST_SCOPE | BUTTON_SCOPE | TABLE_SCOPE | FOSTER_TARGET | BREAKOUT | DECISIVE,
    // tbody
    SPECIAL | IMPLIED_THOROUGHLY | FOSTER_TARGET | TABLE_SECTION | TABLE_PART | TABLE_BODY_CONTEXT
        | DECISIVE,
    // td
    SPECIAL | SCOPE | LIST_SCOPE | BUTTON_SCOPE | IMPLIED_THOROUGHLY | TABLE_PART | CELL | DECISIVE,
    // template
    SPECIAL | SCOPE | LIST_SCOPE | BUTTON_SCOPE | TABLE_SCOPE | TABLE_BODY_CONTEXT
        | TABLE_ROW_CONTEXT | DECISIVE,
    SPECIAL | RCDATA, // textarea
    SVG_CASED, // textpath
    // tfoot
    SPECIAL | IMPLIED_THOROUGHLY | FOSTER_TARGET | TABLE_SECTION | TABLE_PART | TABLE_BODY_CONTEXT
        | DECISIVE,
    // th
    SPECIAL | SCOPE | LIST_SCOPE | BUTTON_SCOPE | IMPLIED_THOROUGHLY | TABLE_PART | CELL | DECISIVE,
    // thead
    SPECIAL | IMPLIED_THOROUGHLY | FOSTER_TARGET | TABLE_SECTION | TABLE_PART | TABLE_BODY_CONTEXT
        | DECISIVE,
    SPECIAL | RCDATA | SVG_MARK, // title
    SPECIAL | IMPLIED_THOROUGHLY | FOSTER_TARGET | TABLE_PART | TABLE_ROW_CONTEXT | DECISIVE, // tr
    SPECIAL | VOID, // track
    BREAKOUT, // tt
    BREAKOUT, // u
    SPECIAL | LIST_SCOPE | BREAKOUT, // ul
    BREAKOUT, // var
    SPECIAL | VOID, // wbr
    SPECIAL | RAW_TEXT | VERBATIM, // xmp
    // other numbers
    0, 0, 0, 0, 0, 0, 0, 0, 0, 0, 0, 0, 0, 0, 0, 0, 0, 0, 0, 0, 0, 0, 0, 0, 0, 0, 0, 0, 0, 0, 0, 0,
    0, 0, 0, 0, 0, 0, 0, 0, 0, 0, 0, 0, 0, 0, 0, 0, 0, 0, 0, 0, 0, 0, 0, 0, 0, 0, 0, 0, 0, 0, 0, 0,
    0, 0, 0, 0, 0, 0, 0, 0, 0, 0, 0, 0, 0, 0, 0, 0, 0, 0, 0, 0, 0, 0, 0, 0, 0, 0, 0, 0, 0, 0, 0, 0,
    0,
];

/// The number of the name that has a slot, or that of no name.
#[rattlefmt::skip]
pub(crate) static SLOTS: [u8; 1024] = [
    159, 159, 159, 27, 159, 159, 159, 159, 159, 159, 159, 5, 159, 159, 159, 159, 159, 159, 159, 159,
    159, 159, 159, 159, 159, 159, 159, 159, 159, 159, 159, 159, 159, 159, 159, 125, 159, 159, 123,
    159, 159, 159, 159, 159, 159, 159, 7, 159, 159, 159, 159, 159, 146, 159, 159, 159, 159, 159,
    159, 159, 159, 137, 159, 159, 159, 159, 159, 159, 159, 159, 159, 159, 159, 159, 159, 159, 159,
    159, 159, 159, 159, 159, 159, 159, 159, 159, 159, 159, 159, 159, 159, 159, 159, 159, 159, 159,
    116, 159, 159, 159, 159, 159, 159, 159, 159, 159, 159, 65, 159, 159, 4, 159, 159, 159, 159, 159,
    159, 159, 159, 159, 159, 159, 159, 159, 159, 159, 159, 159, 159, 17, 159, 159, 138, 98, 44, 159,
    153, 159, 83, 159, 159, 159, 159, 159, 159, 159, 159, 62, 159, 159, 42, 131, 21, 159, 159, 159,
    159, 159, 159, 159, 159, 159, 159, 159, 159, 159, 159, 159, 159, 159, 159, 159, 159, 159, 159,
    159, 51, 159, 159, 159, 159, 159, 159, 159, 159, 2, 159, 159, 159, 159, 159, 159, 40, 159, 122,
    159, 159, 50, 159, 159, 108, 144, 0, 113, 159, 159, 32, 159, 159, 159, 159, 159, 159, 78, 159,
    159, 159, 129, 159, 159, 118, 8, 159, 159, 159, 159, 159, 95, 121, 159, 159, 159, 159, 22, 159,
    159, 159, 159, 159, 159, 159, 159, 159, 159, 159, 159, 159, 159, 159, 159, 159, 159, 159, 159,
    159, 159, 159, 159, 159, 159, 159, 117, 159, 159, 159, 159, 159, 159, 159, 159, 86, 159, 149,
    159, 159, 159, 159, 159, 159, 159, 132, 159, 85, 159, 159, 159, 159, 159, 159, 159, 159, 159,
    159, 159, 159, 29, 159, 159, 69, 159, 159, 159, 159, 159, 159, 159, 159, 159, 159, 159, 16, 159,
    159, 159, 159, 159, 80, 46, 159, 56, 159, 159, 159, 159, 159, 43, 159, 159, 159, 159, 159, 159,
    159, 159, 120, 159, 159, 159, 159, 159, 159, 159, 159, 159, 92, 159, 159, 70, 159, 159, 159,
    159, 159, 159, 159, 159, 159, 159, 159, 159, 159, 159, 159, 159, 159, 159, 159, 127, 159, 74,
    159, 19, 159, 159, 159, 159, 35, 159, 159, 159, 159, 159, 100, 159, 159, 159, 159, 31, 159, 159,
    159, 159, 159, 159, 159, 41, 159, 159, 159, 159, 159, 150, 154, 159, 159, 159, 159, 18, 159,
    159, 159, 159, 159, 159, 159, 159, 159, 90, 159, 159, 159, 159, 159, 159, 159, 159, 135, 53,
    159, 91, 79, 159, 159, 159, 159, 159, 159, 159, 159, 6, 159, 159, 159, 159, 159, 159, 159, 130,
    159, 159, 10, 159, 159, 159, 159, 159, 159, 159, 159, 159, 159, 159, 159, 159, 159, 159, 60,
    159, 13, 159, 11, 159, 159, 159, 159, 159, 159, 159, 102, 159, 159, 159, 66, 159, 159, 142, 159,
    159, 159, 159, 159, 159, 159, 159, 159, 159, 67, 155, 159, 159, 159, 159, 159, 159, 159, 159,
    109, 159, 159, 159, 159, 159, 159, 159, 159, 159, 159, 159, 159, 159, 159, 159, 63, 128, 159, 9,
    159, 159, 159, 159, 159, 159, 159, 159, 159, 159, 159, 159, 159, 103, 159, 159, 159, 159, 147,
    159, 159, 24, 159, 159, 159, 26, 159, 159, 68, 159, 159, 101, 159, 159, 159, 159, 159, 159, 159,
    159, 159, 159, 159, 159, 159, 159, 159, 159, 159, 159, 158, 159, 159, 159, 159, 159, 159, 159,
    159, 159, 75, 159, 159, 159, 159, 159, 52, 159, 159, 159, 159, 159, 159, 159, 105, 159, 159,
    159, 148, 159, 159, 159, 159, 159, 159, 54, 159, 159, 159, 159, 159, 37, 159, 159, 159, 159,
    159, 159, 159, 159, 159, 159, 159, 124, 159, 159, 25, 110, 159, 159, 159, 159, 159, 3, 156, 159,
    159, 159, 159, 89, 159, 159, 159, 159, 159, 159, 159, 159, 159, 159, 159, 159, 159, 159, 159,
    159, 159, 159, 136, 159, 159, 159, 159, 159, 159, 159, 49, 159, 159, 94, 159, 159, 159, 159,
    159, 159, 159, 159, 64, 59, 159, 159, 34, 159, 159, 159, 159, 159, 159, 159, 88, 159, 159, 159,
    159, 159, 159, 159, 159, 159, 99, 159, 1, 159, 159, 159, 159, 159, 159, 159, 159, 159, 159, 159,
    159, 159, 159, 159, 159, 159, 151, 14, 159, 159, 97, 159, 159, 159, 159, 159, 159, 141, 159,
    159, 159, 119, 159, 159, 159, 159, 38, 159, 159, 159, 159, 159, 159, 159, 111, 159, 104, 159,
    159, 159, 143, 159, 159, 159, 159, 115, 159, 48, 159, 159, 159, 159, 159, 159, 159, 30, 82, 159,
    159, 139, 159, 159, 159, 159, 159, 106, 159, 159, 159, 159, 15, 159, 134, 159, 47, 159, 159,
    159, 159, 159, 159, 159, 159, 76, 159, 159, 159, 159, 159, 159, 159, 159, 159, 159, 39, 159,
    159, 159, 159, 159, 159, 23, 87, 159, 159, 159, 159, 159, 159, 159, 159, 93, 159, 159, 159, 159,
    159, 159, 159, 159, 159, 159, 159, 55, 159, 159, 159, 159, 159, 159, 33, 159, 159, 159, 159,
    159, 159, 159, 159, 159, 159, 159, 159, 159, 159, 159, 159, 71, 20, 159, 159, 159, 96, 159, 159,
    61, 159, 159, 159, 159, 159, 159, 58, 159, 159, 159, 159, 159, 159, 159, 159, 159, 107, 73, 126,
    159, 159, 159, 159, 159, 159, 145, 159, 152, 159, 159, 159, 159, 159, 159, 159, 159, 159, 159,
    159, 112, 159, 159, 159, 159, 159, 159, 140, 159, 159, 159, 159, 159, 159, 133, 159, 159, 159,
    159, 159, 159, 159, 159, 72, 159, 159, 159, 159, 159, 159, 159, 81, 159, 159, 159, 159, 159,
    159, 159, 36, 159, 159, 159, 12, 159, 159, 159, 159, 159, 159, 159, 159, 159, 159, 159, 159,
    159, 84, 159, 159, 159, 159, 159, 159, 159, 159, 159, 159, 159, 159, 159, 159, 159, 159, 159,
    159, 159, 159, 159, 45, 159, 159, 159, 159, 159, 28, 157, 159, 159, 159, 159, 159, 114, 159,
    159, 159, 159, 159, 159, 159, 159, 159, 159, 57, 159, 77, 159, 159, 159,
];
