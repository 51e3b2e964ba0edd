//! Lists of names of elements.

/// What holds characters and references up to its own end tag (13.2.5.2).
pub static RCDATA_NAMES: [&str; 2] = ["title", "textarea"];

/// What holds characters alone up to its own end tag (13.2.5.3).
pub static RAWTEXT_NAMES: [&str; 5] = ["style", "xmp", "iframe", "noembed", "noframes"];

/// The special elements (13.2.4.2).
#[rattlefmt::skip]
pub static SPECIAL_NAMES: [&str; 83] = [
    "address", "applet", "area", "article", "aside", "base", "basefont", "bgsound",
    "blockquote", "body", "br", "button", "caption", "center", "col", "colgroup", "dd",
    "details", "dir", "div", "dl", "dt", "embed", "fieldset", "figcaption", "figure", "footer",
    "form", "frame", "frameset", "h1", "h2", "h3", "h4", "h5", "h6", "head", "header", "hgroup",
    "hr", "html", "iframe", "img", "input", "keygen", "li", "link", "listing", "main",
    "marquee", "menu", "meta", "nav", "noembed", "noframes", "noscript", "object", "ol", "p",
    "param", "plaintext", "pre", "script", "search", "section", "select", "source", "style",
    "summary", "table", "tbody", "td", "template", "textarea", "tfoot", "th", "thead", "title",
    "tr", "track", "ul", "wbr", "xmp",
];

/// What bounds a scope (13.2.4.2), where `svg` and `math` stand for what is in them.
#[rattlefmt::skip]
pub static SCOPE_BOUNDS: [&str; 11] = [
    "applet", "caption", "html", "table", "td", "th", "marquee", "object", "template", "svg",
    "math",
];

/// What bounds a scope of list items beside those (13.2.4.2).
pub static LIST_SCOPE_BOUNDS: [&str; 2] = ["ol", "ul"];

/// What bounds a scope of a table (13.2.4.2).
pub static TABLE_SCOPE_BOUNDS: [&str; 3] = ["html", "table", "template"];

/// Whose end tags are generated (13.2.6.3).
#[rattlefmt::skip]
pub static IMPLIED_ENDS: [&str; 10] = [
    "dd", "dt", "li", "optgroup", "option", "p", "rb", "rp", "rt", "rtc",
];

/// Headings.
pub static HEADINGS: [&str; 6] = ["h1", "h2", "h3", "h4", "h5", "h6"];

/// What rows of a table stand in.
pub static TABLE_SECTIONS: [&str; 3] = ["tbody", "thead", "tfoot"];

/// What stands in a table alone.
#[rattlefmt::skip]
pub static TABLE_PARTS: [&str; 9] = [
    "tbody", "thead", "tfoot", "tr", "td", "th", "caption", "col", "colgroup",
];

/// Whose start tags end a paragraph (13.2.6.4.7).
#[rattlefmt::skip]
pub static PARAGRAPH_ENDS: [&str; 41] = [
    "address", "article", "aside", "blockquote", "center", "details", "dialog", "dir", "div",
    "dl", "fieldset", "figcaption", "figure", "footer", "header", "hgroup", "main", "menu",
    "nav", "ol", "p", "search", "section", "summary", "ul", "pre", "listing", "form", "li",
    "dd", "dt", "plaintext", "xmp", "table", "hr", "h1", "h2", "h3", "h4", "h5", "h6",
];

/// Whose end tags look for their start tag in its scope (13.2.6.4.7).
#[rattlefmt::skip]
pub static SCOPED_ENDS: [&str; 33] = [
    "address", "article", "aside", "blockquote", "button", "center", "dd", "dt", "details",
    "dialog", "dir", "div", "dl", "fieldset", "figcaption", "figure", "footer", "header",
    "hgroup", "listing", "main", "menu", "nav", "ol", "pre", "search", "section", "summary",
    "ul", "form", "applet", "marquee", "object",
];

/// What may stand in a head (13.2.6.4.4).
#[rattlefmt::skip]
pub static HEAD_PARTS: [&str; 11] = [
    "base", "basefont", "bgsound", "link", "meta", "title", "noscript", "noframes", "style",
    "script", "template",
];

/// After whose start tags a line feed is dropped (13.2.6.4.7).
pub static FEED_DROPPERS: [&str; 3] = ["pre", "listing", "textarea"];

/// What is put in and closed at once, beside the void elements (13.2.6.4.4, .7, .20).
pub static CLOSED_AT_ONCE: [&str; 3] = ["frame", "basefont", "bgsound"];
