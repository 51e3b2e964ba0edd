//! Laws: what the lists are, name by name, as the sections of the standard have them.
#![tactic(auto)]

ghost use Rattle.std.specs.Prelude.{◌≡◌, ◌++◌, List, false, map, nat_eq, true, ℕ};
ghost use Rattle.std.specs.Str.{bytes_eq};
ghost use Rattle.tl_names.specs.ElementNames.{bytes_of, element_names, name_of, number_of};
ghost use Rattle.tl_names.specs.Elements.{closed_at_once, feed_droppers, head_parts, headings, implied_ends, list_scope_bounds, paragraph_ends, rawtext_names, rcdata_names, scope_bounds, scoped_ends, special_names, table_parts, table_scope_bounds, table_sections, is_among, words};
ghost use Rattle.tl_names.specs.NamedElements.{named_elements};
ghost use Rattle.tl_names.specs.TagSets.{heading_words, implied_words, is_of, names_in, raw_text_words, rcdata_words, special_words, table_part_words, table_scope_words, table_section_words};
ghost use Rattle.tl_names.specs.declared.class.Class.{Class};
ghost use Rattle.tl_names.specs.declared.element_name.TheConstants.ElementName.{OTHER};

/// What holds no markup: the sections of the tokenizer on RCDATA (2 names) and raw text (5).
pub fn raw_texts()
    ensures rcdata { rcdata_names ≡ words "title textarea" }
    ensures rawtext { rawtext_names ≡ words "style xmp iframe noembed noframes" }
{}

/// The special elements (13.2.4.2): 83 names.
pub fn special()
    ensures special { special_names ≡
        words "address applet area article aside base basefont bgsound blockquote body br"
        ++ words "button caption center col colgroup dd details dir div dl dt embed fieldset"
        ++ words "figcaption figure footer form frame frameset h1 h2 h3 h4 h5 h6 head header"
        ++ words "hgroup hr html iframe img input keygen li link listing main marquee menu meta"
        ++ words "nav noembed noframes noscript object ol p param plaintext pre script search"
        ++ words "section select source style summary table tbody td template textarea tfoot th"
        ++ words "thead title tr track ul wbr xmp" }
{}

/// What bounds a scope (13.2.4.2): 9 names of HTML, and `svg` and `math` for what is in them; 2
/// more for list items; 3 for tables.
pub fn scopes()
    ensures scope { scope_bounds ≡
        words "applet caption html table td th marquee object template svg math" }
    ensures list_scope { list_scope_bounds ≡ words "ol ul" }
    ensures table_scope { table_scope_bounds ≡ words "html table template" }
{}

/// Whose end tags are generated (13.2.6.3): 10 names; whose end tags look for their start tag in
/// its scope (13.2.6.4.7): 33.
pub fn end_tags()
    ensures implied { implied_ends ≡ words "dd dt li optgroup option p rb rp rt rtc" }
    ensures scoped { scoped_ends ≡
        words "address article aside blockquote button center dd dt details dialog dir div dl"
        ++ words "fieldset figcaption figure footer header hgroup listing main menu nav ol pre"
        ++ words "search section summary ul form applet marquee object" }
{}

/// Whose start tags end a paragraph (13.2.6.4.7): 41 names, 6 of them headings.
pub fn paragraphs()
    ensures paragraph { paragraph_ends ≡
        words "address article aside blockquote center details dialog dir div dl fieldset"
        ++ words "figcaption figure footer header hgroup main menu nav ol p search section"
        ++ words "summary ul pre listing form li dd dt plaintext xmp table hr h1 h2 h3 h4 h5 h6" }
    ensures headings { headings ≡ words "h1 h2 h3 h4 h5 h6" }
{}

/// What rows stand in (13.2.6.4.13): 3 names; what stands in a table alone (13.2.6.4.7): 9.
pub fn tables()
    ensures sections { table_sections ≡ words "tbody thead tfoot" }
    ensures parts { table_parts ≡ words "tbody thead tfoot tr td th caption col colgroup" }
{}

/// What may stand in a head (13.2.6.4.4): 11 names; after whose start tags a line feed is dropped
/// (13.2.6.4.7): 3; what is put in and closed at once, beside the void elements (13.2.6.4.4, .7,
/// .20): 3.
pub fn heads()
    ensures head { head_parts ≡
        words "base basefont bgsound link meta title noscript noframes style script template" }
    ensures feed { feed_droppers ≡ words "pre listing textarea" }
    ensures closed { closed_at_once ≡ words "frame basefont bgsound" }
{}

/// Names that a rule speaks of: 159, in the order of their bytes. Each constant is the number of
/// its name.
pub fn names()
    ensures names { element_names ≡
        words "a address altglyph altglyphdef altglyphitem animatecolor animatemotion"
        ++ words "animatetransform annotation-xml applet area article aside b base basefont"
        ++ words "bgsound big blockquote body br button caption center clippath code col"
        ++ words "colgroup dd desc details dialog dir div dl dt em embed feblend fecolormatrix"
        ++ words "fecomponenttransfer fecomposite feconvolvematrix fediffuselighting"
        ++ words "fedisplacementmap fedistantlight fedropshadow feflood fefunca fefuncb"
        ++ words "fefuncg fefuncr fegaussianblur feimage femerge femergenode femorphology"
        ++ words "feoffset fepointlight fespecularlighting fespotlight fetile feturbulence"
        ++ words "fieldset figcaption figure font footer foreignObject foreignobject form"
        ++ words "frame frameset glyphref h1 h2 h3 h4 h5 h6 head header hgroup hr html i"
        ++ words "iframe image img input keygen li lineargradient link listing main malignmark"
        ++ words "marquee math menu meta mglyph mi mn mo ms mtext nav nobr noembed noframes"
        ++ words "noscript object ol optgroup option p param plaintext pre radialgradient rb"
        ++ words "rp rt rtc ruby s script search section select small source span strike"
        ++ words "strong style sub summary sup svg table tbody td template textarea textpath"
        ++ words "tfoot th thead title tr track tt u ul var wbr xmp" }
    ensures constants { map (λ row. name_of row.0) named_elements
        ≡ map (λ row. row.1) named_elements }
{}

/// What a number tells: which name it is, and whether that is of a class. All other names have one
/// number, and are of no class.
pub fn numbers()
    ensures name { (n : List ℕ) → is_among element_names n ≡ true → bytes_of (name_of n) ≡ n }
    ensures other { (n : List ℕ) → is_among element_names n ≡ false → name_of n ≡ OTHER }
    ensures same { (own n : List ℕ) → is_among element_names own ≡ true →
        nat_eq (number_of (name_of n)) (number_of (name_of own)) ≡ bytes_eq own n }
    ensures class { (class : Class) (n : List ℕ) →
        is_of class (name_of n) ≡ is_among (names_in class) n }
{}

/// Classes that have a list in `elements` too: they are the same.
pub fn classes()
    ensures special { special_words ≡ special_names }
    ensures table_scope { table_scope_words ≡ table_scope_bounds }
    ensures implied { implied_words ≡ implied_ends }
    ensures heading { heading_words ≡ headings }
    ensures rcdata { rcdata_words ≡ rcdata_names }
    ensures raw_text { raw_text_words ≡ rawtext_names }
    ensures table_section { table_section_words ≡ table_sections }
    ensures table_part { table_part_words ≡ table_parts }
{}
