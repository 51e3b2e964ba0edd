//! How a text is read: the states of rest.

/// How reading goes on at a place where nothing is begun or withheld. Texts of some elements end
/// with their own end tag alone.
#[derive(Clone, Copy)]
pub enum Mode {
    /// Markup and references are read (13.2.5.1).
    Data,
    /// In a title, references are read (13.2.5.2).
    Title,
    /// In a text area, as in a title.
    Textarea,
    /// In the text of a title or a text area that a fragment stands in: as in a title, but no end
    /// tag ends it.
    ContextText,
    /// In a style, nothing is read but its own end tag (13.2.5.3).
    Style,
    /// In an example, as in a style.
    Xmp,
    /// In a frame, as in a style.
    Iframe,
    /// In `noembed`, as in a style.
    Noembed,
    /// In `noframes`, as in a style.
    Noframes,
    /// In `noscript` where scripts run, as in a style.
    Noscript,
    /// In a script (13.2.5.4).
    Script,
    /// In a script, after `<!--` (13.2.5.20).
    ScriptEscaped,
    /// In a script, after `<!--` and a dash (13.2.5.21).
    ScriptEscapedDash,
    /// In a script, after `<!--` and two dashes (13.2.5.22).
    ScriptEscapedDashDash,
    /// Nothing is read any more (13.2.5.5).
    Plaintext,
}

ghost use Rattle.std.specs.Prelude.{◌≡◌, IfSome};
ghost use Rattle.tl_html_spec.specs.HtmlTokenizer.{raw, rawtext, rcdata};
ghost use Rattle.tl_html_tokens.specs.Modes.{mode_after, mode_inside, own_name, rawtext_mode, rcdata_mode, state_of};

impl Mode {
    /// How reading goes on after a start tag of this name, in any case: as in the state that the
    /// name sets (`laws::names_set_modes`).
    pub fn from_tag_name(name: &[u8]) -> Mode
        ensures { result ≡ mode_after name.now }
    {
        if name.eq_ignore_ascii_case(b"title") {
            Mode::Title
        } else if name.eq_ignore_ascii_case(b"textarea") {
            Mode::Textarea
        } else if name.eq_ignore_ascii_case(b"style") {
            Mode::Style
        } else if name.eq_ignore_ascii_case(b"xmp") {
            Mode::Xmp
        } else if name.eq_ignore_ascii_case(b"iframe") {
            Mode::Iframe
        } else if name.eq_ignore_ascii_case(b"noembed") {
            Mode::Noembed
        } else if name.eq_ignore_ascii_case(b"noframes") {
            Mode::Noframes
        } else if name.eq_ignore_ascii_case(b"script") {
            Mode::Script
        } else if name.eq_ignore_ascii_case(b"plaintext") {
            Mode::Plaintext
        } else {
            Mode::Data
        }
    }

    /// The same in an element whose text is raw, `noscript` too, as where scripts run: as in the
    /// state that the name sets there (`laws::raw_texts_set_modes`).
    pub fn from_raw_name(name: &[u8]) -> Mode
        ensures { result ≡ mode_inside name.now }
    {
        if name.eq_ignore_ascii_case(b"noscript") {
            Mode::Noscript
        } else {
            Mode::from_tag_name(name)
        }
    }

    /// How a text with references is read that the end tag of this name ends, or none where the
    /// name is empty: in a fragment that stands in such a text (13.2.5.2).
    #[tactic(auto, using(crate::proofs::Steps::rcdata_state))]
    pub fn from_rcdata_name(name: &[u8]) -> Option<Mode>
        ensures mode { result ≡ rcdata_mode name.now }
        ensures state { IfSome result (λ mode. state_of mode ≡ raw (rcdata name.now)) }
    {
        if name == b"title".as_slice() {
            Some(Mode::Title)
        } else if name == b"textarea".as_slice() {
            Some(Mode::Textarea)
        } else if name == b"".as_slice() {
            Some(Mode::ContextText)
        } else {
            None
        }
    }

    /// How a text without references is read that the end tag of this name ends (13.2.5.3).
    #[tactic(auto, using(crate::proofs::Steps::rawtext_state))]
    pub fn from_rawtext_name(name: &[u8]) -> Option<Mode>
        ensures mode { result ≡ rawtext_mode name.now }
        ensures state { IfSome result (λ mode. state_of mode ≡ raw (rawtext name.now)) }
    {
        if name == b"style".as_slice() {
            Some(Mode::Style)
        } else if name == b"xmp".as_slice() {
            Some(Mode::Xmp)
        } else if name == b"iframe".as_slice() {
            Some(Mode::Iframe)
        } else if name == b"noembed".as_slice() {
            Some(Mode::Noembed)
        } else if name == b"noframes".as_slice() {
            Some(Mode::Noframes)
        } else if name == b"noscript".as_slice() {
            Some(Mode::Noscript)
        } else {
            None
        }
    }

    // The name of the end tag that ends such a text.
    pub(crate) fn own_name(self) -> &'static [u8]
        ensures { result.now ≡ own_name self }
    {
        match self {
            Mode::Data | Mode::ContextText | Mode::Plaintext => b"",
            Mode::Title => b"title",
            Mode::Textarea => b"textarea",
            Mode::Style => b"style",
            Mode::Xmp => b"xmp",
            Mode::Iframe => b"iframe",
            Mode::Noembed => b"noembed",
            Mode::Noframes => b"noframes",
            Mode::Noscript => b"noscript",
            Mode::Script
            | Mode::ScriptEscaped
            | Mode::ScriptEscapedDash
            | Mode::ScriptEscapedDashDash => b"script",
        }
    }
}
