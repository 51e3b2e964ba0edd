//! The states that the tokenizer goes on in after a start tag.
ghost use Rattle.std.specs.Prelude.{◌≡◌};
ghost use Rattle.tl_dom_spec.specs.Builder.{state_inside};
ghost use Rattle.tl_html_spec.specs.HtmlTokenizer.{after_start};
ghost use Rattle.tl_html_tokens.specs.Modes.{state_of};

use crate::lowered::are_same;
use tl_html_tokens::Mode;

/// The state after a start tag of a name.
pub(crate) fn after_start(name: &[u8]) -> Mode
    ensures { state_of result ≡ after_start name.now }
{
    if are_same(name, b"title") {
        return Mode::Title;
    }
    if are_same(name, b"textarea") {
        return Mode::Textarea;
    }
    if are_same(name, b"style") {
        return Mode::Style;
    }
    if are_same(name, b"xmp") {
        return Mode::Xmp;
    }
    if are_same(name, b"iframe") {
        return Mode::Iframe;
    }
    if are_same(name, b"noembed") {
        return Mode::Noembed;
    }
    if are_same(name, b"noframes") {
        return Mode::Noframes;
    }
    if are_same(name, b"script") {
        return Mode::Script;
    }
    if are_same(name, b"plaintext") {
        return Mode::Plaintext;
    }
    Mode::Data
}

/// The state inside an element whose text has no markup.
pub(crate) fn state_inside(name: &[u8]) -> Mode
    ensures { state_of result ≡ state_inside name.now }
{
    if are_same(b"noscript", name) {
        return Mode::Noscript;
    }
    after_start(name)
}
