//! Texts, and what they say by their mode.
use std::alloc::Global;
use tl_html_parts::{CharacterData, characters};
use tl_html_tokens::Mode;

#[rattlefmt::skip]
static ROWS: [(Mode, &[u8], &[u8]); 20] = [
    (Mode::Data, b"", b""),
    (Mode::Data, b"a < b", b"a < b"),
    (Mode::Data, b"a\x00b", b"a\x00b"),
    (Mode::Data, b"a\rb\r\nc\r\r\n\n", b"a\nb\nc\n\n\n"),
    (Mode::Data, b"&lt;&amp;lt;&notit;&#0;&", b"<&lt;\xC2\xACit;\xEF\xBF\xBD&"),
    (Mode::Data, b"&\r\namp;", b"&\namp;"),
    (Mode::Data, b"</", b"</"),
    (Mode::Title, b"a\x00&lt;", b"a\xEF\xBF\xBD<"),
    (Mode::Title, b"a\x00", b"a\xEF\xBF\xBD"),
    (Mode::Title, b"&amp\x00\r", b"&\xEF\xBF\xBD\n"),
    (Mode::Textarea, b"</tit</title>&amp", b"</tit</title>&"),
    (Mode::Style, b"&lt;\x00\r\n", b"&lt;\xEF\xBF\xBD\n"),
    (Mode::Xmp, b"&lt;", b"&lt;"),
    (Mode::Script, b"<!--<script>\x00\r", b"<!--<script>\xEF\xBF\xBD\n"),
    (Mode::ScriptEscaped, b"&amp;", b"&amp;"),
    (Mode::Plaintext, b"&\x00", b"&\xEF\xBF\xBD"),
    (Mode::Noframes, b"\x00\x00", b"\xEF\xBF\xBD\xEF\xBF\xBD"),
    (Mode::Iframe, b"\r", b"\n"),
    (Mode::Noscript, b"&lt;<p>", b"&lt;<p>"),
    (Mode::ContextText, b"&lt;</title>\x00", b"<</title>\xEF\xBF\xBD"),
];

fn says(alloc: Global, mode: Mode, text: &[u8], wanted: &[u8]) -> bool {
    match characters(alloc, mode, text) {
        Ok(found) => found.as_bytes() == wanted,
        Err(_) => false,
    }
}

#[test]
fn texts_are_read(rt: HostRuntime) {
    for (mode, text, wanted) in &ROWS {
        assert!(rt; says(rt.alloc(), *mode, text, wanted), "{text:?}");
    }
}

// What stands for itself is not copied.
#[test]
fn plain_texts_are_not_copied(rt: HostRuntime) {
    let text = characters(rt.alloc(), Mode::Script, b"a && b < c");
    assert!(rt; matches!(text, Ok(CharacterData::Same(_))));
}
