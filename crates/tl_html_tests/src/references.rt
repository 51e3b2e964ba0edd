//! Texts and values, and the characters that they say.

use crate::answers::is_written;
use tl_text::{unescape_text, unescape_value};

// A text or a value, and what it says as a text, and as a value.
#[rattlefmt::skip]
static SAID_ROWS: [(&[u8], &[u8], &[u8]); 30] = [
    (b"", b"", b""),
    (b"no reference", b"no reference", b"no reference"),
    (b"a &amp; b &lt;&gt; &quot;&nbsp;", b"a & b <> \"\xC2\xA0", b"a & b <> \"\xC2\xA0"),
    // the standard's own examples
    (b"I'm &notit; I tell you", b"I'm \xC2\xACit; I tell you", b"I'm &notit; I tell you"),
    (b"I'm &notin; I tell you", b"I'm \xE2\x88\x89 I tell you", b"I'm \xE2\x88\x89 I tell you"),
    (b"?a=b&copy=1", b"?a=b\xC2\xA9=1", b"?a=b&copy=1"),
    (b"&lt=1", b"<=1", b"&lt=1"),
    (b"&lt 1", b"< 1", b"< 1"),
    (b"&copy", b"\xC2\xA9", b"\xC2\xA9"),
    (b"&copy;", b"\xC2\xA9", b"\xC2\xA9"),
    (b"&am", b"&am", b"&am"),
    (b"&ampamp;", b"&amp;", b"&ampamp;"),
    (b"&amp;amp;", b"&amp;", b"&amp;"),
    (b"&&amp;&", b"&&&", b"&&&"),
    (b"&xyz;&;", b"&xyz;&;", b"&xyz;&;"),
    (b"&CounterClockwiseContourIntegral;", b"\xE2\x88\xB3", b"\xE2\x88\xB3"),
    (b"&nGg;", b"\xE2\x8B\x99\xCC\xB8", b"\xE2\x8B\x99\xCC\xB8"),
    (b"&zwnj;&ZHcy;", b"\xE2\x80\x8C\xD0\x96", b"\xE2\x80\x8C\xD0\x96"),
    (b"&#65;&#66&#x41;&#X6a", b"ABAj", b"ABAj"),
    (b"&#65=", b"A=", b"A="),
    (b"&#128;&#x9F;", b"\xE2\x82\xAC\xC5\xB8", b"\xE2\x82\xAC\xC5\xB8"),
    (b"&#129;", b"\xC2\x81", b"\xC2\x81"),
    (b"&#0;", b"\xEF\xBF\xBD", b"\xEF\xBF\xBD"),
    (b"&#xD800;&#xDFFF;", b"\xEF\xBF\xBD\xEF\xBF\xBD", b"\xEF\xBF\xBD\xEF\xBF\xBD"),
    (b"&#1114111;&#1114112;", b"\xF4\x8F\xBF\xBF\xEF\xBF\xBD", b"\xF4\x8F\xBF\xBF\xEF\xBF\xBD"),
    (b"&#100000000000000000000000000065;", b"\xEF\xBF\xBD", b"\xEF\xBF\xBD"),
    (b"&#000000000000000000000000000065;", b"A", b"A"),
    (b"&#;&#x;&#g&#xg", b"&#;&#x;&#g&#xg", b"&#;&#x;&#g&#xg"),
    (b"\xFF&eacute;\x80\0", b"\xFF\xC3\xA9\x80\0", b"\xFF\xC3\xA9\x80\0"),
    (b"&#13;\r\n", b"\r\r\n", b"\r\r\n"),
];

#[test]
fn references_are_read(rt: HostRuntime) {
    for (source, text, value) in &SAID_ROWS {
        assert!(rt; is_written(unescape_text(rt.alloc(), source), text));
        assert!(rt; is_written(unescape_value(rt.alloc(), source), value));
    }
}
