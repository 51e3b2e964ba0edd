//! Pages, and where each of their tokens ends and what it is.
use std::alloc::Global;
use tl_html_tokens::{Mode, Token, TokenKind, next_section, next_token, tokens};

// A page, the kinds of its tokens by their letters, and where they end.
#[rattlefmt::skip]
static ROWS: [(&[u8], &[u8], &[usize]); 62] = [
    (b"", b"", &[]),
    (b"\xEF\xBB\xBF", b"", &[]),
    (b"\xEF\xBB\xBF<p>x", b"st", &[6, 7]),
    (b"a", b"t", &[1]),
    (b"a < b & c &amp; d &#65; e", b"t", &[25]),
    (b"<p>a</p>", b"ste", &[3, 4, 8]),
    (b"a</>b", b"tnt", &[1, 4, 5]),
    (b"<", b"t", &[1]),
    (b"</", b"t", &[2]),
    (b"</p", b"n", &[3]),
    (b"<p", b"n", &[2]),
    (b"<p a='>'>b", b"st", &[9, 10]),
    (b"<p a=\">&quot;>\" b>c", b"st", &[18, 19]),
    (b"<p a=b/>c", b"st", &[8, 9]),
    (b"<p/ a>b", b"st", &[6, 7]),
    (b"<p a = b c>d", b"st", &[11, 12]),
    (b"<p a==b>c", b"st", &[8, 9]),
    (b"<P CLASS=x>y</P >z", b"stet", &[11, 12, 17, 18]),
    (b"<a&b>c", b"st", &[5, 6]),
    (b"<!-- a -->b", b"ct", &[10, 11]),
    (b"<!-->b", b"ct", &[5, 6]),
    (b"<!--->b", b"ct", &[6, 7]),
    (b"<!-- a --!>b", b"ct", &[11, 12]),
    (b"<!-- a -- > b", b"c", &[13]),
    (b"<!-- <!-- a --> b", b"ct", &[15, 17]),
    (b"<!x>a", b"ct", &[4, 5]),
    (b"<?x>a", b"ct", &[4, 5]),
    (b"<!>a", b"ct", &[3, 4]),
    (b"<!doctype html>a", b"dt", &[15, 16]),
    (b"<!DocType>a", b"dt", &[10, 11]),
    (b"<!doctyp>a", b"ct", &[9, 10]),
    (b"<!-a>b", b"ct", &[5, 6]),
    (b"</ p>a", b"ct", &[5, 6]),
    (b"<![CDATA[a]]>b", b"ct", &[13, 14]),
    (b"<title>a<b>&lt;</TITLE>c", b"stet", &[7, 15, 23, 24]),
    (b"<textarea></p></textarea x>b", b"stet", &[10, 14, 27, 28]),
    (b"<style><p></style>a", b"stet", &[7, 10, 18, 19]),
    (b"<style></styles></style/>a", b"stet", &[7, 16, 25, 26]),
    (b"<script>a<b</script>c", b"stet", &[8, 11, 20, 21]),
    (b"<script><!-- <script> </script> --> </script>a", b"stet", &[8, 36, 45, 46]),
    (b"<script><!--<script></script></script>a", b"stet", &[8, 29, 38, 39]),
    (b"<script><!--a--></script>b", b"stet", &[8, 16, 25, 26]),
    (b"<script><!-- --><p></script>", b"ste", &[8, 19, 28]),
    (b"<plaintext></plaintext>a", b"st", &[11, 24]),
    (b"<xmp><p></xmp>a", b"stet", &[5, 8, 14, 15]),
    (b"<noscript><p></noscript>", b"sse", &[10, 13, 24]),
    (b"a\r\nb<p\r\nc>\r", b"tst", &[4, 10, 11]),
    (b"a\x00b<p\x00>", b"ts", &[3, 7]),
    (b"&", b"t", &[1]),
    (b"&#", b"t", &[2]),
    (b"&#x", b"t", &[3]),
    (b"&amp", b"t", &[4]),
    (b"&am<p>", b"ts", &[3, 6]),
    (b"<p a=&amp>b", b"st", &[10, 11]),
    (b"<p a='&#65'>b", b"st", &[12, 13]),
    (b"<script><!--<script ", b"st", &[8, 20]),
    (b"<title>&amp", b"st", &[7, 11]),
    (b"<!--", b"c", &[4]),
    (b"<!doctype", b"d", &[9]),
    (b"<p a=\"", b"n", &[6]),
    (b"<iframe><iframe></iframe>", b"ste", &[8, 16, 25]),
    (b"\xC3\xA9<b>\xE2\x82\xAC", b"tst", &[2, 5, 8]),
];

fn letter(kind: TokenKind) -> u8 {
    match kind {
        TokenKind::Text => b't',
        TokenKind::StartTag => b's',
        TokenKind::EndTag => b'e',
        TokenKind::Comment => b'c',
        TokenKind::Doctype => b'd',
        TokenKind::Nothing => b'n',
    }
}

// Whether tokens are those of a row, each beginning where the one before it ends.
fn are(tokens: &[Token], kinds: &[u8], ends: &[usize]) -> bool {
    if tokens.len() != ends.len() {
        return false;
    }
    for ((token, kind), end) in tokens.iter().zip(kinds).zip(ends) {
        if letter(token.kind) != *kind || token.end != *end || token.start >= token.end {
            return false;
        }
    }
    true
}

fn is_read(alloc: Global, page: &[u8], kinds: &[u8], ends: &[usize]) -> bool {
    match tokens(alloc, page) {
        Ok(found) => are(&found, kinds, ends),
        Err(_) => false,
    }
}

#[test]
fn pages_are_read(rt: HostRuntime) {
    for (page, kinds, ends) in &ROWS {
        assert!(rt; is_read(rt.alloc(), page, kinds, ends));
    }
}

// A mode, a page, a place, and where the token ends that stands there: 0 where there is none.
#[rattlefmt::skip]
static FRONT_ROWS: [(Mode, &[u8], usize, usize); 7] = [
    (Mode::Data, b"a<p x=1>b", 0, 1),
    (Mode::Data, b"a<p x=1>b", 1, 8),
    (Mode::Data, b"a<p x=1>b", 8, 9),
    (Mode::Data, b"a<p x=1>b", 9, 0),
    (Mode::Data, b"", 0, 0),
    (Mode::Noscript, b"a</NOSCRIPT >b", 1, 13),
    (Mode::ContextText, b"a", 0, 1),
];

fn front_end(mode: Mode, page: &[u8], start: usize) -> usize {
    match next_token(page, start, mode) {
        Some(front) => front.end,
        None => 0,
    }
}

#[test]
fn a_token_ends_where_the_next_begins(rt: HostRuntime) {
    for (mode, page, start, end) in &FRONT_ROWS {
        assert!(rt; front_end(*mode, page, *start) == *end);
    }
}

// A page, and where the text of the CDATA section at its front ends, and the section: both 0 where
// there is none.
#[rattlefmt::skip]
static SECTION_ROWS: [(&[u8], usize, usize); 5] = [
    (b"<![CDATA[a]]>b", 10, 13),
    (b"<![CDATA[]]]>b", 10, 13),
    (b"<![CDATA[a]]", 12, 12),
    (b"<![cdata[a]]>", 0, 0),
    (b"", 0, 0),
];

fn section_ends(page: &[u8]) -> (usize, usize) {
    match next_section(page, 0) {
        Some(section) => (section.text_end, section.end),
        None => (0, 0),
    }
}

#[test]
fn a_section_ends_at_its_brackets(rt: HostRuntime) {
    for (page, text_end, end) in &SECTION_ROWS {
        let ends = section_ends(page);
        assert!(rt; ends.0 == *text_end);
        assert!(rt; ends.1 == *end);
    }
}
