//! Byte searches: known answers, and each search against its plain form at every length up to some
//! blocks.
use tl_base::simd::{
    fallback, find, find_multi, find4, is_closing, matches_case_insensitive, search_non_ident,
    search_non_name,
};
use tl_bytes::ascii_case::is_among_in_any_case;
use tl_lexer::runs::{bare_len, blank_len, ident_len, len_until, name_len};

// A search, and what it looks for.
enum Search {
    Find(u8),
    Find4([u8; 4]),
    FindOne([u8; 1]),
    FindNone([u8; 0]),
    NonIdent,
    NonName,
}

fn answer(search: &Search, text: &[u8]) -> Option<usize> {
    match search {
        Search::Find(needle) => find(text, *needle),
        Search::Find4(needle) => find4(text, *needle),
        Search::FindOne(needle) => find_multi(text, *needle),
        Search::FindNone(needle) => find_multi(text, *needle),
        Search::NonIdent => search_non_ident(text),
        Search::NonName => search_non_name(text),
    }
}

#[rattlefmt::skip]
static SEARCHES: [(Search, &str, Option<usize>); 24] = [
    (Search::Find(b' '), "abcdefghiabcdefghi .", Some(18)),
    (Search::Find(b' '), "", None),
    (Search::Find4(*b"abcd"), "ef ghijklmnopqrstua", Some(18)),
    (Search::Find4(*b"abcd"), "ef ghijklmnopqrstu", None),
    (Search::Find4(*b"abcd"), "xxxxxxxxxxxxxxxxxxxxxxxxxxxxxxxxb", Some(32)),
    (Search::Find4(*b"abcd"), "xxxxxxxxxxxxxxxxxxxxxxxxxxxxxxxx", None),
    (Search::Find4(*b"aaaa"), "xxxxxxxxxxxxxxxxa", Some(16)),
    (Search::FindOne(*b"a"), "ef ghijklmnopqrstua", Some(18)),
    (Search::FindNone([]), "ef ghijklmnopqrstua", None),
    (Search::NonIdent, "this-is-a-very-long-identifier<", Some(30)),
    (Search::NonIdent, "0123456789Abcdef_-<", Some(18)),
    (Search::NonIdent, "short", None),
    (Search::NonIdent, "0123456789abcdefghijklmnopqrstuvwxyzABCDEFGHIJKLMNOPQRSTUVWXYZ-_", None),
    (Search::NonIdent, "0123456789abcdefghijklmnopqrstuvwxyzABCDEFGHIJKLMNOPQRSTUVWXYZ-_<", Some(64)),
    (Search::NonIdent, "0123456789ab<def", Some(12)),
    (Search::NonIdent, "a:b+c/d", None),
    (Search::NonIdent, ":::::::::::::::::::::::::::::::\u{80}", Some(31)),
    (Search::NonIdent, "+/+/+/+/+/+/+/+/+/+/+/+/+/+/+/+/+/+/+/+/+/+/+/+/", None),
    (Search::NonIdent, "br/", None),
    (Search::NonName, "br/", Some(2)),
    (Search::NonName, "0123456789abcdefghijklmnopqrstuvwxyzABCDEFGHIJKLMNOPQRSTUVWXYZ-_", None),
    (Search::NonName, "0123456789abcdefghijklmnopqrstuvwxyzABCDEFGHIJKLMNOPQRSTUVWXYZ-_/", Some(64)),
    (Search::NonName, "a:b+c/d", Some(5)),
    (Search::NonName, "/", Some(0)),
];

#[test]
fn finds_the_first(rt: HostRuntime) {
    for (at, (search, text, wanted)) in SEARCHES.iter().enumerate() {
        assert!(rt;
            answer(search, text.as_bytes()) == *wanted,
            "row {at}: in {text}"
        );
    }
}

#[rattlefmt::skip]
static IN_LOWER_CASE: [(&str, [u8; 4], bool); 4] = [
    ("hTmL", *b"html", true),
    ("hTmLs", *b"html", false),
    ("/Tmy", *b"html", false),
    ("html", *b"HTML", false),
];

#[rattlefmt::skip]
static CLOSING: [(u8, bool); 3] = [(b'/', true), (b'>', true), (b'<', false)];

#[test]
fn tells_words_and_closing_bytes(rt: HostRuntime) {
    for (text, needle, wanted) in &IN_LOWER_CASE {
        assert!(rt;
            matches_case_insensitive(text.as_bytes(), *needle) == *wanted,
            "{text}"
        );
    }
    for (byte, wanted) in &CLOSING {
        assert!(rt; is_closing(*byte) == *wanted, "{byte}");
    }
}

static NAMES: [&str; 2] = ["script", "sTyle"];

static AMONG_NAMES: [(&str, bool); 6] = [
    ("script", true),
    ("StYLE", true),
    ("scripts", false),
    ("scrip", false),
    ("scr\u{131}pt", false),
    ("", false),
];

#[test]
fn tells_names_in_any_case(rt: HostRuntime) {
    for (name, wanted) in &AMONG_NAMES {
        assert!(rt;
            is_among_in_any_case(&NAMES, name.as_bytes()) == *wanted,
            "{name}"
        );
    }
}

// How many bytes lie before and after the hit.
const REACH: usize = 65;

// Bytes of a name with one hit in the middle.
const LINE: &[u8] =
    b"aaaaaaaaaaaaaaaaaaaaaaaaaaaaaaaaaaaaaaaaaaaaaaaaaaaaaaaaaaaaaaaaa<aaaaaaaaaaaaaaaaaaaaaaaaaaaaaaaaaaaaaaaaaaaaaaaaaaaaaaaaaaaaaaaaa";

// Whether each search and its plain form find the hit there.
fn agree(text: &[u8], hit: Option<usize>) -> bool {
    find(text, b'<') == hit
        && fallback::find(text, b'<') == hit
        && find4(text, *b"<>/ ") == hit
        && find4(text, *b" >/<") == hit
        && fallback::find_multi(text, *b"<>/ ") == hit
        && fallback::find_multi(text, *b" >/<") == hit
        && search_non_ident(text) == hit
        && fallback::search_non_ident(text) == hit
        && search_non_name(text) == hit
        && fallback::search_non_name(text) == hit
}

#[test]
fn agrees_with_the_plain_form(rt: HostRuntime) {
    for len in 0..REACH + 1 {
        assert!(rt; agree(&LINE[..len], None), "{len} bytes");
        for at in 0..len {
            let start = REACH - at;
            assert!(rt; agree(&LINE[start..start + len], Some(at)), "{at} of {len}");
        }
    }
}

// A run, and what ends it.
enum Run {
    Blank,
    Ident,
    Name,
    Bare,
    Until(u8),
}

fn run_len(run: &Run, text: &[u8]) -> usize {
    match run {
        Run::Blank => blank_len(text),
        Run::Ident => ident_len(text),
        Run::Name => name_len(text),
        Run::Bare => bare_len(text),
        Run::Until(byte) => len_until(text, *byte),
    }
}

#[rattlefmt::skip]
static RUNS: [(Run, &str, usize); 12] = [
    (Run::Blank, " \n a", 3),
    (Run::Blank, "\ta", 0),
    (Run::Ident, "a-1 b", 3),
    (Run::Ident, "a", 1),
    (Run::Ident, "a/b c", 3),
    (Run::Name, "a-1/b", 3),
    (Run::Name, "a", 1),
    (Run::Bare, "x\ty/z", 3),
    (Run::Bare, "xy", 2),
    (Run::Until(b'<'), "ab<c", 2),
    (Run::Until(b'<'), "<c", 0),
    (Run::Until(b'<'), "ab", 2),
];

#[test]
fn measures_runs(rt: HostRuntime) {
    for (run, text, wanted) in &RUNS {
        assert!(rt; run_len(run, text.as_bytes()) == *wanted, "in {text}");
    }
}
