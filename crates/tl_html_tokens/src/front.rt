//! The piece of a page that stands at a place.
ghost use Rattle.std.specs.Prelude.{◌≡◌, ◌<◌, ◌≤◌, ◌^◌, length};

use crate::attributes::attributes_in_front;
use crate::byte_class::feed;
use crate::first::first;
use crate::mode::Mode;
use crate::quiet::quiet_len;
use crate::run::{plain_len, reads_plain};
use crate::stage::{Stage, Tag, TokenKind, Turn};
use crate::tag::{kind, named_tag};
use crate::turn::{between, turn};

/// What stands in front at a place of a page: what it is, where it ends, and how reading goes on
/// there, after a start tag by its name.
#[derive(Clone, Copy)]
pub struct Front {
    pub kind: TokenKind,
    pub end: usize,
    pub mode: Mode,
}

// How far reading has come in a piece: a word that is read begins at `word`.
#[derive(Clone, Copy)]
struct Scan {
    stage: Stage,
    after_return: bool,
    word: usize,
}

// What a byte does: the piece goes on with it, or ends before it.
#[derive(Clone, Copy)]
enum Scanned {
    On(Scan),
    Before(TokenKind, Mode),
}

ghost use Rattle.tl_html_tokens.specs.Inner.Scans as scans;

fn first_scan(page: &[u8], start: usize, mode: Mode) -> Scan
    requires { start < length page.now }
    ensures { result ≡ scans.first_scan page.now start mode }
{
    let byte = page[start];
    Scan {
        stage: first(mode, feed(byte)),
        after_return: byte == b'\r',
        word: start + 1,
    }
}

fn next_scan(scan: Scan, page: &[u8], at: usize) -> Scanned
    requires order { scan.word ≤ at }
    requires within { at < length page.now }
    ensures { result ≡ scans.next_scan scan page.now at }
{
    if let Stage::Whole(kind, mode) = scan.stage
        && !scan.after_return
    {
        return Scanned::Before(kind, mode);
    }
    let byte = page[at];
    let after_return = byte == b'\r';
    if scan.after_return && byte == b'\n' {
        return Scanned::On(Scan {
            stage: scan.stage,
            after_return,
            word: at + 1,
        });
    }
    match turn(scan.stage, page, scan.word, at) {
        Turn::Goes(stage) => {
            let word = if stage.has_word() { scan.word } else { at + 1 };
            Scanned::On(Scan {
                stage,
                after_return,
                word,
            })
        }
        Turn::Ends(kind, mode) => Scanned::Before(kind, mode),
    }
}

ghost use Rattle.std.specs.Prelude.{◌+◌};
ghost use Rattle.tl_html_tokens.specs.Inner.Quiet.{skip_quiet};

// The same after bytes that leave the stage as it is.
fn skip_quiet(scan: Scan, at: usize, len: usize) -> Scan
    requires { at + len < 2 ^ 63 }
    ensures { result ≡ skip_quiet scan at len }
{
    if len == 0 {
        return scan;
    }
    let word = if scan.stage.has_word() {
        scan.word
    } else {
        at + len
    };
    Scan {
        stage: scan.stage,
        after_return: false,
        word,
    }
}

ghost use Rattle.std.specs.Prelude.{◌-◌, Some, drop, false, take};
ghost use Rattle.tl_html_tokens.specs.Inner.Stages.{has_word};
ghost use Rattle.tl_html_tokens.specs.Inner.Through.{through};
ghost use Rattle.tl_html_tokens.specs.declared.stage.Stage.TheVariants.{BeforeKey};

// Past the attributes that are read at once, where the next key of a tag is awaited.
fn pass_attributes(tag: Tag, page: &[u8], at: usize) -> Scan
    requires { at ≤ length page.now }
    ensures through { through (BeforeKey tag) (take (result.word - at) (drop at page.now))
        ≡ Some result.stage }
    ensures wordless { has_word result.stage ≡ false }
    ensures returned { result.after_return ≡ false }
    ensures order { at ≤ result.word }
    ensures within { result.word ≤ length page.now }
{
    let passage = attributes_in_front(tag, &page[at..]);
    Scan {
        stage: passage.stage,
        after_return: false,
        word: at + passage.len,
    }
}

// How far a piece is read.
#[derive(Clone, Copy)]
struct Begun {
    scan: Scan,
    at: usize,
}

ghost use Rattle.tl_html_tokens.specs.Inner.Scanned.{scanned};
ghost use Rattle.tl_html_tokens.specs.declared.front.Scanned.TheVariants.{On};

// Past the first byte of a piece, and up to the first letter of the name of a tag.
fn begin(page: &[u8], start: usize, mode: Mode) -> Begun
    requires { start < length page.now }
    ensures read { scanned (result.at - (start + 1)) page.now (start + 1)
        (scans.first_scan page.now start mode) ≡ On result.scan }
    ensures order { start < result.at }
    ensures within { result.at ≤ length page.now }
{
    let scan = first_scan(page, start, mode);
    let at = start + 1;
    let Mode::Data = mode else {
        return Begun { scan, at };
    };
    if page[start] != b'<' || at == page.len() {
        return Begun { scan, at };
    }
    if page[at].is_ascii_alphabetic() {
        let scan = Scan {
            stage: Stage::TagName(false),
            after_return: false,
            word: at,
        };
        return Begun { scan, at: at + 1 };
    }
    if page[at] != b'/' || at + 1 == page.len() || !page[at + 1].is_ascii_alphabetic() {
        return Begun { scan, at };
    }
    let scan = Scan {
        stage: Stage::TagName(true),
        after_return: false,
        word: at + 1,
    };
    Begun { scan, at: at + 2 }
}

ghost use Rattle.std.specs.Prelude.{true};
ghost use Rattle.std.specs.List.{list_all};
ghost use Rattle.tl_html_tokens.specs.Inner.Quiet.{is_quiet};

// Past the bytes that leave the stage as it is.
fn pass_quiet(begun: Begun, page: &[u8]) -> Begun
    requires { begun.at ≤ length page.now }
    ensures scan { result.scan ≡ skip_quiet begun.scan begun.at (result.at - begun.at) }
    ensures quiet { list_all (is_quiet begun.scan.stage)
        (take (result.at - begun.at) (drop begun.at page.now)) ≡ true }
    ensures order { begun.at ≤ result.at }
    ensures within { result.at ≤ length page.now }
{
    let len = quiet_len(begun.scan.stage, &page[begun.at..]);
    Begun {
        scan: skip_quiet(begun.scan, begun.at, len),
        at: begun.at + len,
    }
}

ghost use Rattle.std.specs.Prelude.{IfSome};
ghost use Rattle.tl_html_tokens.specs.declared.stage.Stage.TheVariants.{Whole};

// The tag that ends right behind its name.
fn bare_tag(begun: Begun, page: &[u8]) -> Option<Front>
    requires order { begun.scan.word ≤ begun.at }
    requires within { begun.at ≤ length page.now }
    ensures read { IfSome result (λ front. scans.next_scan begun.scan page.now begun.at
        ≡ On (record {
          stage = Whole front.kind front.mode;
          after_return = false;
          word = front.end;
        })) }
    ensures end { IfSome result (λ front. front.end ≡ begun.at + 1) }
    ensures inside { IfSome result (λ front. front.end ≤ length page.now) }
{
    let Stage::TagName(is_end) = begun.scan.stage else {
        return None;
    };
    if begun.at == page.len() || page[begun.at] != b'>' {
        return None;
    }
    let tag = named_tag(is_end, between(page, begun.scan.word, begun.at));
    Some(Front {
        kind: kind(tag.is_end),
        end: begun.at + 1,
        mode: tag.mode,
    })
}

ghost use Rattle.tl_html_tokens.specs.Fronts.{IsFront};

// The piece at a place, where reading is at rest.
fn read_front(page: &[u8], start: usize, mode: Mode) -> Front
    requires { start < length page.now }
    ensures { IsFront page.now start mode result }
{
    let begun = pass_quiet(begin(page, start, mode), page);
    if let Some(front) = bare_tag(begun, page) {
        return front;
    }
    let mut scan = begun.scan;
    let mut at = begun.at;
    while at < page.len() {
        match next_scan(scan, page, at) {
            Scanned::On(next) => match next.stage {
                Stage::Whole(kind, mode) if !next.after_return => return Front {
                    kind,
                    end: at + 1,
                    mode,
                },
                Stage::BeforeKey(tag) if !next.after_return => {
                    scan = pass_attributes(tag, page, at + 1);
                    at = scan.word;
                }
                _ => {
                    let len = quiet_len(next.stage, &page[at + 1..]);
                    scan = skip_quiet(next, at + 1, len);
                    at = at + 1 + len;
                }
            },
            Scanned::Before(kind, mode) => return Front {
                kind,
                end: at,
                mode,
            },
        }
    }
    Front {
        kind: scan.stage.kind_at_end(),
        end: page.len(),
        mode,
    }
}

// The same, or a text up to the next `<`, with the references in it.
pub(crate) fn next_front(page: &[u8], start: usize, mode: Mode) -> Front
    requires { start < length page.now }
    ensures { IsFront page.now start mode result }
{
    if page[start] == b'<' || !reads_plain(mode) {
        return read_front(page, start, mode);
    }
    Front {
        kind: TokenKind::Text,
        end: start + plain_len(&page[start..]),
        mode,
    }
}

ghost use Rattle.std.specs.Prelude.{None};

/// What stands in front at a place where reading is at rest: a tag, a comment, a doctype, some
/// characters, or what is dropped. There is none at the end of the page.
///
/// It is what any driver of the tokenizer reads there (`laws::fronts_are_driven`), such as tree
/// construction: only the mode after a start tag is the driver's to set.
pub fn next_token(page: &[u8], start: usize, mode: Mode) -> Option<Front>
    ensures front { IfSome result (λ front. IsFront page.now start mode front) }
    ensures none { result ≡ None → length page.now ≤ start }
{
    if start < page.len() {
        Some(next_front(page, start, mode))
    } else {
        None
    }
}
