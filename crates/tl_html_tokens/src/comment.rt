//! What a byte does in a comment or a doctype.
ghost use Rattle.std.specs.Prelude.{◌≡◌, map};
ghost use Rattle.std.specs.Char.{to_ascii_lowercase};
ghost use Rattle.tl_html_spec.specs.HtmlTokenizer.{begins};
ghost use Rattle.tl_html_tokens.specs.Inner.Machine as machine;

use crate::mode::Mode;
use crate::stage::{Stage, TokenKind, Turn};

// The comment ends.
fn comment_token() -> Turn
    ensures { result ≡ machine.comment_token }
{
    Turn::Goes(Stage::Whole(TokenKind::Comment, Mode::Data))
}

// 13.2.5.41
pub(crate) fn bogus_comment(byte: u8) -> Turn
    ensures { result ≡ machine.bogus_comment byte }
{
    if byte == b'>' {
        comment_token()
    } else {
        Turn::Goes(Stage::BogusComment)
    }
}

// Whether what was read may still become this word of small letters.
fn begins(word: &[u8], read: &[u8]) -> bool
    requires { map to_ascii_lowercase word.now ≡ word.now }
    ensures { result ≡ begins word.now read.now }
{
    if read.len() > word.len() {
        return false;
    }
    read.eq_ignore_ascii_case(&word[..read.len()])
}

// 13.2.5.42, of what was read with this byte.
pub(crate) fn resolve_declaration(read: &[u8], byte: u8) -> Turn
    ensures { result ≡ machine.resolve_declaration read.now byte }
{
    if read == b"--".as_slice() {
        Turn::Goes(Stage::CommentStart)
    } else if read.eq_ignore_ascii_case(b"doctype") {
        Turn::Goes(Stage::Doctype)
    } else if begins(b"--", read) || begins(b"doctype", read) {
        Turn::Goes(Stage::Declaration)
    } else {
        bogus_comment(byte)
    }
}

// 13.2.5.45
pub(crate) fn comment(byte: u8) -> Turn
    ensures { result ≡ machine.comment byte }
{
    match byte {
        b'<' => Turn::Goes(Stage::CommentLessThan),
        b'-' => Turn::Goes(Stage::CommentEndDash),
        _ => Turn::Goes(Stage::Comment),
    }
}

// 13.2.5.43
pub(crate) fn comment_start(byte: u8) -> Turn
    ensures { result ≡ machine.comment_start byte }
{
    match byte {
        b'-' => Turn::Goes(Stage::CommentStartDash),
        b'>' => comment_token(),
        _ => comment(byte),
    }
}

// 13.2.5.44
pub(crate) fn comment_start_dash(byte: u8) -> Turn
    ensures { result ≡ machine.comment_start_dash byte }
{
    match byte {
        b'-' => Turn::Goes(Stage::CommentEnd),
        b'>' => comment_token(),
        _ => comment(byte),
    }
}

// 13.2.5.46
pub(crate) fn comment_less_than(byte: u8) -> Turn
    ensures { result ≡ machine.comment_less_than byte }
{
    match byte {
        b'!' => Turn::Goes(Stage::CommentBang),
        b'<' => Turn::Goes(Stage::CommentLessThan),
        _ => comment(byte),
    }
}

// 13.2.5.47
pub(crate) fn comment_bang(byte: u8) -> Turn
    ensures { result ≡ machine.comment_bang byte }
{
    match byte {
        b'-' => Turn::Goes(Stage::CommentBangDash),
        _ => comment(byte),
    }
}

// 13.2.5.48
pub(crate) fn comment_bang_dash(byte: u8) -> Turn
    ensures { result ≡ machine.comment_bang_dash byte }
{
    match byte {
        b'-' => Turn::Goes(Stage::CommentBangDashDash),
        _ => comment_end_dash(byte),
    }
}

// 13.2.5.50
pub(crate) fn comment_end_dash(byte: u8) -> Turn
    ensures { result ≡ machine.comment_end_dash byte }
{
    match byte {
        b'-' => Turn::Goes(Stage::CommentEnd),
        _ => comment(byte),
    }
}

// 13.2.5.51
pub(crate) fn comment_end(byte: u8) -> Turn
    ensures { result ≡ machine.comment_end byte }
{
    match byte {
        b'>' => comment_token(),
        b'!' => Turn::Goes(Stage::CommentEndBang),
        b'-' => Turn::Goes(Stage::CommentEnd),
        _ => comment(byte),
    }
}

// 13.2.5.52
pub(crate) fn comment_end_bang(byte: u8) -> Turn
    ensures { result ≡ machine.comment_end_bang byte }
{
    match byte {
        b'-' => Turn::Goes(Stage::CommentEndDash),
        b'>' => comment_token(),
        _ => comment(byte),
    }
}

// 13.2.5.53 to .68
pub(crate) fn doctype(byte: u8) -> Turn
    ensures { result ≡ machine.doctype byte }
{
    if byte == b'>' {
        Turn::Goes(Stage::Whole(TokenKind::Doctype, Mode::Data))
    } else {
        Turn::Goes(Stage::Doctype)
    }
}
