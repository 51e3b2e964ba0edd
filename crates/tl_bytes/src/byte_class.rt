//! Classes of bytes.
ghost use Rattle.std.specs.Prelude.{◌≡◌};
ghost use Rattle.tl_spec.specs.Lex.ByteClass.{is_ident, is_name};

// Each ident byte stands at its own place, and a comma, which is none, at every other.
static IDENT_BYTES: [u8; 256] = *b"\
    ,,,,,,,,,,,,,,,,,,,,,,,,,,,,,,,,\
    ,,,,,,,,,,,+,-,/0123456789:,,,,,\
    ,ABCDEFGHIJKLMNOPQRSTUVWXYZ,,,,_\
    ,abcdefghijklmnopqrstuvwxyz,,,,,\
    ,,,,,,,,,,,,,,,,,,,,,,,,,,,,,,,,\
    ,,,,,,,,,,,,,,,,,,,,,,,,,,,,,,,,\
    ,,,,,,,,,,,,,,,,,,,,,,,,,,,,,,,,\
    ,,,,,,,,,,,,,,,,,,,,,,,,,,,,,,,,";

/// Whether a doctype's word may hold this byte: a digit, an ASCII letter, `-`, `_`, `:`, `+` or
/// `/`.
#[inline]
pub fn is_ident(byte: u8) -> bool
    ensures { result ≡ is_ident byte }
{
    IDENT_BYTES[byte as usize] != b','
}

/// Whether a tag's name or a key may hold this byte: those of `is_ident` but `/`.
#[inline]
pub fn is_name(byte: u8) -> bool
    ensures { result ≡ is_name byte }
{
    is_ident(byte) && byte != b'/'
}
