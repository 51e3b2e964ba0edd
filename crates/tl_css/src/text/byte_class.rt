//! Classes of bytes in a selector text.
ghost use Rattle.std.specs.Prelude.{◌≡◌};
ghost use Rattle.tl_css.specs.Bytes.{is_hex, is_name_byte, is_newline, is_string_byte, is_white, hex_value};

pub fn is_newline(byte: u8) -> bool
    ensures { result ≡ is_newline byte }
{
    byte == b'\n' || byte == b'\r' || byte == 0x0c
}

pub fn is_white(byte: u8) -> bool
    ensures { result ≡ is_white byte }
{
    byte == b' ' || byte == b'\t' || is_newline(byte)
}

pub fn is_name_byte(byte: u8) -> bool
    ensures { result ≡ is_name_byte byte }
{
    byte.is_ascii_alphanumeric() || byte == b'-' || byte == b'_' || byte >= 128
}

/// Whether a byte stands for itself between these quotes.
pub fn is_string_byte(quote: u8, byte: u8) -> bool
    ensures { result ≡ is_string_byte quote byte }
{
    !(byte == quote || byte == b'\\' || is_newline(byte))
}

pub fn is_hex(byte: u8) -> bool
    ensures { result ≡ is_hex byte }
{
    byte.is_ascii_digit() || (65 <= byte && byte <= 70) || (97 <= byte && byte <= 102)
}
