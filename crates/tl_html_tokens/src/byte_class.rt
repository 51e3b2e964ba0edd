//! Classes of bytes.
ghost use Rattle.std.specs.Prelude.{◌≡◌};
ghost use Rattle.tl_html_spec.specs.HtmlTokenizer.{ends_name, is_white_space};
ghost use Rattle.tl_html_spec.specs.Reader.{feed};

pub(crate) fn is_white_space(byte: u8) -> bool
    ensures { result ≡ is_white_space byte }
{
    byte == b'\t' || byte == b'\n' || byte == b'\x0C' || byte == b' '
}

// Whether it ends the name of a tag.
pub(crate) fn ends_name(byte: u8) -> bool
    ensures { result ≡ ends_name byte }
{
    is_white_space(byte) || byte == b'/' || byte == b'>'
}

// A carriage return is read as a line feed.
pub(crate) fn feed(byte: u8) -> u8
    ensures { result ≡ feed byte }
{
    if byte == b'\r' { b'\n' } else { byte }
}
