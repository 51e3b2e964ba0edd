//! The names of tags with a meaning of their own.
ghost use Rattle.std.specs.Prelude.{◌≡◌};
ghost use Rattle.tl_spec.specs.Lex.ByteClass.{is_void, is_printed_alone};

/// Whether a tag of this name never has children when it is read.
#[inline(always)]
pub fn is_void(name: &[u8]) -> bool
    ensures { result ≡ is_void name.now }
{
    // By the length first, so that a name is compared with few.
    match name.len() {
        2 => name == b"br".as_slice() || name == b"hr".as_slice(),
        3 => name == b"col".as_slice() || name == b"img".as_slice() || name == b"wbr".as_slice(),
        4 => {
            name == b"area".as_slice()
                || name == b"base".as_slice()
                || name == b"link".as_slice()
                || name == b"meta".as_slice()
        }
        5 => {
            name == b"embed".as_slice()
                || name == b"input".as_slice()
                || name == b"param".as_slice()
                || name == b"track".as_slice()
        }
        6 => name == b"keygen".as_slice() || name == b"source".as_slice(),
        _ => false,
    }
}

/// Whether a tag of this name is printed without children and end tag.
pub fn is_printed_alone(name: &[u8]) -> bool
    ensures { result ≡ is_printed_alone name.now }
{
    is_void(name) || name == b"command".as_slice()
}
