//! Names of a page as they are shown.
ghost use Rattle.std.specs.Prelude.{OnOk, ◌++◌, ◌<◌, ◌≡◌};
ghost use Rattle.tl_html_spec.specs.Digits.{digit_in, digits};
ghost use Rattle.tl_tree_safe.specs.ShownNames.{is_printable, shown, shown_byte};

use std::alloc::AllocError;

// Whether a byte stands for itself.
fn is_printable(byte: u8) -> bool
    ensures { result ≡ is_printable byte }
{
    32 < byte && byte < 127 && byte != b'\\'
}

// The digit of a value, in base 16.
fn digit(value: u8) -> u8
    requires { value < 16 }
    ensures { result ≡ digit_in digits value }
{
    b"0123456789abcdef"[usize::from(value)]
}

// Writes a byte as it is shown.
fn put_byte(byte: u8, out: &mut Vec<u8>) -> Result<(), AllocError>
    ensures { OnOk result (out.new.items ≡ out.old.items ++ shown_byte byte) }
{
    if is_printable(byte) {
        out.push(byte)?;
        return Ok(());
    }
    out.extend_from_slice(&[b'\\', b'x', digit(byte / 16), digit(byte % 16)])
}

/// Writes a name of a page, so that no byte of it acts on a terminal.
pub(crate) fn put_shown(name: &[u8], out: &mut Vec<u8>) -> Result<(), AllocError>
    ensures { OnOk result (out.new.items ≡ out.old.items ++ shown name.now) }
{
    for byte in name {
        put_byte(*byte, out)?;
    }
    Ok(())
}
