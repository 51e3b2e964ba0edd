//! Bytes up to one of them.
ghost use Rattle.std.specs.Prelude.{◌≡◌, ◌≤◌, ◌++◌, suc, drop, length, take, OnOk};
ghost use Rattle.std.specs.List.{prefix_len, take_while};
ghost use Rattle.tl_text.specs.Inner.View.{is_not};

use std::alloc::AllocError;

// The place of the first of these bytes, or the length where there is none. What is looked for
// stands a few bytes ahead, where a search by lanes doesn't pay.
fn first_place(bytes: &[u8], wanted: u8) -> usize
    ensures place { result ≡ prefix_len (is_not wanted) bytes.now }
    ensures within { result ≤ length bytes.now }
{
    let mut at = 0;
    while at < bytes.len() && bytes[at] != wanted {
        at += 1;
    }
    at
}

// The bytes before the first one of these, and those after it; all and none where there is none.
pub(crate) fn split_at_byte(bytes: &[u8], end: u8) -> (&[u8], &[u8])
    ensures before { result.0.now ≡ take_while (is_not end) bytes.now }
    ensures after { result.1.now ≡ drop (suc (prefix_len (is_not end) bytes.now)) bytes.now }
{
    let at = first_place(bytes, end);
    if at == bytes.len() {
        return (bytes, &[]);
    }
    (&bytes[..at], &bytes[at + 1..])
}

// The first so many bytes.
pub(crate) fn bytes_before(bytes: &[u8], count: usize) -> &[u8]
    requires { count ≤ length bytes.now }
    ensures { result.now ≡ take count bytes.now }
{
    &bytes[..count]
}

// The bytes past so many.
pub(crate) fn bytes_after(bytes: &[u8], count: usize) -> &[u8]
    requires { count ≤ length bytes.now }
    ensures { result.now ≡ drop count bytes.now }
{
    &bytes[count..]
}

pub(crate) fn write_bytes(bytes: &[u8], out: &mut Vec<u8>) -> Result<(), AllocError>
    ensures { OnOk result (out.new.items ≡ out.old.items ++ bytes.now) }
{
    out.extend_from_slice(bytes)
}
