//! The length of the run of bytes that a slice begins with.
ghost use Rattle.std.specs.Prelude.{◌≡◌, ◌≤◌, ◌==◌, not, length};
ghost use Rattle.std.specs.List.{prefix_len};
ghost use Rattle.tl_spec.specs.Lex.ByteClass.{is_blank, is_ident, is_name, ends_value};

use tl_bytes::simd;

/// How many blanks, spaces and line feeds, `s` begins with.
pub fn blank_len(s: &[u8]) -> usize
    ensures run { result ≡ prefix_len is_blank s.now }
    ensures within { result ≤ length s.now }
{
    s.iter().take_while(|b| **b == b' ' || **b == b'\n').count()
}

/// How many bytes of a name of a tag or an attribute `s` begins with.
pub fn name_len(s: &[u8]) -> usize
    ensures run { result ≡ prefix_len is_name s.now }
    ensures within { result ≤ length s.now }
{
    simd::search_non_name(s).unwrap_or(s.len())
}

/// How many ident bytes, those of a doctype's word, `s` begins with.
pub fn ident_len(s: &[u8]) -> usize
    ensures run { result ≡ prefix_len is_ident s.now }
    ensures within { result ≤ length s.now }
{
    simd::search_non_ident(s).unwrap_or(s.len())
}

/// How many bytes of `s` stand before the first that ends a value without quotes: a space, a
/// line feed, `/` or `>`.
pub fn bare_len(s: &[u8]) -> usize
    ensures run { result ≡ prefix_len (λ b. not (ends_value b)) s.now }
    ensures within { result ≤ length s.now }
{
    simd::find4(s, [b' ', b'\n', b'/', b'>']).unwrap_or(s.len())
}

/// How many bytes of `s` stand before the first `byte`.
pub fn len_until(s: &[u8], byte: u8) -> usize
    ensures run { result ≡ prefix_len (λ b. not (b == byte)) s.now }
    ensures within { result ≤ length s.now }
{
    simd::find(s, byte).unwrap_or(s.len())
}
