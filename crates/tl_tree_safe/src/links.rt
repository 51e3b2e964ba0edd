//! Links, as their characters.
ghost use Rattle.std.specs.Prelude.{◌≡◌};
ghost use Rattle.std.specs.List.{list_all, list_any};
ghost use Rattle.tl_safe_fit.specs.Words.{words_of};
ghost use Rattle.tl_tree_safe.specs.Lists.{begins_link, has_no_scheme, is_link_byte, is_relative, is_unschemed, leads_out, leaves_site};

/// Whether a byte is no control character of ASCII, no space and no `"`.
pub(crate) fn is_link_byte(byte: u8) -> bool
    ensures { result ≡ is_link_byte byte }
{
    byte > 32 && byte != b'"' && byte != 127
}

/// Whether all bytes of a value may stand in a link.
pub(crate) fn has_link_bytes(value: &[u8]) -> bool
    ensures { result ≡ list_all is_link_byte value.now }
{
    for byte in value {
        if !is_link_byte(*byte) {
            return false;
        }
    }
    true
}

// Whether a byte makes another host of a `/` before it.
fn leads_out(byte: u8) -> bool
    ensures { result ≡ leads_out byte }
{
    byte == b'/' || byte == b'\\'
}

// Whether a path names another host.
fn leaves_site(path: &[u8]) -> bool
    ensures { result ≡ leaves_site path.now }
{
    match path {
        [first, second, ..] => *first == b'/' && leads_out(*second),
        _ => false,
    }
}

// Whether this stands at the front of a link, and does not lead further than it says.
fn begins_link_by(front: &[u8], link: &[u8]) -> bool
    ensures { result ≡ begins_link link.now front.now }
{
    link.starts_with(front) && (leaves_site(front) || !leaves_site(link))
}

/// Whether one of these begins a link.
pub(crate) fn begins_link(fronts: &[&str], link: &[u8]) -> bool
    ensures { result ≡ list_any (begins_link link.now) (words_of fronts.now) }
{
    for front in fronts {
        if begins_link_by(front.as_bytes(), link) {
            return true;
        }
    }
    false
}

// Whether a byte at the front of a link makes no scheme of it.
fn is_unschemed(byte: u8) -> bool
    ensures { result ≡ is_unschemed byte }
{
    byte != b':' && byte != b'\\'
}

// Whether no scheme stands at the front of a link.
fn has_no_scheme(link: &[u8]) -> bool
    ensures { result ≡ has_no_scheme link.now }
{
    for byte in link {
        if *byte == b'/' || *byte == b'?' || *byte == b'#' {
            return true;
        }
        if !is_unschemed(*byte) {
            return false;
        }
    }
    true
}

/// Whether a link is looked for beside the page that it stands in.
pub(crate) fn is_relative(link: &[u8]) -> bool
    ensures { result ≡ is_relative link.now }
{
    match link {
        [] => false,
        _ => has_no_scheme(link) && !leaves_site(link),
    }
}
