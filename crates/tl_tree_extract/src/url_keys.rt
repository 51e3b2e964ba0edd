//! Which attributes hold URLs.
ghost use Rattle.std.specs.Prelude.{◌≡◌, map};
ghost use Rattle.tl_tree_extract.specs.UrlKeys.{key_said, kind_at, url_keys};

use tl_names::is_among;

/// How a value holds URLs.
#[derive(Clone, Copy, PartialEq, Eq, Debug)]
pub enum UrlKind {
    /// All of it is one.
    Whole,
    /// Its words are.
    Words,
    /// They stand with descriptors, as in a `srcset`.
    Candidates,
    /// One stands behind a time, in the `content` of a `meta` that refreshes.
    Refresh,
}

/// A key, and the HTML elements at which its value holds URLs.
#[derive(Clone, Copy)]
struct UrlKey {
    key: &'static str,
    names: &'static [&'static str],
    kind: UrlKind,
}

#[rattlefmt::skip]
static URL_KEYS: [UrlKey; 14] = [
    UrlKey { key: "href", names: &["a", "area", "base", "link"], kind: UrlKind::Whole },
    UrlKey {
        key: "src",
        names: &[
            "audio", "embed", "frame", "iframe", "img", "input", "script", "source", "track", "video",
        ],
        kind: UrlKind::Whole,
    },
    UrlKey { key: "srcset", names: &["img", "source"], kind: UrlKind::Candidates },
    UrlKey { key: "imagesrcset", names: &["link"], kind: UrlKind::Candidates },
    UrlKey { key: "action", names: &["form"], kind: UrlKind::Whole },
    UrlKey { key: "formaction", names: &["button", "input"], kind: UrlKind::Whole },
    UrlKey { key: "cite", names: &["blockquote", "del", "ins", "q"], kind: UrlKind::Whole },
    UrlKey { key: "data", names: &["object"], kind: UrlKind::Whole },
    UrlKey { key: "poster", names: &["video"], kind: UrlKind::Whole },
    UrlKey { key: "ping", names: &["a", "area"], kind: UrlKind::Words },
    UrlKey {
        key: "background",
        names: &["body", "table", "tbody", "td", "tfoot", "th", "thead", "tr"],
        kind: UrlKind::Whole,
    },
    UrlKey { key: "longdesc", names: &["frame", "iframe", "img"], kind: UrlKind::Whole },
    UrlKey { key: "manifest", names: &["html"], kind: UrlKind::Whole },
    UrlKey { key: "content", names: &["meta"], kind: UrlKind::Refresh },
];

// How the value at a key holds URLs, by a list of keys.
fn kind_among(keys: &[UrlKey], key: &[u8], name: &[u8]) -> Option<UrlKind>
    ensures { result ≡ kind_at (map key_said keys.now) key.now name.now }
{
    for own in keys {
        if own.key.as_bytes() == key && is_among(own.names, name) {
            return Some(own.kind);
        }
    }
    None
}

/// How the value at a key holds URLs at an HTML element of a name.
#[tactic(auto, unfolding(crate::specs::UrlKeys::url_keys))]
pub fn kind_at(key: &[u8], name: &[u8]) -> Option<UrlKind>
    ensures { result ≡ kind_at url_keys key.now name.now }
{
    kind_among(&URL_KEYS, key, name)
}
