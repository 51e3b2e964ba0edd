//! Keys of which browsers compare the values in any case, at HTML elements.
ghost use Rattle.std.specs.Prelude.{◌≡◌};
ghost use Rattle.tl_names.specs.Elements.{is_among};
ghost use Rattle.tl_tree_select.specs.AnyCase.{any_case_keys};

use tl_names::is_among;

/// These keys ("case-sensitivity of selectors" of the HTML standard).
#[rattlefmt::skip]
static ANY_CASE_KEYS: [&str; 46] = [
    "accept", "accept-charset", "align", "alink", "axis", "bgcolor", "charset", "checked",
    "clear", "codetype", "color", "compact", "declare", "defer", "dir", "direction", "disabled",
    "enctype", "face", "frame", "hreflang", "http-equiv", "lang", "language", "link", "media",
    "method", "multiple", "nohref", "noresize", "noshade", "nowrap", "readonly", "rel", "rev",
    "rules", "scope", "scrolling", "selected", "shape", "target", "text", "type", "valign",
    "valuetype", "vlink",
];

/// Whether a key is one of them.
pub fn is_any_case_key(key: &[u8]) -> bool
    ensures { result ≡ is_among any_case_keys key.now }
{
    is_among(&ANY_CASE_KEYS, key)
}
