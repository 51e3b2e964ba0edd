//! What the values of a key are.
ghost use Rattle.std.specs.Prelude.{◌≡◌};
ghost use Rattle.tl_tree_safe.specs.Inner.ValueKinds.{value_kind_at};
ghost use Rattle.tl_tree_safe.specs.Policies.{listed_words};

use crate::lists::Lists;
use crate::own_names::says_names;
use crate::words::is_among;

/// What the values of a key are.
#[derive(Clone, Copy)]
pub(crate) enum ValueKind {
    /// Links, whatever else they are.
    Link,
    /// Classes.
    Classes,
    /// Names that others refer to, or that others have.
    Names,
    /// Any texts.
    Text,
}

/// What the values of a key are.
pub(crate) fn value_kind_at(lists: &Lists<'_>, key: &[u8]) -> ValueKind
    ensures { result ≡ value_kind_at (listed_words lists.now) key.now }
{
    if is_among(lists.link_keys, key) {
        ValueKind::Link
    } else if key == b"class".as_slice() {
        ValueKind::Classes
    } else if says_names(key) {
        ValueKind::Names
    } else {
        ValueKind::Text
    }
}
