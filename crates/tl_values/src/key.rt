//! Keys of tags.
ghost use Rattle.std.specs.List.{find};
ghost use Rattle.std.specs.Option.{option_copied, option_map};
ghost use Rattle.std.specs.Prelude.{◌≡◌};
ghost use Rattle.std.specs.Str.{str_eq_ignore_ascii_case};
ghost use Rattle.tl_tree.specs.Asked.{attribute_said, attributes_at};
ghost use Rattle.tl_tree.specs.TreeView.{rows_in};
ghost use Rattle.tl_values.specs.Keys.{has_key, value_at};

use tl_html_print::attribute_prefix;
use tl_tree::{Attribute, Tree};

// Whether bytes are the same in any case.
fn are_same(one: &[u8], other: &[u8]) -> bool
    ensures { result ≡ str_eq_ignore_ascii_case one.now other.now }
{
    one.eq_ignore_ascii_case(other)
}

// Whether an attribute comes of this key of a tag.
fn has_key(key: &[u8], attribute: Attribute<'_>) -> bool
    ensures { result ≡ has_key key.now (attribute_said attribute.entry) }
{
    let prefix = attribute_prefix(attribute);
    if key.len() < prefix.len() {
        return false;
    }
    let (front, back) = key.split_at(prefix.len());
    are_same(front, prefix) && are_same(back, attribute.key)
}

/// The first attribute of an element that comes of a key of its tag.
pub(crate) fn attribute_at<'t>(
    tree: &'t Tree<'_>,
    number: usize,
    key: &[u8],
) -> Option<Attribute<'t>>
    ensures { option_map attribute_said result
        ≡ find (has_key key.now) (attributes_at (rows_in tree.now) number) }
{
    for attribute in tree.attributes(number) {
        if has_key(key, attribute) {
            return Some(attribute);
        }
    }
    None
}

/// Its value.
pub(crate) fn value_at<'t>(tree: &'t Tree<'_>, number: usize, key: &[u8]) -> Option<&'t [u8]>
    ensures { option_copied result
        ≡ value_at key.now (attributes_at (rows_in tree.now) number) }
{
    match attribute_at(tree, number, key) {
        Some(attribute) => Some(attribute.value),
        None => None,
    }
}
