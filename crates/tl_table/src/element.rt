//! What lookups, selectors and ranges see of a node.
ghost use Rattle.std.specs.Prelude.{◌≡◌, length, option_map, slice_get};
ghost use Rattle.std.specs.Option.{option_copied};
ghost use Rattle.tl_spec.specs.Tree.Document.{Node};
ghost use Rattle.tl_spec.specs.Tree.Element.{name_of, attribute_of, children_of, last_child_of};
ghost use Rattle.tl_spec.specs.Lookup.Scan.{has_id, is_in_class};

/// A node of a table: a tag, or a text or comment, which has no name, no attributes and no
/// children.
pub trait Element {
    /// Which node it is.
    ghost node: { Self → Node };

    /// Its name, `None` where it is no tag.
    fn name(&self) -> Option<&[u8]>
        ensures { option_copied result ≡ name_of (node self.now) };

    /// Whether its `id` is this one, in exact case.
    fn has_id(&self, id: &[u8]) -> bool
        ensures { result ≡ has_id id.now (node self.now) };

    /// Whether this is a member of its class, in exact case.
    fn is_in_class(&self, class: &[u8]) -> bool
        ensures { result ≡ is_in_class class.now (node self.now) };

    /// What stands at a key, in exact case: `None` where the key is missing, `Some(None)` where it
    /// has no value.
    fn attribute(&self, key: &[u8]) -> Option<Option<&[u8]>>
        ensures { option_map option_copied result ≡ attribute_of key.now (node self.now) };

    /// How many children it has.
    fn child_count(&self) -> usize
        ensures { result ≡ length (children_of (node self.now)) };

    /// The number of the child at this place, from 0; `None` past the last one.
    fn child(&self, place: usize) -> Option<u32>
        ensures { result ≡ slice_get (children_of (node self.now)) place };

    /// The number of the last child, `None` where there is none.
    fn last_child(&self) -> Option<u32>
        ensures { result ≡ last_child_of (node self.now) };
}
