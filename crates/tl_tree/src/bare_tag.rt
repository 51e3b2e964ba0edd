//! Tags of HTML elements without attributes, whose start tags are missing.
ghost use Rattle.std.specs.Prelude.{IfOk, length, ◌<◌, ◌≡◌};
ghost use Rattle.tl_dom_spec.specs.Tags.{bare_tag};
ghost use Rattle.tl_tree.specs.Inner.Frames.{path_of};
ghost use Rattle.tl_tree.specs.Inner.Store.{Grows, tag_at};

use crate::entries::{AttributeList, Namespace, TagEntry};
use crate::error::GrowError;
use crate::path::FramePath;
use crate::store::Store;
use tl_names::element_name::ElementName;

impl<'a> Store<'a> {
    /// Puts the tag of such an element behind the others, and answers its number.
    pub(crate) fn add_bare_tag(&mut self, name: &[u8]) -> Result<u32, GrowError>
        ensures stands { IfOk result (λ number. tag_at self.new number ≡ bare_tag name.now) }
        ensures within { IfOk result (λ number. number < length self.new.tags.items) }
        ensures grows { Grows self.old self.new }
    {
        let name = self.add_bytes(name)?;
        self.add_tag(TagEntry {
            space: Namespace::Html,
            name,
            known: ElementName::OTHER,
            number: 0,
            list: AttributeList::Tags,
            first_attribute: 0,
            attribute_count: 0,
            start: 0,
        })
    }
}

impl<'a> FramePath<'a> {
    /// Puts the tag of such an element in the store, and answers its number.
    pub(crate) fn add_bare_tag(&mut self, name: &[u8]) -> Result<u32, GrowError>
        ensures stands { IfOk result
            (λ number. tag_at self.new.store number ≡ bare_tag name.now) }
        ensures within { IfOk result (λ number. number < length self.new.store.tags.items) }
        ensures path { path_of self.new ≡ path_of self.old }
        ensures next { self.new.next ≡ self.old.next }
        ensures grows { Grows self.old.store self.new.store }
    {
        self.store.add_bare_tag(name)
    }
}
