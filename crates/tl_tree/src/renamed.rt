//! Tags that are like others but for their names.
ghost use Rattle.std.specs.Prelude.{IfOk, length, ◌<◌, ◌≡◌};
ghost use Rattle.tl_tree.specs.Inner.Frames.{path_of};
ghost use Rattle.tl_tree.specs.Inner.Store.{Grows, tag_at};

use crate::entries::TagEntry;
use crate::error::GrowError;
use crate::path::FramePath;
use crate::store::Store;
use tl_names::element_name::ElementName;

impl<'a> Store<'a> {
    /// Puts such a tag behind the others, and answers its number.
    pub(crate) fn add_renamed_tag(&mut self, tag: u32, name: &[u8]) -> Result<u32, GrowError>
        requires { tag < length self.old.tags.items }
        ensures stands { IfOk result
            (λ number. tag_at self.new number ≡ record (tag_at self.old tag) { name = name.now }) }
        ensures within { IfOk result (λ number. number < length self.new.tags.items) }
        ensures grows { Grows self.old self.new }
    {
        let own = self.tag(tag);
        let name = self.add_bytes(name)?;
        self.add_tag(TagEntry {
            name,
            known: ElementName::OTHER,
            ..own
        })
    }
}

impl<'a> FramePath<'a> {
    /// Puts such a tag in the store, and answers its number.
    pub(crate) fn add_renamed_tag(&mut self, tag: u32, name: &[u8]) -> Result<u32, GrowError>
        requires { tag < length self.old.store.tags.items }
        ensures stands { IfOk result
            (λ number. tag_at self.new.store number
            ≡ record (tag_at self.old.store tag) { name = name.now }) }
        ensures within { IfOk result (λ number. number < length self.new.store.tags.items) }
        ensures path { path_of self.new ≡ path_of self.old }
        ensures next { self.new.next ≡ self.old.next }
        ensures grows { Grows self.old.store self.new.store }
    {
        self.store.add_renamed_tag(tag, name)
    }
}
