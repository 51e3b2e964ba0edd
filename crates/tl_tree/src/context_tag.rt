//! The tag of the element that a fragment is read in.
ghost use Rattle.std.specs.Prelude.{IfOk, OnOk, Some, [], length, map, ◌++◌, ◌<◌, ◌∷◌, ◌≡◌};
ghost use Rattle.tl_dom_spec.specs.Tags.{plain_attribute};
ghost use Rattle.tl_tree.specs.Contexts.{attribute_in, tag_in};
ghost use Rattle.tl_tree.specs.Inner.Builders.{builder_of, token_of};
ghost use Rattle.tl_tree.specs.Inner.Frames.{path_of};
ghost use Rattle.tl_tree.specs.Inner.Said.{attributes_in};
ghost use Rattle.tl_tree.specs.Inner.Store.{Grows, list_in, tag_at};
ghost use Rattle.tl_tree.specs.declared.entries.AttributeList.TheVariants.{Tags};

use crate::builder::Builder;
use crate::context::Context;
use crate::entries::{AttributeEntry, AttributeList, AttributeSpace, TagEntry};
use crate::error::GrowError;
use crate::path::FramePath;
use crate::store::Store;
use tl_names::element_name::ElementName;

// Puts an attribute behind the others.
fn add_attribute(store: &mut Store<'_>, key: &[u8], value: &[u8]) -> Result<(), GrowError>
    ensures stands { OnOk result (attributes_in store.new (list_in store.new Tags)
        ≡ attributes_in store.old (list_in store.old Tags)
        ++ plain_attribute (key.now, value.now) ∷ []) }
    ensures grows { Grows store.old store.new }
{
    let key = store.add_bytes(key)?;
    let value = store.add_bytes(value)?;
    store.add_attribute(
        AttributeList::Tags,
        AttributeEntry {
            space: AttributeSpace::Plain,
            key,
            value,
        },
    )
}

// Puts attributes behind the others.
fn add_attributes(store: &mut Store<'_>, attributes: &[(&[u8], &[u8])]) -> Result<(), GrowError>
    ensures stands { OnOk result (attributes_in store.new (list_in store.new Tags)
        ≡ attributes_in store.old (list_in store.old Tags) ++ map attribute_in attributes.now) }
    ensures grows { Grows store.old store.new }
{
    for (key, value) in attributes {
        add_attribute(store, key, value)?;
    }
    Ok(())
}

impl<'a> Store<'a> {
    /// Puts the tag of such an element behind the others, and answers its number.
    pub(crate) fn add_context_tag(&mut self, context: Context<'_>) -> Result<u32, GrowError>
        ensures stands { IfOk result
            (λ number. tag_at self.new number ≡ tag_in context.entry) }
        ensures within { IfOk result (λ number. number < length self.new.tags.items) }
        ensures grows { Grows self.old self.new }
    {
        let name = self.add_bytes(context.name)?;
        let first_attribute = self.attribute_count(AttributeList::Tags);
        add_attributes(self, context.attributes)?;
        let attribute_count = self.attribute_count(AttributeList::Tags) - first_attribute;
        self.add_tag(TagEntry {
            space: context.namespace,
            name,
            known: ElementName::OTHER,
            number: 0,
            list: AttributeList::Tags,
            first_attribute,
            attribute_count,
            start: 0,
        })
    }
}

impl<'a> FramePath<'a> {
    // Puts the tag of such an element in the store, and answers its number.
    fn add_context_tag(&mut self, context: Context<'_>) -> Result<u32, GrowError>
        ensures stands { IfOk result
            (λ number. tag_at self.new.store number ≡ tag_in context.entry) }
        ensures within { IfOk result (λ number. number < length self.new.store.tags.items) }
        ensures path { path_of self.new ≡ path_of self.old }
        ensures next { self.new.next ≡ self.old.next }
        ensures grows { Grows self.old.store self.new.store }
    {
        self.store.add_context_tag(context)
    }
}

impl<'a> Builder<'a> {
    // Puts the tag of such an element in the store, and answers its number.
    fn add_context_tag(&mut self, context: Context<'_>) -> Result<u32, GrowError>
        ensures ok { builder_of self.new ≡ builder_of self.old }
        ensures token { token_of self.new ≡ token_of self.old }
        ensures tag { IfOk result
            (λ number. tag_at self.new.path.store number ≡ tag_in context.entry) }
        ensures within { IfOk result
            (λ number. number < length self.new.path.store.tags.items) }
    {
        self.path.add_context_tag(context)
    }

    // The context element is that of a tag of the store.
    fn set_context(&mut self, tag: u32)
        requires { tag < length self.old.path.store.tags.items }
        ensures ok { builder_of self.new
            ≡ record (builder_of self.old) { context = Some (tag_at self.old.path.store tag) } }
        ensures token { token_of self.new ≡ token_of self.old }
    {
        self.context = Some(tag);
    }

    /// What is read stands in this element.
    pub(crate) fn read_in(&mut self, context: Context<'_>) -> Result<(), GrowError>
        ensures ok { OnOk result (builder_of self.new
            ≡ record (builder_of self.old) { context = Some (tag_in context.entry) }) }
        ensures token { token_of self.new ≡ token_of self.old }
    {
        let tag = self.add_context_tag(context)?;
        self.set_context(tag);
        Ok(())
    }
}
