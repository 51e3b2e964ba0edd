//! Elements of `svg` and `math` that are inserted (13.2.6.1).
ghost use Rattle.std.specs.Prelude.{IfOk, OnOk, false, length, true, ◌<◌, ◌≡◌};
ghost use Rattle.tl_dom_spec.specs.Adjusted.{foreign_name, foreign_tag, insert_foreign_element};
ghost use Rattle.tl_dom_spec.specs.Builder.{adjusted_current_node, insert_and_pop, insert_element};
ghost use Rattle.tl_tree.specs.Inner.Builders.{builder_of, token_of};
ghost use Rattle.tl_tree.specs.Inner.Foreign.{renamed};
ghost use Rattle.tl_tree.specs.Inner.Store.{space_of, tag_at};

use crate::builder::Builder;
use crate::entries::Namespace;
use crate::error::GrowError;

impl<'a> Builder<'a> {
    // Puts the tag of the token in the store, as one of a namespace, and answers its number.
    fn add_foreign_tag(&mut self, space: Namespace, is_renamed: bool) -> Result<u32, GrowError>
        ensures ok { builder_of self.new ≡ builder_of self.old }
        ensures token { token_of self.new ≡ token_of self.old }
        ensures tag { IfOk result (λ number. tag_at self.new.path.store number
            ≡ foreign_tag (space_of space)
            (renamed is_renamed (space_of space) (token_of self.old).tag)) }
        ensures within { IfOk result
            (λ number. number < length self.new.path.store.tags.items) }
    {
        let tag = self.tag;
        self.path.add_foreign_tag(space, is_renamed, tag)
    }

    // An element of a tag of the store is inserted, and popped at once where its tag closes itself.
    fn insert_closed(&mut self, tag: u32, closes: bool) -> Result<(), GrowError>
        requires { tag < length self.old.path.store.tags.items }
        ensures closed { closes ≡ true → OnOk result (builder_of self.new
            ≡ insert_and_pop (tag_at self.old.path.store tag) (builder_of self.old)) }
        ensures open { closes ≡ false → OnOk result (builder_of self.new
            ≡ insert_element (tag_at self.old.path.store tag) (builder_of self.old)) }
        ensures token { token_of self.new ≡ token_of self.old }
    {
        if closes {
            self.insert_and_pop_tag(tag)
        } else {
            self.insert_tag(tag)
        }
    }

    // An element of the token's tag in a namespace.
    fn insert_in_space(
        &mut self,
        space: Namespace,
        is_renamed: bool,
        closes: bool,
    ) -> Result<(), GrowError>
        ensures ok { OnOk result (builder_of self.new
            ≡ insert_foreign_element (space_of space)
            (renamed is_renamed (space_of space) (token_of self.old).tag) closes
            (builder_of self.old)) }
        ensures token { token_of self.new ≡ token_of self.old }
    {
        let tag = self.add_foreign_tag(space, is_renamed)?;
        self.insert_closed(tag, closes)
    }

    /// An element of the token's tag, which is `math` or `svg`.
    pub(crate) fn insert_foreign_element(
        &mut self,
        space: Namespace,
        closes: bool,
    ) -> Result<(), GrowError>
        ensures ok { OnOk result (builder_of self.new
            ≡ insert_foreign_element (space_of space) (token_of self.old).tag closes
            (builder_of self.old)) }
        ensures token { token_of self.new ≡ token_of self.old }
    {
        self.insert_in_space(space, false, closes)
    }

    // The namespace of the adjusted current node.
    fn adjusted_space(&self) -> Namespace
        ensures { space_of result ≡ (adjusted_current_node (builder_of self.now)).space }
    {
        self.path.store.tag(self.adjusted_tag()).space
    }

    /// An element in foreign content, in the namespace of the adjusted current node.
    pub(crate) fn insert_adjusted_element(&mut self, closes: bool) -> Result<(), GrowError>
        ensures ok { OnOk result (builder_of self.new
            ≡ insert_foreign_element (adjusted_current_node (builder_of self.old)).space
            (record (token_of self.old).tag {
              name = foreign_name (adjusted_current_node (builder_of self.old)).space
                  (token_of self.old).tag.name;
            })
            closes (builder_of self.old)) }
        ensures token { token_of self.new ≡ token_of self.old }
    {
        let space = self.adjusted_space();
        self.insert_in_space(space, true, closes)
    }
}
