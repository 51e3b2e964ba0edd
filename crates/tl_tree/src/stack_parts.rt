//! What rules ask of the stack of open elements, and change in it.
ghost use Rattle.std.specs.Prelude.{◌≡◌};
ghost use Rattle.tl_dom_spec.specs.Body.{body_number, from_html};
ghost use Rattle.tl_dom_spec.specs.Builder.{is_only, with_path};
ghost use Rattle.tl_dom_spec.specs.Path.{elements};
ghost use Rattle.tl_tree.specs.Inner.Builders.{builder_of, token_of};

use crate::builder::Builder;

impl<'a> Builder<'a> {
    /// Whether one element alone is open.
    #[tactic(auto, unfolding(crate::specs::Inner::Builders::builder_of))]
    pub(crate) fn is_only_element(&self) -> bool
        ensures { result ≡ is_only (elements (builder_of self.now).path) }
    {
        self.path.is_only()
    }

    /// The number of the second open element, where it is a `body`.
    #[tactic(auto, unfolding(crate::specs::Inner::Builders::builder_of))]
    pub(crate) fn body_number(&self) -> Option<u32>
        ensures { result ≡ body_number (elements (builder_of self.now).path) }
    {
        self.path.body_number()
    }

    /// What stands inside of the `html` element is no part of the tree any more.
    pub(crate) fn cut_to_html(&mut self)
        ensures ok { builder_of self.new
            ≡ with_path (builder_of self.old) (from_html (builder_of self.old).path) }
        ensures token { token_of self.new ≡ token_of self.old }
    {
        self.path.cut_to_html();
    }
}
