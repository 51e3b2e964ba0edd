//! What the tree builder holds before a fragment is read (13.4).
ghost use Rattle.std.specs.Prelude.{IfOk, OnOk, codes, if◌then◌else◌, ◌∷◌, ◌≡◌};
ghost use Rattle.tl_dom_spec.specs.Builder.{in_template, insert_element};
ghost use Rattle.tl_dom_spec.specs.HtmlTree.{fragment_start};
ghost use Rattle.tl_dom_spec.specs.Tags.{bare_tag};
ghost use Rattle.tl_tree.specs.Contexts.{context_of};
ghost use Rattle.tl_tree.specs.Inner.Builders.{builder_of, flags_of, token_of};
ghost use Rattle.tl_tree.specs.Inner.Standing.{standing_in};

use crate::builder::{Builder, Flags};
use crate::context::Context;
use crate::error::GrowError;
use crate::mode::Mode;
use std::alloc::Global;

impl<'a> Builder<'a> {
    // The `html` element of which the children are those of the context element.
    fn insert_root(&mut self) -> Result<(), GrowError>
        ensures ok { OnOk result
            (builder_of self.new ≡ insert_element (bare_tag (codes "html")) (builder_of self.old)) }
        ensures token { token_of self.new ≡ token_of self.old }
    {
        let tag = self.add_bare_tag(b"html")?;
        self.insert_tag(tag)
    }

    // Puts a mode on the stack of template insertion modes, where the context is a template.
    fn enter_template(&mut self, is_template: bool) -> Result<(), GrowError>
        ensures ok { OnOk result (builder_of self.new
            ≡ record (builder_of self.old) {
              templates = if is_template then in_template ∷ (builder_of self.old).templates
                  else (builder_of self.old).templates;
            }) }
        ensures token { token_of self.new ≡ token_of self.old }
    {
        if is_template {
            return self.push_template_mode(Mode::InTemplate);
        }
        Ok(())
    }

    // What a fragment has before its first token, where the builder has read nothing yet.
    fn stand_in(&mut self, context: Context<'_>) -> Result<(), GrowError>
        ensures ok { OnOk result (builder_of self.new
            ≡ standing_in (context_of context.entry) (builder_of self.old)) }
        ensures page { (token_of self.new).page ≡ (token_of self.old).page }
    {
        self.insert_root()?;
        self.read_in(context)?;
        self.enter_template(context.is_template())?;
        self.set_form(context.is_in_form.then_some(0));
        self.set_quirks(context.is_quirks);
        self.reset_insertion_mode()
    }

    /// Before the first token of a fragment.
    pub(crate) fn for_fragment(
        alloc: Global,
        text: &'a [u8],
        context: Context<'_>,
        flags: Flags,
    ) -> Result<Builder<'a>, GrowError>
        ensures start { IfOk result (λ builder. builder_of builder
            ≡ fragment_start (flags_of flags) (context_of context.entry)) }
        ensures page { IfOk result (λ builder. (token_of builder).page ≡ text.now) }
    {
        let mut builder = Builder::new(alloc, text, flags)?;
        builder.stand_in(context)?;
        Ok(builder)
    }
}
