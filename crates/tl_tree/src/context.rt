//! The element that a fragment is read in (13.4).
ghost use Rattle.std.specs.Prelude.{◌≡◌};
ghost use Rattle.tl_dom_spec.specs.HtmlTree.{context_state, is_raw_in};
ghost use Rattle.tl_dom_spec.specs.Tags.{is_template};
ghost use Rattle.tl_html_tokens.specs.Modes.{state_of};
ghost use Rattle.tl_tree.specs.Contexts.{tag_in};
ghost use Rattle.tl_tree.specs.Inner.Builders.{flags_of};

use crate::builder::Flags;
use crate::entries::Namespace;
use crate::names::Names;
use crate::test::{is_any, is_one_of};
use tl_html_tokens::Mode;
use tl_names::element_name::ElementName;
use tl_names::elements::{RAWTEXT_NAMES, RCDATA_NAMES};
use tl_names::is_among;

/// The element that a fragment is read in. Any is read in, also one that no page has.
#[derive(Clone, Copy)]
pub struct Context<'c> {
    pub namespace: Namespace,
    /// Its name, as a tree has it: names of HTML in lower case.
    pub name: &'c [u8],
    /// Keys and values of its attributes. The encoding of an `annotation-xml` is looked at, and no
    /// other.
    pub attributes: &'c [(&'c [u8], &'c [u8])],
    /// Whether it is a `form`, or stands in one.
    pub is_in_form: bool,
    /// Whether its document is in quirks mode.
    pub is_quirks: bool,
}

impl<'c> Context<'c> {
    pub(crate) fn is_template(&self) -> bool
        ensures { result ≡ is_template (tag_in self.now) }
    {
        is_any(Names::Template, self.namespace, ElementName::of(self.name))
    }

    // Whether its text has no markup and no references, where it is an element of HTML.
    fn is_raw(&self, flags: Flags) -> bool
        ensures { result ≡ is_raw_in (flags_of flags) (tag_in self.now) }
    {
        is_among(&RAWTEXT_NAMES, self.name)
            || is_one_of(b"script plaintext", self.name)
            || (flags.is_scripting && is_one_of(b"noscript", self.name))
    }

    /// How the tokenizer begins in it: no end tag ends its text there.
    pub(crate) fn mode(&self, flags: Flags) -> Mode
        ensures { state_of result ≡ context_state (flags_of flags) (tag_in self.now) }
    {
        if !self.namespace.is_html() {
            Mode::Data
        } else if is_among(&RCDATA_NAMES, self.name) {
            Mode::ContextText
        } else if self.is_raw(flags) {
            Mode::Plaintext
        } else {
            Mode::Data
        }
    }
}
