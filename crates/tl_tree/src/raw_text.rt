//! Elements whose text has no markup (13.2.6.2), and the state of the tokenizer after a start tag.
ghost use Rattle.std.specs.Prelude.{OnOk, ◌≡◌};
ghost use Rattle.tl_dom_spec.specs.Builder.{parse_raw_text, parse_raw_text_at, state_inside, text_mode};
ghost use Rattle.tl_html_spec.specs.HtmlTokenizer.{after_start};
ghost use Rattle.tl_tree.specs.Inner.Builders.{builder_of, token_of};
ghost use Rattle.tl_tree.specs.Inner.Frames.{place_of};

use crate::builder::Builder;
use crate::error::GrowError;
use crate::frame::Place;
use crate::mode::Mode;
use crate::reads::{after_start, state_inside};

impl<'a> Builder<'a> {
    // The name of the token, where it is a start tag.
    fn tag_name(&self) -> &[u8]
        ensures { result.now ≡ (token_of self.now).tag.name }
    {
        let tag = self.path.store.tag(self.tag);
        self.path.store.bytes(tag.name)
    }

    /// The tokenizer goes on in the state after the start tag that the token is.
    pub(crate) fn read_after_start(&mut self)
        ensures ok { builder_of self.new
            ≡ record (builder_of self.old) { reads = after_start (token_of self.old).tag.name } }
        ensures token { token_of self.new ≡ token_of self.old }
    {
        self.reads = after_start(self.tag_name());
    }

    // The tokenizer goes on in the state inside the element of the token, and its text is awaited.
    fn enter_text(&mut self)
        ensures ok { builder_of self.new
            ≡ record (builder_of self.old) {
              reads = state_inside (token_of self.old).tag.name;
              original = (builder_of self.old).mode;
              mode = text_mode;
            } }
        ensures token { token_of self.new ≡ token_of self.old }
    {
        self.reads = state_inside(self.tag_name());
        self.original = self.mode;
        self.mode = Mode::Text;
    }

    /// Inserts an element for the token at a place, whose text has no markup.
    pub(crate) fn parse_raw_text_at(&mut self, place: Place) -> Result<(), GrowError>
        ensures ok { OnOk result (builder_of self.new
            ≡ parse_raw_text_at (place_of place) (token_of self.old).tag (builder_of self.old)) }
        ensures token { token_of self.new ≡ token_of self.old }
    {
        self.enter_text();
        self.insert_element_at(place)
    }

    /// Inserts an element for the token, whose text has no markup.
    pub(crate) fn parse_raw_text(&mut self) -> Result<(), GrowError>
        ensures ok { OnOk result
            (builder_of self.new ≡ parse_raw_text (token_of self.old).tag (builder_of self.old)) }
        ensures token { token_of self.new ≡ token_of self.old }
    {
        let place = self.appropriate_place();
        self.parse_raw_text_at(place)
    }
}
