//! "initial" (13.2.6.4.1).
ghost use Rattle.std.specs.Prelude.{IfOk, OnOk, ◌≡◌};
ghost use Rattle.tl_dom_spec.specs.Builder.{before_html, switch_to};
ghost use Rattle.tl_dom_spec.specs.Head.{initial_step, without_doctype};
ghost use Rattle.tl_dom_spec.specs.Path.{and_doctype, here, no_nodes, put};
ghost use Rattle.tl_dom_spec.specs.Quirks.{is_quirky};
ghost use Rattle.tl_tree.specs.Inner.Builders.{builder_of, doctype_of, outcome_of, token_of, token_view};

use crate::builder::Builder;
use crate::cell::Node;
use crate::error::GrowError;
use crate::frame::Place;
use crate::mode::Mode;
use crate::outcome::Outcome;
use crate::quirks::is_quirky;
use crate::token::Token;

impl<'a> Builder<'a> {
    fn without_doctype(&mut self) -> Outcome
        ensures ok { outcome_of result (builder_of self.new)
            ≡ without_doctype (builder_of self.old) }
        ensures token { token_of self.new ≡ token_of self.old }
    {
        self.set_quirks(true);
        self.switch_to(Mode::BeforeHtml);
        Outcome::Again
    }

    // Puts the doctype that the token is in the document.
    fn doctype_inserted(&mut self) -> Result<(), GrowError>
        ensures ok { OnOk result (builder_of self.new
            ≡ record (builder_of self.old) {
              path = put here (and_doctype no_nodes (doctype_of (token_of self.old)))
                  (builder_of self.old).path;
            }) }
        ensures token { token_of self.new ≡ token_of self.old }
    {
        let doctype = self.doctype;
        let source = self.source;
        self.path
            .put(Place::Here, Node::Doctype { doctype, source })
    }

    fn is_doctype_quirky(&self) -> bool
        ensures { result ≡ is_quirky (token_of self.now).doctype }
    {
        is_quirky(&self.path.store, self.doctype)
    }

    /// The document is in quirks mode, or not.
    #[tactic(auto, unfolding(crate::specs::Inner::Builders::builder_of, crate::specs::Inner::Builders::token_of))]
    pub(crate) fn set_quirks(&mut self, is_quirks: bool)
        ensures ok { builder_of self.new
            ≡ record (builder_of self.old) { is_quirks = is_quirks } }
        ensures token { token_of self.new ≡ token_of self.old }
    {
        self.is_quirks = is_quirks;
    }

    // A doctype.
    fn initial_doctype(&mut self) -> Result<(), GrowError>
        ensures ok { OnOk result (builder_of self.new
            ≡ record (builder_of self.old) {
              path = put here (and_doctype no_nodes (doctype_of (token_of self.old)))
                  (builder_of self.old).path;
              is_quirks = is_quirky (token_of self.old).doctype;
              mode = before_html;
            }) }
        ensures token { token_of self.new ≡ token_of self.old }
    {
        self.doctype_inserted()?;
        let is_quirky = self.is_doctype_quirky();
        self.set_quirks(is_quirky);
        self.switch_to(Mode::BeforeHtml);
        Ok(())
    }

    pub(crate) fn initial(&mut self, token: Token<'_>) -> Result<Outcome, GrowError>
        ensures ok { IfOk result (λ outcome. outcome_of outcome (builder_of self.new)
            ≡ initial_step (builder_of self.old) (token_view token.entry (token_of self.old))) }
        ensures token { token_of self.new ≡ token_of self.old }
    {
        match token {
            Token::Character(byte) => {
                if byte.is_ascii_whitespace() {
                    return Ok(Outcome::Done);
                }
                Ok(self.without_doctype())
            }
            Token::Comment => self.comment_inserted(),
            Token::Doctype => {
                self.initial_doctype()?;
                Ok(Outcome::Done)
            }
            _ => Ok(self.without_doctype()),
        }
    }
}
