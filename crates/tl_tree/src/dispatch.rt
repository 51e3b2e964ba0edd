//! The tree construction dispatcher (13.2.6).
ghost use Rattle.std.specs.Prelude.{IfOk, IsTrue, codes, ◌≡◌};
ghost use Rattle.tl_dom_spec.specs.Builder.{adjusted_current_node};
ghost use Rattle.tl_dom_spec.specs.Dispatcher.{dispatch, html_step, is_html_content, is_svg_start, mode_step};
ghost use Rattle.tl_html_spec.specs.Balanced.{is_one_of};
ghost use Rattle.tl_tree.specs.Inner.Builders.{builder_of, outcome_of, token_of, token_view};
ghost use Rattle.tl_tree.specs.Inner.GroupNames.{group_view as group_of};
ghost use Rattle.tl_tree.specs.Inner.Modes.{mode_of};
ghost use Rattle.tl_tree.specs.Inner.Store.{is_tag_number, tag_at};

use crate::builder::Builder;
use crate::error::GrowError;
use crate::group::Group;
use crate::integration::{
    is_annotation, is_html, is_html_integration_point, is_text_integration_point,
};
use crate::mode::Mode;
use crate::outcome::Outcome;
use crate::token::Token;
use tl_names::class::Class;

fn is_svg_start(group: Group) -> bool
    ensures { result ≡ is_svg_start (group_of group) }
{
    match group {
        Group::AnSvg => true,
        _ => false,
    }
}

impl<'a> Builder<'a> {
    /// The tag of the adjusted current node.
    pub(crate) fn adjusted_tag(&self) -> u32
        ensures stands { tag_at self.now.path.store result
            ≡ adjusted_current_node (builder_of self.now) }
        ensures within { IsTrue (is_tag_number self.now.path.store result) }
    {
        match self.context {
            Some(tag) => {
                if self.path.is_only() {
                    tag
                } else {
                    self.path.top().tag
                }
            }
            None => self.path.top().tag,
        }
    }

    // Whether the token is a start tag that begins a mark of `math`.
    fn is_mark(&self) -> bool
        ensures { result ≡ is_one_of (codes "mglyph malignmark") (token_of self.now).tag.name }
    {
        let own = self.path.store.tag(self.tag);
        own.known.is(Class::MathGlyph)
    }

    // Whether a token goes to the insertion mode, where the adjusted current node has this tag.
    #[inline(always)]
    fn is_html_content_at(&self, tag: u32, token: Token<'_>) -> bool
        requires { IsTrue (is_tag_number self.now.path.store tag) }
        ensures { result ≡ is_html_content (tag_at self.now.path.store tag)
            (token_view token.entry (token_of self.now)) }
    {
        let store = &self.path.store;
        if is_html(store, tag) {
            return true;
        }
        match token {
            Token::Character(_) => {
                is_text_integration_point(store, tag) || is_html_integration_point(store, tag)
            }
            Token::Start { group, closes: _ } => {
                is_html_integration_point(store, tag)
                    || (is_text_integration_point(store, tag) && !self.is_mark())
                    || (is_annotation(store, tag) && is_svg_start(group))
            }
            Token::EndOfFile => true,
            _ => false,
        }
    }

    /// Whether a token goes to the insertion mode.
    #[inline(always)]
    pub(crate) fn is_html_content(&self, token: Token<'_>) -> bool
        ensures { result ≡ is_html_content (adjusted_current_node (builder_of self.now))
            (token_view token.entry (token_of self.now)) }
    {
        self.is_html_content_at(self.adjusted_tag(), token)
    }

    // By the rules of an insertion mode.
    #[inline(never)]
    fn any_step(&mut self, mode: Mode, token: Token<'_>) -> Result<Outcome, GrowError>
        ensures ok { IfOk result (λ outcome. outcome_of outcome (builder_of self.new)
            ≡ mode_step (mode_of mode) (builder_of self.old)
            (token_view token.entry (token_of self.old))) }
        ensures token { token_of self.new ≡ token_of self.old }
    {
        match mode {
            Mode::Initial => self.initial(token),
            Mode::BeforeHtml => self.before_html(token),
            Mode::BeforeHead => self.before_head(token),
            Mode::InHead => self.in_head(token),
            Mode::InHeadNoscript => self.in_head_noscript(token),
            Mode::AfterHead => self.after_head(token),
            Mode::InBody => self.in_body(token),
            Mode::Text => self.in_text(token),
            Mode::InTable => self.in_table(token),
            Mode::InTableText => self.in_table_text(token),
            Mode::InCaption => self.in_caption(token),
            Mode::InColumnGroup => self.in_column_group(token),
            Mode::InTableBody => self.in_table_body(token),
            Mode::InRow => self.in_row(token),
            Mode::InCell => self.in_cell(token),
            Mode::InTemplate => self.in_template(token),
            Mode::AfterBody => self.after_body(token),
            Mode::InFrameset => self.in_frameset(token),
            Mode::AfterFrameset => self.after_frameset(token),
            Mode::AfterAfterBody => self.after_after_body(token),
            Mode::AfterAfterFrameset => self.after_after_frameset(token),
        }
    }

    // By the rules of an insertion mode. Those of "in body" are known where this is called.
    #[inline(always)]
    fn mode_step(&mut self, mode: Mode, token: Token<'_>) -> Result<Outcome, GrowError>
        ensures ok { IfOk result (λ outcome. outcome_of outcome (builder_of self.new)
            ≡ mode_step (mode_of mode) (builder_of self.old)
            (token_view token.entry (token_of self.old))) }
        ensures token { token_of self.new ≡ token_of self.old }
    {
        match mode {
            Mode::InBody => self.in_body(token),
            _ => self.any_step(mode, token),
        }
    }

    /// By the rules of the current insertion mode.
    #[inline(always)]
    pub(crate) fn html_step(&mut self, token: Token<'_>) -> Result<Outcome, GrowError>
        ensures ok { IfOk result (λ outcome. outcome_of outcome (builder_of self.new)
            ≡ html_step (builder_of self.old) (token_view token.entry (token_of self.old))) }
        ensures token { token_of self.new ≡ token_of self.old }
    {
        let mode = self.mode;
        self.mode_step(mode, token)
    }

    /// Takes a token by the rules that it goes to.
    #[inline(always)]
    pub(crate) fn dispatch(&mut self, token: Token<'_>) -> Result<Outcome, GrowError>
        ensures ok { IfOk result (λ outcome. outcome_of outcome (builder_of self.new)
            ≡ dispatch (token_view token.entry (token_of self.old)) (builder_of self.old)) }
        ensures token { token_of self.new ≡ token_of self.old }
    {
        if self.is_html_content(token) {
            self.html_step(token)
        } else {
            self.foreign_step(token)
        }
    }
}
