//! Where each character of a text does the same, so that no first one is taken by itself.
ghost use Rattle.std.specs.Prelude.{nat_le, not, ◌&&◌, ◌*◌, ◌+◌, ◌≡◌};
ghost use Rattle.tl_tree.specs.Inner.AtRest.{is_at_rest, is_rebuilt, is_text, rests, takes_body};
ghost use Rattle.tl_tree.specs.Inner.Builders.{builder_of};
ghost use Rattle.tl_tree.specs.Inner.Modes.{mode_of};

use crate::builder::Builder;
use crate::mode::Mode;
use crate::token::Token;

fn is_text(mode: Mode) -> bool
    ensures { result ≡ is_text (mode_of mode) }
{
    match mode {
        Mode::Text => true,
        _ => false,
    }
}

// Whether characters go by the rules of "in body".
fn takes_body(mode: Mode) -> bool
    ensures { result ≡ takes_body (mode_of mode) }
{
    match mode {
        Mode::InBody | Mode::InCaption | Mode::InCell | Mode::InTemplate => true,
        _ => false,
    }
}

// Whether so many elements were put in that a further token makes the excess no greater.
fn is_counted(added: u32, tokens: u32, excess: u32) -> bool
    ensures { result ≡ nat_le added (4 * tokens + excess) }
{
    u64::from(added) <= 4 * u64::from(tokens) + u64::from(excess)
}

impl<'a> Builder<'a> {
    // Whether no active formatting element is to be opened again.
    fn is_rebuilt(&self) -> bool
        ensures { result ≡ is_rebuilt (builder_of self.now) }
    {
        match self.active.latest() {
            Some(number) => self.path.is_open_number(number),
            None => true,
        }
    }

    #[tactic(auto, unfolding(crate::specs::Inner::Builders::builder_of))]
    fn rests(&self) -> bool
        ensures { result
            ≡ rests (builder_of self.now).mode
            (not (builder_of self.now).is_frameset_ok && is_rebuilt (builder_of self.now)) }
    {
        is_text(self.mode) || (takes_body(self.mode) && !self.is_frameset_ok && self.is_rebuilt())
    }

    /// Whether each character of a text does the same.
    #[tactic(auto, unfolding(crate::specs::Inner::Builders::builder_of))]
    pub(crate) fn is_at_rest(&self) -> bool
        ensures { result ≡ is_at_rest (builder_of self.now) }
    {
        !self.skips
            && self.rests()
            && is_counted(self.added, self.tokens, self.excess)
            && self.is_html_content(Token::Character(0))
    }
}
