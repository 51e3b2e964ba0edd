//! A token, which is reprocessed as long as the rules say so (13.2.6).
ghost use Rattle.std.specs.Prelude.{IfOk, OnOk, ◌≡◌};
ghost use Rattle.tl_dom_spec.specs.Builder.{Again, repeated};
ghost use Rattle.tl_dom_spec.specs.Dispatcher.{bound, calm, dispatch, is_line_feed, marks_behind};
ghost use Rattle.tl_tree.specs.Inner.Builders.{Said, builder_of, token_of, token_view};
ghost use Rattle.tl_tree.specs.Inner.Taking.{is_skipped, taken, token_taken};

use crate::builder::Builder;
use crate::error::GrowError;
use crate::outcome::Outcome;
use crate::token::Token;

impl<'a> Token<'a> {
    fn is_line_feed(self) -> bool
        ensures { (said : Said) → result ≡ is_line_feed (token_view self.entry said) }
    {
        match self {
            Token::Character(byte) => byte == b'\n',
            _ => false,
        }
    }
}

impl<'a> Builder<'a> {
    // How often a token is reprocessed at most.
    fn bound(&self) -> Result<usize, GrowError>
        ensures { IfOk result (λ most. most ≡ bound (builder_of self.now)) }
    {
        let frames = self.path.frames.len() - self.path.gaps.count;
        if frames > u32::MAX as usize {
            return Err(GrowError::TooLarge);
        }
        Ok(8 + 2 * frames)
    }

    // Takes a token by the rules, again and again.
    #[inline(always)]
    fn process(&mut self, token: Token<'_>) -> Result<(), GrowError>
        ensures ok { OnOk result (builder_of self.new
            ≡ repeated (bound (builder_of self.old))
            (dispatch (token_view token.entry (token_of self.old)))
            (Again (calm (builder_of self.old)))) }
        ensures token { token_of self.new ≡ token_of self.old }
    {
        let mut left = self.bound()?;
        self.calm();
        while left > 0 {
            left -= 1;
            match self.dispatch(token)? {
                Outcome::Done => return Ok(()),
                Outcome::Again => {}
            }
        }
        Ok(())
    }

    // Whether a token is a line feed that is ignored.
    #[tactic(auto, unfolding(crate::specs::Inner::Builders::builder_of))]
    pub(crate) fn is_skipped(&self, token: Token<'_>) -> bool
        ensures { result
            ≡ is_skipped (builder_of self.now) (token_view token.entry (token_of self.now)) }
    {
        self.skips && token.is_line_feed()
    }

    // Takes a token by the rules, where it is no line feed that is skipped.
    #[inline(always)]
    fn take(&mut self, token: Token<'_>) -> Result<(), GrowError>
        ensures ok { OnOk result (builder_of self.new
            ≡ taken (builder_of self.old) (token_view token.entry (token_of self.old))) }
        ensures token { token_of self.new ≡ token_of self.old }
    {
        if self.is_skipped(token) {
            self.calm();
            return Ok(());
        }
        self.process(token)
    }

    // How many marks were taken, once this token is.
    #[tactic(auto, unfolding(crate::specs::Inner::Builders::builder_of))]
    fn marks_behind(&self, token: Token<'_>) -> Result<u32, GrowError>
        ensures { IfOk result (λ marks. marks
            ≡ marks_behind (builder_of self.now).marks
            (token_view token.entry (token_of self.now))) }
    {
        match token {
            Token::Character(_) | Token::EndOfFile => Ok(self.marks),
            _ => self.marks.checked_add(1).ok_or(GrowError::TooLarge),
        }
    }

    // How many marks were taken.
    fn set_marks(&mut self, marks: u32)
        ensures ok { builder_of self.new ≡ record (builder_of self.old) { marks = marks } }
        ensures token { token_of self.new ≡ token_of self.old }
    {
        self.marks = marks;
    }

    /// Takes a token, where a mark has its number already.
    #[inline(always)]
    pub(crate) fn take_token(&mut self, token: Token<'_>) -> Result<(), GrowError>
        ensures ok { OnOk result (builder_of self.new
            ≡ token_taken (builder_of self.old) (token_view token.entry (token_of self.old))) }
        ensures token { token_of self.new ≡ token_of self.old }
    {
        let marks = self.marks_behind(token)?;
        self.take(token)?;
        self.set_marks(marks);
        self.count_token()
    }
}
