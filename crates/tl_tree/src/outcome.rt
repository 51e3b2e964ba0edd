//! What becomes of a token.
ghost use Rattle.std.specs.Prelude.{◌≡◌};
ghost use Rattle.tl_tree.specs.Inner.Outcomes.{after};

use crate::error::GrowError;

/// A token is done with, or is reprocessed.
#[derive(Clone, Copy)]
pub(crate) enum Outcome {
    Done,
    Again,
}

impl Outcome {
    /// This one, once something was done.
    #[inline(always)]
    pub(crate) fn after(self, done: Result<(), GrowError>) -> Result<Outcome, GrowError>
        ensures { result ≡ after self done }
    {
        done?;
        Ok(self)
    }
}
