//! How many tokens were taken, and how many elements were put in that no start tag stands for.
ghost use Rattle.std.specs.Prelude.{OnOk, if◌then◌else◌, nat_lt, ◌*◌, ◌-◌, ◌≡◌};
ghost use Rattle.tl_dom_spec.specs.Dispatcher.{count_token};
ghost use Rattle.tl_tree.specs.Inner.Builders.{builder_of, token_of};

use crate::builder::Builder;
use crate::error::GrowError;

// By how many elements were added beyond four for each token, where that was most.
fn excess_after(excess: u32, added: u32, tokens: u32) -> u32
    ensures { result
        ≡ (if nat_lt excess (added - 4 * tokens) then added - 4 * tokens else excess) }
{
    let beyond = u64::from(added).saturating_sub(4 * u64::from(tokens)) as u32;
    if excess < beyond { beyond } else { excess }
}

impl<'a> Builder<'a> {
    /// A token more was taken.
    pub(crate) fn count_token(&mut self) -> Result<(), GrowError>
        ensures ok { OnOk result (builder_of self.new ≡ count_token (builder_of self.old)) }
        ensures token { token_of self.new ≡ token_of self.old }
    {
        if self.tokens == u32::MAX {
            return Err(GrowError::TooLarge);
        }
        self.tokens += 1;
        self.excess = excess_after(self.excess, self.added, self.tokens);
        Ok(())
    }
}
