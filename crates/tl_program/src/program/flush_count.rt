//! What proofs know of the flushes of a writer. It takes no memory, and its methods do nothing at
//! run time.
ghost use Rattle.std.specs.Prelude.{◌≡◌, ◌+◌, ℕ, Bool, true, false};
ghost use Rattle.std.specs.Borrow.{ftrue};

use std::marker::Model;

/// How often a writer was flushed, and whether nothing was written to it since.
#[derive(Drop)]
pub(super) struct Flushes {
    pub ghost count: { ℕ },
    pub ghost is_last: { Bool },
}

impl Model for Flushes {
    ghost also_owns = { λ _. ftrue };
}

impl Flushes {
    /// None so far.
    pub(super) fn new() -> Flushes
        ensures { result ≡ record { count = 0; is_last = false } }
    {
        Flushes {}
    }

    /// Something is written.
    pub(super) fn note_write(&mut self)
        ensures { self.new ≡ record { count = self.old.count; is_last = false } }
    {}

    /// It is flushed.
    pub(super) fn note_flush(&mut self)
        ensures { self.new ≡ record { count = self.old.count + 1; is_last = true } }
    {}
}
