//! `Marked` as what is read from.
ghost use Rattle.std.specs.Prelude.{◌≡◌, ◌||◌, is_err};
ghost use Rattle.std.specs.Io.{ReadsAtMost};
ghost use Rattle.std.specs.Io.KnownBytes.{ReadConsumes};

use super::Marked;
use crate::program::std_streams::Reader;
use crate::program::streams::{Fault, Input};

impl<T: Reader> Input for Marked<T> {
    ghost seen = { λ m. record { left = T.left m.inner; has_failed = m.has_failed } };

    fn read(&mut self, buffer: &mut [u8]) -> Result<usize, Fault>
        ensures bound { ReadsAtMost result buffer.new }
        ensures bytes { ReadConsumes (T.left self.old.inner)
            (T.left self.new.inner) result buffer.new }
        ensures marks { self.new.has_failed ≡ (self.old.has_failed || is_err result) }
        // It answers what one call of the wrapped reader answers.
        ensures one { T.reads self.old.inner buffer.old result buffer.new self.new.inner }
    {
        match self.inner.read_once(buffer) {
            Ok(n) => Ok(n),
            Err(Fault) => Err(self.fault()),
        }
    }

    fn failed(&self) -> bool {
        self.has_failed
    }
}
