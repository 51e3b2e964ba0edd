//! `Marked` as what is written to.
ghost use Rattle.std.specs.Prelude.{◌≡◌, ◌<◌, ◌+◌, ◌||◌, ◌⊎◌, false, is_ok, is_err, if◌then◌else◌, length, IfOk, IfErr, Ok, Err};
ghost use Rattle.std.specs.Io.{WritesAtMost};
ghost use Rattle.std.specs.Io.KnownBytes.{Keeps, WriteAppends};

use super::Marked;
use crate::program::std_streams::Writer;
use crate::program::streams::{Fault, Output};

impl<T: Writer> Output for Marked<T> {
    ghost seen = { λ m. record {
      holds = T.holds m.inner;
      has_failed = m.has_failed;
      flushes = m.flushes;
      is_flushed = m.is_flushed;
    } };

    fn write(&mut self, bytes: &[u8]) -> Result<usize, Fault>
        ensures bound { WritesAtMost result bytes.now }
        ensures takes { 0 < length bytes.now → IfOk result (λ n. 0 < n) }
        ensures bytes { WriteAppends (T.holds self.old.inner)
            (T.holds self.new.inner) result bytes.now }
        ensures marks { self.new.has_failed ≡ (self.old.has_failed || is_err result) }
        ensures counts { self.new.flushes ≡ self.old.flushes }
        ensures unflushed { self.new.is_flushed ≡ false }
        // It answers what one call of the wrapped writer answers, but a fault where that took none
        // of the bytes.
        ensures ok { IfOk result (λ n. T.writes self.old.inner bytes.now (Ok n) self.new.inner) }
        ensures fault { IfErr result (λ e. T.writes self.old.inner bytes.now (Err e) self.new.inner
            ⊎ ((0 < length bytes.now)
            × T.writes self.old.inner bytes.now (Ok 0) self.new.inner)) }
    {
        self.flushes.note_write();
        match self.inner.write_once(bytes) {
            Ok(n) if n > 0 || bytes.is_empty() => Ok(n),
            _ => Err(self.fault()),
        }
    }

    fn flush(&mut self) -> Result<(), Fault>
        ensures bytes { Keeps (T.holds self.old.inner) (T.holds self.new.inner) }
        ensures marks { self.new.has_failed ≡ (self.old.has_failed || is_err result) }
        ensures counts { self.new.flushes
            ≡ (if is_ok result then self.old.flushes + 1 else self.old.flushes) }
        ensures flushed { self.new.is_flushed ≡ (self.old.is_flushed || is_ok result) }
        // It answers what one call of the wrapped writer answers.
        ensures one { T.flushes self.old.inner result self.new.inner }
    {
        match self.inner.flush_once() {
            Ok(()) => {
                self.flushes.note_flush();
                Ok(())
            }
            Err(Fault) => Err(self.fault()),
        }
    }

    fn failed(&self) -> bool {
        self.has_failed
    }
}
