//! Readers and writers that remember a failure.
//!
//! They pass calls on by contract: `Reader` and `Writer` name what one call may do, as a relation
//! that an `impl` gives, so the clauses refuse a call that is left out, made twice, or answered
//! otherwise. Each reader and writer of std is one, by a body of one call, of which that is tested,
//! since std's contracts leave open what it answers.
ghost use Rattle.std.specs.Prelude.{◌≡◌, true, false};

mod input;
mod output;

use super::flush_count::Flushes;
use super::streams::Fault;
use std::marker::Model;

/// A reader or a writer that remembers whether it has failed.
#[derive(Drop)]
pub struct Marked<T> {
    inner: T,
    has_failed: bool,
    flushes: Flushes,
}

/// What it wraps, whether it has failed, and of a writer its flushes.
impl<T> Model for Marked<T> {
    ghost use Rattle.tl_program.specs.Marks.{Marks};

    ghost Value = { Marks T };

    ghost view = { λ m. record {
      inner = m.inner;
      has_failed = m.has_failed;
      flushes = m.flushes.count;
      is_flushed = m.flushes.is_last;
    } };
}

impl<T> Marked<T> {
    /// One that has not failed, and was not flushed.
    pub fn new(inner: T) -> Self
        ensures { result
            ≡ record { inner = inner; has_failed = false; flushes = 0; is_flushed = false } }
    {
        Marked {
            inner,
            has_failed: false,
            flushes: Flushes::new(),
        }
    }

    /// What it wraps.
    pub fn into_inner(self) -> T
        ensures { result ≡ self.inner }
    {
        self.inner
    }

    // A fault, which it remembers.
    fn fault(&mut self) -> Fault
        ensures { self.new ≡ record self.old { has_failed = true } }
    {
        self.has_failed = true;
        Fault
    }
}
