//! What `Marked` wraps. A contract can tell what one call of it did, which those of std leave open.
ghost use Rattle.std.specs.Prelude.{ℕ, List, Option, Result};
ghost use Rattle.std.specs.Io.{ReadsAtMost, WritesAtMost};
ghost use Rattle.std.specs.Io.KnownBytes.{Keeps, ReadConsumes, WriteAppends};
ghost use Rattle.tl_program.specs.declared.program.streams.Fault.{Fault};

use super::streams::Fault;
use std::io::{Read, Write};

/// What is read from by single calls. Each reader of std is one.
pub trait Reader {
    /// The bytes that it has left, where it tells them.
    ghost left: { Self → Option (List ℕ) };

    /// What one call may do: of a reader and the bytes of the buffer it makes an answer, bytes and
    /// a reader.
    ghost reads: { Self → List ℕ → Result ℕ Fault → List ℕ → Self → Type 0 };

    /// Reads by one call.
    fn read_once(&mut self, buffer: &mut [u8]) -> Result<usize, Fault>
        ensures bound { ReadsAtMost result buffer.new }
        ensures bytes { ReadConsumes (left self.old) (left self.new) result buffer.new }
        ensures one { reads self.old buffer.old result buffer.new self.new };
}

/// What is written to by single calls. Each writer of std is one.
pub trait Writer {
    /// The bytes that it holds, where it tells them.
    ghost holds: { Self → Option (List ℕ) };

    /// What one call of `write_once` may do: of a writer and bytes it makes an answer and a writer.
    ghost writes: { Self → List ℕ → Result ℕ Fault → Self → Type 0 };

    /// What one call of `flush_once` may do.
    ghost flushes: { Self → Result (Unit {0}) Fault → Self → Type 0 };

    /// Writes by one call.
    fn write_once(&mut self, bytes: &[u8]) -> Result<usize, Fault>
        ensures bound { WritesAtMost result bytes.now }
        ensures bytes { WriteAppends (holds self.old) (holds self.new) result bytes.now }
        ensures one { writes self.old bytes.now result self.new };

    /// Flushes by one call.
    fn flush_once(&mut self) -> Result<(), Fault>
        ensures bytes { Keeps (holds self.old) (holds self.new) }
        ensures one { flushes self.old result self.new };
}

impl<T: Read> Reader for T {
    ghost left = { T.remaining };

    ghost reads = { λ old before answer after new.
        ReadsAtMost answer after × ReadConsumes (T.remaining old) (T.remaining new) answer after };

    fn read_once(&mut self, buffer: &mut [u8]) -> Result<usize, Fault> {
        match self.read(buffer) {
            Ok(n) => Ok(n),
            Err(_) => Err(Fault),
        }
    }
}

impl<T: Write> Writer for T {
    ghost holds = { T.contents };

    ghost writes = { λ old bytes answer new.
        WritesAtMost answer bytes × WriteAppends (T.contents old) (T.contents new) answer bytes };

    ghost flushes = { λ old answer new. Keeps (T.contents old) (T.contents new) };

    fn write_once(&mut self, bytes: &[u8]) -> Result<usize, Fault> {
        match self.write(bytes) {
            Ok(n) => Ok(n),
            Err(_) => Err(Fault),
        }
    }

    fn flush_once(&mut self) -> Result<(), Fault> {
        match self.flush() {
            Ok(()) => Ok(()),
            Err(_) => Err(Fault),
        }
    }
}
