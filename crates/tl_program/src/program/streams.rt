//! What is read from and written to, and how either fails.
ghost use Rattle.std.specs.Prelude.{◌≡◌, ◌+◌, false, length, ◌<◌, ◌||◌, is_ok, is_err, if◌then◌else◌, IfOk};
ghost use Rattle.std.specs.Io.{ReadsAtMost, WritesAtMost};
ghost use Rattle.std.specs.Io.KnownBytes.{Keeps, ReadConsumes, WriteAppends};
ghost use Rattle.tl_program.specs.Streams.{Reading, Writing};

/// A read or a write failed. It carries no cause.
#[derive(Clone, Copy, PartialEq, Eq, Debug)]
pub struct Fault;

/// What is read from.
pub trait Input {
    /// What is seen of it: the bytes that it has left, and whether a call of it has answered a
    /// fault.
    ghost seen: { Self → Reading };

    /// Reads some bytes, and none only at the end.
    fn read(&mut self, buffer: &mut [u8]) -> Result<usize, Fault>
        ensures bound { ReadsAtMost result buffer.new }
        ensures bytes { ReadConsumes (seen self.old).left (seen self.new).left result buffer.new }
        ensures marks { (seen self.new).has_failed
            ≡ ((seen self.old).has_failed || is_err result) };

    /// Whether a call of it has answered a fault.
    fn failed(&self) -> bool
        ensures { result ≡ (seen self.now).has_failed };
}

/// What is written to.
pub trait Output {
    /// What is seen of it: the bytes that it holds, whether a call of it has answered a fault, and
    /// its flushes.
    ghost seen: { Self → Writing };

    /// Writes the bytes up to some place, and at least one of them.
    fn write(&mut self, bytes: &[u8]) -> Result<usize, Fault>
        ensures bound { WritesAtMost result bytes.now }
        ensures takes { 0 < length bytes.now → IfOk result (λ n. 0 < n) }
        ensures bytes { WriteAppends (seen self.old).holds (seen self.new).holds result bytes.now }
        ensures marks { (seen self.new).has_failed
            ≡ ((seen self.old).has_failed || is_err result) }
        ensures counts { (seen self.new).flushes ≡ (seen self.old).flushes }
        ensures unflushed { (seen self.new).is_flushed ≡ false };

    /// Passes on what it holds back.
    fn flush(&mut self) -> Result<(), Fault>
        ensures bytes { Keeps (seen self.old).holds (seen self.new).holds }
        ensures marks { (seen self.new).has_failed
            ≡ ((seen self.old).has_failed || is_err result) }
        ensures counts { (seen self.new).flushes
            ≡ (if is_ok result then (seen self.old).flushes + 1 else (seen self.old).flushes) }
        ensures flushed { (seen self.new).is_flushed
            ≡ ((seen self.old).is_flushed || is_ok result) };

    /// Whether a call of it has answered a fault.
    fn failed(&self) -> bool
        ensures { result ≡ (seen self.now).has_failed };
}
