//! What a source and a sink promise.

ghost use Rattle.std.specs.Prelude.{ℕ, ◌<◌, List, Option, length, IfOk};
ghost use Rattle.std.specs.Io.{ReadsAtMost, WritesAtMost};
ghost use Rattle.std.specs.Io.KnownBytes.{ReadConsumes, WriteAppends};
ghost use Rattle.braid_io.specs.Causes.{HasCause};

/// A read or a write had a fault. Nothing was moved by it.
#[derive(Clone, Copy, Debug, PartialEq)]
pub struct Failed;

/// Where bytes come from.
pub trait Source {
    /// The bytes left, where they are told.
    ghost left: { Self → Option (List ℕ) };

    /// How often a read has had a fault, up to `2^64-1`. It never falls.
    ghost faults: { Self → ℕ };

    /// Moves the first bytes left into the front of `into`, and answers how many.
    ///
    /// Where the bytes left are told, the answer is 0 only at their end. `Failed` comes only where
    /// the count of faults rose, and then the bytes left are as they were.
    fn read(&mut self, into: &mut [u8]) -> Result<usize, Failed>
        requires { 0 < length into.old }
        ensures bound { ReadsAtMost result into.new }
        ensures bytes { ReadConsumes (left self.old) (left self.new) result into.new }
        ensures cause { HasCause (faults self.old) (faults self.new) result };
}

/// Where bytes go.
pub trait Sink {
    /// The bytes written, where they are told.
    ghost written: { Self → Option (List ℕ) };

    /// How often a write has had a fault, up to `2^64-1`. It never falls.
    ghost faults: { Self → ℕ };

    /// Appends the first bytes of `piece`, at least one, and answers how many.
    ///
    /// `Failed` comes only where the count of faults rose, and then nothing is appended.
    fn write(&mut self, piece: &[u8]) -> Result<usize, Failed>
        requires { 0 < length piece.now }
        ensures some { IfOk result (λ n. 0 < n) }
        ensures bound { WritesAtMost result piece.now }
        ensures bytes { WriteAppends (written self.old) (written self.new) result piece.now }
        ensures cause { HasCause (faults self.old) (faults self.new) result };
}
