//! Sources and sinks over the readers and writers of the standard library.

ghost use Rattle.std.specs.Prelude.{◌≡◌, ◌≢◌, ℕ, ◌<◌, None, Some, IsErr, IfErr, option_and_then, length};
ghost use Rattle.std.specs.Io.{ReadsAtMost};
ghost use Rattle.std.specs.IoError.{error_kind};
ghost use Rattle.std.specs.Io.KnownBytes.{ReadConsumes};
ghost use Rattle.braid_io.specs.Causes.{HasCause};

use crate::streams::{Failed, Sink, Source};
use std::io::{self, ErrorKind, Read, Write};

/// A source over any reader, or over none.
///
/// It tells the bytes left where its reader does. A file or a stream of the system tells none.
#[derive(Drop)]
pub struct StdSource<R> {
    reader: Option<R>,
    faults: u64,
}

impl<R: Read> StdSource<R> {
    /// A source over this reader, without a fault.
    pub fn new(reader: R) -> StdSource<R>
        ensures reader { result.reader ≡ Some reader }
        ensures faults { result.faults ≡ 0 }
    {
        StdSource {
            reader: Some(reader),
            faults: 0,
        }
    }

    /// A source that could not be opened. Each of its reads fails, and it stays unopened.
    pub fn unopened() -> StdSource<R>
        ensures reader { result.reader ≡ None }
        ensures faults { result.faults ≡ 0 }
    {
        StdSource {
            reader: None,
            faults: 0,
        }
    }
}

impl<R: Read> Source for StdSource<R> {
    ghost left = { λ s. option_and_then R.remaining s.reader };

    ghost faults = { λ s. s.faults };

    /// A read that was interrupted is tried again and is no fault.
    fn read(&mut self, into: &mut [u8]) -> Result<usize, Failed>
        requires { 0 < length into.old }
        ensures bound { ReadsAtMost result into.new }
        ensures bytes { ReadConsumes (option_and_then R.remaining self.old.reader) (option_and_then R.remaining self.new.reader) result into.new }
        ensures cause { HasCause self.old.faults self.new.faults result }
        ensures unopened { self.old.reader ≡ None → IsErr result × (self.new.reader ≡ None) }
    {
        if let Some(reader) = &mut self.reader {
            if let Ok(count) = read_uninterrupted(reader, into) {
                return Ok(count);
            }
        }
        self.faults = self.faults.saturating_add(1);
        Err(Failed)
    }
}

/// One read, tried again where it was interrupted, up to 2^64-1 times in all.
fn read_uninterrupted<R: Read>(reader: &mut R, into: &mut [u8]) -> io::Result<usize>
    ensures bound { ReadsAtMost result into.new }
    ensures bytes { ReadConsumes (R.remaining reader.old) (R.remaining reader.new) result into.new }
    ensures length { length into.new ≡ length into.old }
    ensures retried { IfErr result (λ error. error_kind error ≢ ErrorKind.Interrupted) }
{
    for _ in 0..u64::MAX {
        match reader.read(into) {
            Ok(count) => return Ok(count),
            Err(error) => {
                if error.kind() != ErrorKind::Interrupted {
                    return Err(error);
                }
            }
        }
    }
    Err(io::Error::from(ErrorKind::TimedOut))
}

/// A sink over any writer.
///
/// It tells the bytes written where its writer does. A file or a stream of the system tells none.
#[derive(Drop)]
pub struct StdSink<W> {
    writer: W,
    faults: u64,
}

impl<W: Write> StdSink<W> {
    /// A sink over this writer, without a fault.
    pub fn new(writer: W) -> StdSink<W>
        ensures writer { result.writer ≡ writer }
        ensures faults { result.faults ≡ 0 }
    {
        StdSink { writer, faults: 0 }
    }
}

impl<W: Write> Sink for StdSink<W> {
    ghost written = { λ s. W.contents s.writer };

    ghost faults = { λ s. s.faults };

    /// A writer that takes nothing of a piece has had a fault.
    fn write(&mut self, piece: &[u8]) -> Result<usize, Failed> {
        match self.writer.write(piece) {
            Ok(0) | Err(_) => {
                self.faults = self.faults.saturating_add(1);
                Err(Failed)
            }
            Ok(count) => Ok(count),
        }
    }
}
