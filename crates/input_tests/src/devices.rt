//! Devices that follow a script.

ghost use Rattle.std.specs.Prelude.{◌≤◌, IfOk};

use braid_io::{Sink, Source, StdSink, StdSource};
use std::alloc::{AllocError, Global};
use std::io::{self, ErrorKind, Read, Write};

/// A device that answers each call by the next letter of its script: `i` that it was interrupted, a digit how many bytes it moved, and any other that it
/// failed.
#[derive(Drop)]
pub struct Device {
    script: String,
    next: usize,
}

impl Device {
    fn answer(&mut self, room: usize) -> io::Result<usize>
        ensures { IfOk result (λ n. n ≤ room) }
    {
        let letter = self.script.as_bytes().get(self.next).copied();
        self.next = self.next.saturating_add(1);
        match letter {
            Some(b'i') => Err(io::Error::from(ErrorKind::Interrupted)),
            Some(b'0') => Ok(0),
            Some(b'3') => Ok(room.min(3)),
            _ => Err(io::Error::from(ErrorKind::BrokenPipe)),
        }
    }
}

impl Read for Device {
    fn read(&mut self, buf: &mut [u8]) -> io::Result<usize> {
        self.answer(buf.len())
    }
}

impl Write for Device {
    fn write(&mut self, buf: &[u8]) -> io::Result<usize> {
        self.answer(buf.len())
    }

    fn flush(&mut self) -> io::Result<()> {
        Ok(())
    }
}

/// A device with this script.
pub fn scripted(alloc: Global, script: &str) -> Result<Device, AllocError> {
    Ok(Device {
        script: String::from_str(alloc, script)?,
        next: 0,
    })
}

/// The answers of two reads.
pub fn two_reads(alloc: Global, source: StdSource<Device>) -> Result<String, AllocError> {
    let mut source = source;
    let mut buffer = [0; 4];
    let first = source.read(&mut buffer);
    let second = source.read(&mut buffer);
    format!(in alloc; "{first:?} {second:?}")
}

/// The answers of two writes.
pub fn two_writes(alloc: Global, device: Device) -> Result<String, AllocError> {
    let mut sink = StdSink::new(device);
    let first = sink.write(b"abcd");
    let second = sink.write(b"abcd");
    format!(in alloc; "{first:?} {second:?}")
}
