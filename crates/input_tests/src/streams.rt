//! Reads and writes of whole texts.

ghost use Rattle.std.specs.Prelude.{None};

use braid_io::{Failed, MemSink, MemSource, Sink, Source, read_all, write_all_of};
use std::alloc::{AllocError, Global};
use table_tests::{Fault, numbers, push};

/// A source that records whether each read was offered as much as is right: never more than remain until the limit is passed by one, at least 64 while
/// 64 or more remain, and all that remain else.
#[derive(Drop)]
struct Recorder {
    bytes: MemSource,
    remain: usize,
    is_right: bool,
    faults: u64,
}

impl Source for Recorder {
    ghost left = { λ s. None };

    ghost faults = { λ s. s.faults };

    fn read(&mut self, into: &mut [u8]) -> Result<usize, Failed> {
        let offered = into.len();
        self.is_right = self.is_right && self.remain.min(64) <= offered && offered <= self.remain;
        match self.bytes.read(into) {
            Ok(count) => {
                self.remain = self.remain.saturating_sub(count);
                Ok(count)
            }
            Err(_) => {
                self.faults = self.faults.saturating_add(1);
                Err(Failed)
            }
        }
    }
}

fn zeros(alloc: Global, count: u64) -> Result<Vec<u8>, AllocError> {
    let mut all = Vec::new(alloc);
    for _ in 0..count {
        all.push(0)?;
    }
    Ok(all)
}

/// How a reading ends. The question is how many bytes there are, how many one read gives, the limit and the reads that fail.
pub fn reading(alloc: Global, question: &str) -> Result<Vec<u8>, Fault> {
    let row = numbers(alloc, question)?;
    let [count, piece, limit, fails @ ..] = row.as_slice() else {
        return Err(Fault::Form);
    };
    let bytes = zeros(alloc, *count)?;
    let mut source = Recorder {
        bytes: MemSource::new(bytes, (*piece as usize).max(1), fails.to_vec(alloc)?),
        remain: (*limit as usize).saturating_add(1),
        is_right: true,
        faults: 0,
    };
    let answer = read_all(alloc, &mut source, *limit as usize).map(|bytes| bytes.len());
    let mut text = Vec::new(alloc);
    push(format!(in alloc; "{answer:?}")?.as_str(), &mut text)?;
    if !source.is_right {
        push(", and a read was offered too much or too little", &mut text)?;
    }
    Ok(text)
}

/// How a writing ends, and how many bytes were written. The question is how many bytes a sink has room for, how many one write takes, how many are to be
/// written, and the writes that fail.
pub fn writing(alloc: Global, question: &str) -> Result<Vec<u8>, Fault> {
    let row = numbers(alloc, question)?;
    let [room, piece, count, fails @ ..] = row.as_slice() else {
        return Err(Fault::Form);
    };
    let mut sink = MemSink::new(alloc, *room, (*piece as usize).max(1), fails.to_vec(alloc)?)?;
    let answer = write_all_of(&mut sink, &zeros(alloc, *count)?);
    let written = sink.written().len();
    let mut text = Vec::new(alloc);
    push(
        format!(in alloc; "{answer:?} {written}")?.as_str(),
        &mut text,
    )?;
    Ok(text)
}
