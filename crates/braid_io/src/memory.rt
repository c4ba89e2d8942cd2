//! A source and a sink in memory, with pieces and faults of the caller's choice.

ghost use Rattle.std.specs.Prelude.{◌≡◌, ℕ, ◌<◌, ◌≤◌, ◌||◌, leb, [], length, IfOk, is_err, Some};
ghost use Rattle.std.specs.Io.{ReadsAtMost, WritesAtMost};
ghost use Rattle.std.specs.Io.KnownBytes.{ReadConsumes, WriteAppends};
ghost use Rattle.braid_io.specs.Causes.{HasCause};
ghost use Rattle.braid_io.specs.Memory.{Supply, Store, is_listed, read_count, write_count, after_read, after_write};

use crate::streams::{Failed, Sink, Source};
use std::alloc::{AllocError, Global};
use std::marker::Model;

/// A source over bytes in memory, seen as the bytes left, the most that one read gives, the numbers
/// of the reads that fail, the number of reads so far and the number of faults so far.
#[derive(Drop)]
pub struct MemSource {
    bytes: Vec<u8>,
    start: usize,
    most: usize,
    failing: Vec<u64>,
    calls: u64,
    faults: u64,
}

impl Model for MemSource {
    ghost use Rattle.std.specs.Prelude.{◌≡◌, ◌<◌, ◌≤◌, [], drop, vec_len};
    ghost use Rattle.braid_io.specs.Memory.{Supply};

    ghost Value = { Supply };

    ghost view = { λ s. record { left = drop s.start s.bytes.items; piece = s.most; fails = s.failing.items; calls = s.calls; faults = s.faults } };

    ghost invariant = { λ s. (0 < s.most) × (s.start ≤ vec_len s.bytes) × (s.failing.items ≡ [] → s.faults ≡ 0) };
}

impl MemSource {
    /// A source that gives these bytes, at most `piece` in one read. The reads whose numbers,
    /// counted from 0, stand in `fails` fail.
    pub fn new(bytes: Vec<u8>, piece: usize, fails: Vec<u64>) -> MemSource
        requires { 0 < piece }
        ensures { result ≡ record { left = bytes.items; piece = piece; fails = fails.items; calls = 0; faults = 0 } }
    {
        MemSource {
            bytes,
            start: 0,
            most: piece,
            failing: fails,
            calls: 0,
            faults: 0,
        }
    }
}

impl Source for MemSource {
    ghost left = { λ s. Some s.left };

    ghost faults = { λ s. s.faults };

    /// Fails exactly where this read's number is listed. Otherwise it gives all that the piece,
    /// the buffer and the bytes left allow.
    fn read(&mut self, into: &mut [u8]) -> Result<usize, Failed>
        requires { 0 < length into.old }
        ensures bound { ReadsAtMost result into.new }
        ensures bytes { ReadConsumes (Some self.old.left) (Some self.new.left) result into.new }
        ensures cause { HasCause self.old.faults self.new.faults result }
        ensures failed { is_err result ≡ is_listed self.old.calls self.old.fails }
        ensures count { IfOk result (λ n. n ≡ read_count self.old (length into.old)) }
        ensures after { self.new ≡ after_read self.old (length into.old) }
        ensures quiet { self.new.fails ≡ [] → self.new.faults ≡ 0 }
    {
        let call = self.calls;
        self.calls = call.saturating_add(1);
        if self.failing.contains(&call) {
            self.faults = self.faults.saturating_add(1);
            return Err(Failed);
        }
        let rest = &self.bytes[self.start..];
        let count = self.most.min(into.len().min(rest.len()));
        into[..count].copy_from_slice(&rest[..count]);
        self.start += count;
        Ok(count)
    }
}

/// A sink into memory, seen as the bytes written, the number of bytes that it has room for, the
/// most that one write takes, the numbers of the writes that fail, the number of writes so far and
/// the number of faults so far.
#[derive(Drop)]
pub struct MemSink {
    bytes: Vec<u8>,
    limit: u64,
    most: usize,
    failing: Vec<u64>,
    calls: u64,
    faults: u64,
}

impl Model for MemSink {
    ghost use Rattle.std.specs.Prelude.{◌<◌, ◌≤◌, vec_len, vec_capacity};
    ghost use Rattle.braid_io.specs.Memory.{Store};

    ghost Value = { Store };

    ghost view = { λ s. record { written = s.bytes.items; room = s.limit; piece = s.most; fails = s.failing.items; calls = s.calls; faults = s.faults } };

    ghost invariant = { λ s. (0 < s.most) × (vec_len s.bytes ≤ s.limit) × (s.limit ≤ vec_capacity s.bytes) };
}

impl MemSink {
    /// An empty sink with room for `room` bytes, whose memory is taken here. A write takes at most
    /// `piece` bytes. The writes whose numbers, counted from 0, stand in `fails` fail.
    pub fn new(
        alloc: Global,
        room: u64,
        piece: usize,
        fails: Vec<u64>,
    ) -> Result<MemSink, AllocError>
        requires { 0 < piece }
        ensures { IfOk result (λ s. s ≡ record { written = []; room = room; piece = piece; fails = fails.items; calls = 0; faults = 0 }) }
    {
        Ok(MemSink {
            bytes: Vec::with_capacity(alloc, room as usize)?,
            limit: room,
            most: piece,
            failing: fails,
            calls: 0,
            faults: 0,
        })
    }

    /// The bytes written so far, in order.
    pub fn written(&self) -> &[u8]
        ensures bytes { result.now ≡ self.now.written }
        ensures within { length self.now.written ≤ self.now.room }
    {
        &self.bytes
    }
}

impl Sink for MemSink {
    ghost written = { λ s. Some s.written };

    ghost faults = { λ s. s.faults };

    /// Fails exactly where this write's number is listed or no room is left. Otherwise it takes all
    /// that the piece, the room and the bytes handed in allow. It takes no memory.
    fn write(&mut self, piece: &[u8]) -> Result<usize, Failed>
        requires { 0 < length piece.now }
        ensures some { IfOk result (λ n. 0 < n) }
        ensures bound { WritesAtMost result piece.now }
        ensures bytes { WriteAppends (Some self.old.written) (Some self.new.written) result piece.now }
        ensures cause { HasCause self.old.faults self.new.faults result }
        ensures failed { is_err result ≡ is_listed self.old.calls self.old.fails || leb self.old.room (length self.old.written) }
        ensures count { IfOk result (λ n. n ≡ write_count self.old (length piece.now)) }
        ensures after { self.new ≡ after_write self.old piece.now }
    {
        let call = self.calls;
        self.calls = call.saturating_add(1);
        let room = self.limit as usize - self.bytes.len();
        if self.failing.contains(&call) || room == 0 {
            self.faults = self.faults.saturating_add(1);
            return Err(Failed);
        }
        let count = self.most.min(piece.len().min(room));
        // The memory was taken when the sink was made, so this can't fail.
        let _ = self.bytes.extend_from_slice(&piece[..count]);
        Ok(count)
    }
}
