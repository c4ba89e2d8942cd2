//! Reading to the end, and writing all of some bytes.

ghost use Rattle.std.specs.Prelude.{◌≡◌, ◌≢◌, ◌<◌, ◌≤◌, ◌+◌, ℕ, List, length, IfOk, OnOk, OnErr};
ghost use Rattle.std.specs.Io.KnownBytes.{Consumes, IsAtEnd, Appends, Keeps};
ghost use Rattle.braid_io.specs.Causes.{Rose, HasCause, TookMore, TookUpTo, Gave, WrotePart};

use crate::streams::{Failed, Sink, Source};
use std::alloc::Global;

/// The most bytes that one read of `read_all` asks for.
const CHUNK: usize = 4096;

/// Why the bytes of a source were not read to their end.
#[derive(Clone, Copy, Debug, PartialEq)]
pub enum ReadStop {
    /// A read had a fault, so the source's count of faults rose.
    Fault,
    /// More bytes than the limit came before the end.
    TooLong,
    /// There was no memory for the bytes.
    OutOfMemory,
}

/// Reads to the end. At most `limit + 1` bytes are taken in all.
///
/// `Ok` carries all bytes that the source gave, at most `limit`. Where the source tells its bytes,
/// these are all that were left, and none is left. `TooLong` comes exactly where more than `limit`
/// bytes came before the end. `Fault` comes only where the source's faults rose in this call, and at
/// most `limit` bytes came before it. After a refusal the bytes left are a suffix of those left
/// before.
pub fn read_all<S: Source>(alloc: Global, source: &mut S, limit: usize) -> Result<Vec<u8>, ReadStop>
    ensures later { S.faults source.old ≤ S.faults source.new }
    ensures all { IfOk result (λ v. Consumes (S.left source.old) (S.left source.new) v.items × IsAtEnd (S.left source.new) × (length v.items ≤ limit)) }
    ensures fault { result ≡ Err ReadStop.Fault → Rose (S.faults source.old) (S.faults source.new) × TookUpTo (S.left source.old) (S.left source.new) limit }
    ensures long { result ≡ Err ReadStop.TooLong → TookMore (S.left source.old) (S.left source.new) limit }
    ensures part { OnErr result (TookUpTo (S.left source.old) (S.left source.new) (limit + 1)) }
{
    let mut chunk = [0; CHUNK];
    let mut bytes = Vec::new(alloc);
    'reading: while bytes.len() <= limit {
        let remain = (limit - bytes.len()).saturating_add(1);
        let size = CHUNK.min(remain);
        match read_more(source, &mut chunk[..size], &mut bytes) {
            Ok(0) => return Ok(bytes),
            Ok(_) => {}
            Err(stop) => return Err(stop),
        }
    }
    Err(ReadStop::TooLong)
}

/// Appends what one read into `chunk` gives, and answers how many bytes these are.
fn read_more<S: Source>(
    source: &mut S,
    chunk: &mut [u8],
    bytes: &mut Vec<u8>,
) -> Result<usize, ReadStop>
    requires { 0 < length chunk.old }
    ensures later { S.faults source.old ≤ S.faults source.new }
    ensures gave { OnOk result (Gave (S.left source.old) (S.left source.new) bytes.old.items bytes.new.items) }
    ensures count { IfOk result (λ n. (length bytes.new.items ≡ length bytes.old.items + n) × (n ≤ length chunk.old)) }
    ensures end { IfOk result (λ n. n ≡ 0 → IsAtEnd (S.left source.new)) }
    ensures fault { result ≡ Err ReadStop.Fault → Rose (S.faults source.old) (S.faults source.new) × Keeps (S.left source.old) (S.left source.new) }
    ensures not_long { result ≢ Err ReadStop.TooLong }
    ensures part { OnErr result (TookUpTo (S.left source.old) (S.left source.new) (length chunk.old)) }
{
    let Ok(count) = source.read(chunk) else {
        return Err(ReadStop::Fault);
    };
    match bytes.extend_from_slice(&chunk[..count]) {
        Ok(()) => Ok(count),
        Err(_) => Err(ReadStop::OutOfMemory),
    }
}

/// Writes all of the bytes. It takes no memory itself.
///
/// `Ok` says that exactly these bytes were appended. `Failed` comes only where the sink's faults
/// rose in this call, and then a proper prefix of the bytes was appended. So `Ok` comes exactly where
/// all of the bytes were written.
pub fn write_all_of<K: Sink>(sink: &mut K, bytes: &[u8]) -> Result<(), Failed>
    ensures cause { HasCause (K.faults sink.old) (K.faults sink.new) result }
    ensures all { OnOk result (Appends (K.written sink.old) (K.written sink.new) bytes.now) }
    ensures part { OnErr result (WrotePart (K.written sink.old) (K.written sink.new) bytes.now) }
{
    let mut done = 0;
    'writing: while done < bytes.len() {
        done += sink.write(&bytes[done..])?;
    }
    Ok(())
}
