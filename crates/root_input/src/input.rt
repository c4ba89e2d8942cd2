//! The root of the problem that a source states.

ghost use Rattle.std.specs.Prelude.{◌≤◌, MatchResult, List, ℕ};
ghost use Rattle.ring_file.specs.Problems.{Stated};
ghost use Rattle.root_input.specs.Streams.{ReadsAll, IsReadStop, TakesSome, between};
ghost use Rattle.root_input.specs.Inputs.{StatesRoot, IsInputFault};

use crate::bytes::root_of_bytes;
use crate::fault::InputFault;
use braid_io::{ReadStop, Source, read_all};
use root_system::Root;
use std::alloc::Global;

/// The most bytes that a problem may have.
const MAX_PROBLEM_BYTES: usize = 1_048_576;

/// Reads a source to its end, which is to come within `limit` bytes.
///
/// `TooLong` comes exactly where more than `limit` bytes came, and `Fault` only where a read failed, with at most `limit` bytes before it. After every
/// answer the bytes left are a suffix of those left before.
pub fn read_whole<S: Source>(
    alloc: Global,
    source: &mut S,
    limit: usize,
) -> Result<Vec<u8>, ReadStop>
    ensures bytes { MatchResult result (λ v. ReadsAll limit (between S.left S.faults source.old source.new) v.items) (IsReadStop limit (between S.left S.faults source.old source.new)) }
    ensures suffix { TakesSome (between S.left S.faults source.old source.new) }
    ensures later { S.faults source.old ≤ S.faults source.new }
{
    read_all(alloc, source, limit)
}

/// Reads a problem from the source to its end, and makes its root.
///
/// `ReadFault` comes only where a read failed, and `TooLong` exactly where more than 1,048,576 bytes came. `Problem`, `TooManyUnknowns` and
/// `TooManyEquations` come exactly where the bytes state no problem, or one with too many unknowns or equations. After every answer the bytes left
/// are a suffix of those left before.
pub fn root_of<S: Source>(alloc: Global, source: &mut S) -> Result<Root, InputFault>
    ensures root { MatchResult result (λ root. (bytes : List ℕ) × (problem : Stated) × StatesRoot (between S.left S.faults source.old source.new) bytes problem root) (IsInputFault (between S.left S.faults source.old source.new)) }
    ensures suffix { TakesSome (between S.left S.faults source.old source.new) }
    ensures later { S.faults source.old ≤ S.faults source.new }
{
    let bytes = read_whole(alloc, source, MAX_PROBLEM_BYTES)?;
    Ok(root_of_bytes(alloc, &bytes)?)
}
