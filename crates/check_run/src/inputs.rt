//! The bytes of both inputs.

ghost use Rattle.std.specs.Prelude.{◌≡◌, MatchResult};
ghost use Rattle.root_input.specs.Streams.{ReadsAll, TakesSome, between};
ghost use Rattle.check_run.specs.Inputs.{max_bytes, IsNotRead};

use crate::status::{CheckStatus, Which};
use braid_io::{ReadStop, Source};
use root_input::read_whole;
use std::alloc::Global;

/// Reads an input to its end.
pub(crate) fn bytes_of<S: Source>(
    alloc: Global,
    which: Which,
    source: &mut S,
) -> Result<Vec<u8>, CheckStatus>
    ensures bytes { MatchResult result (λ v. ReadsAll (max_bytes which) (between S.left S.faults source.old source.new) v.items) (IsNotRead which (between S.left S.faults source.old source.new)) }
    ensures suffix { TakesSome (between S.left S.faults source.old source.new) }
{
    match read_whole(alloc, source, max_bytes(which)) {
        Ok(bytes) => Ok(bytes),
        Err(ReadStop::Fault) => Err(CheckStatus::ReadFault(which)),
        Err(ReadStop::TooLong) => Err(CheckStatus::TooLong(which)),
        Err(ReadStop::OutOfMemory) => Err(CheckStatus::OutOfMemory),
    }
}

// The most bytes that an input may have.
fn max_bytes(which: Which) -> usize
    ensures { result ≡ max_bytes which }
{
    match which {
        Which::Problem => 1_048_576,
        Which::Certificate => 268_435_456,
    }
}
