//! The reader of problem files.

ghost use Rattle.std.specs.Prelude.{MatchResult};
ghost use Rattle.ring_file.specs.Reading.{IsProblemOfFile, IsFileFault, IsProblemOf, IsProblemFault};
ghost use Rattle.ring_file.specs.Named.{file_of};

use crate::file::{Outline, read_outline};
use crate::gauge::{gauge, valued};
use crate::problem::{Problem, ProblemFault};
use fusion_ring::{Ring, RingFault};
use serde_json::Value;
use std::alloc::Global;

/// The problem that a file of the right form states.
fn problem_of(alloc: Global, outline: &Outline<'_>) -> Result<Problem, ProblemFault>
    ensures { MatchResult result (IsProblemOfFile (file_of outline.now)) (IsFileFault (file_of outline.now)) }
{
    let ring = match Ring::new(alloc, outline.labels, &outline.products) {
        Ok(ring) => ring,
        Err(RingFault::OutOfMemory) => return Err(ProblemFault::OutOfMemory),
        Err(fault) => return Err(ProblemFault::Ring(fault)),
    };
    let entries = match valued(alloc, &outline.gauge) {
        Ok(entries) => entries,
        Err(fault) => return Err(fault),
    };
    match gauge(alloc, &ring, &entries) {
        Ok(gauge) => Ok(Problem::of(ring, gauge)),
        Err(fault) => Err(fault),
    }
}

/// Reads a problem file.
///
/// A repeated member counts as its last value. The faults come in the order of `ProblemFault`, each
/// exactly where its variant says.
pub fn read_problem(alloc: Global, bytes: &[u8]) -> Result<Problem, ProblemFault>
    ensures { MatchResult result (IsProblemOf bytes.now) (IsProblemFault bytes.now) }
{
    let value = match Value::from_slice(alloc, bytes) {
        Ok(value) => value,
        Err(e) => {
            if e.is_memory() {
                return Err(ProblemFault::OutOfMemory);
            }
            return Err(ProblemFault::NotJson);
        }
    };
    match read_outline(alloc, &value) {
        Ok(outline) => problem_of(alloc, &outline),
        Err(fault) => Err(fault),
    }
}
