//! Works tables of examples of streams, tuples, rings, symbols, equations and problems, which come from standard input, and writes the wrong rows and the
//! number of rows to standard output.
//!
//! The answers come from outside: they were worked out by hand or by an independent program.
#![tactic(auto)]

mod calls;
mod devices;
mod equations;
mod problems;
mod rings;
mod streams;

use braid_io::{StdSink, StdSource};
use std::alloc::Global;
use std::process::ExitCode;
use table_tests::{Answers, Fault, exit_of, work_tables};

/// The answers to questions from streams and rings up to problems and their roots.
struct Examples;

impl Answers for Examples {
    fn answer(&self, alloc: Global, name: &str, question: &str) -> Result<Vec<u8>, Fault> {
        match name {
            "calls" => calls::answer(alloc, question),
            "reads" => streams::reading(alloc, question),
            "writes" => streams::writing(alloc, question),
            "rings" => rings::ring(alloc, question),
            "symbols" => rings::symbols(alloc, question),
            "pentagons" => equations::pentagons_of(alloc, question),
            "hexagons" => equations::hexagons_of(alloc, question),
            "inverses" => equations::inverses_of(alloc, question),
            "gauges" => equations::gauge_of(alloc, question),
            "problems" => problems::problem(alloc, question),
            "roots" => problems::root(alloc, question),
            "limits" => problems::with_limit(alloc, question),
            _ => Err(Fault::Form),
        }
    }
}

fn main(rt: HostRuntime) -> ExitCode {
    let mut source = StdSource::new(rt.stdin());
    let mut sink = StdSink::new(rt.stdout());
    exit_of(work_tables(rt.alloc(), &mut source, &mut sink, &Examples))
}
