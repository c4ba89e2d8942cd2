//! Works tables of examples of whole runs, which come from standard input, and writes the wrong rows and the number of rows to standard output.
//!
//! The answers come from outside: they were worked out by hand or by an independent program.
#![tactic(auto)]

mod runs;
mod tables;

use braid_io::{StdSink, StdSource};
use std::process::ExitCode;
use table_tests::exit_of;
use tables::work_all;

fn main(rt: HostRuntime) -> ExitCode {
    let mut source = StdSource::new(rt.stdin());
    let mut sink = StdSink::new(rt.stdout());
    exit_of(work_all(&rt, rt.alloc(), &mut source, &mut sink))
}
