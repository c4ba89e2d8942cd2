//! Works tables of examples of checks, migrations and boards, which come from standard input, and writes the wrong rows and the number of rows to standard output.
//!
//! The answers come from outside: they were worked out by hand or by an independent program.
#![tactic(auto)]

mod boards;
mod checks;
mod migrations;

use braid_io::{StdSink, StdSource};
use std::alloc::Global;
use std::process::ExitCode;
use table_tests::{Answers, Fault, exit_of, work_tables};

/// The answers to questions of boards, checks and migrations.
struct Examples;

impl Answers for Examples {
    fn answer(&self, alloc: Global, name: &str, question: &str) -> Result<Vec<u8>, Fault> {
        match name {
            "board" => boards::answer(alloc, question),
            "finished boards" => boards::finished(alloc, question),
            "checks" => checks::check(alloc, question),
            "unended checks" => checks::check_unended(alloc, question),
            "check faults" => checks::check_on_devices(alloc, question),
            "migrations" => migrations::migration(alloc, question),
            "migrated texts" => migrations::migrated(alloc, question),
            "migration faults" => migrations::on_devices(alloc, question),
            _ => Err(Fault::Form),
        }
    }
}

fn main(rt: HostRuntime) -> ExitCode {
    let mut source = StdSource::new(rt.stdin());
    let mut sink = StdSink::new(rt.stdout());
    exit_of(work_tables(rt.alloc(), &mut source, &mut sink, &Examples))
}
