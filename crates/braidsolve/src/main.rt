//! Reads a problem from standard input, or makes one where the words say so, and writes its certificate or the summary of it to standard output.
//!
//! The one line that tells how the run ended goes to standard error.
#![tactic(auto)]

use braid_io::{StdSink, StdSource};
use field_laws::Rationals;
use solve_run::{Status, UsageKind, exit_code, run, status_line};
use std::io::ErrorKind;
use std::process::ExitCode;
use std::{env, io};
use steal_workers::OpenGate;

fn main(rt: HostRuntime) -> ExitCode {
    let status = match words(&rt) {
        Ok(words) => {
            let mut source = StdSource::new(rt.stdin());
            let mut sink = StdSink::new(rt.stdout());
            run::<Rationals, _, _, _, _>(&rt, rt.alloc(), &words, &mut source, &mut sink, &OpenGate)
        }
        // A word that is no UTF-8 is a faulty command line.
        Err(fault) if fault.kind() == ErrorKind::InvalidData => Status::Usage(UsageKind::Words),
        Err(_) => Status::OutOfMemory,
    };
    match status_line(rt.alloc(), &status) {
        Ok(line) => {
            let _ = eprintln!(rt; "{line}");
        }
        Err(_) => {
            let _ = eprintln!(rt; "out of memory");
        }
    }
    ExitCode::from(exit_code(&status))
}

// The words after the program's name.
fn words(rt: &HostRuntime) -> io::Result<Vec<String>> {
    let mut words = Vec::new(rt.alloc());
    for word in env::args(rt)?.skip(1) {
        words.push(word)?;
    }
    Ok(words)
}
