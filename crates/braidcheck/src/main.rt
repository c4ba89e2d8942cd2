//! Checks a certificate against a problem: the words are the paths of both files. Where the first is `--migrate`, it writes the certificate's text in
//! version 2 to standard output.
//!
//! The line of a verdict goes to standard output, and that of every other end to standard error.
#![tactic(auto)]

use braid_io::{StdSink, StdSource};
use check_run::{CheckStatus, check_exit, check_line, run_check};
use field_laws::Rationals;
use std::fs::{self, File};
use std::io::ErrorKind;
use std::process::ExitCode;
use std::{env, io};

fn main(rt: HostRuntime) -> ExitCode {
    let status = match words(&rt) {
        Ok(words) => {
            let mut problem = source_of(&rt, problem_path(&words));
            let mut certificate = source_of(&rt, words.get(1));
            let mut sink = StdSink::new(rt.stdout());
            run_check::<Rationals, _, _, _>(
                rt.alloc(),
                &words,
                &mut problem,
                &mut certificate,
                &mut sink,
            )
        }
        // A word that is no UTF-8 names no file.
        Err(fault) if fault.kind() == ErrorKind::InvalidData => CheckStatus::Usage,
        Err(_) => CheckStatus::OutOfMemory,
    };
    if !is_verdict(&status) {
        tell(&rt, &status);
    }
    ExitCode::from(check_exit(&status))
}

// The words after the program's name.
fn words(rt: &HostRuntime) -> io::Result<Vec<String>> {
    let mut words = Vec::new(rt.alloc());
    for word in env::args(rt)?.skip(1) {
        words.push(word)?;
    }
    Ok(words)
}

// The path of the problem: the first word, where it is not `--migrate`.
fn problem_path(words: &[String]) -> Option<&String> {
    words.first().filter(|word| word.as_str() != "--migrate")
}

// The file of this path, or an unopened source where there is no path or it can't be opened.
fn source_of(rt: &HostRuntime, path: Option<&String>) -> StdSource<File> {
    let Some(path) = path else {
        return StdSource::unopened();
    };
    match fs::open(rt, path.as_str()) {
        Ok(file) => StdSource::new(file),
        Err(_) => StdSource::unopened(),
    }
}

// Whether the line of this status went to standard output.
fn is_verdict(status: &CheckStatus) -> bool {
    matches!(
        status,
        CheckStatus::Accepted { .. } | CheckStatus::Refused { .. }
    )
}

// Writes the line of a status to standard error.
fn tell(rt: &HostRuntime, status: &CheckStatus) {
    match check_line(rt.alloc(), status) {
        Ok(line) => {
            let _ = eprintln!(rt; "{line}");
        }
        Err(_) => {
            let _ = eprintln!(rt; "out of memory");
        }
    }
}
