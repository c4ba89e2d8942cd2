//! Makes a derivation, checks it forwards and backwards in rounds, and writes how many checks passed to standard output.
//!
//! The arguments are ROUNDS PAIRS, two numbers. The root has for each number n from 1 to PAIRS the equations `x2*x0+n*x0` and `x1+n`, and `x0` is
//! not zero. Two lines each lead from these by `x2+n` to `x2-x1`, and the equations `x1+n` and `x2-x1` are given.
#![tactic(auto)]

mod making;

use derive_lines::{LineStop, check_back, check_lines};
use making::{Derivation, derived};
use sparse_poly::PolyFault;
use std::alloc::{AllocError, AllocFailed, Global};
use std::process::ExitCode;
use std::{env, io};

/// Why there is no answer.
#[derive(Drop)]
pub enum Fault {
    /// The words are not as they should be.
    Usage,
    /// A check did not pass.
    Bad,
    /// No memory was left.
    OutOfMemory,
}

impl From<AllocError> for Fault {
    fn from(_: AllocError) -> Fault {
        Fault::OutOfMemory
    }
}

impl<T: Drop> From<AllocFailed<T>> for Fault {
    fn from(_: AllocFailed<T>) -> Fault {
        Fault::OutOfMemory
    }
}

impl From<PolyFault> for Fault {
    fn from(fault: PolyFault) -> Fault {
        match fault {
            PolyFault::Degree { .. } => Fault::Bad,
            PolyFault::Heavy { .. } => Fault::Bad,
            PolyFault::OutOfMemory => Fault::OutOfMemory,
        }
    }
}

impl From<LineStop> for Fault {
    fn from(stop: LineStop) -> Fault {
        match stop {
            LineStop::BadLine { .. } => Fault::Bad,
            LineStop::Lost { .. } => Fault::Bad,
            LineStop::OutOfMemory => Fault::OutOfMemory,
        }
    }
}

fn main(rt: HostRuntime) -> io::Result<ExitCode> {
    match answer(&rt) {
        Ok(passed) => {
            println!(rt; "{passed}")?;
            Ok(ExitCode::SUCCESS)
        }
        Err(fault) => {
            eprintln!(rt; "line_bench: {}", told(&fault))?;
            Ok(ExitCode::from(2))
        }
    }
}

// What a fault is, in words.
fn told(fault: &Fault) -> &'static str {
    match fault {
        Fault::Usage => "wanted: ROUNDS PAIRS",
        Fault::Bad => "a check did not pass",
        Fault::OutOfMemory => "out of memory",
    }
}

// How many checks passed of the run that the arguments ask for.
fn answer(rt: &HostRuntime) -> Result<u64, Fault> {
    let Ok(arguments) = env::args(rt) else {
        return Err(Fault::Usage);
    };
    let mut words = Vec::new(rt.alloc());
    for word in arguments.skip(1) {
        words.push(word)?;
    }
    let [rounds, pairs] = words.as_slice() else {
        return Err(Fault::Usage);
    };
    let Some(rounds) = number(rounds) else {
        return Err(Fault::Usage);
    };
    let Some(pairs) = number(pairs) else {
        return Err(Fault::Usage);
    };
    run(rt.alloc(), rounds, pairs)
}

// The number that a word is.
fn number(word: &String) -> Option<u32> {
    word.as_str().parse::<u32>().ok()
}

// Makes the derivation and checks it in rounds.
fn run(alloc: Global, rounds: u32, pairs: u32) -> Result<u64, Fault> {
    let made = derived(alloc, pairs)?;
    let mut passed = 0u64;
    for _ in 0..rounds {
        check(alloc, &made)?;
        passed = passed.wrapping_add(2);
    }
    Ok(passed)
}

// Checks the derivation in both directions.
fn check(alloc: Global, made: &Derivation) -> Result<(), LineStop> {
    check_lines(alloc, &made.root, &made.decisions, &made.lines)?;
    check_back(alloc, &made.root, &made.decisions, &made.lines, &made.given)
}
