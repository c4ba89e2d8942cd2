//! Works tables of examples of polynomials, steps, lines, refutations, leaves and ends of cases, which come from standard input, and writes the wrong
//! rows and the number of rows to standard output.
//!
//! The answers come from outside: they were worked out by hand, by a dictionary of exponents, or by an independent program.
#![tactic(auto)]

mod cases;
mod derivations;
mod leaves;
mod monomials;
mod parts;
mod products;
mod quotients;
mod reads;
mod refutations;
mod roots;
mod spellings;
mod steps;
mod strips;
mod sums;
mod texts;
mod words;

use braid_io::{StdSink, StdSource};
use std::alloc::Global;
use std::process::ExitCode;
use table_tests::{Answers, Fault, exit_of, work_tables};

/// The answers to questions on polynomials and cases.
struct Examples;

impl Answers for Examples {
    fn answer(&self, alloc: Global, name: &str, question: &str) -> Result<Vec<u8>, Fault> {
        match name {
            "monomials" => monomials::answer(alloc, question),
            "words" => words::answer(alloc, question),
            "sums" => sums::answer(alloc, question),
            "products" => products::answer(alloc, question),
            "reads" => reads::answer(alloc, question),
            "strips" => strips::answer(alloc, question),
            "quotients" => quotients::answer(alloc, question),
            "spellings" => spellings::answer(alloc, question),
            "steps" => steps::answer(alloc, question),
            "derivations" => derivations::answer(alloc, question),
            "refutations" => refutations::answer(alloc, question),
            "cones" => refutations::cone(alloc, question),
            "leaves" => leaves::answer(alloc, question),
            "ends" => cases::answer(alloc, question),
            _ => Err(Fault::Form),
        }
    }
}

fn main(rt: HostRuntime) -> ExitCode {
    let mut source = StdSource::new(rt.stdin());
    let mut sink = StdSink::new(rt.stdout());
    exit_of(work_tables(rt.alloc(), &mut source, &mut sink, &Examples))
}
