//! Makes polynomials from numbers in the arguments, combines them in rounds, and writes a checksum to standard output.
//!
//! The arguments are ROUNDS TERMS SHORT VARIABLES POWERS, five numbers. Polynomials `q` and `p` are added up from TERMS terms each, and `l` and `a`
//! from SHORT terms each. A term is the product of POWERS random powers of the variables below VARIABLES, times a number from 1 to 9. Each round makes
//! `l*q - a*p`, or the product `l*q` where a sixth word `product` is given, or, with the word `strip`, the rest of `6*x1*x0^2*q` where `x0` and `x1` are
//! units, and adds the number of its terms; the last round adds a number that depends on each power and coefficient. With the sixth word `reading`
//! each round adds that number of `q`. With the word `quotient` each round makes the quotient of `l*q` by `l`, and with the word `refused` that of
//! `l*q` whose middle term is doubled; where there is none, the constant 1 stands for it.
#![tactic(auto)]

mod making;

use making::{Numbers, Shape, random_poly, unit_term, units, with_middle_twice};
use monomial::{MonoFault, Monomial};
use sparse_poly::{Poly, PolyFault};
use std::alloc::{AllocError, AllocFailed, Global};
use std::process::ExitCode;
use std::{env, io};

/// What each round makes.
#[derive(Clone, Copy)]
enum Operation {
    Combination,
    Product,
    Strip,
    Reading,
    Quotient,
    Refused,
}

/// What a run is asked for.
#[derive(Drop)]
struct Plan {
    operation: Operation,
    rounds: u32,
    long: Shape,
    short: Shape,
}

/// Why there is no checksum.
#[derive(Drop)]
pub enum Fault {
    /// The words are not as they should be.
    Usage,
    /// An exponent is too high, or a coefficient too large.
    Range,
    /// No memory was left.
    OutOfMemory,
}

impl From<AllocError> for Fault {
    fn from(_: AllocError) -> Fault {
        Fault::OutOfMemory
    }
}

impl<T: Drop> From<AllocFailed<T>> for Fault {
    fn from(_: AllocFailed<T>) -> Fault {
        Fault::OutOfMemory
    }
}

impl From<MonoFault> for Fault {
    fn from(fault: MonoFault) -> Fault {
        match fault {
            MonoFault::Degree { .. } => Fault::Range,
            MonoFault::OutOfMemory => Fault::OutOfMemory,
        }
    }
}

impl From<PolyFault> for Fault {
    fn from(fault: PolyFault) -> Fault {
        match fault {
            PolyFault::Degree { .. } => Fault::Range,
            PolyFault::Heavy { .. } => Fault::Range,
            PolyFault::OutOfMemory => Fault::OutOfMemory,
        }
    }
}

fn main(rt: HostRuntime) -> io::Result<ExitCode> {
    match answer(&rt) {
        Ok(sum) => {
            println!(rt; "{sum}")?;
            Ok(ExitCode::SUCCESS)
        }
        Err(fault) => {
            eprintln!(rt; "poly_bench: {}", told(&fault))?;
            Ok(ExitCode::from(2))
        }
    }
}

// What a fault is, in words.
fn told(fault: &Fault) -> &'static str {
    match fault {
        Fault::Usage =>
            "wanted: ROUNDS TERMS SHORT VARIABLES POWERS [product | strip | reading | quotient | refused], of which VARIABLES is at least 1",
        Fault::Range => "an exponent or a coefficient is out of range",
        Fault::OutOfMemory => "out of memory",
    }
}

// The checksum of the run that the arguments ask for.
fn answer(rt: &HostRuntime) -> Result<u64, Fault> {
    let Ok(arguments) = env::args(rt) else {
        return Err(Fault::Usage);
    };
    let mut words = Vec::new(rt.alloc());
    for word in arguments.skip(1) {
        words.push(word)?;
    }
    match read_plan(&words) {
        Some(plan) => run(rt.alloc(), &plan),
        None => Err(Fault::Usage),
    }
}

// The plan that the words give, and `None` for words that give none.
fn read_plan(words: &[String]) -> Option<Plan> {
    let (numbers, operation) = match words {
        [numbers @ .., last] => match operation_of(last.as_str()) {
            Some(operation) => (numbers, operation),
            None => (words, Operation::Combination),
        },
        [] => return None,
    };
    let [rounds, terms, short, variables, powers] = numbers else {
        return None;
    };
    let variables = number(variables)?;
    let powers = number(powers)?;
    if variables == 0 {
        return None;
    }
    Some(Plan {
        operation,
        rounds: number(rounds)?,
        long: Shape {
            terms: number(terms)?,
            variables,
            powers,
        },
        short: Shape {
            terms: number(short)?,
            variables,
            powers,
        },
    })
}

// The operation that a word names.
fn operation_of(word: &str) -> Option<Operation> {
    match word {
        "product" => Some(Operation::Product),
        "strip" => Some(Operation::Strip),
        "reading" => Some(Operation::Reading),
        "quotient" => Some(Operation::Quotient),
        "refused" => Some(Operation::Refused),
        _ => None,
    }
}

// The number that a word is.
fn number(word: &String) -> Option<u32> {
    word.as_str().parse::<u32>().ok()
}

// Makes the polynomials, combines them in rounds, and adds up the checksums.
fn run(alloc: Global, plan: &Plan) -> Result<u64, Fault> {
    let mut numbers = Numbers::new();
    let q = random_poly(alloc, &mut numbers, &plan.long)?;
    let p = random_poly(alloc, &mut numbers, &plan.long)?;
    let l = random_poly(alloc, &mut numbers, &plan.short)?;
    let a = random_poly(alloc, &mut numbers, &plan.short)?;
    let units = units(alloc)?;
    let whole = unit_term(alloc)?.times(&q)?;
    let product = l.times(&q)?;
    let changed = with_middle_twice(alloc, &product)?;
    let mut sum = 0u64;
    for round in 0..plan.rounds {
        let made = match plan.operation {
            Operation::Combination => Poly::combine(alloc, &l, &q, &a, &p)?,
            Operation::Product => l.times(&q)?,
            Operation::Strip => whole.strip(&units)?.rest,
            Operation::Quotient => quotient_or_one(alloc, &product, &l)?,
            Operation::Refused => quotient_or_one(alloc, &changed, &l)?,
            Operation::Reading => {
                sum = sum.wrapping_add(checksum(&q));
                continue;
            }
        };
        let told = if plan.rounds - round == 1 {
            checksum(&made)
        } else {
            made.terms().len() as u64
        };
        sum = sum.wrapping_add(told);
    }
    Ok(sum)
}

// The quotient of a polynomial by another, or the constant 1 where there is none.
fn quotient_or_one(alloc: Global, poly: &Poly, divisor: &Poly) -> Result<Poly, Fault> {
    if !divisor.is_zero() {
        if let Some(quotient) = poly.quotient(divisor)? {
            return Ok(quotient);
        }
    }
    let one = Poly::constant(alloc, 1)?;
    Ok(one)
}

// A number that depends on each term.
fn checksum(poly: &Poly) -> u64 {
    let mut sum = 0u64;
    for term in poly.terms() {
        let size = (term.coeff.unsigned_abs() % 1_000_000_007) as u64;
        sum = sum.wrapping_add(hash(&term.monomial).wrapping_mul(size));
    }
    sum
}

// A number that depends on each power.
fn hash(monomial: &Monomial) -> u64 {
    let mut hash = 1u64;
    for power in monomial.powers() {
        hash = hash.wrapping_mul(31).wrapping_add(u64::from(power.0));
        hash = hash.wrapping_mul(31).wrapping_add(u64::from(power.1));
    }
    hash
}
