//! Polynomials from numbers that are the same in each run.
ghost use Rattle.std.specs.Prelude.{◌≤◌};

use crate::Fault;
use monomial::Monomial;
use sparse_poly::{Poly, Term};
use std::alloc::Global;

/// A source of numbers that look random: the xorshift generator with the shifts 13, 7 and 17, begun at a fixed number.
#[derive(Drop)]
pub struct Numbers {
    state: u64,
}

impl Numbers {
    /// The source at its beginning.
    pub fn new() -> Numbers {
        Numbers {
            state: 88_172_645_463_325_252,
        }
    }

    /// The next number.
    pub fn next(&mut self) -> u64 {
        let mut state = self.state;
        state ^= state.wrapping_shl(13);
        state ^= state >> 7;
        state ^= state.wrapping_shl(17);
        self.state = state;
        state
    }
}

/// How a polynomial is made: from how many terms, in how many variables, and each monomial from how many powers.
#[derive(Drop)]
pub struct Shape {
    pub terms: u32,
    pub variables: u32,
    pub powers: u32,
    ghost some: { 1 ≤ variables },
}

/// The polynomial of this shape that the numbers give.
pub fn random_poly(alloc: Global, numbers: &mut Numbers, shape: &Shape) -> Result<Poly, Fault> {
    let mut terms = Vec::new(alloc);
    for _ in 0..shape.terms {
        let term = random_term(alloc, numbers, shape)?;
        terms.push(term)?;
    }
    match Poly::from_terms(alloc, terms) {
        Ok(poly) => Ok(poly),
        Err(fault) => Err(Fault::from(fault)),
    }
}

// A random monomial times a number from 1 to 9.
fn random_term(alloc: Global, numbers: &mut Numbers, shape: &Shape) -> Result<Term, Fault> {
    let mut monomial = Monomial::one(alloc);
    for _ in 0..shape.powers {
        let power = random_power(alloc, numbers, shape)?;
        monomial = monomial.times(&power)?;
    }
    let coeff = i128::from((numbers.next() % 9) as u8) + 1;
    Ok(Term { monomial, coeff })
}

// A variable or its square.
fn random_power(alloc: Global, numbers: &mut Numbers, shape: &Shape) -> Result<Monomial, Fault> {
    let variables = u64::from(shape.variables);
    let var = (numbers.next() % variables) as u32;
    let exp = if numbers.next() % 2 == 0 { 1 } else { 2 };
    match Monomial::power(alloc, var, exp) {
        Ok(power) => Ok(power),
        Err(_) => Err(Fault::OutOfMemory),
    }
}

/// The variables 0 and 1 as polynomials.
pub fn units(alloc: Global) -> Result<Vec<Poly>, Fault> {
    let mut units = Vec::new(alloc);
    units.push(Poly::variable(alloc, 0)?)?;
    units.push(Poly::variable(alloc, 1)?)?;
    Ok(units)
}

/// The polynomial `6*x1*x0^2`.
pub fn unit_term(alloc: Global) -> Result<Poly, Fault> {
    let square = Monomial::power(alloc, 0, 2)?;
    let monomial = Monomial::power(alloc, 1, 1)?.times(&square)?;
    let mut terms = Vec::new(alloc);
    terms.push(Term { monomial, coeff: 6 })?;
    match Poly::from_terms(alloc, terms) {
        Ok(poly) => Ok(poly),
        Err(fault) => Err(Fault::from(fault)),
    }
}

/// The polynomial with its middle term doubled.
pub fn with_middle_twice(alloc: Global, poly: &Poly) -> Result<Poly, Fault> {
    let mut terms = Vec::new(alloc);
    let all = poly.terms();
    if let Some(middle) = all.get(all.len() / 2) {
        terms.push(Term {
            monomial: middle.monomial.copy()?,
            coeff: middle.coeff,
        })?;
    }
    match Poly::from_terms(alloc, terms) {
        Ok(middle) => match poly.plus(&middle) {
            Ok(sum) => Ok(sum),
            Err(fault) => Err(Fault::from(fault)),
        },
        Err(fault) => Err(Fault::from(fault)),
    }
}
