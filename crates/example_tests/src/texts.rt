//! Polynomials and monomials as texts.
use monomial::Monomial;
use poly_text::{PolyTextFault, read_poly};
use sparse_poly::{Poly, PolyFault, Term};
use std::alloc::Global;
use table_tests::{Fault, push, push_poly};

/// The polynomial of a text, in variables below 4,294,967,295.
pub fn poly(alloc: Global, text: &str) -> Result<Poly, Fault> {
    match read_poly(alloc, text.as_bytes(), u32::MAX) {
        Ok(poly) => Ok(poly),
        Err(PolyTextFault::OutOfMemory) => Err(Fault::OutOfMemory),
        Err(_) => Err(Fault::Form),
    }
}

/// The polynomials of texts with spaces between.
pub fn polys(alloc: Global, texts: &str) -> Result<Vec<Poly>, Fault> {
    let mut list = Vec::new(alloc);
    for text in texts.split_whitespace() {
        list.push(poly(alloc, text)?)?;
    }
    Ok(list)
}

/// The leading monomial of the polynomial of a text.
pub fn monomial(alloc: Global, text: &str) -> Result<Monomial, Fault> {
    let poly = poly(alloc, text)?;
    match poly.terms().first() {
        Some(term) => Ok(term.monomial.copy()?),
        None => Err(Fault::Form),
    }
}

/// Appends the text of a monomial.
pub fn push_monomial(alloc: Global, monomial: &Monomial, into: &mut Vec<u8>) -> Result<(), Fault> {
    let mut terms = Vec::new(alloc);
    terms.push(Term {
        monomial: monomial.copy()?,
        coeff: 1,
    })?;
    match Poly::from_terms(alloc, terms) {
        Ok(poly) => push_poly(&poly, into),
        Err(_) => Err(Fault::Form),
    }
}

/// Appends the name of a fault, and its variable or monomial.
pub fn push_fault(alloc: Global, fault: PolyFault, into: &mut Vec<u8>) -> Result<(), Fault> {
    match fault {
        PolyFault::Degree { var } => push(format!(in alloc; "degree {var}")?.as_str(), into),
        PolyFault::Heavy { monomial } => {
            push("heavy ", into)?;
            push_monomial(alloc, &monomial, into)
        }
        PolyFault::OutOfMemory => Err(Fault::OutOfMemory),
    }
}

/// Appends a polynomial, or why there is none.
pub fn push_answer(
    alloc: Global,
    answer: Result<Poly, PolyFault>,
    into: &mut Vec<u8>,
) -> Result<(), Fault> {
    match answer {
        Ok(poly) => push_poly(&poly, into),
        Err(fault) => push_fault(alloc, fault, into),
    }
}
