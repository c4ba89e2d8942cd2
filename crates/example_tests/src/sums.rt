//! Sums, differences and polynomials of terms in any order.
use crate::texts::{monomial, poly, push_answer};
use sparse_poly::{Poly, PolyFault, Term};
use std::alloc::Global;
use table_tests::{Fault, both};

// The polynomial of the terms of two, one after the other.
fn of_terms(alloc: Global, first: &Poly, second: &Poly) -> Result<Poly, PolyFault> {
    let mut terms = Vec::new(alloc);
    for term in first.terms() {
        terms.push(Term {
            monomial: term.monomial.copy()?,
            coeff: term.coeff,
        })?;
    }
    for term in second.terms() {
        terms.push(Term {
            monomial: term.monomial.copy()?,
            coeff: term.coeff,
        })?;
    }
    Poly::from_terms(alloc, terms)
}

// The polynomial of one term with the least coefficient.
fn least(alloc: Global, text: &str) -> Result<Result<Poly, PolyFault>, Fault> {
    let monomial = monomial(alloc, text)?;
    let mut terms = Vec::new(alloc);
    terms.push(Term {
        monomial,
        coeff: i128::MIN,
    })?;
    Ok(Poly::from_terms(alloc, terms))
}

fn difference(alloc: Global, p: &Poly, q: &Poly) -> Result<Result<Poly, PolyFault>, Fault> {
    let one = Poly::constant(alloc, 1)?;
    Ok(Poly::combine(alloc, &one, p, &one, q))
}

fn result(alloc: Global, question: &str) -> Result<Result<Poly, PolyFault>, Fault> {
    let (operation, operands) = both(question)?;
    let (first, second) = both(operands)?;
    let p = poly(alloc, first)?;
    let q = poly(alloc, second)?;
    if operation == "sum" {
        Ok(p.plus(&q))
    } else if operation == "difference" {
        difference(alloc, &p, &q)
    } else if operation == "terms" {
        Ok(of_terms(alloc, &p, &q))
    } else {
        least(alloc, first)
    }
}

/// The answer to a question of the table.
pub fn answer(alloc: Global, question: &str) -> Result<Vec<u8>, Fault> {
    let mut text = Vec::new(alloc);
    push_answer(alloc, result(alloc, question)?, &mut text)?;
    Ok(text)
}
