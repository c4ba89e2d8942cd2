//! Monomials of few and many powers, and of great variables. The operand `greatest` stands for x4294967295^65535.
use crate::texts::{monomial, push_monomial};
use monomial::{MonoFault, Monomial};
use std::alloc::Global;
use table_tests::{Fault, both, push};

fn operand(alloc: Global, text: &str) -> Result<Monomial, Fault> {
    if text == "greatest" {
        return Ok(Monomial::power(alloc, u32::MAX, 65535)?);
    }
    monomial(alloc, text)
}

fn push_product(
    alloc: Global,
    m: &Monomial,
    n: &Monomial,
    into: &mut Vec<u8>,
) -> Result<(), Fault> {
    match m.times(n) {
        Ok(product) => push_monomial(alloc, &product, into),
        Err(MonoFault::Degree { var }) => push(format!(in alloc; "degree {var}")?.as_str(), into),
        Err(MonoFault::OutOfMemory) => Err(Fault::OutOfMemory),
    }
}

// Their order, and whether the first divides the second.
fn push_comparison(
    alloc: Global,
    m: &Monomial,
    n: &Monomial,
    into: &mut Vec<u8>,
) -> Result<(), Fault> {
    let order = m.order(n);
    let divides = m.divides(n);
    push(format!(in alloc; "{order:?} {divides}")?.as_str(), into)
}

fn push_quotient(
    alloc: Global,
    whole: &Monomial,
    divisor: &Monomial,
    into: &mut Vec<u8>,
) -> Result<(), Fault> {
    if !divisor.divides(whole) {
        return Err(Fault::Form);
    }
    push_monomial(alloc, &whole.over(divisor)?, into)
}

// The top of a copy, and the monomial without the top of another.
fn push_rest(alloc: Global, m: &Monomial, n: &Monomial, into: &mut Vec<u8>) -> Result<(), Fault> {
    let top = m.copy()?.top();
    push(format!(in alloc; "{top:?} ")?.as_str(), into)?;
    let Some(var) = n.top() else {
        return Err(Fault::Form);
    };
    push_monomial(alloc, &m.without(var)?, into)
}

/// The answer to a question of the table.
pub fn answer(alloc: Global, question: &str) -> Result<Vec<u8>, Fault> {
    let (operation, operands) = both(question)?;
    let (first, second) = both(operands)?;
    let m = operand(alloc, first)?;
    let n = operand(alloc, second)?;
    let mut text = Vec::new(alloc);
    if operation == "product" {
        push_product(alloc, &m, &n, &mut text)?;
    } else if operation == "compare" {
        push_comparison(alloc, &m, &n, &mut text)?;
    } else if operation == "quotient" {
        push_quotient(alloc, &m, &n, &mut text)?;
    } else {
        push_rest(alloc, &m, &n, &mut text)?;
    }
    Ok(text)
}
