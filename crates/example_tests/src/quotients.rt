//! Quotients, units, and polynomials cleared of units, answered by the factor and the rest.
use crate::texts::{poly, polys};
use sparse_poly::Poly;
use std::alloc::Global;
use table_tests::{Fault, both, push, push_poly};

fn push_quotient(whole: &Poly, divisor: &Poly, into: &mut Vec<u8>) -> Result<(), Fault> {
    if divisor.is_zero() {
        return Err(Fault::Form);
    }
    match whole.quotient(divisor)? {
        Some(quotient) => push_poly(&quotient, into),
        None => push("none", into),
    }
}

fn push_cleared(whole: &Poly, units: &[Poly], into: &mut Vec<u8>) -> Result<(), Fault> {
    let cleared = whole.clear(units)?;
    push_poly(&cleared.factor, into)?;
    push(" times ", into)?;
    push_poly(&cleared.rest, into)
}

fn push_unit(whole: &Poly, units: &[Poly], into: &mut Vec<u8>) -> Result<(), Fault> {
    if whole.is_unit(units)? {
        push("true", into)
    } else {
        push("false", into)
    }
}

/// The answer to a question of the table.
pub fn answer(alloc: Global, question: &str) -> Result<Vec<u8>, Fault> {
    let (operation, operands) = both(question)?;
    let (first, second) = both(operands)?;
    let whole = poly(alloc, first)?;
    let units = polys(alloc, second)?;
    let mut text = Vec::new(alloc);
    if operation == "clear" {
        push_cleared(&whole, &units, &mut text)?;
    } else if operation == "unit" {
        push_unit(&whole, &units, &mut text)?;
    } else {
        push_quotient(&whole, units.first().ok_or(Fault::Form)?, &mut text)?;
    }
    Ok(text)
}
