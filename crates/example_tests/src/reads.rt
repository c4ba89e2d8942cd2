//! Coefficients of powers, what is read of a polynomial, and the order of polynomials.
use crate::texts::poly;
use std::alloc::Global;
use table_tests::{Fault, both, push, push_poly};

// The coefficient of a power of variable 2.
fn coefficient(alloc: Global, first: &str, exponent: &str) -> Result<Vec<u8>, Fault> {
    let Ok(exponent) = exponent.parse::<u32>() else {
        return Err(Fault::Form);
    };
    let mut text = Vec::new(alloc);
    push_poly(&poly(alloc, first)?.coefficient_in(2, exponent)?, &mut text)?;
    Ok(text)
}

// The number of terms, the main variable, the constant value, and the degree in variable 2 of a copy.
fn read(alloc: Global, first: &str) -> Result<Vec<u8>, Fault> {
    let whole = poly(alloc, first)?;
    let count = whole.terms().len();
    let main = whole.main();
    let constant = whole.constant_value();
    let degree = whole.copy()?.degree_in(2);
    let mut text = Vec::new(alloc);
    push(
        format!(in alloc; "{count} {main:?} {constant:?} {degree}")?.as_str(),
        &mut text,
    )?;
    Ok(text)
}

fn order(alloc: Global, first: &str, second: &str) -> Result<Vec<u8>, Fault> {
    let order = poly(alloc, first)?.order(&poly(alloc, second)?);
    let mut text = Vec::new(alloc);
    push(format!(in alloc; "{order:?}")?.as_str(), &mut text)?;
    Ok(text)
}

/// The answer to a question of the table.
pub fn answer(alloc: Global, question: &str) -> Result<Vec<u8>, Fault> {
    let (operation, operands) = both(question)?;
    let (first, second) = both(operands)?;
    if operation == "coefficient" {
        coefficient(alloc, first, second)
    } else if operation == "read" {
        read(alloc, first)
    } else {
        order(alloc, first, second)
    }
}
