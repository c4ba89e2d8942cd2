//! Primitive parts, and polynomials stripped of units, answered by the factor and the rest.
use crate::texts::{poly, polys};
use sparse_poly::Poly;
use std::alloc::Global;
use table_tests::{Fault, both, push, push_poly};

fn push_strip(p: &Poly, units: &[Poly], into: &mut Vec<u8>) -> Result<(), Fault> {
    let stripped = p.strip(units)?;
    push_poly(&stripped.factor, into)?;
    push("; ", into)?;
    push_poly(&stripped.rest, into)
}

/// The answer to a question of the table.
pub fn answer(alloc: Global, question: &str) -> Result<Vec<u8>, Fault> {
    let (operation, operands) = both(question)?;
    let (first, second) = both(operands)?;
    let p = poly(alloc, first)?;
    let units = polys(alloc, second)?;
    let mut text = Vec::new(alloc);
    if operation == "strip" {
        push_strip(&p, &units, &mut text)?;
    } else {
        push_poly(&p.primitive_part()?, &mut text)?;
    }
    Ok(text)
}
