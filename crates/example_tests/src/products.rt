//! Products, and combinations `p*p - p*q`.
use crate::texts::{poly, push_answer};
use sparse_poly::Poly;
use std::alloc::Global;
use table_tests::{Fault, both};

/// The answer to a question of the table.
pub fn answer(alloc: Global, question: &str) -> Result<Vec<u8>, Fault> {
    let (operation, operands) = both(question)?;
    let (first, second) = both(operands)?;
    let p = poly(alloc, first)?;
    let q = poly(alloc, second)?;
    let result = if operation == "product" {
        p.times(&q)
    } else {
        Poly::combine(alloc, &p, &p, &p, &q)
    };
    let mut text = Vec::new(alloc);
    push_answer(alloc, result, &mut text)?;
    Ok(text)
}
