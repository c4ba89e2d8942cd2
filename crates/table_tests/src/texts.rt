//! Parts of questions, and texts of answers.
use crate::fault::Fault;
use poly_text::write_poly;
use sparse_poly::Poly;
use std::alloc::Global;

/// A number.
pub fn number(text: &str) -> Result<u32, Fault> {
    match text.parse::<u32>() {
        Ok(number) => Ok(number),
        Err(_) => Err(Fault::Form),
    }
}

/// The numbers of a text.
pub fn numbers(alloc: Global, text: &str) -> Result<Vec<u64>, Fault> {
    let mut all = Vec::new(alloc);
    for word in text.split_whitespace() {
        let Ok(number) = word.parse::<u64>() else {
            return Err(Fault::Form);
        };
        all.push(number)?;
    }
    Ok(all)
}

/// Two operands.
pub fn both(text: &str) -> Result<(&str, &str), Fault> {
    text.split_once("; ").ok_or(Fault::Form)
}

/// Appends a text.
pub fn push(text: &str, into: &mut Vec<u8>) -> Result<(), Fault> {
    into.extend_from_slice(text.as_bytes())?;
    Ok(())
}

/// Appends the text of a polynomial.
pub fn push_poly(poly: &Poly, into: &mut Vec<u8>) -> Result<(), Fault> {
    write_poly(poly, into)?;
    Ok(())
}
