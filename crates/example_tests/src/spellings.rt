//! Texts of polynomials, where there are 100 unknowns.
use poly_text::{PolyTextFault, read_poly, write_poly};
use std::alloc::Global;
use table_tests::{Fault, push};

/// The text of the polynomial that a text is, between quotes, or why it is none.
pub fn answer(alloc: Global, question: &str) -> Result<Vec<u8>, Fault> {
    let mut text = Vec::new(alloc);
    let quoted = question
        .strip_prefix("'")
        .and_then(|rest| rest.strip_suffix("'"));
    let Some(spelling) = quoted else {
        return Err(Fault::Form);
    };
    match read_poly(alloc, spelling.as_bytes(), 100) {
        Ok(poly) => write_poly(&poly, &mut text)?,
        Err(PolyTextFault::OutOfMemory) => return Err(Fault::OutOfMemory),
        Err(fault) => push(format!(in alloc; "{fault:?}")?.as_str(), &mut text)?,
    }
    Ok(text)
}
