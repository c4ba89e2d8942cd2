//! Lines, forwards and backwards. The equations of a row are those that are given.
use crate::parts::Parts;
use derive_lines::{check_back, check_lines};
use std::alloc::Global;
use table_tests::{Fault, push};

/// Whether the lines are good and lead back from the given equations, or why not.
pub fn answer(alloc: Global, question: &str) -> Result<Vec<u8>, Fault> {
    let Parts {
        root,
        decisions,
        lines,
        equations,
        ..
    } = Parts::read(alloc, question, " / ")?;
    let mut text = Vec::new(alloc);
    if let Err(stop) = check_lines(alloc, &root, &decisions, &lines) {
        push(format!(in alloc; "{stop:?}")?.as_str(), &mut text)?;
        return Ok(text);
    }
    match check_back(alloc, &root, &decisions, &lines, &equations) {
        Ok(_) => push("Ok", &mut text)?,
        Err(stop) => push(format!(in alloc; "{stop:?}")?.as_str(), &mut text)?,
    }
    Ok(text)
}
