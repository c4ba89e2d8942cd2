//! Leaves, and parts that are none.
use crate::parts::Parts;
use leaf_cert::Leaf;
use std::alloc::Global;
use table_tests::{Fault, push};

/// Whether the parts are a leaf, or why not.
pub fn answer(alloc: Global, question: &str) -> Result<Vec<u8>, Fault> {
    let Parts {
        root,
        decisions,
        lines,
        equations,
        leaf_end,
        ..
    } = Parts::read(alloc, question, "\n")?;
    let mut text = Vec::new(alloc);
    match Leaf::checked(alloc, &root, decisions, lines, equations, leaf_end) {
        Ok(_) => push("Ok", &mut text)?,
        Err(stop) => push(format!(in alloc; "{stop:?}")?.as_str(), &mut text)?,
    }
    Ok(text)
}
