//! Refutations, parts that are none, and cones.
use crate::parts::{Parts, push_decisions, push_lines, push_reference};
use refute_cert::{CertStop, Refutation};
use std::alloc::Global;
use table_tests::{Fault, push};

/// Whether the parts are a refutation, or why not.
pub fn answer(alloc: Global, question: &str) -> Result<Vec<u8>, Fault> {
    let Parts {
        root,
        decisions,
        lines,
        end,
        ..
    } = Parts::read(alloc, question, "\n")?;
    let mut text = Vec::new(alloc);
    match Refutation::checked(alloc, &root, decisions, lines, end) {
        Ok(_) => push("Ok", &mut text)?,
        Err(stop) => push(format!(in alloc; "{stop:?}")?.as_str(), &mut text)?,
    }
    Ok(text)
}

/// What is needed of a refutation.
pub fn cone(alloc: Global, question: &str) -> Result<Vec<u8>, Fault> {
    let Parts {
        root,
        decisions,
        lines,
        end,
        ..
    } = Parts::read(alloc, question, "\n")?;
    let whole = match Refutation::checked(alloc, &root, decisions, lines, end) {
        Ok(whole) => whole,
        Err(CertStop::OutOfMemory) => return Err(Fault::OutOfMemory),
        Err(_) => return Err(Fault::Form),
    };
    let cone = Refutation::cone(alloc, &root, whole.pattern(), whole.lines(), end)?;
    let mut text = Vec::new(alloc);
    push_refutation(alloc, &cone, &mut text)?;
    Ok(text)
}

/// Appends a refutation: its pattern, its lines and its end.
pub fn push_refutation(
    alloc: Global,
    refutation: &Refutation,
    into: &mut Vec<u8>,
) -> Result<(), Fault> {
    push_decisions(refutation.pattern(), into)?;
    push_lines(alloc, refutation.lines(), into)?;
    push("end ", into)?;
    push_reference(alloc, Some(refutation.end()), into)
}
