//! Checks of certificates in memory.
use braid_io::{MemSink, MemSource};
use check_run::{check_line, run_check};
use field_laws::Rationals;
use std::alloc::{AllocError, Global};
use table_tests::{Fault, numbers, push};

/// The line of a check. The question is the problem, and below it the lines of the certificate.
pub fn check(alloc: Global, question: &str) -> Result<Vec<u8>, Fault> {
    let Some((problem, lines)) = question.split_once("\n") else {
        return Err(Fault::Form);
    };
    let mut certificate = lines.as_bytes().to_vec(alloc)?;
    certificate.push(b'\n')?;
    checked(alloc, problem, certificate)
}

/// The same where the last line of the certificate has no end.
pub fn check_unended(alloc: Global, question: &str) -> Result<Vec<u8>, Fault> {
    let Some((problem, lines)) = question.split_once("\n") else {
        return Err(Fault::Form);
    };
    checked(alloc, problem, lines.as_bytes().to_vec(alloc)?)
}

// The line of a check with ample memory, and where something was written, that it was.
fn checked(alloc: Global, problem: &str, certificate: Vec<u8>) -> Result<Vec<u8>, Fault> {
    let mut problem = MemSource::new(problem.as_bytes().to_vec(alloc)?, 4096, Vec::new(alloc));
    let mut certificate = MemSource::new(certificate, 4096, Vec::new(alloc));
    let mut sink = MemSink::new(alloc, 4096, 4096, Vec::new(alloc))?;
    let words = words_of(alloc, 2)?;
    let status = run_check::<Rationals, _, _, _>(
        alloc,
        &words,
        &mut problem,
        &mut certificate,
        &mut sink,
    );
    let mut text = Vec::new(alloc);
    push(check_line(alloc, &status)?.as_str(), &mut text)?;
    if !sink.written().is_empty() {
        push(", written", &mut text)?;
    }
    Ok(text)
}

fn words_of(alloc: Global, count: u64) -> Result<Vec<String>, AllocError> {
    let mut words = Vec::new(alloc);
    for _ in 0..count {
        words.push(String::from_str(alloc, "file")?)?;
    }
    Ok(words)
}

/// The line of a check of the certificate of the trivial ring, and how many bytes it wrote. The question is how many words there are, and a read of the
/// problem, one of the certificate and a write that fail.
pub fn check_on_devices(alloc: Global, question: &str) -> Result<Vec<u8>, Fault> {
    let row = numbers(alloc, question)?;
    let [words, first, second, write] = row.as_slice() else {
        return Err(Fault::Form);
    };
    let bytes = b"{\"labels\":1,\"products\":[]}".to_vec(alloc)?;
    let mut problem = MemSource::new(bytes, 8, vec![in alloc; *first]?);
    let bytes =
        b"braidcert 1\nunknowns 0\nequations 0\nbudget 5\nleaf 0 triangular\ndone 1\n".to_vec(
            alloc,
        )?;
    let mut certificate = MemSource::new(bytes, 8, vec![in alloc; *second]?);
    let mut sink = MemSink::new(alloc, 4096, 8, vec![in alloc; *write]?)?;
    let words = words_of(alloc, *words)?;
    let status = run_check::<Rationals, _, _, _>(
        alloc,
        &words,
        &mut problem,
        &mut certificate,
        &mut sink,
    );
    let line = check_line(alloc, &status)?;
    let written = sink.written().len();
    let mut text = Vec::new(alloc);
    push(format!(in alloc; "{line}, {written}")?.as_str(), &mut text)?;
    Ok(text)
}
