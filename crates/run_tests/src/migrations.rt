//! Migrations of certificates in memory.
use braid_io::{MemSink, MemSource};
use cert_migrate::migrate;
use check_run::{CheckStatus, check_line, run_check};
use field_laws::Rationals;
use std::alloc::{AllocError, Global};
use table_tests::{Fault, numbers, push};

/// The line of a migration and the text that it writes, but for the end of its last line. The question is the lines of the certificate. The source of the
/// problem fails at its first read.
pub fn migration(alloc: Global, question: &str) -> Result<Vec<u8>, Fault> {
    let mut certificate = MemSource::new(ended(alloc, question)?, 4096, Vec::new(alloc));
    let mut sink = MemSink::new(alloc, 1_048_576, 4096, Vec::new(alloc))?;
    let line = line_of(alloc, &mut certificate, &mut sink)?;
    let mut text = Vec::new(alloc);
    push(line.as_str(), &mut text)?;
    if let Some(body) = sink.written().strip_suffix(b"\n") {
        push("\n", &mut text)?;
        text.extend_from_slice(body)?;
    }
    Ok(text)
}

/// The line of a migration of the certificate of the trivial ring, and how many bytes it wrote. The question is a read of the certificate and a write that
/// fail.
pub fn on_devices(alloc: Global, question: &str) -> Result<Vec<u8>, Fault> {
    let row = numbers(alloc, question)?;
    let [read, write] = row.as_slice() else {
        return Err(Fault::Form);
    };
    let bytes = ended(
        alloc,
        "braidcert 1\nunknowns 0\nequations 0\nbudget 5\nleaf 0 triangular\ndone 1",
    )?;
    let mut certificate = MemSource::new(bytes, 8, vec![in alloc; *read]?);
    let mut sink = MemSink::new(alloc, 4096, 8, vec![in alloc; *write]?)?;
    let line = line_of(alloc, &mut certificate, &mut sink)?;
    let written = sink.written().len();
    let mut text = Vec::new(alloc);
    push(format!(in alloc; "{line}, {written}")?.as_str(), &mut text)?;
    Ok(text)
}

/// The text that `migrate` makes of the lines of a certificate, but for the end of its last line, or the line of its fault.
pub fn migrated(alloc: Global, question: &str) -> Result<Vec<u8>, Fault> {
    match migrate(alloc, &ended(alloc, question)?) {
        Ok(text) => match text.strip_suffix(b"\n") {
            Some(body) => Ok(body.to_vec(alloc)?),
            None => Err(Fault::Form),
        },
        Err(fault) => {
            let line = check_line(alloc, &CheckStatus::Certificate(fault))?;
            Ok(line.as_bytes().to_vec(alloc)?)
        }
    }
}

// Lines with the end of the last one.
fn ended(alloc: Global, lines: &str) -> Result<Vec<u8>, AllocError> {
    let mut bytes = lines.as_bytes().to_vec(alloc)?;
    bytes.push(b'\n')?;
    Ok(bytes)
}

// The line of a migration. The source of the problem fails at its first read.
fn line_of(
    alloc: Global,
    certificate: &mut MemSource,
    sink: &mut MemSink,
) -> Result<String, AllocError> {
    let mut problem = MemSource::new(Vec::new(alloc), 8, vec![in alloc; 0]?);
    let mut words = Vec::new(alloc);
    words.push(String::from_str(alloc, "--migrate")?)?;
    words.push(String::from_str(alloc, "file")?)?;
    let status = run_check::<Rationals, _, _, _>(alloc, &words, &mut problem, certificate, sink);
    check_line(alloc, &status)
}
