//! From the bytes of tables to the text of their report.
use crate::fault::Fault;
use crate::tables::{Answers, Report, worked};
use crate::texts::push;
use braid_io::{Sink, Source, read_all, write_all_of};
use std::alloc::Global;
use std::process::ExitCode;

/// The most bytes that tables may have.
const MAX_BYTES: usize = 1_048_576;

/// Works the tables of a source, writes the wrong rows and the number of rows to the sink, and answers whether all are right.
pub fn work_tables<A: Answers, S: Source, K: Sink>(
    alloc: Global,
    source: &mut S,
    sink: &mut K,
    answers: &A,
) -> Result<bool, Fault> {
    let Ok(bytes) = read_all(alloc, source, MAX_BYTES) else {
        return Err(Fault::Form);
    };
    let Ok(text) = str::from_utf8(&bytes) else {
        return Err(Fault::Form);
    };
    let report = worked(alloc, text, answers)?;
    let text = text_of(alloc, &report)?;
    Ok(write_all_of(sink, &text).is_ok() && report.wrong.is_empty())
}

/// How a program ends that worked tables: well where all rows are right.
pub fn exit_of(worked: Result<bool, Fault>) -> ExitCode {
    match worked {
        Ok(all_right) => ExitCode::from(u8::from(!all_right)),
        Err(Fault::Form) => ExitCode::from(2),
        Err(Fault::OutOfMemory) => ExitCode::from(3),
    }
}

fn text_of(alloc: Global, report: &Report) -> Result<Vec<u8>, Fault> {
    let mut text = Vec::new(alloc);
    for row in &report.wrong {
        push(row.as_str(), &mut text)?;
        push("\n", &mut text)?;
    }
    let wrong = report.wrong.len();
    let rows = report.rows;
    push(
        format!(in alloc; "{rows} rows, {wrong} wrong\n")?.as_str(),
        &mut text,
    )?;
    Ok(text)
}
