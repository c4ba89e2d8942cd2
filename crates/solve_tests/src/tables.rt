//! Tables whose rows are answered with the runtime at hand. A table begins with a line `# NAME`, and has the forms of the crate `table_tests`.
use crate::runs;
use braid_io::{Sink, Source, read_all, write_all_of};
use std::alloc::Global;
use std::sync::Wait;
use std::thread::Threads;
use table_tests::{Fault, push};

/// The most bytes that tables may have.
const MAX_BYTES: usize = 1_048_576;

/// Works the tables of a source, writes the wrong rows and the number of rows to the sink, and answers whether all are right.
pub fn work_all<R: Threads + Wait + Sync, S: Source, K: Sink>(
    rt: &R,
    alloc: Global,
    source: &mut S,
    sink: &mut K,
) -> Result<bool, Fault> {
    let Ok(bytes) = read_all(alloc, source, MAX_BYTES) else {
        return Err(Fault::Form);
    };
    let Ok(text) = str::from_utf8(&bytes) else {
        return Err(Fault::Form);
    };
    let mut said = Vec::new(alloc);
    let mut rows = 0;
    let mut wrong = 0;
    for table in text.split("\n# ") {
        work_table(rt, alloc, table, &mut said, &mut rows, &mut wrong)?;
    }
    push(
        format!(in alloc; "{rows} rows, {wrong} wrong\n")?.as_str(),
        &mut said,
    )?;
    Ok(write_all_of(sink, &said).is_ok() && wrong == 0)
}

// Works the rows of one table: counts them and the wrong ones, and says the latter.
fn work_table<R: Threads + Wait + Sync>(
    rt: &R,
    alloc: Global,
    table: &str,
    said: &mut Vec<u8>,
    rows: &mut u64,
    wrong: &mut u64,
) -> Result<(), Fault> {
    let Some((name, all)) = table.trim_ascii_end().split_once("\n") else {
        return Ok(());
    };
    let name = name.strip_prefix("# ").unwrap_or(name);
    let (between, before_answer) = if all.contains("\n=\n") {
        ("\n\n", "\n=\n")
    } else {
        ("\n", " = ")
    };
    for row in all.split(between) {
        *rows = rows.saturating_add(1);
        if !is_right(rt, alloc, name, row, before_answer)? {
            *wrong = wrong.saturating_add(1);
            push(row, said)?;
            push("\n", said)?;
        }
    }
    Ok(())
}

// Whether a row has the right answer. A question that can't be read has none.
fn is_right<R: Threads + Wait + Sync>(
    rt: &R,
    alloc: Global,
    name: &str,
    row: &str,
    before_answer: &str,
) -> Result<bool, Fault> {
    let Some((question, expected)) = row.split_once(before_answer) else {
        return Ok(false);
    };
    match answer(rt, alloc, name, question) {
        Ok(found) => Ok(found.as_slice() == expected.as_bytes()),
        Err(Fault::Form) => Ok(false),
        Err(Fault::OutOfMemory) => Err(Fault::OutOfMemory),
    }
}

// The answer to a question of the table with this name.
fn answer<R: Threads + Wait + Sync>(
    rt: &R,
    alloc: Global,
    name: &str,
    question: &str,
) -> Result<Vec<u8>, Fault> {
    match name {
        "statuses" => runs::status(rt, alloc, question),
        "texts" => runs::text(rt, alloc, question),
        "sources" => runs::on_source(rt, alloc, question),
        "faults" => runs::on_devices(rt, alloc, question),
        "checks of runs" => runs::check_of_run(rt, alloc, question),
        _ => Err(Fault::Form),
    }
}
