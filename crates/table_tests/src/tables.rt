//! The tables and their rows.
use crate::fault::Fault;
use std::alloc::Global;

/// What answers the questions of tables.
pub trait Answers {
    /// The answer to a question of the table with this name.
    fn answer(&self, alloc: Global, name: &str, question: &str) -> Result<Vec<u8>, Fault>;
}

/// How many rows there are, and those whose answer is another than the table says.
#[derive(Drop)]
pub struct Report {
    pub rows: u64,
    pub wrong: Vec<String>,
}

/// Works all tables of a text. A table begins with a line `# NAME`. Where one of its lines is `=`, a row is a paragraph, with such a line between
/// question and answer. Else each line is a row, with ` = ` between.
pub fn worked<A: Answers>(alloc: Global, text: &str, answers: &A) -> Result<Report, Fault> {
    let mut report = Report {
        rows: 0,
        wrong: Vec::new(alloc),
    };
    for table in text.split("\n# ") {
        let Some((name, rows)) = table.trim_ascii_end().split_once("\n") else {
            continue;
        };
        let name = name.strip_prefix("# ").unwrap_or(name);
        work(alloc, name, rows, answers, &mut report)?;
    }
    Ok(report)
}

// Works the rows of one table.
fn work<A: Answers>(
    alloc: Global,
    name: &str,
    rows: &str,
    answers: &A,
    report: &mut Report,
) -> Result<(), Fault> {
    let (between, before_answer) = if rows.contains("\n=\n") {
        ("\n\n", "\n=\n")
    } else {
        ("\n", " = ")
    };
    for row in rows.split(between) {
        report.rows = report.rows.saturating_add(1);
        if !is_right(alloc, name, row, before_answer, answers)? {
            report.wrong.push(String::from_str(alloc, row)?)?;
        }
    }
    Ok(())
}

// Whether a row has the right answer. A question that can't be read has none.
fn is_right<A: Answers>(
    alloc: Global,
    name: &str,
    row: &str,
    before_answer: &str,
    answers: &A,
) -> Result<bool, Fault> {
    let Some((question, expected)) = row.split_once(before_answer) else {
        return Ok(false);
    };
    match answers.answer(alloc, name, question) {
        Ok(found) => Ok(found.as_slice() == expected.as_bytes()),
        Err(Fault::Form) => Ok(false),
        Err(Fault::OutOfMemory) => Err(Fault::OutOfMemory),
    }
}
