//! Runs on problems in memory. A question is the words and the problem, with ` | ` between.
use braid_io::{MemSink, MemSource, Sink, Source, StdSource};
use check_run::{check_line, run_check};
use field_laws::Rationals;
use solve_run::{run, status_line};
use std::alloc::{AllocError, Global};
use std::sync::Wait;
use std::thread::Threads;
use steal_workers::OpenGate;
use table_tests::{Fault, numbers, push};

fn words_of(alloc: Global, text: &str) -> Result<Vec<String>, AllocError> {
    let mut words = Vec::new(alloc);
    for word in text.split_whitespace() {
        words.push(String::from_str(alloc, word)?)?;
    }
    Ok(words)
}

/// The line of a run with these words.
pub fn line_of<R: Threads + Wait + Sync, S: Source, K: Sink>(
    rt: &R,
    alloc: Global,
    words: &str,
    source: &mut S,
    sink: &mut K,
) -> Result<String, AllocError> {
    let words = words_of(alloc, words)?;
    let status = run::<Rationals, _, _, _, _>(rt, alloc, &words, source, sink, &OpenGate);
    status_line(alloc, &status)
}

// The line and the text of a run with ample memory.
fn answer<R: Threads + Wait + Sync>(
    rt: &R,
    alloc: Global,
    question: &str,
) -> Result<(String, Vec<u8>), Fault> {
    let Some((words, problem)) = question.split_once(" | ") else {
        return Err(Fault::Form);
    };
    let mut source = MemSource::new(problem.as_bytes().to_vec(alloc)?, 4096, Vec::new(alloc));
    let mut sink = MemSink::new(alloc, 1_048_576, 4096, Vec::new(alloc))?;
    let line = line_of(rt, alloc, words, &mut source, &mut sink)?;
    Ok((line, sink.written().to_vec(alloc)?))
}

/// The line of the status, and where something was written, that it was.
pub fn status<R: Threads + Wait + Sync>(
    rt: &R,
    alloc: Global,
    question: &str,
) -> Result<Vec<u8>, Fault> {
    let (line, written) = answer(rt, alloc, question)?;
    let mut text = Vec::new(alloc);
    push(line.as_str(), &mut text)?;
    if !written.is_empty() {
        push(", written", &mut text)?;
    }
    Ok(text)
}

/// The line of the status and the text that is written, but for the end of its last line.
pub fn text<R: Threads + Wait + Sync>(
    rt: &R,
    alloc: Global,
    question: &str,
) -> Result<Vec<u8>, Fault> {
    let (line, written) = answer(rt, alloc, question)?;
    let mut text = Vec::new(alloc);
    push(line.as_str(), &mut text)?;
    push("\n", &mut text)?;
    let Some(body) = written.strip_suffix(b"\n") else {
        return Err(Fault::Form);
    };
    text.extend_from_slice(body)?;
    Ok(text)
}

/// The line of a run on the ring of the group of two elements, and how many bytes it wrote. The question is the most that one read gives, the room of the
/// sink, the most that one write takes, a read that fails and a write that fails.
pub fn on_devices<R: Threads + Wait + Sync>(
    rt: &R,
    alloc: Global,
    question: &str,
) -> Result<Vec<u8>, Fault> {
    let row = numbers(alloc, question)?;
    let [piece, room, most, read, write] = row.as_slice() else {
        return Err(Fault::Form);
    };
    let bytes = b"{\"labels\":2,\"products\":[[1,1,0]]}".to_vec(alloc)?;
    let fails = vec![in alloc; *read]?;
    let mut source = MemSource::new(bytes, (*piece as usize).max(1), fails);
    let fails = vec![in alloc; *write]?;
    let mut sink = MemSink::new(alloc, *room, (*most as usize).max(1), fails)?;
    let line = line_of(rt, alloc, "--budget 0", &mut source, &mut sink)?;
    let written = sink.written().len();
    let mut text = Vec::new(alloc);
    push(format!(in alloc; "{line} {written}")?.as_str(), &mut text)?;
    Ok(text)
}

/// The lines of runs on a source that is not opened, or on bytes that no row can have: bytes that are no text, as many spaces as may be read, and one more.
pub fn on_source<R: Threads + Wait + Sync>(
    rt: &R,
    alloc: Global,
    question: &str,
) -> Result<Vec<u8>, Fault> {
    let line = match question {
        "unopened" => line_unopened(rt, alloc)?,
        "no text" => line_on(
            rt,
            alloc,
            b"{\"labels\":1,\"products\":[],\"name\":\"\xff\"}".to_vec(alloc)?,
        )?,
        "most bytes" => line_on(rt, alloc, vec![in alloc; b' '; 1_048_576]?)?,
        "too many bytes" => line_on(rt, alloc, vec![in alloc; b' '; 1_048_577]?)?,
        _ => return Err(Fault::Form),
    };
    let mut text = Vec::new(alloc);
    push(line.as_str(), &mut text)?;
    Ok(text)
}

fn line_unopened<R: Threads + Wait + Sync>(rt: &R, alloc: Global) -> Result<String, AllocError> {
    let mut source: StdSource<&[u8]> = StdSource::unopened();
    let mut sink = MemSink::new(alloc, 4096, 4096, Vec::new(alloc))?;
    line_of(rt, alloc, "--budget 0", &mut source, &mut sink)
}

fn line_on<R: Threads + Wait + Sync>(
    rt: &R,
    alloc: Global,
    bytes: Vec<u8>,
) -> Result<String, AllocError> {
    let mut source = MemSource::new(bytes, 4096, Vec::new(alloc));
    let mut sink = MemSink::new(alloc, 4096, 4096, Vec::new(alloc))?;
    line_of(rt, alloc, "--budget 0", &mut source, &mut sink)
}

/// The line of a check of what a run writes. The question is the words and the problem of the run, with ` | ` between.
pub fn check_of_run<R: Threads + Wait + Sync>(
    rt: &R,
    alloc: Global,
    question: &str,
) -> Result<Vec<u8>, Fault> {
    let Some((words, problem)) = question.split_once(" | ") else {
        return Err(Fault::Form);
    };
    let mut source = MemSource::new(problem.as_bytes().to_vec(alloc)?, 4096, Vec::new(alloc));
    let mut sink = MemSink::new(alloc, 1_048_576, 4096, Vec::new(alloc))?;
    let _line = line_of(rt, alloc, words, &mut source, &mut sink)?;
    checked(alloc, problem, sink.written().to_vec(alloc)?)
}

// The line of a check with ample memory, and where something was written, that it was.
fn checked(alloc: Global, problem: &str, certificate: Vec<u8>) -> Result<Vec<u8>, Fault> {
    let mut problem = MemSource::new(problem.as_bytes().to_vec(alloc)?, 4096, Vec::new(alloc));
    let mut certificate = MemSource::new(certificate, 4096, Vec::new(alloc));
    let mut sink = MemSink::new(alloc, 4096, 4096, Vec::new(alloc))?;
    let words = words_of(alloc, "problem certificate")?;
    let status = run_check::<Rationals, _, _, _>(
        alloc,
        &words,
        &mut problem,
        &mut certificate,
        &mut sink,
    );
    let mut text = Vec::new(alloc);
    push(check_line(alloc, &status)?.as_str(), &mut text)?;
    if !sink.written().is_empty() {
        push(", written", &mut text)?;
    }
    Ok(text)
}
