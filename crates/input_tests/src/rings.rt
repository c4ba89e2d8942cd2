//! Fusion rings and their symbols.
use fusion_ring::{Ring, Triple};
use std::alloc::Global;
use symbol_index::{Symbol, Symbols};
use table_tests::{Fault, numbers, push};

/// The triples of three numbers each.
pub fn triples(alloc: Global, numbers: &[u64]) -> Result<Vec<Triple>, Fault> {
    let mut all = Vec::new(alloc);
    for three in numbers.chunks(3) {
        let [a, b, c] = three else {
            return Err(Fault::Form);
        };
        let (a, b, c) = (*a, *b, *c);
        all.push(Triple { a, b, c })?;
    }
    Ok(all)
}

/// The number of labels of the ring that a number of labels and listed triples state, or the fault.
pub fn ring(alloc: Global, question: &str) -> Result<Vec<u8>, Fault> {
    let row = numbers(alloc, question)?;
    let [labels, listed @ ..] = row.as_slice() else {
        return Err(Fault::Form);
    };
    let answer = Ring::new(alloc, *labels, &triples(alloc, listed)?).map(|ring| ring.labels());
    let mut text = Vec::new(alloc);
    push(format!(in alloc; "{answer:?}")?.as_str(), &mut text)?;
    Ok(text)
}

/// How many unknowns a ring has that are F, and how many in all, or the fault.
pub fn symbols(alloc: Global, question: &str) -> Result<Vec<u8>, Fault> {
    let row = numbers(alloc, question)?;
    let [labels, listed @ ..] = row.as_slice() else {
        return Err(Fault::Form);
    };
    let Ok(ring) = Ring::new(alloc, *labels, &triples(alloc, listed)?) else {
        return Err(Fault::Form);
    };
    let answer = match Symbols::new(alloc, &ring) {
        Ok(symbols) => format!(in alloc; "{} {}", count_f(&symbols), symbols.count())?,
        Err(fault) => format!(in alloc; "{fault:?}")?,
    };
    let mut text = Vec::new(alloc);
    push(answer.as_str(), &mut text)?;
    Ok(text)
}

fn count_f(symbols: &Symbols) -> u32 {
    let mut count = 0u32;
    for i in 0..symbols.count() {
        if matches!(symbols.symbol_at(i), Symbol::Fsym { .. }) {
            count = count.saturating_add(1);
        }
    }
    count
}
