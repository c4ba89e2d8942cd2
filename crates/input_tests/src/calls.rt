//! Calls that no table asks: those of tuples, of a ring, of standings, of differences, and of devices.
use crate::devices::{scripted, two_reads, two_writes};
use braid_io::StdSource;
use field_laws::Rationals;
use fusion_ring::{Ring, Triple};
use hexagon_gen::laws::hexagon_law;
use label_tuples::{all_fours, all_singles, all_triples, count_labels, extended, first_fault};
use pentagon_gen::laws::pentagon_law;
use std::alloc::{AllocError, Global};
use symbol_equations::laws::difference_law;
use symbol_equations::{Product, Sides, difference, differences, summands, trees};
use symbol_index::{Symbol, Symbols};
use table_tests::{Fault, push, push_poly};

const F: Symbol = Symbol::Fsym {
    a: 1,
    b: 1,
    c: 1,
    d: 1,
    e: 0,
    f: 0,
};

const R: Symbol = Symbol::Rsym { a: 1, b: 1, c: 0 };

const UNIT: Symbol = Symbol::Rsym { a: 0, b: 1, c: 1 };

const NOT_ADMISSIBLE: Symbol = Symbol::Rsym { a: 1, b: 1, c: 1 };

/// What a call answers.
pub fn answer(alloc: Global, question: &str) -> Result<Vec<u8>, Fault> {
    let mut text = Vec::new(alloc);
    match question {
        "tuples" => push(tuples(alloc)?.as_str(), &mut text)?,
        "cyclic ring of 12" => push(calls_of_ring(alloc)?.as_str(), &mut text)?,
        "standings in the Fibonacci ring" => push(standings(alloc)?.as_str(), &mut text)?,
        "differences" => push_differences(alloc, &mut text)?,
        "numbers of summands" => push(counts(alloc)?.as_str(), &mut text)?,
        "unopened source" => push(two_reads(alloc, StdSource::unopened())?.as_str(), &mut text)?,
        "laws of the rationals" => laws_of_the_rationals(),
        _ => push(on_script(alloc, question)?.as_str(), &mut text)?,
    }
    Ok(text)
}

fn tuples(alloc: Global) -> Result<String, AllocError> {
    let pairs = extended(alloc, &[2, 0], 3, |a, b| (a != b).then_some((a, b)))?;
    let singles = all_singles(alloc, 2)?;
    let triples = all_triples(alloc, 12)?;
    let fours = all_fours(alloc, 12)?;
    let fault = first_fault(&[4, 6, 7, 8, 9], |x| x % 2 == 0);
    let count = count_labels(12, |x| x % 5 == 1);
    format!(in alloc;
        "{pairs:?} {singles:?} {:?} {:?} {fault:?} {count}",
        triples.get(13),
        fours.last()
    )
}

// A ring, and its symbols.
fn ring_of(alloc: Global, labels: u64, listed: &[Triple]) -> Result<(Ring, Symbols), Fault> {
    let Ok(ring) = Ring::new(alloc, labels, listed) else {
        return Err(Fault::Form);
    };
    match Symbols::new(alloc, &ring) {
        Ok(symbols) => Ok((ring, symbols)),
        Err(_) => Err(Fault::Form),
    }
}

// The number of labels, two channels, and two duals of a copy of the cyclic ring of 12.
fn calls_of_ring(alloc: Global) -> Result<String, Fault> {
    let mut listed = Vec::new(alloc);
    for t in 13..144u64 {
        let (a, b) = (t / 12, t % 12);
        if b != 0 {
            listed.push(Triple {
                a,
                b,
                c: (a + b) % 12,
            })?;
        }
    }
    let (ring, _) = ring_of(alloc, 12, &listed)?;
    let ring = ring.copy()?;
    let labels = ring.labels();
    let (is, is_not) = (ring.channel(7, 8, 3), ring.channel(7, 12, 7));
    if labels < 8 {
        return Err(Fault::Form);
    }
    let (unit, dual) = (ring.dual(0), ring.dual(7));
    Ok(format!(in alloc; "{labels} {is} {is_not} {unit} {dual}")?)
}

// Where F(1,1,1,1;1,0), its G, S(1,1,1), a unit symbol, one that is not admissible and one with a label outside stand.
fn standings(alloc: Global) -> Result<String, Fault> {
    let listed = [Triple { a: 1, b: 1, c: 0 }, Triple { a: 1, b: 1, c: 1 }];
    let (_, symbols) = ring_of(alloc, 2, &listed)?;
    let (a, b, c, d, e, f) = (1, 1, 1, 1, 1, 0);
    let first = symbols.standing(Symbol::Fsym { a, b, c, d, e, f });
    let second = symbols.standing(Symbol::Ginv { a, b, c, d, f, e });
    let third = symbols.standing(Symbol::Sinv { a, b, c });
    let unit = symbols.standing(UNIT);
    let not_admissible = symbols.standing(Symbol::Rsym { a: 0, b, c: 0 });
    let outside = symbols.standing(Symbol::Rsym { a: 0, b: 2, c: 2 });
    Ok(format!(in alloc; "{first:?} {second:?} {third:?} {unit:?} {not_admissible:?} {outside:?}")?)
}

// A difference in the unknowns of the group of two elements, and one of two sides that are the same.
fn push_differences(alloc: Global, into: &mut Vec<u8>) -> Result<(), Fault> {
    let (_, symbols) = ring_of(alloc, 2, &[Triple { a: 1, b: 1, c: 0 }])?;
    let left = [
        Product::new(alloc, &[R, F, UNIT, R])?,
        Product::new(alloc, &[F, NOT_ADMISSIBLE])?,
        Product::new(alloc, &[F])?,
    ];
    let right = [Product::new(alloc, &[])?, Product::new(alloc, &[F])?];
    push_poly(&difference(alloc, &symbols, &left, &right)?, into)?;
    push(" ", into)?;
    let same = Product::new(alloc, &[F, R, UNIT, R])?;
    push_poly(&difference(alloc, &symbols, &left[..1], &[same])?, into)
}

fn summand(alloc: Global, label: u8) -> Result<Option<Product>, AllocError> {
    if label == 1 {
        return Ok(None);
    }
    Ok(Some(Product::new(alloc, &[F])?))
}

fn sides(alloc: Global) -> Result<Sides, AllocError> {
    let mut left = Vec::new(alloc);
    left.push(Product::new(alloc, &[R])?)?;
    let mut right = Vec::new(alloc);
    right.push(Product::new(alloc, &[F])?)?;
    Ok(Sides::new(left, right))
}

// How many trees there are, summands at each label but 1, and equations R = F at three labels.
fn counts(alloc: Global) -> Result<String, Fault> {
    let (ring, symbols) = ring_of(alloc, 2, &[Triple { a: 1, b: 1, c: 0 }])?;
    let trees = trees(alloc, &ring)?.len();
    let summands = summands(alloc, 3, |h| summand(alloc, h))?.len();
    let differences = differences(alloc, &symbols, &[0u8, 1, 2], |_| sides(alloc))?.len();
    Ok(format!(in alloc; "{trees} {summands} {differences}")?)
}

// Two reads of a device with this script, and two writes of one with the same.
fn on_script(alloc: Global, question: &str) -> Result<String, Fault> {
    let Some(script) = question.strip_prefix("script ") else {
        return Err(Fault::Form);
    };
    let reads = two_reads(alloc, StdSource::new(scripted(alloc, script)?))?;
    let writes = two_writes(alloc, scripted(alloc, script)?)?;
    Ok(format!(in alloc; "{reads}, {writes}")?)
}

fn laws_of_the_rationals() {
    difference_law::<Rationals>();
    pentagon_law::<Rationals>();
    hexagon_law::<Rationals>();
}
