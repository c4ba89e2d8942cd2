//! Equations in the unknowns: pentagons, hexagons, inverses and gauges of rings of two labels. A ring is stated by its triples.

ghost use Rattle.std.specs.Prelude.{◌≡◌, IfOk, IfSome};
ghost use Rattle.gauge_fix.specs.Gauge.{IsFixable};

use crate::rings::triples;
use fusion_ring::Ring;
use gauge_fix::{gauges, inverses};
use hexagon_gen::hexagons;
use pentagon_gen::pentagons;
use poly_text::write_poly;
use sparse_poly::Poly;
use std::alloc::Global;
use symbol_index::{GaugeEntry, Standing, Symbol, Symbols};
use table_tests::{Fault, numbers, push};

fn ring_of(alloc: Global, question: &str) -> Result<Ring, Fault> {
    let listed = triples(alloc, &numbers(alloc, question)?)?;
    match Ring::new(alloc, 2, &listed) {
        Ok(ring) => Ok(ring),
        Err(_) => Err(Fault::Form),
    }
}

fn symbols_of(alloc: Global, ring: &Ring) -> Result<Symbols, Fault>
    ensures { IfOk result (λ symbols. symbols ≡ ring.now) }
{
    match Symbols::new(alloc, ring) {
        Ok(symbols) => Ok(symbols),
        Err(_) => Err(Fault::Form),
    }
}

/// How many pentagons there are, and those that are not zero.
pub fn pentagons_of(alloc: Global, question: &str) -> Result<Vec<u8>, Fault> {
    let ring = ring_of(alloc, question)?;
    let symbols = symbols_of(alloc, &ring)?;
    let polys = pentagons(alloc, &ring, &symbols)?;
    counted(alloc, &polys)
}

/// How many hexagons there are, and those that are not zero.
pub fn hexagons_of(alloc: Global, question: &str) -> Result<Vec<u8>, Fault> {
    let ring = ring_of(alloc, question)?;
    let symbols = symbols_of(alloc, &ring)?;
    let polys = hexagons(alloc, &ring, &symbols)?;
    counted(alloc, &polys)
}

/// How many equations of inverses there are, and those that are not zero.
pub fn inverses_of(alloc: Global, question: &str) -> Result<Vec<u8>, Fault> {
    let ring = ring_of(alloc, question)?;
    let symbols = symbols_of(alloc, &ring)?;
    let polys = inverses(alloc, &ring, &symbols)?;
    counted(alloc, &polys)
}

/// The equation of a value at F(1,1,1,1;0,0) in the ring of the group of two elements.
pub fn gauge_of(alloc: Global, question: &str) -> Result<Vec<u8>, Fault> {
    let ring = ring_of(alloc, "1 1 0")?;
    let symbols = symbols_of(alloc, &ring)?;
    let Ok(value) = question.parse::<i128>() else {
        return Err(Fault::Form);
    };
    let Some(entry) = entry_of(&symbols, value) else {
        return Err(Fault::Form);
    };
    let polys = gauges(alloc, &symbols, &[entry])?;
    counted(alloc, &polys)
}

// The entry of a value at F(1,1,1,1;0,0), if it is an unknown.
fn entry_of(symbols: &Symbols, value: i128) -> Option<GaugeEntry>
    ensures { IfSome result (IsFixable symbols.now) }
{
    if value == i128::MIN {
        return None;
    }
    let symbol = Symbol::Fsym {
        a: 1,
        b: 1,
        c: 1,
        d: 1,
        e: 0,
        f: 0,
    };
    match symbols.standing(symbol) {
        Standing::Unknown(_) => Some(GaugeEntry { symbol, value }),
        Standing::Unit | Standing::NotAdmissible => None,
    }
}

// How many polynomials there are, and the texts of those that are not zero, in the order of texts.
fn counted(alloc: Global, polys: &[Poly]) -> Result<Vec<u8>, Fault> {
    let mut texts = Vec::new(alloc);
    for poly in polys {
        if !poly.is_zero() {
            let mut text = Vec::new(alloc);
            write_poly(poly, &mut text)?;
            texts.push(text)?;
        }
    }
    texts.sort()?;
    let mut all = Vec::new(alloc);
    let count = polys.len();
    push(format!(in alloc; "{count}:")?.as_str(), &mut all)?;
    for text in &texts {
        push(" ", &mut all)?;
        all.extend_from_slice(text)?;
    }
    Ok(all)
}
