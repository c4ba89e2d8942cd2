//! The derivation that is checked.

use crate::Fault;
use derive_lines::{Decision, Item, Line, Way};
use sparse_poly::{Poly, PolyFault};
use std::alloc::Global;

/// A derivation and the polynomials from which its root is recovered.
#[derive(Drop)]
pub struct Derivation {
    pub root: Vec<Poly>,
    pub decisions: Vec<Decision>,
    pub lines: Vec<Line>,
    pub given: Vec<Poly>,
}

/// The derivation with this many pairs of equations and of lines.
pub fn derived(alloc: Global, pairs: u32) -> Result<Derivation, Fault> {
    let mut made = Derivation {
        root: Vec::new(alloc),
        decisions: Vec::new(alloc),
        lines: Vec::new(alloc),
        given: Vec::new(alloc),
    };
    made.decisions.push(Decision {
        poly: Poly::variable(alloc, 0)?,
        zero: false,
    })?;
    made.given.push(difference(alloc)?)?;
    for number in 0..pairs {
        add_pair(alloc, &mut made, number)?;
    }
    Ok(made)
}

// The equations and lines of the number after this one.
fn add_pair(alloc: Global, made: &mut Derivation, number: u32) -> Result<(), Fault> {
    let first = 2 * u64::from(number);
    let shifted = plus_number(alloc, 2, number)?;
    let other = plus_number(alloc, 1, number)?;
    let whole = shifted.times(&Poly::variable(alloc, 0)?)?;
    made.root.push(whole)?;
    made.root.push(other.copy()?)?;
    made.given.push(other)?;
    made.lines.push(Line {
        way: Way::Fwd,
        from: Some(Item::Root(first)),
        by: None,
        l: Poly::constant(alloc, 1)?,
        a: Poly::zero(alloc),
        m: Poly::variable(alloc, 0)?,
        made: shifted,
    })?;
    made.lines.push(Line {
        way: Way::Fwd,
        from: Some(Item::Line(first)),
        by: Some(Item::Root(first + 1)),
        l: Poly::constant(alloc, 1)?,
        a: Poly::constant(alloc, 1)?,
        m: Poly::constant(alloc, 1)?,
        made: difference(alloc)?,
    })?;
    Ok(())
}

// A variable plus the number after this one.
fn plus_number(alloc: Global, var: u32, number: u32) -> Result<Poly, PolyFault> {
    let constant = Poly::constant(alloc, i128::from(number) + 1)?;
    Poly::variable(alloc, var)?.plus(&constant)
}

// The polynomial `x2-x1`.
fn difference(alloc: Global) -> Result<Poly, PolyFault> {
    let one = Poly::constant(alloc, 1)?;
    Poly::combine(
        alloc,
        &one,
        &Poly::variable(alloc, 2)?,
        &one,
        &Poly::variable(alloc, 1)?,
    )
}
