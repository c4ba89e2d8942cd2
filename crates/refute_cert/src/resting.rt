//! The conditions on which it rests that a multiplier is a unit.
ghost use Rattle.std.specs.Prelude.{◌≡◌, ◌≢◌, ◌⊎◌, ◌↔◌, ◌∷◌, ℕ, pos, List, IfOk, OnOk, IsTrue, MatchOption};
ghost use Rattle.sparse_poly.specs.declared.Term.{Term};
ghost use Rattle.sparse_poly.specs.Polynomials.{constant};
ghost use Rattle.sparse_poly.specs.Clearing.{IsDividedBy, IsDividedOut, IsDividedOutBy};
ghost use Rattle.derive_lines.specs.Known.{Holds};
ghost use Rattle.refute_cert.specs.Cone.{RestsOn};
ghost use Rattle.refute_cert.specs.Resting.{IsDividingVariable};

use derive_lines::{Known, is_same};
use sparse_poly::{Poly, Stripped, Term};
use std::alloc::{AllocError, Global};

/// Adds the members of the units on which it rests that a polynomial is a unit. It fails only where no memory is left.
pub fn add_conditions<'a>(
    alloc: Global,
    known: &mut Known<'a>,
    units: &'a [Poly],
    m: &Poly,
) -> Result<(), AllocError>
    ensures { OnOk result ((n : List Term) → Holds units.now n → (Holds known.new n ↔ (Holds known.old n ⊎ RestsOn units.now m.now n))) }
{
    let _terms = m.terms();
    if m.is_one() {
        return Ok(());
    }
    add_variables(alloc, known, units, m)?;
    let stripped = m.strip(units)?;
    add_rest(known, units, &stripped.rest)?;
    let cleared = add_divisors(known, units, stripped)?;
    add_rest(known, units, &cleared.rest)?;
    Ok(())
}

// Adds the members that are variables which divide a polynomial.
fn add_variables<'a>(
    alloc: Global,
    known: &mut Known<'a>,
    units: &'a [Poly],
    m: &Poly,
) -> Result<(), AllocError>
    ensures { OnOk result ((n : List Term) → Holds units.now n → (Holds known.new n ↔ (Holds known.old n ⊎ IsDividingVariable m.now n))) }
{
    let mut i = 0;
    'units: while i < units.len() {
        let unit = &units[i];
        if is_dividing_variable(alloc, m, unit)? {
            known.insert(unit)?;
        }
        i += 1;
    }
    Ok(())
}

// Whether a polynomial is a variable that divides another.
fn is_dividing_variable(alloc: Global, m: &Poly, n: &Poly) -> Result<bool, AllocError>
    ensures { IfOk result (λ b. IsTrue b ↔ IsDividingVariable m.now n.now) }
{
    let Some(main) = n.main() else {
        return Ok(false);
    };
    if !is_divided_by(m.terms(), main) {
        return Ok(false);
    }
    let own = Poly::variable(alloc, main)?;
    Ok(is_same(&own, n))
}

// Whether a variable divides each term.
fn is_divided_by(terms: &[Term], v: u32) -> bool
    ensures { IsTrue result ↔ IsDividedBy v terms.now }
{
    for term in terms {
        if term.monomial.exponent(v) == 0 {
            return false;
        }
    }
    true
}

// Adds a polynomial that is a member and not 1.
fn add_rest<'a>(known: &mut Known<'a>, units: &'a [Poly], rest: &Poly) -> Result<(), AllocError>
    ensures { OnOk result ((n : List Term) → Holds units.now n → (Holds known.new n ↔ (Holds known.old n ⊎ ((n ≢ constant (pos 1)) × (rest.now ≡ n))))) }
{
    if rest.is_one() {
        return Ok(());
    }
    match member(units, rest) {
        Some(unit) => known.insert(unit),
        None => Ok(()),
    }
}

// The member that is this polynomial.
fn member<'a>(units: &'a [Poly], poly: &Poly) -> Option<&'a Poly>
    ensures { MatchOption result (Holds units.now poly.now → ⊥) (λ unit. unit.now ≡ poly.now) }
{
    for unit in units {
        if is_same(unit, poly) {
            return Some(unit);
        }
    }
    None
}

// Adds the members by which a clearing that begins with this factor and this rest divides, and answers in what it ends.
fn add_divisors<'a>(
    known: &mut Known<'a>,
    units: &'a [Poly],
    start: Stripped,
) -> Result<Stripped, AllocError>
    ensures cleared { IfOk result (λ s. IsDividedOut units.now units.now start.factor start.rest s.factor s.rest) }
    ensures known { OnOk result ((n : List Term) → Holds known.new n ↔ (Holds known.old n ⊎ IsDividedOutBy units.now n units.now start.factor start.rest)) }
{
    let mut cleared = start;
    let mut i = 0;
    'units: while i < units.len() {
        cleared = add_divisor(known, units, &units[i], cleared)?;
        i += 1;
    }
    Ok(cleared)
}

// Divides by a member as often as it goes, and adds it where it goes at all. What goes on from there with other members is what begins with this
// member.
fn add_divisor<'a>(
    known: &mut Known<'a>,
    units: &[Poly],
    unit: &'a Poly,
    start: Stripped,
) -> Result<Stripped, AllocError>
    ensures cleared { IfOk result (λ s. (ns : List (List Term)) (e h : List Term) → IsDividedOut units.now ns s.factor s.rest e h → IsDividedOut units.now (unit.now ∷ ns) start.factor start.rest e h) }
    ensures known { IfOk result (λ s. (ns : List (List Term)) (n : List Term) → (Holds known.new n ⊎ IsDividedOutBy units.now n ns s.factor s.rest) ↔ (Holds known.old n ⊎ IsDividedOutBy units.now n (unit.now ∷ ns) start.factor start.rest)) }
{
    let mut cleared = start;
    'divisions: loop {
        let Some(next) = cleared.divided_by(units, unit)? else {
            return Ok(cleared);
        };
        known.insert(unit)?;
        cleared = next;
    }
}
