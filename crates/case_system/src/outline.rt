//! Polynomials at a glance.
ghost use Rattle.std.specs.Prelude.{◌≢◌, ◌↔◌, IsTrue};
ghost use Rattle.case_system.specs.Outlines.{IsOutlineOf, HasBit, HasBits};

use monomial::Monomial;
use sparse_poly::{Poly, Term};

// How many bits a set of variables has.
const BITS: u32 = 64;

/// Which variables may occur in a polynomial, and which may divide it. Variables that are the same modulo 64 have one bit.
#[derive(Clone, Copy)]
pub struct Outline {
    // the bits of all variables of some term
    some: u64,
    // the bits that each term has
    each: u64,
}

impl Outline {
    /// The outline of a polynomial.
    pub fn of(poly: &Poly) -> Outline
        ensures { IsOutlineOf poly.now result }
    {
        outline_of(poly.terms())
    }

    /// Whether a variable may occur: its bit is one of some term.
    pub fn may_contain(self, var: u32) -> bool
        ensures { IsTrue result ↔ HasBit self.some var }
    {
        (self.some >> (var % BITS)) & 1 == 1
    }

    /// Whether a variable may divide the polynomial: some bit is one of each term.
    pub fn may_be_divided(self) -> bool
        ensures { IsTrue result ↔ self.each ≢ 0 }
    {
        self.each != 0
    }
}

// The outline of terms.
fn outline_of(terms: &[Term]) -> Outline
    ensures { IsOutlineOf terms.now result }
{
    let mut outline = Outline {
        some: 0,
        each: u64::MAX,
    };
    for term in terms {
        let bits = bits_of(&term.monomial);
        outline.some |= bits;
        outline.each &= bits;
    }
    outline
}

// The bits of the variables of a monomial.
fn bits_of(monomial: &Monomial) -> u64
    ensures { HasBits result monomial.now }
{
    let mut bits = 0;
    for (var, _) in monomial.powers() {
        bits |= 1 << (var % BITS);
    }
    bits
}
