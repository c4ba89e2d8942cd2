//! Variables that occur in polynomials, or divide them.
ghost use Rattle.std.specs.Prelude.{◌≢◌, ◌<◌, ◌↔◌, [], IsTrue, MatchOption};
ghost use Rattle.sparse_poly.specs.Reads.{degree_in};
ghost use Rattle.sparse_poly.specs.Clearing.{IsDividedBy};
ghost use Rattle.case_rules.specs.Rules.{None_has, IsLowestDividing};

use sparse_poly::{Poly, Term};

/// Whether a variable occurs in a polynomial.
pub fn contains_variable(poly: &Poly, var: u32) -> bool
    ensures { IsTrue result ↔ (0 < degree_in var poly.now) }
{
    let terms = poly.terms();
    for term in terms {
        if term.monomial.exponent(var) > 0 {
            return true;
        }
    }
    false
}

/// The lowest variable that divides a polynomial. It stands in the last term, which mostly has the fewest variables.
pub fn lowest_dividing(poly: &Poly) -> Option<u32>
    requires { poly.now ≢ [] }
    ensures { MatchOption result (None_has (λ v. IsDividedBy v poly.now)) (IsLowestDividing poly.now) }
{
    let terms = poly.terms();
    let Some(last) = terms.last() else {
        unreachable!()
    };
    let mut i = last.monomial.len();
    'powers: while i > 0 {
        i -= 1;
        let (var, _) = last.monomial.power_at(i);
        if is_divided_by(terms, var) {
            return Some(var);
        }
    }
    None
}

// Whether a variable divides each term.
fn is_divided_by(terms: &[Term], var: u32) -> bool
    ensures { IsTrue result ↔ IsDividedBy var terms.now }
{
    for term in terms {
        if term.monomial.exponent(var) == 0 {
            return false;
        }
    }
    true
}
