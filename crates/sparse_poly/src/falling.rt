//! Terms that are a polynomial's already.
ghost use Rattle.std.specs.Prelude.{◌≡◌, IsTrue, ◌∷◌};
ghost use Rattle.sparse_poly.specs.Contributions.{IsPoly};

use crate::Term;

/// Whether the monomials fall strictly, and no coefficient is 0 or out of range.
pub fn is_polynomial(terms: &[Term]) -> bool
    ensures { IsTrue result → IsPoly terms.now }
{
    let mut at = terms.len();
    'terms: while at > 0 {
        at -= 1;
        if !leads(&terms[at], &terms[at + 1..]) {
            return false;
        }
    }
    true
}

// Whether a term may stand before the terms of a polynomial.
fn leads(term: &Term, rest: &[Term]) -> bool
    ensures { IsTrue result → IsPoly rest.now → IsPoly (term.now ∷ rest.now) }
{
    let _powers = term.monomial.len();
    let size = term.coeff.unsigned_abs();
    if size == 0 || size > i128::MAX as u128 {
        return false;
    }
    match rest {
        [] => true,
        [next, ..] => next.monomial.order(&term.monomial).is_lt(),
    }
}
