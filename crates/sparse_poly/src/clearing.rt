//! Known conditions that are divided out of a polynomial.
ghost use Rattle.std.specs.Prelude.{◌≡◌, ◌<◌, ◌↔◌, ℕ, false, List, ◌∷◌, IfOk, IsTrue, MatchOption};
ghost use Rattle.sparse_poly.specs.declared.Term.{Term};
ghost use Rattle.monomial.specs.Monomials.{exponent};
ghost use Rattle.sparse_poly.specs.Clearing.{IsDividedBy, HasDivisor, IsInForm, IsDivision, IsDividedOut};

use crate::dividing::ends_divide;
use crate::stripping::{contains, content_of};
use crate::{Poly, PolyFault, Stripped, Term, one_clearing_law};
use monomial::Monomial;
use std::alloc::AllocError;

impl Stripped {
    /// The clearing that begins with this factor and this rest: the units in form are divided out, in their order, each as often as one division goes.
    /// Where this is the strip of a polynomial, the result is its clearing. It fails only where no memory is left.
    pub fn cleared(self, units: &[Poly]) -> Result<Stripped, AllocError>
        ensures { IfOk result (λ s. IsDividedOut units.now units.now self.factor self.rest s.factor s.rest) }
    {
        let mut cleared = self;
        for unit in units {
            if !may_divide(unit, &cleared.rest) {
                continue;
            }
            cleared = divided_out_by(units, unit, cleared)?;
        }
        Ok(cleared)
    }

    /// One division of a clearing: the factor times `n`, and the quotient of the rest by `n`. There is `None` exactly where `n` is not in form, the
    /// rest is zero or a member of the units, `n` does not divide the rest openly, or a product with the factor is of too high degree or heavy.
    /// It fails only where no memory is left.
    pub fn divided_by(&self, units: &[Poly], n: &Poly) -> Result<Option<Stripped>, AllocError>
        ensures { IfOk result (λ o. MatchOption o ((e h : List Term) → IsDivision units.now n.now self.now.factor self.now.rest e h → ⊥) (λ s. IsDivision units.now n.now self.now.factor self.now.rest s.factor s.rest)) }
    {
        if !may_divide(n, &self.rest) {
            return Ok(None);
        }
        divided_once(units, n, &self.factor, &self.rest)
    }
}

// Whether a polynomial is in form and its ends divide those of a rest, without which it is not divided out.
fn may_divide(n: &Poly, rest: &Poly) -> bool
    ensures form { IsTrue result → IsInForm n.now }
    ensures none { result ≡ false → (us : List (List Term)) (f e h : List Term) → IsDivision us n.now f rest.now e h → ⊥ }
{
    ends_divide(rest.terms(), n.terms()) && is_in_form(n)
}

// The factor and the rest after a member of the units, which is in form, was divided out as often as it goes.
fn divided_out_by(units: &[Poly], n: &Poly, start: Stripped) -> Result<Stripped, AllocError>
    requires { IsInForm n.now }
    ensures { IfOk result (λ s. (ns : List (List Term)) (e h : List Term) → IsDividedOut units.now ns s.factor s.rest e h → IsDividedOut units.now (n.now ∷ ns) start.factor start.rest e h) }
{
    let Stripped {
        mut factor,
        mut rest,
    } = start;
    'divisions: loop {
        let Some(next) = divided_once(units, n, &factor, &rest)? else {
            return Ok(Stripped { factor, rest });
        };
        factor = next.factor;
        rest = next.rest;
    }
}

// One division by a polynomial in form, where it goes. Whether the rest is a member of the units is asked only where there is a quotient.
fn divided_once(
    units: &[Poly],
    n: &Poly,
    factor: &Poly,
    rest: &Poly,
) -> Result<Option<Stripped>, AllocError>
    requires { IsInForm n.now }
    ensures { IfOk result (λ o. MatchOption o ((e h : List Term) → IsDivision units.now n.now factor.now rest.now e h → ⊥) (λ s. IsDivision units.now n.now factor.now rest.now s.factor s.rest)) }
{
    if rest.is_zero() {
        return Ok(None);
    }
    let Some(quotient) = rest.quotient(n)? else {
        return Ok(None);
    };
    if contains(units, rest) {
        return Ok(None);
    }
    let product = match factor.times(n) {
        Ok(product) => product,
        Err(PolyFault::Degree { .. }) => return Ok(None),
        Err(PolyFault::Heavy { .. }) => return Ok(None),
        Err(PolyFault::OutOfMemory) => return Err(AllocError),
    };
    match product.times(&quotient) {
        Ok(_) => Ok(Some(Stripped {
            factor: product,
            rest: quotient,
        })),
        Err(PolyFault::Degree { .. }) => Ok(None),
        Err(PolyFault::Heavy { .. }) => Ok(None),
        Err(PolyFault::OutOfMemory) => Err(AllocError),
    }
}

/// Whether a polynomial is in form: primitive, not constant, and divided by no variable.
pub fn is_in_form(n: &Poly) -> bool
    ensures { IsTrue result ↔ IsInForm n.now }
{
    let terms = n.terms();
    let Some(leading) = terms.first() else {
        return false;
    };
    if leading.monomial.len() == 0 {
        return false;
    }
    if content_of(terms) != 1 {
        return false;
    }
    !has_divisor(terms, &leading.monomial)
}

// Whether a variable of a monomial divides each term.
fn has_divisor(terms: &[Term], monomial: &Monomial) -> bool
    ensures found { IsTrue result → HasDivisor terms.now }
    ensures none { result ≡ false → (v : ℕ) → 0 < exponent monomial.now v → IsDividedBy v terms.now → ⊥ }
{
    let mut i = 0;
    'powers: while i < monomial.len() {
        if divides_each(monomial.power_at(i).0, terms) {
            return true;
        }
        i += 1;
    }
    false
}

// Whether a variable divides each term.
fn divides_each(var: u32, terms: &[Term]) -> bool
    ensures { IsTrue result ↔ IsDividedBy var terms.now }
{
    for term in terms {
        if term.monomial.exponent(var) == 0 {
            return false;
        }
    }
    true
}
