//! Polynomials as keys of hash maps.
ghost use Rattle.std.specs.Prelude.{◌≡◌, fold};
ghost use Rattle.sparse_poly.specs.Hashing.{powers_input, terms_input};

use crate::{Poly, Term};
use monomial::Monomial;
use std::hash::{Hash, Hasher};

impl Hash for Poly {
    ghost use Rattle.sparse_poly.specs.Hashing.{terms_input, terms_input-respects};

    ghost hash_input = { terms_input };

    ghost respects_eq = { terms_input-respects };

    fn hash<H: Hasher>(&self, state: &mut H) {
        hash_terms(self.terms(), state);
    }
}

// Each coefficient, and the powers of its monomial.
fn hash_terms<H: Hasher>(terms: &[Term], state: &mut H)
    ensures { state.new ≡ fold H.write state.old (terms_input terms.now) }
{
    for term in terms {
        state.write_i128(term.coeff);
        hash_powers(&term.monomial, state);
    }
}

// Each variable with its exponent.
fn hash_powers<H: Hasher>(monomial: &Monomial, state: &mut H)
    ensures { state.new ≡ fold H.write state.old (powers_input monomial.now) }
{
    let mut left = monomial.powers();
    'powers: while let Some(power) = left.next() {
        state.write_u32(power.0);
        state.write_u16(power.1);
    }
}
