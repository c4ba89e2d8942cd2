//! What is divided out of a polynomial: its content, and the variables that are units.
ghost use Rattle.std.specs.Prelude.{◌≡◌, ◌≢◌, ◌≤◌, ◌%◌, ℕ, ℤ, pos, ◌*ℤ◌, unsigned_abs, List, [], ◌∷◌, IfOk, IsTrue, ◌↔◌};
ghost use Rattle.sparse_poly.specs.Polynomials.{variable};
ghost use Prim.Native.Nat.{◌∣◌};
ghost use Rattle.std.specs.Int.{IsGcd};
ghost use Rattle.std.specs.List.{AllByRecursion, Contains};
ghost use Rattle.monomial.specs.Monomials.{Divides};
ghost use Rattle.sparse_poly.specs.Contributions.{max_coeff, IsPoly};
ghost use Rattle.sparse_poly.specs.Primitive.{DividesAll};
ghost use Rattle.sparse_poly.specs.Reads.{coefficient_of_power};
ghost use Rattle.sparse_poly.specs.Factors.{IsCommonDivisor, IsContent, is_member, least_exponent, unit_exponent, unit_powers, IsUnitMonomial, IsQuotient, IsSignedSize, AllDivided};

use crate::layout::stored_as;
use crate::{Poly, Term};
use monomial::Monomial;
use smallvec::SmallVec;
use std::alloc::{AllocError, Global};
use std::cmp::Ordering;

// The greatest common divisor of two numbers.
fn gcd(first: u128, second: u128) -> u128
    ensures { IsGcd first second result }
{
    let mut a = first;
    let mut b = second;
    'euclid: while b != 0 {
        let r = remainder(a, b);
        a = b;
        b = r;
    }
    a
}

// The remainder of a division, which takes less time where both numbers have 64 bits.
fn remainder(a: u128, b: u128) -> u128
    requires { b ≢ 0 }
    ensures { result ≡ a % b }
{
    match (u64::try_from(a), u64::try_from(b)) {
        (Ok(a), Ok(b)) => u128::from(a % b),
        _ => a % b,
    }
}

// The greatest common divisor of the coefficients, which is 0 where there is none.
fn common_divisor(terms: &[Term]) -> u128
    ensures { IsCommonDivisor terms.now result }
{
    let mut divisor = 0;
    for term in terms {
        divisor = gcd(divisor, term.coeff.unsigned_abs());
        if divisor == 1 {
            return 1;
        }
    }
    divisor
}

/// The content with the sign of the leading coefficient, and 1 for zero.
pub fn content_of(terms: &[Term]) -> i128
    requires { IsPoly terms.now }
    ensures { IsContent terms.now result }
{
    let Some(leading) = terms.first() else {
        return 1;
    };
    let size = common_divisor(terms);
    signed_content(leading.coeff, size)
}

// A divisor of a coefficient with its sign.
fn signed_content(coeff: i128, size: u128) -> i128
    requires nonzero { coeff ≢ pos 0 }
    requires small { size ≤ max_coeff }
    ensures { IsSignedSize coeff size result }
{
    if coeff < 0 {
        -(size as i128)
    } else {
        size as i128
    }
}

// The quotient by a number that divides.
fn exact_quotient(coeff: i128, divisor: i128) -> i128
    requires nonzero { divisor ≢ pos 0 }
    requires small { unsigned_abs coeff ≤ max_coeff }
    requires divides { unsigned_abs divisor ∣ unsigned_abs coeff }
    ensures { divisor *ℤ result ≡ coeff }
{
    if divisor == 1 {
        return coeff;
    }
    coeff / divisor
}

/// The terms over a monomial and a number that divide them.
pub fn quotients(
    alloc: Global,
    terms: &[Term],
    monomial: &Monomial,
    divisor: i128,
) -> Result<Vec<Term>, AllocError>
    requires poly { IsPoly terms.now }
    requires nonzero { divisor ≢ pos 0 }
    requires number { DividesAll (unsigned_abs divisor) terms.now }
    requires monomials { AllDivided monomial.now terms.now }
    ensures { IfOk result (λ v. IsQuotient terms.now (record { monomial = monomial.now; coeff = divisor }) v.items) }
{
    let mut rest = Vec::with_capacity(alloc, terms.len())?;
    for term in terms {
        let quotient = term.monomial.over(monomial)?;
        let _powers = quotient.len();
        rest.push(Term {
            monomial: quotient,
            coeff: exact_quotient(term.coeff, divisor),
        })?;
    }
    Ok(rest)
}

/// Whether a polynomial is a member of a list.
pub fn contains(list: &[Poly], poly: &Poly) -> bool
    ensures { IsTrue result ↔ Contains list.now poly.now }
{
    for member in list {
        match member.order(poly) {
            Ordering::Less => {}
            Ordering::Equal => return true,
            Ordering::Greater => {}
        }
    }
    false
}

// The least of an exponent and those of its variable in the terms.
fn least_exponent(terms: &[Term], power: (u32, u16)) -> u32
    ensures { result ≡ least_exponent power.0 power.1 terms.now }
{
    let mut least = u32::from(power.1);
    for term in terms {
        if least == 0 {
            return 0;
        }
        least = least.min(term.monomial.exponent(power.0));
    }
    least
}

// Whether terms are those of a variable.
fn is_variable(terms: &[Term], var: u32) -> bool
    ensures { IsTrue result ↔ (terms.now ≡ variable var) }
{
    let [term] = terms else {
        return false;
    };
    if term.coeff != 1 {
        return false;
    }
    if term.monomial.exponent(var) != 1 {
        return false;
    }
    term.monomial.len() == 1
}

// Whether a variable is a member of a list.
fn has_variable(units: &[Poly], var: u32) -> bool
    ensures { result ≡ is_member units.now (variable var) }
{
    for unit in units {
        if is_variable(unit.terms(), var) {
            return true;
        }
    }
    false
}

// How often the variable of a power divides the terms, if it is a member of the units.
fn unit_exponent(terms: &[Term], units: &[Poly], power: (u32, u16)) -> u32
    ensures { result ≡ unit_exponent units.now terms.now power }
{
    if has_variable(units, power.0) {
        least_exponent(terms, power)
    } else {
        0
    }
}

// The powers of units, of those in a monomial, that divide the terms.
fn unit_powers(
    alloc: Global,
    terms: &[Term],
    units: &[Poly],
    monomial: &Monomial,
) -> Result<SmallVec<(u32, u16), 8>, AllocError>
    ensures { IfOk result (λ v. v.items ≡ unit_powers units.now terms.now monomial.now) }
{
    let mut left: SmallVec<(u32, u16), 8> = SmallVec::new(alloc);
    let mut i = 0;
    'powers: while i < monomial.len() {
        let power = monomial.power_at(i);
        let times = unit_exponent(terms, units, power);
        if times > 0 {
            left.push((power.0, times as u16))?;
        }
        i += 1;
    }
    Ok(left)
}

/// The greatest monomial in variables that are units which divides all terms, and one for no terms.
pub fn unit_monomial(alloc: Global, terms: &[Term], units: &[Poly]) -> Result<Monomial, AllocError>
    requires { IsPoly terms.now }
    ensures { IfOk result (λ g. IsUnitMonomial units.now terms.now g) }
{
    let Some(leading) = terms.first() else {
        return Ok(Monomial::one(alloc));
    };
    let powers = unit_powers(alloc, terms, units, &leading.monomial)?;
    match Monomial::from_powers(alloc, powers.as_slice()) {
        Ok(monomial) => Ok(stored_as(alloc, monomial, &leading.monomial)),
        Err(e) => Err(e),
    }
}

/// The terms in which a variable has this exponent, without it.
pub fn terms_of_power(
    alloc: Global,
    terms: &[Term],
    var: u32,
    exp: u32,
) -> Result<Vec<Term>, AllocError>
    ensures { IfOk result (λ v. v.items ≡ coefficient_of_power var exp terms.now) }
{
    let mut found = Vec::new(alloc);
    for term in terms {
        if term.monomial.exponent(var) == exp {
            found.push(Term {
                monomial: term.monomial.without(var)?,
                coeff: term.coeff,
            })?;
        }
    }
    Ok(found)
}
