//! The division of a polynomial by another, where it leaves nothing.
ghost use Rattle.std.specs.Prelude.{◌≡◌, ◌≢◌, false, ◌<◌, ◌≤◌, ℤ, pos, neg_ℤ, ◌+ℤ◌, ◌*ℤ◌, unsigned_abs, List, [], ◌∷◌, IfOk, MatchOption};
ghost use Rattle.sparse_poly.specs.declared.Term.{Term};
ghost use Rattle.sparse_poly.specs.Polynomials.{row, products, IsSum};
ghost use Rattle.sparse_poly.specs.Contributions.{max_coeff, IsPoly};
ghost use Rattle.sparse_poly.specs.Reads.{degree_in};
ghost use Rattle.sparse_poly.specs.Clearing.{DividesOpenly, IsLight};
ghost use Rattle.sparse_poly.specs.Dividing.{IsTermOver, IsRow, IsAboveDegree};
ghost use Rattle.sparse_poly.specs.Owing.{term, AreOwed, IsNextTerm};
ghost use Rattle.std.specs.BinaryHeap.{heap_items};

use crate::Term;
use crate::layout::listed_powers;
use crate::multiplying::kept_product;
use crate::owing::{OwedRow, owe, row_above, take_owed, top_row};
use monomial::{MonoFault, Monomial};
use std::alloc::{AllocError, Global};
use std::collections::{BinaryHeap, VecDeque};

/// The terms of the polynomial whose product with the divisor, of which the leading term and the others are given, is that of the terms. There
/// is `None` only where no polynomial divides openly. The terms are read one after the other, and a product of a term of the quotient with one of
/// the others is owed until its monomial is reached.
pub fn quotient_by(
    alloc: Global,
    terms: &[Term],
    leading: &Term,
    others: &[Term],
) -> Result<Option<Vec<Term>>, AllocError>
    requires poly { IsPoly terms.now }
    requires divisor { IsPoly (leading.now ∷ others.now) }
    ensures { IfOk result (λ o. MatchOption o ((g : List Term) → DividesOpenly (leading.now ∷ others.now) terms.now g → ⊥) (λ v. IsPoly v.items × IsSum terms.now (products v.items (leading.now ∷ others.now)))) }
{
    let mut left = terms;
    let mut owed = BinaryHeap::new(alloc);
    let mut made = Vec::new(alloc);
    'divisions: while let Some(next) = next_term(alloc, left, &owed)? {
        left = next.below;
        let Some(coeff) = take_owed(&mut owed, &next.monomial, next.coeff)? else {
            return Ok(None);
        };
        if coeff == 0 {
            continue;
        }
        let monomial = next.monomial;
        let Some(term) = term_over(&Term { monomial, coeff }, leading)? else {
            return Ok(None);
        };
        let Some(row) = products_with(alloc, &term, others)? else {
            return Ok(None);
        };
        owe(&mut owed, VecDeque::from(row))?;
        made.push(term)?;
    }
    Ok(Some(made))
}

// The greatest monomial of what a division has left, with its coefficient in the polynomial, of which these terms are below it.
#[derive(Drop)]
struct NextTerm<'a> {
    monomial: Monomial,
    coeff: i128,
    below: &'a [Term],
}

// The greatest monomial of the polynomial's terms that were not reached and the products that are owed.
fn next_term<'a>(
    alloc: Global,
    left: &'a [Term],
    owed: &BinaryHeap<OwedRow>,
) -> Result<Option<NextTerm<'a>>, AllocError>
    requires left { IsPoly left.now }
    requires owed { AreOwed (heap_items owed.now) }
    ensures { IfOk result (λ o. MatchOption o ((left.now ≡ []) × (heap_items owed.now ≡ [])) (λ n. IsNextTerm left.now (heap_items owed.now) (term n.monomial n.coeff) n.below.now)) }
{
    let Some((first, below)) = left.split_first() else {
        return match top_row(owed) {
            Some(row) => Ok(Some(owed_term(row, left)?)),
            None => Ok(None),
        };
    };
    let monomial = listed_powers(alloc, &first.monomial)?;
    if let Some(row) = row_above(owed, &monomial) {
        return Ok(Some(owed_term(row, left)?));
    }
    Ok(Some(NextTerm {
        monomial,
        coeff: first.coeff,
        below,
    }))
}

// The monomial with which a row begins, which the polynomial has not.
fn owed_term<'a>(row: &OwedRow, left: &'a [Term]) -> Result<NextTerm<'a>, AllocError>
    ensures monomial { IfOk result (λ n. n.monomial ≡ row.now.first.monomial) }
    ensures coeff { IfOk result (λ n. n.coeff ≡ pos 0) }
    ensures below { IfOk result (λ n. n.below.now ≡ left.now) }
{
    Ok(NextTerm {
        monomial: row.first.monomial.copy()?,
        coeff: 0,
        below: left,
    })
}

/// Whether the leading term and the last term of a divisor divide those of a polynomial. Where one does not, no polynomial divides openly.
pub fn ends_divide(terms: &[Term], divisor: &[Term]) -> bool
    requires poly { IsPoly terms.now }
    requires divisor { IsPoly divisor.now }
    ensures { result ≡ false → (g : List Term) → DividesOpenly divisor.now terms.now g → ⊥ }
{
    leading_divides(terms, divisor) && last_divides(terms, divisor)
}

// Whether the leading term of a divisor divides that of a polynomial.
fn leading_divides(terms: &[Term], divisor: &[Term]) -> bool
    requires poly { IsPoly terms.now }
    requires divisor { IsPoly divisor.now }
    ensures { result ≡ false → (g : List Term) → DividesOpenly divisor.now terms.now g → ⊥ }
{
    let Some(leading) = terms.first() else {
        return true;
    };
    let Some(highest) = divisor.first() else {
        return true;
    };
    divides_term(highest, leading)
}

// Whether the last term of a divisor divides that of a polynomial.
fn last_divides(terms: &[Term], divisor: &[Term]) -> bool
    requires poly { IsPoly terms.now }
    requires divisor { IsPoly divisor.now }
    ensures { result ≡ false → (g : List Term) → DividesOpenly divisor.now terms.now g → ⊥ }
{
    let Some(last) = terms.last() else {
        return true;
    };
    let Some(lowest) = divisor.last() else {
        return true;
    };
    divides_term(lowest, last)
}

/// Whether each term of a divisor between its ends has no exponent above the degree of a polynomial in its variable. Where one has, no
/// polynomial divides openly.
pub fn degrees_divide(terms: &[Term], divisor: &[Term]) -> bool
    requires poly { IsPoly terms.now }
    requires divisor { IsPoly divisor.now }
    ensures { result ≡ false → (g : List Term) → DividesOpenly divisor.now terms.now g → ⊥ }
{
    if terms.is_empty() {
        return true;
    }
    let mut i = 1;
    'inner: while i + 1 < divisor.len() {
        if !is_within_degrees(terms, &divisor[i].monomial, &divisor[i - 1].monomial) {
            return false;
        }
        i += 1;
    }
    true
}

// Whether no exponent of a monomial is above the degree of a polynomial in its variable, which is known of the exponents of another monomial.
fn is_within_degrees(terms: &[Term], monomial: &Monomial, known: &Monomial) -> bool
    ensures { result ≡ false → IsAboveDegree monomial.now terms.now }
{
    let mut i = 0;
    'powers: while i < monomial.len() {
        let (var, exp) = monomial.power_at(i);
        if known.exponent(var) < u32::from(exp) && !has_exponent(terms, var, u32::from(exp)) {
            return false;
        }
        i += 1;
    }
    true
}

// Whether a term has at least this exponent of a variable.
fn has_exponent(terms: &[Term], var: u32, least: u32) -> bool
    ensures { result ≡ false → 0 < least → degree_in var terms.now < least }
{
    for term in terms {
        if term.monomial.exponent(var) >= least {
            return true;
        }
    }
    false
}

// Whether a term divides another.
fn divides_term(divisor: &Term, term: &Term) -> bool
    requires nonzero { divisor.now.coeff ≢ pos 0 }
    requires small { unsigned_abs term.now.coeff ≤ max_coeff }
    ensures { result ≡ false → (t : Term) → IsTermOver divisor.now term.now t → ⊥ }
{
    let _powers = divisor.monomial.len();
    if !divisor.monomial.divides(&term.monomial) {
        return false;
    }
    divides_number(divisor.coeff, term.coeff)
}

/// Whether a number divides another.
pub fn divides_number(divisor: i128, number: i128) -> bool
    requires nonzero { divisor ≢ pos 0 }
    requires small { unsigned_abs number ≤ max_coeff }
    ensures { result ≡ false → (z : ℤ) → z *ℤ divisor ≡ number → ⊥ }
{
    matches!(number_over(number, divisor), Some(_))
}

// The term whose product with the divisor is a term, where there is one.
fn term_over(term: &Term, divisor: &Term) -> Result<Option<Term>, AllocError>
    requires nonzero { divisor.now.coeff ≢ pos 0 }
    requires small { unsigned_abs term.now.coeff ≤ max_coeff }
    ensures { IfOk result (λ o. MatchOption o ((t : Term) → IsTermOver divisor.now term.now t → ⊥) (λ t. IsTermOver divisor.now term.now t)) }
{
    let _powers = divisor.monomial.len();
    if !divisor.monomial.divides(&term.monomial) {
        return Ok(None);
    }
    let Some(coeff) = number_over(term.coeff, divisor.coeff) else {
        return Ok(None);
    };
    let monomial = term.monomial.over(&divisor.monomial)?;
    let _own = monomial.len();
    Ok(Some(Term { monomial, coeff }))
}

// The number whose product with the divisor is a number, where there is one.
fn number_over(number: i128, divisor: i128) -> Option<i128>
    requires nonzero { divisor ≢ pos 0 }
    requires small { unsigned_abs number ≤ max_coeff }
    ensures { MatchOption result ((z : ℤ) → z *ℤ divisor ≡ number → ⊥) (λ z. z *ℤ divisor ≡ number) }
{
    if number % divisor != 0 {
        return None;
    }
    Some(number / divisor)
}

// The products of a term and others, where none is of too high degree or out of range.
fn products_with(
    alloc: Global,
    term: &Term,
    others: &[Term],
) -> Result<Option<Vec<Term>>, AllocError>
    ensures { IfOk result (λ o. MatchOption o (IsLight (row term.now others.now) → ⊥) (λ v. IsRow term.now others.now v.items)) }
{
    let mut row = Vec::with_capacity(alloc, others.len())?;
    for other in others {
        let monomial = match term.monomial.times(&other.monomial) {
            Ok(monomial) => monomial,
            Err(MonoFault::Degree { .. }) => return Ok(None),
            Err(MonoFault::OutOfMemory) => return Err(AllocError),
        };
        let Some(coeff) = product_of(term.coeff, other.coeff) else {
            return Ok(None);
        };
        row.push(Term { monomial, coeff })?;
    }
    Ok(Some(row))
}

// The product of two coefficients, where it is in range.
fn product_of(x: i128, y: i128) -> Option<i128>
    ensures { MatchOption result (max_coeff < unsigned_abs (x *ℤ y)) (λ z. (z ≡ x *ℤ y) × (unsigned_abs (x *ℤ y) ≤ max_coeff)) }
{
    let product = kept_product(x, y, false);
    if product == i128::MIN {
        return None;
    }
    Some(product)
}

/// The difference of two coefficients, where it is in range.
pub fn difference_of(x: i128, y: i128) -> Option<i128>
    ensures { MatchOption result (max_coeff < unsigned_abs (x +ℤ neg_ℤ y)) (λ z. (z ≡ x +ℤ neg_ℤ y) × (unsigned_abs (x +ℤ neg_ℤ y) ≤ max_coeff)) }
{
    match x.checked_sub(y) {
        Some(z) => {
            if z == i128::MIN {
                return None;
            }
            Some(z)
        }
        None => None,
    }
}
